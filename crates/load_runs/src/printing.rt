// What is to be printed, written to standard output block by block.
ghost use Rattle.std.specs.Prelude.{◌≡◌, length};
ghost use Rattle.load_files.specs.Pending.{to_come};
ghost use Rattle.load_runs.specs.Runs.{Printed};

use crate::Failure;
use load_files::Pending;

// Room for the longest file, so that every file goes out in one block, and a write that fails leaves no shorter file
// that looks whole.
fn file_buffer() -> [u8; 524288]
    ensures { length result ≡ 524288 }
{
    [0; 524288]
}

// Prints all that is to come. The first write that fails ends it, with a sentence on standard error, and its block is
// still to come then.
pub(crate) fn print_all(rt: &(impl Print + Eprint), rest: &mut Pending) -> Result<(), Failure>
    ensures { Printed result rest.new (to_come rest.old) }
{
    let mut out = file_buffer();
    loop {
        let mut next = *rest;
        let length = next.fill(&mut out);
        if length == 0 {
            return Ok(());
        }
        if rt.write_all(&out[..length]).is_err() {
            let _ = rt.eprint("standard output cannot be written\n");
            return Err(Failure::Unwritten);
        }
        *rest = next;
    }
}
