// The load program: what is printed for the bytes of an input, and the whole program over a reader. What the system
// reads and writes is the library's part; what is done with the bytes is proved.
#![tactic(auto)]

ghost use Rattle.std.specs.Prelude.{◌≡◌, ◌+◌, ◌≤◌, length, take, MatchOption};
ghost use Rattle.settings.specs.Accepted.{parameters_in};
ghost use Rattle.line_machines.specs.Machines.{longest_line};
ghost use Rattle.chain.specs.Reports.{refused_line};
ghost use Rattle.loads.specs.Loads.{load, load_program};
ghost use Rattle.load_files.specs.Pending.{to_come};
ghost use Rattle.load_runs.specs.Inputs.{enough_bytes, printed_from, NoLine, FirstLine};
ghost use Rattle.load_runs.specs.Runs.{RanOn};

mod printing;
mod records;

use chain::SmallSetting;
use line_machines::{Cut, LONGEST_LINE};
use load_files::Pending;
use settings::Refusal;
use std::io::Read;

// Why a run ended before all was printed: the input could not be read, or standard output not be written.
#[derive(Clone, Copy, PartialEq, Eq, Debug)]
pub enum Failure {
    Unread,
    Unwritten,
}

// How a run ended, how many bytes it read into the buffer, and what it has left to be printed. They are no Result: what
// was read and what is left count where a run failed too.
#[derive(Clone, Copy)]
pub struct Ran {
    pub ending: Result<(), Failure>,
    pub read: usize,
    pub rest: Pending,
}

// The refusal of an input line that is none that is due.
fn bad_line(line: u64) -> Pending
    ensures { to_come result ≡ refused_line line 13 }
{
    Pending::refused(line, Refusal::BadLine.number())
}

// Cuts the first line of some bytes into the buffer, where it has ended and is not too long.
fn first_line(bytes: &[u8], line: &mut [u8]) -> Option<Cut>
    requires { length line.old ≡ longest_line + 1 }
    ensures { MatchOption result (NoLine bytes.now)
        (λ cut. FirstLine bytes.now (take cut.length line.new) cut) }
{
    let cut = line_machines::cut_line(bytes, line, 0);
    if !cut.ended || LONGEST_LINE < cut.length {
        return None;
    }
    Some(cut)
}

// What is printed for the bytes after the `param` line.
fn load_after(small: SmallSetting, bytes: &[u8]) -> Pending
    ensures { to_come result ≡ printed_from 1 (load (parameters_in small.accepted)) bytes.now }
{
    let mut line = [0u8; 4096];
    let Some(cut) = first_line(bytes, &mut line) else {
        return bad_line(2);
    };
    let Some((count, seed)) = records::read_load(&line[..cut.length]) else {
        return bad_line(2);
    };
    if cut.used < bytes.len() {
        return bad_line(3);
    }
    Pending::file(small, count, seed)
}

// What is printed for an input: the chain file of the load that it asks for, or one line that refuses it.
pub fn load_of(input: &[u8]) -> Pending
    ensures { to_come result ≡ load_program input.now }
{
    let mut line = [0u8; 4096];
    let Some(cut) = first_line(input, &mut line) else {
        return bad_line(1);
    };
    match param_lines::read_setting(&line[..cut.length]) {
        Ok(small) => load_after(small, &input[cut.used..]),
        Err(refusal) => Pending::refused(1, refusal.number()),
    }
}

// Reads up to the end of the input, or until the buffer is full: as many bytes as two lines have, and one more, decide
// what is printed. Answers how many bytes stand in the buffer, which are some where a read failed too.
fn read_input<R: Read>(reader: &mut R, input: &mut [u8]) -> (usize, Result<(), Failure>)
    ensures { result.0 ≤ length input.new }
{
    let mut length: usize = 0;
    // By an index: each read says itself how far it filled the buffer.
    while length < input.len() {
        match reader.read(&mut input[length..]) {
            Ok(0) => break,
            Ok(n) => length += n,
            Err(_) => return (length, Err(Failure::Unread)),
        }
    }
    (length, Ok(()))
}

// Runs the load program on what a reader gives; the buffer has room for two lines and one byte more.
pub fn run<R: Read>(rt: &(impl Print + Eprint), reader: &mut R, input: &mut [u8]) -> Ran
    requires { enough_bytes ≤ length input.old }
    ensures { RanOn result input.new }
{
    let (read, reading) = read_input(reader, input);
    let mut rest = load_of(&input[..read]);
    if let Err(failure) = reading {
        let _ = rt.eprint("the input cannot be read\n");
        return Ran {
            ending: Err(failure),
            read,
            rest,
        };
    }
    let ending = printing::print_all(rt, &mut rest);
    Ran { ending, read, rest }
}
