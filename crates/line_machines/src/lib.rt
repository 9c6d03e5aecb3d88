// Bytes of input, cut at the end of the line under way.
#![tactic(auto)]

ghost use Rattle.std.specs.Prelude.{◌≡◌, ◌+◌, ◌≤◌, length, take};
ghost use Rattle.line_machines.specs.Machines.{longest_line};
ghost use Rattle.line_machines.specs.Cuts.{cut_to, cut_of, CutWithin};

// The longest line, without its line feed.
pub const LONGEST_LINE: usize = 4095;

// How far a chunk was read: how many bytes of it, how long the line is so far, and whether the line has ended.
// No enum, since both lengths are wanted in either case, and would stand in each variant.
#[derive(Clone, Copy)]
pub struct Cut {
    pub used: usize,
    pub length: usize,
    pub ended: bool,
}

// Reads a chunk up to the end of the line under way: a line feed, or the first byte too many.
pub fn cut_line(chunk: &[u8], line: &mut [u8], from: usize) -> Cut
    requires { (from ≤ longest_line) × (length line.old ≡ longest_line + 1) }
    ensures ended_after { cut_to result.used (take result.length line.new) result.ended
        ≡ cut_of (take from line.old) chunk.now }
    ensures cut_within { CutWithin result (length chunk.now) }
{
    let mut length = from;
    for (i, byte) in chunk.iter().enumerate() {
        if *byte == b'\n' {
            return Cut {
                used: i + 1,
                length,
                ended: true,
            };
        }
        line[length] = *byte;
        length += 1;
        if LONGEST_LINE < length {
            return Cut {
                used: i + 1,
                length,
                ended: true,
            };
        }
    }
    Cut {
        used: chunk.len(),
        length,
        ended: false,
    }
}
