// The ternary entries of a line of fields, read.
#![tactic(auto)]

ghost use Rattle.std.specs.Prelude.{◌≡◌, length};
ghost use Rattle.text.specs.Fields.{record_of, read_ternary, answer_of};

use field_readers::Field;

// Fields that are ternary entries, each read as its byte.
struct Ternary;

impl Field for Ternary {
    type Value = u8;

    ghost read = { read_ternary };

    #[tactic(auto, using(crate::proofs::Readers::entries))]
    fn parse(field: &[u8]) -> Option<u8> {
        match field {
            b"0" => Some(0),
            b"1" => Some(1),
            b"-1" => Some(2),
            _ => None,
        }
    }
}

// Reads the ternary entries of a line that begins with the word: as many as `out` holds, and no more.
// Where it answers false, what `out` holds is not stated. A bool, as in `field_readers`.
pub fn read_ternary(line: &[u8], word: &[u8], out: &mut [u8]) -> bool
    ensures { answer_of result out.new
        ≡ record_of read_ternary word.now (length out.old) line.now }
{
    field_readers::read_fields::<Ternary>(line, word, out)
}
