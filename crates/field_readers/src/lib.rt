// The fields of a line, read.
#![tactic(auto)]

ghost use Rattle.std.specs.Prelude.{◌≡◌, ℕ, List, Option, length};
ghost use Rattle.text.specs.Fields.{record_of, read_u64, read_i64, answer_of};

// A kind of field, and how one is read.
pub trait Field {
    type Value: Copy;

    ghost read: { List ℕ → Option Self.Value };

    fn parse(field: &[u8]) -> Option<Self::Value>
        ensures { result ≡ read field.now };
}

// Reads the fields of a line that begins with the word: as many as `out` holds, and no more.
// Where it answers false, what `out` holds is not stated.
// A bool, and no Option: what was read stands in `out`, and there is nothing else to hand out.
pub fn read_fields<F: Field>(line: &[u8], word: &[u8], out: &mut [F::Value]) -> bool
    ensures { answer_of result out.new
        ≡ record_of F.read word.now (length out.old) line.now }
{
    if !text::begins(line, word) {
        return false;
    }
    // By places and not by `split`: the check makes no goals of a generic function whose loop holds a `split`.
    let mut at = word.len() + 1;
    for place in out.iter_mut() {
        if line.len() < at {
            return false;
        }
        let end = text::find_tab(line, at);
        match F::parse(&line[at..end]) {
            Some(value) => *place = value,
            None => return false,
        }
        at = end + 1;
    }
    line.len() < at
}

// Fields that are unsigned numbers.
struct Unsigned;

impl Field for Unsigned {
    type Value = u64;

    ghost read = { read_u64 };

    fn parse(field: &[u8]) -> Option<u64> {
        numerals::parse_u64(field)
    }
}

// Fields that are signed numbers.
struct Signed;

impl Field for Signed {
    type Value = i64;

    ghost read = { read_i64 };

    fn parse(field: &[u8]) -> Option<i64> {
        signed_numerals::parse_i64(field)
    }
}

// Reads the numbers of a line that begins with the word: as many as `out` holds, and no more.
// Where it answers false, what `out` holds is not stated.
pub fn read_u64s(line: &[u8], word: &[u8], out: &mut [u64]) -> bool
    ensures { answer_of result out.new
        ≡ record_of read_u64 word.now (length out.old) line.now }
{
    read_fields::<Unsigned>(line, word, out)
}

// As `read_u64s`, for signed numbers.
pub fn read_i64s(line: &[u8], word: &[u8], out: &mut [i64]) -> bool
    ensures { answer_of result out.new
        ≡ record_of read_i64 word.now (length out.old) line.now }
{
    read_fields::<Signed>(line, word, out)
}
