// Bytes, and values as fields, written to a lent buffer.
#![tactic(auto)]

ghost use Rattle.std.specs.Prelude.{◌≡◌, ℕ, List, [], ◌∷◌, map, ◌+◌, ◌*◌, ◌≤◌, length};
ghost use Rattle.numerals.specs.Bytes.{written};
ghost use Rattle.numerals.specs.Numerals.{decimal, decimal_Z};
ghost use Rattle.text.specs.Lines.{tabbed, ternary_numeral};

// Copies s to the buffer from `at` on, and answers the place past it.
// A lent buffer and the next place in it, and no String, since no heap is used.
pub fn put_bytes(buf: &mut [u8], at: usize, s: &[u8]) -> usize
    requires { at + length s.now ≤ length buf.old }
    ensures { (result ≡ at + length s.now)
        × (buf.new ≡ written buf.old at s.now) }
{
    buf[at..at + s.len()].copy_from_slice(s);
    at + s.len()
}

// A tab and a word, from `at` on; answers the place past it.
pub fn put_word(buf: &mut [u8], at: usize, word: &[u8]) -> usize
    requires { at + 1 + length word.now ≤ length buf.old }
    ensures { (result ≡ at + length (tabbed (word.now ∷ [])))
        × (buf.new ≡ written buf.old at (tabbed (word.now ∷ [])))
        × (result ≡ at + 1 + length word.now) }
{
    buf[at] = b'\t';
    put_bytes(buf, at + 1, word)
}

// A kind of field, and how a value is written as one: by at most 20 bytes.
pub trait Field {
    type Value: Copy;

    ghost numeral: { Self.Value → List ℕ };

    // Writes the value from `at` on, and answers the place past it.
    fn put(buf: &mut [u8], at: usize, value: Self::Value) -> usize
        requires { at + 20 ≤ length buf.old }
        ensures place { result ≡ at + length (numeral value) }
        ensures bytes { buf.new ≡ written buf.old at (numeral value) }
        ensures short { length (numeral value) ≤ 20 };
}

// Writes a tab and a field for each value, from `at` on, and answers the place past them. A tab and a field take at
// most 21 bytes.
pub fn put_fields<F: Field>(buf: &mut [u8], at: usize, values: &[F::Value]) -> usize
    requires { at + 21 * length values.now ≤ length buf.old }
    ensures { (result ≡ at + length (tabbed (map F.numeral values.now)))
        × (buf.new ≡ written buf.old at (tabbed (map F.numeral values.now)))
        × (result ≤ at + 21 * length values.now) }
{
    let mut to = at;
    for value in values {
        buf[to] = b'\t';
        to = F::put(buf, to + 1, *value);
    }
    to
}

// Fields that are unsigned numbers.
struct Unsigned;

impl Field for Unsigned {
    type Value = u64;

    ghost numeral = { decimal };

    fn put(buf: &mut [u8], at: usize, value: u64) -> usize {
        numeral_writers::put_u64(buf, at, value)
    }
}

// Fields that are signed numbers.
struct Signed;

impl Field for Signed {
    type Value = i64;

    ghost numeral = { decimal_Z };

    fn put(buf: &mut [u8], at: usize, value: i64) -> usize {
        numeral_writers::put_i64(buf, at, value)
    }
}

// Fields that are ternary entries, each given as its byte.
struct Ternary;

impl Field for Ternary {
    type Value = u8;

    ghost numeral = { ternary_numeral };

    // 0, 1, or -1. Byte by byte: a copy of one byte or two is a call for each entry.
    fn put(buf: &mut [u8], at: usize, value: u8) -> usize {
        if value < 2 {
            buf[at] = b'0' + value;
            return at + 1;
        }
        buf[at] = b'-';
        buf[at + 1] = b'1';
        at + 2
    }
}

// Writes a tab and a numeral for each number, from `at` on, and answers the place past them. A tab and a numeral take
// at most 21 bytes.
pub fn put_u64s(buf: &mut [u8], at: usize, vs: &[u64]) -> usize
    requires { at + 21 * length vs.now ≤ length buf.old }
    ensures { (result ≡ at + length (tabbed (map decimal vs.now)))
        × (buf.new ≡ written buf.old at (tabbed (map decimal vs.now)))
        × (result ≤ at + 21 * length vs.now) }
{
    put_fields::<Unsigned>(buf, at, vs)
}

// As `put_u64s`, for signed numbers.
pub fn put_i64s(buf: &mut [u8], at: usize, vs: &[i64]) -> usize
    requires { at + 21 * length vs.now ≤ length buf.old }
    ensures { (result ≡ at + length (tabbed (map decimal_Z vs.now)))
        × (buf.new ≡ written buf.old at (tabbed (map decimal_Z vs.now)))
        × (result ≤ at + 21 * length vs.now) }
{
    put_fields::<Signed>(buf, at, vs)
}

// As `put_u64s`, for the bytes of ternary entries.
pub fn put_ternaries(buf: &mut [u8], at: usize, vs: &[u8]) -> usize
    requires { at + 21 * length vs.now ≤ length buf.old }
    ensures { (result ≡ at + length (tabbed (map ternary_numeral vs.now)))
        × (buf.new ≡ written buf.old at (tabbed (map ternary_numeral vs.now)))
        × (result ≤ at + 21 * length vs.now) }
{
    put_fields::<Ternary>(buf, at, vs)
}

// A tab and a number, from `at` on; answers the place past it.
pub fn put_number(buf: &mut [u8], at: usize, number: u64) -> usize
    requires { at + 21 ≤ length buf.old }
    ensures { (result ≡ at + length (tabbed (decimal number ∷ [])))
        × (buf.new ≡ written buf.old at (tabbed (decimal number ∷ [])))
        × (result ≤ at + 21) }
{
    put_u64s(buf, at, &[number])
}
