// The refusals: each has its number.
ghost use Rattle.std.specs.Prelude.{◌≡◌};
ghost use Rattle.settings.specs.Refusals.{number_of};

// Why a call is refused. A call is refused with the first that applies to it.
#[derive(Clone, Copy, PartialEq, Eq, Debug)]
pub enum Refusal {
    // n, m or t is out of range.
    Sizes = 1,
    // b is.
    Base = 2,
    // B is.
    Bound = 3,
    // N is above its limit.
    Columns = 4,
    Growth = 5,
    Width = 6,
    // A slice has not the length of what it stands for.
    Lengths = 7,
    // A column has a squared length above B.
    LongColumn = 8,
    // A byte of a challenge is above 2.
    Challenge = 9,
    // An entry of D~ is above H in size.
    LargeProduct = 10,
    // An entry of S~ is above h in size.
    LargeDigit = 11,
    // The house list has no setting of this number.
    NotListed = 12,
    // A line of a program's input is none that is due.
    BadLine = 13,
    // The setting is too large for the program.
    LargeSetting = 14,
    // Two leaf counts cannot be joined.
    Leaves = 15,
    // Digits are other than the rule's.
    OtherDigits = 16,
    // A turn is out of range.
    Turn = 20,
    // A quadratic form has too few or too many rows.
    Rows = 24,
    // An entry of a quadratic form is too large.
    LargeEntry = 25,
}

impl Refusal {
    // Its number, which the programs print and the C functions return.
    pub fn number(self) -> u8
        ensures { result ≡ number_of self }
    {
        self as u8
    }
}
