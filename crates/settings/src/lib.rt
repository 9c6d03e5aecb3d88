// The setting of a fold: its limits, the checking constructor and the house list.
#![tactic(auto)]

ghost use Rattle.std.specs.Prelude.{◌≡◌, ◌&&◌};
ghost use Rattle.integers.specs.Ranges.{within};
ghost use Rattle.settings.specs.Settings.{limits, setting_refusal, parameters_of, checked_of};
ghost use Rattle.settings.specs.HouseList.{parameters, listed_of};
ghost use Rattle.settings.specs.Refusals.{number_in, numbered};
ghost use Rattle.settings.specs.Accepted.{accepted_as};

mod acceptance;
mod bounds;
mod refused;

pub use acceptance::AcceptedSetting;
pub use refused::Refusal;

// The five numbers of a setting, with what they fix: k digits to an entry, N columns of a digit witness, the powers of
// b.
#[derive(Clone, Copy)]
pub struct Setting {
    pub n: usize,
    pub m: usize,
    pub t: usize,
    pub b: u64,
    pub bound: u64,
    pub k: usize,
    pub columns: usize,
    pub powers: [u64; Setting::POWERS],
}

impl Setting {
    pub const MIN_N: usize = 1;

    pub const MAX_N: usize = 64;

    pub const MIN_M: usize = 1;

    pub const MAX_M: usize = 4096;

    pub const MIN_T: usize = 1;

    pub const MAX_T: usize = 16;

    pub const MIN_B: u64 = 2;

    pub const MAX_B: u64 = 65535;

    pub const MIN_BOUND: u64 = 1;

    pub const MAX_BOUND: u64 = 4611686018427387904;

    pub const MAX_COLUMNS: usize = 512;

    pub const MAX_WIDTH: u64 = 4611686018427387904;

    pub const POWERS: usize = 33;

    pub const LISTED: usize = 4;

    // The house list, settings 1 to 4.
    pub const LIST: [Setting; Setting::LISTED] = [
        Setting {
            n: 1,
            m: 1,
            t: 1,
            b: 2,
            bound: 100,
            k: 5,
            columns: 10,
            powers: [
                1, 2, 4, 8, 16, 0, 0, 0, 0, 0, 0, 0, 0, 0, 0, 0, 0, 0, 0, 0, 0, 0, 0, 0, 0, 0, 0,
                0, 0, 0, 0, 0, 0,
            ],
        },
        Setting {
            n: 4,
            m: 16,
            t: 2,
            b: 32,
            bound: 1048576,
            k: 4,
            columns: 16,
            powers: [
                1, 32, 1024, 32768, 0, 0, 0, 0, 0, 0, 0, 0, 0, 0, 0, 0, 0, 0, 0, 0, 0, 0, 0, 0, 0,
                0, 0, 0, 0, 0, 0, 0, 0,
            ],
        },
        Setting {
            n: 8,
            m: 64,
            t: 4,
            b: 128,
            bound: 268435456,
            k: 4,
            columns: 32,
            powers: [
                1, 128, 16384, 2097152, 0, 0, 0, 0, 0, 0, 0, 0, 0, 0, 0, 0, 0, 0, 0, 0, 0, 0, 0, 0,
                0, 0, 0, 0, 0, 0, 0, 0, 0,
            ],
        },
        Setting {
            n: 16,
            m: 256,
            t: 1,
            b: 64,
            bound: 16777216,
            k: 4,
            columns: 8,
            powers: [
                1, 64, 4096, 262144, 0, 0, 0, 0, 0, 0, 0, 0, 0, 0, 0, 0, 0, 0, 0, 0, 0, 0, 0, 0, 0,
                0, 0, 0, 0, 0, 0, 0, 0,
            ],
        },
    ];

    // The setting of five numbers, or the first of the refusals 1 to 6 that applies to them.
    pub fn new(n: usize, m: usize, t: usize, b: u64, bound: u64) -> Result<Setting, Refusal>
        ensures { numbered result ≡ checked_of (parameters n m t b bound) }
    {
        test_limits(n, m, t, b, bound)?;
        let k = bounds::level(b, bound) + 2;
        let powers = bounds::powers_of(b, k);
        Ok(Setting {
            n,
            m,
            t,
            b,
            bound,
            k,
            columns: 2 * k * t,
            powers,
        })
    }

    // The setting of this one's five numbers, whatever its k, N and powers say, or the first of 1 to 6.
    pub fn rebuilt(self) -> Result<Setting, Refusal>
        ensures { numbered result ≡ checked_of (parameters_of self) }
    {
        Setting::new(self.n, self.m, self.t, self.b, self.bound)
    }

    // The same as a setting that was accepted: what every operation begins with.
    pub fn accepted(self) -> Result<AcceptedSetting, Refusal>
        ensures { accepted_as result ≡ checked_of (parameters_of self) }
    {
        AcceptedSetting::new(self.n, self.m, self.t, self.b, self.bound)
    }

    // A setting of the house list, or refusal 12 for a number outside 1..4.
    pub fn listed(number: usize) -> Result<Setting, Refusal>
        ensures { numbered result ≡ listed_of number }
    {
        if !integers::inside(number as u64, 1, Setting::LISTED as u64) {
            return Err(Refusal::NotListed);
        }
        Ok(Setting::LIST[number - 1])
    }
}

impl AcceptedSetting {
    // The setting of five numbers, or the first of the refusals 1 to 6 that applies to them.
    pub fn new(n: usize, m: usize, t: usize, b: u64, bound: u64) -> Result<AcceptedSetting, Refusal>
        ensures { accepted_as result ≡ checked_of (parameters n m t b bound) }
    {
        let setting = Setting::new(n, m, t, b, bound)?;
        Ok(AcceptedSetting { setting })
    }
}

// Whether n, m and t are in their ranges.
fn sizes_inside(n: usize, m: usize, t: usize) -> bool
    ensures { result ≡ (within limits.n n && within limits.m m && within limits.t t) }
{
    integers::inside(n as u64, Setting::MIN_N as u64, Setting::MAX_N as u64)
        && integers::inside(m as u64, Setting::MIN_M as u64, Setting::MAX_M as u64)
        && integers::inside(t as u64, Setting::MIN_T as u64, Setting::MAX_T as u64)
}

// The first of the refusals 1 to 6 that applies, if any.
fn test_limits(n: usize, m: usize, t: usize, b: u64, bound: u64) -> Result<(), Refusal>
    ensures { number_in result ≡ setting_refusal (parameters n m t b bound) }
{
    if !sizes_inside(n, m, t) {
        return Err(Refusal::Sizes);
    }
    if !integers::inside(b, Setting::MIN_B, Setting::MAX_B) {
        return Err(Refusal::Base);
    }
    if !integers::inside(bound, Setting::MIN_BOUND, Setting::MAX_BOUND) {
        return Err(Refusal::Bound);
    }
    let k = bounds::level(b, bound) + 2;
    let columns = 2 * k * t;
    if Setting::MAX_COLUMNS < columns {
        return Err(Refusal::Columns);
    }
    let h = b / 2;
    if !bounds::grows_within(columns, h, m, bound) {
        return Err(Refusal::Growth);
    }
    if !bounds::wide_within(m, h, bounds::repunit_of(b, k), Setting::MAX_WIDTH) {
        return Err(Refusal::Width);
    }
    Ok(())
}
