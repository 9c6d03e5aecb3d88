// The lines of a load's file, written to a lent buffer.
// The buffer and the place, as in `numeral_writers`: lines are put one after the other into one lent buffer, with no
// heap, and a struct of both would only be taken apart by the writers of numerals.
#![tactic(auto)]

ghost use Rattle.std.specs.Prelude.{◌≡◌, ◌++◌, ◌+◌, ◌≤◌, ◌<◌, length, take};
ghost use Rattle.settings.specs.Settings.{parameters_of};
ghost use Rattle.loads.specs.Files.{param_text, matrix_text, witness_text, challenge_text, after_A, after_S, after_C};
ghost use Rattle.load_texts.specs.Texts.{parameters_for, longest_text};

mod load_settings;

use chain::SmallSetting;
pub use load_settings::LoadSetting;
use settings::Setting;

impl LoadSetting {
    // The setting with the radius that is worked out for it.
    pub fn new(small: SmallSetting) -> LoadSetting
        ensures { result.small ≡ small }
    {
        let setting = &small.accepted.setting;
        LoadSetting {
            radius: draws::radius_of(setting.m as u64, setting.bound),
            small,
        }
    }
}

// Writes the `param` line from `at` on, and answers the place past it.
pub fn put_param(out: &mut [u8], at: usize, setting: &Setting) -> usize
    requires { at + longest_text ≤ length out.old }
    ensures out_after { take result out.new ≡ take at out.old ++ param_text (parameters_of setting.now) }
    ensures lower_bound { (at < result) × (result ≤ at + longest_text) }
{
    let five = [
        setting.n as u64,
        setting.m as u64,
        setting.t as u64,
        setting.b,
        setting.bound,
    ];
    let word = field_writers::put_bytes(out, at, b"param");
    let end = field_writers::put_u64s(out, word, &five);
    out[end] = b'\n';
    end + 1
}

// Each of these writes a line from `at` on, draws its entries from the state on, and answers the place past it.
// Three functions: word, shape, draws and numerals all differ. One over a kind of line would be longer: a trait with a
// law each for the word, the entries' count, the draw and the numerals, and three instances, for three short bodies.

// The `a` line.
#[tactic(auto, using(crate::proofs::Fitting::A_fits))]
pub fn put_matrix(out: &mut [u8], at: usize, load: &LoadSetting, state: &mut u64) -> usize
    requires { at + longest_text ≤ length out.old }
    ensures out_after { (take result out.new ≡ take at out.old ++ matrix_text (parameters_for load.now) state.old)
        × (state.new ≡ after_A (parameters_for load.now) state.old) }
    ensures at_lt_at { (at < result) × (result ≤ at + longest_text) }
{
    let setting = &load.small.accepted.setting;
    let mut a = [0u64; 128];
    let entries = &mut a[..setting.n * setting.m];
    *state = draws::fill_words(entries, *state);
    let word = field_writers::put_bytes(out, at, b"a");
    let end = field_writers::put_u64s(out, word, entries);
    out[end] = b'\n';
    end + 1
}

// The `leaf` line of a witness.
#[tactic(auto, using(crate::proofs::Fitting::S_fits))]
pub fn put_witness(out: &mut [u8], at: usize, load: &LoadSetting, state: &mut u64) -> usize
    requires { at + longest_text ≤ length out.old }
    ensures out_after { (take result out.new ≡ take at out.old ++ witness_text (parameters_for load.now) state.old)
        × (state.new ≡ after_S (parameters_for load.now) state.old) }
    ensures at_lt_at { (at < result) × (result ≤ at + longest_text) }
{
    let setting = &load.small.accepted.setting;
    let mut witness = [0i64; 32];
    let entries = &mut witness[..setting.m * setting.t];
    *state = draws::fill_witness(entries, load.radius, *state);
    let word = field_writers::put_bytes(out, at, b"leaf");
    let end = field_writers::put_i64s(out, word, entries);
    out[end] = b'\n';
    end + 1
}

// The `c` line of a challenge.
#[tactic(auto, using(crate::proofs::Fitting::C_fits))]
pub fn put_challenge(out: &mut [u8], at: usize, load: &LoadSetting, state: &mut u64) -> usize
    requires { at + longest_text ≤ length out.old }
    ensures out_after { (take result out.new ≡ take at out.old ++ challenge_text (parameters_for load.now) state.old)
        × (state.new ≡ after_C (parameters_for load.now) state.old) }
    ensures at_lt_at { (at < result) × (result ≤ at + longest_text) }
{
    let setting = &load.small.accepted.setting;
    let mut challenge = [0u8; 64];
    let rows = setting.columns;
    let entries = &mut challenge[..rows * setting.t];
    *state = draws::fill_challenge(entries, *state);
    let word = field_writers::put_bytes(out, at, b"c");
    let end = field_writers::put_ternaries(out, word, entries);
    out[end] = b'\n';
    end + 1
}
