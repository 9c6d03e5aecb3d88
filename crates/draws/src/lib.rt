// Draws of a test load, and the entries that are made of them.
#![tactic(auto)]

ghost use Rattle.std.specs.Prelude.{◌≡◌, ℕ, ◌*◌, ◌^◌, ◌<◌, ◌≤◌, length, if◌then◌else◌, nat_le};
ghost use Rattle.draws.specs.Draws.{next, after, drawn, word_of, challenge_of, witness_of, radius};

// The next state, which is the draw.
#[tactic(auto, unfolding(crate::specs::Draws::next))]
pub fn draw(s: u64) -> u64
    ensures { result ≡ next s }
{
    integers::wrapping_mul(s, 6364136223846793005).wrapping_add(1442695040888963407)
}

// x where its square is at most the limit, else r.
fn further(r: u64, x: u64, most: u64) -> u64
    requires { x < 2 ^ 32 }
    ensures { result ≡ (if nat_le (x * x) most then x else r) }
{
    if x * x <= most { x } else { r }
}

// The greatest r with r^2 m at most the bound, bit by bit. r^2 is compared with the bound divided by m, so that nothing
// wraps. By bits and no library root: a search that begins at 1 is one of the wrong versions.
pub fn radius_of(m: u64, bound: u64) -> u64
    requires { 1 ≤ m }
    ensures { (result ≡ radius m bound) × (result < 2 ^ 32) }
{
    let most = bound / m;
    let mut step: u64 = 4294967296;
    let mut r: u64 = 0;
    for k in 0..32u64 {
        step /= 2;
        r = further(r, r + step, most);
    }
    r
}

// Fills the slice with entries that are made of draws from the state s on, and answers the state after them.
fn fill<T: Copy, E: Fn(u64) -> T>(out: &mut [T], s: u64, entry: E) -> u64
    requires { E.IsAlwaysCallable entry }
    ensures made { (of : ℕ → T) → ((x : ℕ) (v : T) → x < 2 ^ 64 → E.post entry x v → v ≡ of x)
        → out.new ≡ drawn of (length out.old) s }
    ensures moved { result ≡ after (length out.old) s }
{
    let mut state = s;
    for place in out.iter_mut() {
        state = draw(state);
        *place = entry(state);
    }
    state
}

// Fills the slice with draws from the state s on, and answers the state after them.
pub fn fill_words(out: &mut [u64], s: u64) -> u64
    ensures { (out.new ≡ drawn word_of (length out.old) s)
        × (result ≡ after (length out.old) s) }
{
    fill(out, s, |draw| draw)
}

// The witness entry of a draw: its upper 32 bits modulo 2r + 1, less r.
fn witness_entry(x: u64, r: u64) -> i64
    requires { r < 2 ^ 32 }
    ensures { result ≡ witness_of r x }
{
    (x / 4294967296 % (2 * r + 1)) as i64 - r as i64
}

// Fills the slice with witness entries of draws from the state s on, and answers the state after them.
pub fn fill_witness(out: &mut [i64], r: u64, s: u64) -> u64
    requires { r < 2 ^ 32 }
    ensures { (out.new ≡ drawn (witness_of r) (length out.old) s)
        × (result ≡ after (length out.old) s) }
{
    fill(out, s, |draw| witness_entry(draw, r))
}

// Fills the slice with challenge bytes of draws from the state s on, and answers the state after them.
pub fn fill_challenge(out: &mut [u8], s: u64) -> u64
    ensures { (out.new ≡ drawn challenge_of (length out.old) s)
        × (result ≡ after (length out.old) s) }
{
    fill(out, s, |draw| (draw / 4294967296 % 3) as u8)
}
