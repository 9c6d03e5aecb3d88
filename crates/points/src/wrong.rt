// What document 01 calls plausible and wrong, where single entries show it; the fold at t = 2 shows the rest. A first
// equation modulo 2^64 does not show: width keeps what is recomposed within 2^62, and D is a signed word.
use super::{entries, example};
use settings::{Refusal, Setting};
use shown::lines;

pub(crate) fn points(rt: &impl Print) -> Result<(), Refusal> {
    let one = Setting::listed(1)?;
    // By the remainder of a negative entry its digit would be 1 and the rest -1 again, without end.
    entries::show_digits::<5>(rt, -1, 2);
    // A witness whose square is 0 modulo 2^64: by sums that wrap it would commit.
    example::commit(rt, one, 3, 4294967296);
    lowest_word(rt, one);
    Ok(())
}

// By a size in a signed word, whose square is 0 too, this would be a member.
fn lowest_word(rt: &impl Print, setting: Setting) {
    lines::relation_test(
        rt,
        setting,
        &[3],
        &[9223372036854775808],
        &[0],
        &[-9223372036854775808],
    );
}
