// Runs the points of request 10 on the library, and writes what it answers; the check compares that with `stdout`. They
// are the rows of `turns/specs/Points.antt`, in their order. No contract can say what is written, so the functions here
// promise only that they are safe and end.
#![tactic(auto)]

use groups::GROUPS;
use settings::Refusal;
use shown::print;
use turns::Turn;

fn main(rt: HostRuntime) {
    print::text(&rt, b"Request 10: taking turns\n");
    let agreed: [u64; GROUPS] = [3, 1, 2, 16, 1, 1, 4, 1];
    let everybody = [9u32; GROUPS];
    let nobody = [0u32; GROUPS];
    called(&rt, agreed, everybody, 4, 0);
    called(&rt, agreed, everybody, 4, 15);
    called(&rt, agreed, everybody, 1, 3);
    called(&rt, agreed, everybody, 8, 1);
    called(&rt, agreed, [0, 0, 4294967295, 0, 0, 0, 0, 0], 4, 16);
    called(&rt, agreed, [0, 0, 1, 0, 0, 0, 0, 0], 4, 1);
    called(&rt, agreed, [0, 0, 5, 0, 0, 0, 0, 0], 3, 2);
    called(&rt, agreed, nobody, 3, 1);
    called(&rt, [0, 1, 2, 16, 1, 1, 4, 1], everybody, 2, 0);
    called(&rt, [3, 1, 2, 16, 1, 1, 4, 17], everybody, 2, 0);
    called(&rt, agreed, everybody, 0, 0);
    called(&rt, agreed, everybody, 9, 0);
    called(&rt, agreed, everybody, 1, 4);
    called(&rt, agreed, nobody, 1, 4);
}

// A call with this turn: whose fold is next, the turn and the counts that come back.
fn called(rt: &impl Print, weights: [u64; GROUPS], waiting: [u32; GROUPS], group: u64, used: u64) {
    print::number(rt, b"group ", group);
    print::number(rt, b", used ", used);
    let served = turns::next_fold(weights, waiting, Turn { group, used });
    answered(rt, served.next);
    print::number(rt, b"; group ", served.turn.group);
    print::number(rt, b", used ", served.turn.used);
    counted(rt, served.waiting);
}

// Whose fold is next.
fn answered(rt: &impl Print, next: Result<Option<u64>, Refusal>) {
    match next {
        Ok(Some(group)) => print::number(rt, b": group ", group),
        Ok(None) => print::text(rt, b": none"),
        Err(refusal) => print::number(rt, b": refused with ", u64::from(refusal.number())),
    }
}

// The waiting counts, to the end of the line.
fn counted(rt: &impl Print, left: [u32; GROUPS]) {
    let mut counts = [0u64; GROUPS];
    for (count, waiting) in counts.iter_mut().zip(&left) {
        *count = u64::from(*waiting);
    }
    print::words(rt, b", waiting", &counts);
    print::end(rt);
}
