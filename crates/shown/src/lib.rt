// How the programs that run points show what the library answers: the line of each operation, and how answers, numbers
// and matrices are written. No contract can say what is written, so these functions promise only that they are safe and
// end.
#![tactic(auto)]

pub mod answers;
pub mod lines;
pub mod print;
