// How numbers and rows of them are written. A write that fails is passed over.
use std::fmt::Display;

pub fn text(rt: &impl Print, bytes: &[u8]) {
    let _ = rt.write_all(bytes);
}

// Ends a line.
pub fn end(rt: &impl Print) {
    text(rt, b"\n");
}

// A label, and a number after it.
pub fn number<N: Display + Copy>(rt: &impl Print, label: &[u8], n: N) {
    text(rt, label);
    let _ = rt.print(n);
}

// A label, and the entries of a matrix after it, by rows.
pub fn words<N: Display + Copy>(rt: &impl Print, label: &[u8], entries: &[N]) {
    text(rt, label);
    for entry in entries {
        number(rt, b" ", *entry);
    }
}
