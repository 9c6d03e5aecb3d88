// Stored files that a program is run on: their names are its arguments.
#![tactic(auto)]

use std::env::FillError;
use std::rt::{Env, Files};
use std::{fs, str};

// How many arguments the program was started with, its own name among them.
pub fn arg_count(rt: &impl Env) -> usize {
    let mut none = [0u8; 0];
    for i in 0..usize::MAX {
        if let Err(FillError::NotPresent) = rt.arg(i, &mut none) {
            return i;
        }
    }
    usize::MAX
}

// Writes the name that is argument i, and opens the file for reading. Answers the file, or nothing where there is
// none.
pub fn open<R: Env + Files + Print>(rt: &R, i: usize) -> Option<R::File> {
    let mut name = [0u8; 64];
    let n = rt.arg(i, &mut name).unwrap_or(0);
    let _ = rt.write_all(b"== ");
    let _ = rt.write_all(&name[..n]);
    let _ = rt.write_all(b"\n");
    let file = open_read(rt, &name[..n]);
    if file.is_none() {
        let _ = rt.write_all(b"missing\n");
    }
    file
}

// Opens the file of this name for reading.
fn open_read<R: Files>(rt: &R, name: &[u8]) -> Option<R::File> {
    let path = str::from_utf8(name).ok()?;
    fs::open(rt, path).ok()
}
