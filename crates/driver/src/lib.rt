// The whole program over a reader. Every program that runs a chain calls `run`. What the system reads and writes is the
// library's part; what is done with the bytes is proved.
#![tactic(auto)]

mod endings;
mod feeds;

use feeds::Feed;
use std::io::Read;

// How many chunks are read at most: 2^61 bytes.
const CHUNKS: u64 = 35184372088832;

// Runs the chain on what a reader gives, up to its end or to the first line that is refused.
pub fn run<R: Read>(rt: &(impl Print + Eprint), reader: &mut R) {
    let mut feed = Feed::new();
    let mut chunk = [0u8; 65536];
    for _ in 0..CHUNKS {
        let Ok(n) = reader.read(&mut chunk) else {
            let _ = rt.eprint("the input cannot be read\n");
            return;
        };
        if n == 0 {
            feed.finish(rt);
            return;
        }
        feed.take_all(rt, &chunk[..n]);
        if feed.has_stopped() {
            return;
        }
    }
    let _ = rt.eprint("the input is too long\n");
}
