// A feed: bytes of input, taken a line at a time. Nothing depends on how the input is cut into chunks. What the system
// writes is the library's part.
ghost use Rattle.std.specs.Prelude.{◌≤◌};
ghost use Rattle.line_machines.specs.Machines.{longest_line};

use settings::Refusal;
use states::{Due, Run, Store};

// The run state, the matrices, and the line under way with how many bytes of it there are.
#[derive(Drop)]
pub(crate) struct Feed {
    pub run: Run,
    pub store: Store,
    pub line: [u8; 4096],
    pub pending: usize,
    pub ghost within: { pending ≤ longest_line },
}

// A part of a chunk that was taken: how many bytes it has, and how many bytes of output came of it.
#[derive(Clone, Copy)]
pub(crate) struct Taken {
    pub used: usize,
    pub printed: usize,
}

// Writes bytes to standard output, and says so on standard error where that fails.
fn print(rt: &(impl Print + Eprint), bytes: &[u8]) {
    if rt.write_all(bytes).is_err() {
        let _ = rt.eprint("standard output cannot be written\n");
    }
}

impl Feed {
    ghost use Rattle.std.specs.Prelude.{◌≡◌, ◌+◌, ◌^◌, ◌<◌, length, take};
    ghost use Rattle.line_machines.specs.Machines.{feed_all, feed_output, feed_end};
    ghost use Rattle.chain.specs.Chain.{is_stopped, chain_machine};
    ghost use Rattle.states.specs.Held.{state_of};
    ghost use Rattle.driver.specs.Feeds.{feeding_of, Unfed, TakenWithin};

    // Before the first byte.
    pub(crate) fn new() -> Feed
        ensures { Unfed result }
    {
        Feed {
            run: Run::new(),
            store: Store::new(),
            line: [0; 4096],
            pending: 0,
        }
    }

    // Takes bytes of a chunk up to the end of a line, or all of it.
    fn take(&mut self, chunk: &[u8], out: &mut [u8; 512]) -> Taken
        requires { self.old.run.line < 2 ^ 62 }
        ensures fed { feeding_of self.new ≡ feed_all chain_machine (feeding_of self.old) (take result.used chunk.now) }
        ensures output { take result.printed out.new
            ≡ feed_output chain_machine (feeding_of self.old) (take result.used chunk.now) }
        ensures within { TakenWithin result self.old self.new (length chunk.now) }
    {
        let Feed {
            run,
            store,
            line,
            pending,
        } = self;
        let cut = line_machines::cut_line(chunk, line, *pending);
        if !cut.ended {
            *pending = cut.length;
            return Taken {
                used: cut.used,
                printed: 0,
            };
        }
        *pending = 0;
        let printed = runs::take(run, &line[..cut.length], store, out);
        Taken {
            used: cut.used,
            printed,
        }
    }

    // Takes a whole chunk, and prints what comes of it.
    pub(crate) fn take_all(&mut self, rt: &(impl Print + Eprint), chunk: &[u8])
        requires { self.old.run.line + length chunk.now < 2 ^ 62 }
        ensures fed { feeding_of self.new ≡ feed_all chain_machine (feeding_of self.old) chunk.now }
        ensures lines { self.new.run.line ≤ self.old.run.line + length chunk.now }
    {
        let mut out = [0u8; 512];
        // By the rest of the chunk: how many bytes are taken next is known only when they have been taken.
        let mut rest = chunk;
        while !rest.is_empty() {
            let taken = self.take(rest, &mut out);
            print(rt, &out[..taken.printed]);
            rest = &rest[taken.used..];
        }
    }

    // The end of the input: writes the last line, and answers its length.
    fn end(&mut self, out: &mut [u8; 512]) -> usize
        requires { self.old.run.line < 2 ^ 62 }
        ensures output { take result out.new ≡ feed_end chain_machine (feeding_of self.old) }
        ensures upper_bound { result ≤ 512 }
    {
        if 0 < self.pending {
            return self.run.refuse_bad(out);
        }
        match self.run.due {
            Due::Leaf(small) => {
                let membership = crate::endings::test(small, &self.store.a, &self.store.first);
                crate::endings::put_end(out, self.run.folds, membership)
            }
            Due::Nothing => 0,
            _ => closing_reports::put_refused(out, self.run.line + 1, Refusal::BadLine.number()),
        }
    }

    // Prints the last line.
    pub(crate) fn finish(&mut self, rt: &(impl Print + Eprint))
        requires { self.old.run.line < 2 ^ 62 }
    {
        let mut out = [0u8; 512];
        let last = self.end(&mut out);
        print(rt, &out[..last]);
    }

    // Whether a line was refused, so that nothing more is to be read.
    pub(crate) fn has_stopped(&self) -> bool
        ensures { result ≡ is_stopped (state_of self.now.run self.now.store).stage }
    {
        matches!(self.run.due, Due::Nothing)
    }
}
