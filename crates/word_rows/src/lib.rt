// A row of zeros, in which a product modulo 2^64 is summed.
#![tactic(auto)]

ghost use Rattle.std.specs.Prelude.{◌≡◌, length, replicate};
ghost use Rattle.integers.specs.Lists.{build};

// Fills a row with zeros. Its contract is that of `fill`, so that must-fail's version without the first word is refused
// for that word.
fn write_zeros(row: &mut [u64])
    ensures { row.new ≡ replicate (length row.old) 0 }
{
    row.fill(0);
}

// Fills a row with zeros. A name of ours for `fill`: the contract says it by `build`, as the proof of `word_products`
// reads a row, and must-fail has two wrong versions of it.
#[tactic(auto, using(crate::proofs::Rows::zeros_built))]
pub fn clear_row(row: &mut [u64])
    ensures { row.new ≡ build (length row.old) (λ _. 0) }
{
    write_zeros(row);
}
