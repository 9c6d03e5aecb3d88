// Lines of fields parted by tabs.
#![tactic(auto)]

ghost use Rattle.std.specs.Prelude.{◌≡◌, ◌==◌, ◌+◌, take, drop, position};
ghost use Rattle.text.specs.Fields.{until_tab, same};

// The place of the first tab.
fn first_tab(line: &[u8]) -> Option<usize>
    ensures { result ≡ position (λ byte. byte == 9) line.now }
{
    line.iter().position(|byte| *byte == b'\t')
}

// The place of the first tab from `from` on; the line's end where there is none, or `from` past it.
pub fn find_tab(line: &[u8], from: usize) -> usize
    ensures { result ≡ from + until_tab (drop from line.now) }
{
    match line.get(from..) {
        Some(rest) => from + first_tab(rest).unwrap_or(rest.len()),
        None => from,
    }
}

// Whether two byte strings are equal. A name of ours: the contract says it by `same`, which callers' proofs cite, and
// must-fail has a wrong version of it. By an index in place of `==`, so that this version reads the first byte at each.
pub fn equal(a: &[u8], b: &[u8]) -> bool
    ensures { result ≡ same a.now b.now }
{
    a.len() == b.len() && (0..a.len()).all(|i| a[i] == b[i])
}

// Whether the line's first field is the word.
pub fn begins(line: &[u8], word: &[u8]) -> bool
    ensures { result ≡ same (take (until_tab line.now) line.now) word.now }
{
    let end = find_tab(line, 0);
    equal(&line[..end], word)
}
