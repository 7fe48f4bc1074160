// Tables of text: each row ends in a line feed, and its first word is its name.
ghost use Rattle.std.specs.Prelude.{◌≡◌};
ghost use Rattle.words.specs.Rows.{first_row, other_rows, rows_after, row, row_named};

use crate::{scan, word};

// Row k of a table, the first being 0; empty where there are fewer.
#[tactic(auto, unfolding(crate::specs::Rows::row))]
pub fn row(t: &[u8], k: usize) -> &[u8]
    ensures { result.now ≡ row k t.now }
{
    first_row(rows_after(t, k))
}

// The number of the first of n rows that has the name w; n where none has.
pub fn row_named(n: usize, w: &[u8], t: &[u8]) -> usize
    ensures { result ≡ row_named n w.now t.now }
{
    for k in 0..n {
        if digits::same(w, word(row(t, k), 0)) {
            return k;
        }
    }
    n
}

#[tactic(auto, using(crate::proofs::Tables::rows_next))]
fn rows_after(mut t: &[u8], k: usize) -> &[u8]
    ensures { result.now ≡ rows_after k t.now }
{
    for _ in 0..k {
        t = other_rows(t);
    }
    t
}

#[tactic(auto, unfolding(crate::specs::Rows::first_row))]
fn first_row(t: &[u8]) -> &[u8]
    ensures { result.now ≡ first_row t.now }
{
    &t[..scan::find(t, b'\n')]
}

#[tactic(auto, unfolding(crate::specs::Rows::other_rows))]
fn other_rows(t: &[u8]) -> &[u8]
    ensures { result.now ≡ other_rows t.now }
{
    let end = scan::find(t, b'\n');
    if end < t.len() {
        return &t[end + 1..];
    }
    &t[end..]
}
