// The words of a line, and tables of text.
#![tactic(auto)]

mod rows;
pub mod scan;

ghost use Rattle.std.specs.Prelude.{◌≡◌, drop};
ghost use Rattle.words.specs.Lines.{spaces, cut, trimmed, skipped};
ghost use Rattle.words.specs.Words.{past_word, first_word, rest, after, word_at};

pub use rows::{row, row_named};

// What follows k words of a line.
#[tactic(auto, using(crate::proofs::Tables::after_next))]
pub fn after(mut s: &[u8], k: u8) -> &[u8]
    ensures { result.now ≡ after k s.now }
{
    for _ in 0..k {
        s = rest(s);
    }
    s
}

// Word k of a line, the first being 0; empty where there are fewer.
#[tactic(auto, unfolding(crate::specs::Words::word_at))]
pub fn word(s: &[u8], k: u8) -> &[u8]
    ensures { result.now ≡ word_at k s.now }
{
    first_word(after(s, k))
}

// A line without the spaces before its first word and after its last.
#[tactic(auto, unfolding(crate::specs::Lines::trimmed))]
pub fn trim(s: &[u8]) -> &[u8]
    ensures { result.now ≡ trimmed s.now }
{
    trim_end(trim_start(s))
}

// Whether a line of these words is skipped: it is blank, or its first character is `#`.
#[tactic(auto, unfolding(crate::specs::Lines::skipped))]
pub fn is_skipped(s: &[u8]) -> bool
    ensures { result ≡ skipped s.now }
{
    matches!(s, [] | [b'#', ..])
}

#[tactic(auto, unfolding(crate::specs::Words::past_word))]
fn past_word(s: &[u8]) -> &[u8]
    ensures { result.now ≡ past_word s.now }
{
    &s[scan::find(s, b' ')..]
}

#[tactic(auto, unfolding(crate::specs::Words::first_word))]
fn first_word(s: &[u8]) -> &[u8]
    ensures { result.now ≡ first_word s.now }
{
    &s[..scan::find(s, b' ')]
}

#[tactic(auto, unfolding(crate::specs::Words::rest))]
fn rest(s: &[u8]) -> &[u8]
    ensures { result.now ≡ rest s.now }
{
    trim(past_word(s))
}

#[tactic(auto, using(crate::proofs::Lines::start_more, crate::proofs::Lines::start_done))]
fn trim_start(mut s: &[u8]) -> &[u8]
    ensures { result.now ≡ drop (spaces s.now) s.now }
{
    while let [b' ', rest @ ..] = s {
        s = rest;
    }
    s
}

#[tactic(auto, using(crate::proofs::Lines::end_more, crate::proofs::Lines::end_done, crate::proofs::Lines::end_none))]
fn trim_end(mut s: &[u8]) -> &[u8]
    ensures { result.now ≡ cut s.now }
{
    while let [rest @ .., b' '] = s {
        s = rest;
    }
    s
}
