// Trace numbers in the journal: none twice, and the next one that is free (document 01, "State and journal").
#![tactic(auto)]

ghost use Rattle.std.specs.Prelude.{◌≡◌, ◌≤◌, map, length};
ghost use Rattle.numbers.specs.Limits.{most_entries};
ghost use Rattle.entry.specs.Entry.{decode};
ghost use Rattle.journal.specs.Journal.{entries_of, absent, distinct, taken_from, taken};
ghost use Rattle.traces.specs.Traces.{may_follow, ordered, unseen, Pass};

use entry::Entry;
use numbers::Trace;

// The most entries whose traces are noted.
const MOST: usize = numbers::MOST_ENTRIES as usize;

// Where a pass has led: the number it has come to, and how many it may still leave behind.
#[derive(Clone, Copy)]
struct Passed {
    next: Trace,
    left: usize,
}

// Whether no two of the first n entries have one trace: at once where they stand in order.
pub fn are_distinct(journal: &[u8], n: u16) -> bool
    ensures { result ≡ distinct (entries_of n journal.now) }
{
    let entries = journal::entries_of(journal, n);
    if is_ordered(entries) {
        return true;
    }
    if entries.len() <= MOST {
        are_few_apart(entries)
    } else {
        are_apart(entries)
    }
}

// The first trace number from next on that none of the first n entries has.
pub fn take(journal: &[u8], n: u16, next: Trace) -> Trace
    ensures { result ≡ record { 0 = taken (entries_of n journal.now) next.0 } }
{
    let entries = journal::entries_of(journal, n);
    let mut left = entries.len();
    let mut p = pass(entries, next, left);
    while p.left < left {
        left = p.left;
        p = pass(entries, p.next, left);
    }
    p.next
}

// Whether t may come after x, in the order in which traces are taken.
#[tactic(auto, unfolding(crate::specs::Traces::may_follow))]
fn may_follow(first: u32, wrapped: bool, x: u32, t: u32) -> bool
    ensures { result ≡ may_follow first wrapped x t }
{
    ((x < t) & (!wrapped | (t < first))) | (!wrapped & (t < first))
}

// Whether the traces stand in the order in which they are taken.
fn is_ordered(entries: &[[u8; Entry::SIZE]]) -> bool
    ensures { result ≡ ordered (map decode entries.now) }
{
    let Some((b, rest)) = entries.split_first() else {
        return true;
    };
    let first = entry::trace_of(b).0;
    let mut last = first;
    let mut wrapped = false;
    for b in rest {
        let t = entry::trace_of(b).0;
        if !may_follow(first, wrapped, last, t) {
            return false;
        }
        wrapped |= t <= last;
        last = t;
    }
    true
}

// Whether none of the entries has a trace.
fn is_absent(entries: &[[u8; Entry::SIZE]], x: Trace) -> bool
    ensures { result ≡ absent x.0 (map decode entries.now) }
{
    entries.iter().all(|b| entry::trace_of(b).0 != x.0)
}

// Whether none of the numbers is t; without an exit, so that the machine compares several at once.
#[tactic(auto, unfolding(crate::specs::Traces::unseen))]
fn is_new(t: u32, seen: &[u32]) -> bool
    ensures { result ≡ unseen t seen.now }
{
    let mut new = true;
    for x in seen {
        new &= *x != t;
    }
    new
}

// Whether no two of the entries, which are few enough to note their traces, have one trace.
fn are_few_apart(entries: &[[u8; Entry::SIZE]]) -> bool
    requires { length entries.now ≤ most_entries }
    ensures { result ≡ distinct (map decode entries.now) }
{
    let mut seen = [0; MOST];
    for (i, b) in entries.iter().enumerate() {
        let t = entry::trace_of(b).0;
        if !is_new(t, &seen[..i]) {
            return false;
        }
        seen[i] = t;
    }
    true
}

// Whether no entry has the trace of one after it, each compared with all that follow.
fn are_apart(entries: &[[u8; Entry::SIZE]]) -> bool
    ensures { result ≡ distinct (map decode entries.now) }
{
    let mut left = entries;
    while let Some((b, rest)) = left.split_first() {
        if !is_absent(rest, entry::trace_of(b)) {
            return false;
        }
        left = rest;
    }
    true
}

// Goes once over the entries, from next on to the following number whenever it meets the one it has come to.
fn pass(entries: &[[u8; Entry::SIZE]], mut next: Trace, mut left: usize) -> Passed
    ensures { Pass (map decode entries.now) (taken_from left (map decode entries.now) next.0) left result.next.0 result.left }
{
    for b in entries {
        if (entry::trace_of(b).0 == next.0) & (0 < left) {
            next = next.following();
            left -= 1;
        }
    }
    Passed { next, left }
}
