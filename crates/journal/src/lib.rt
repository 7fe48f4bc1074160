// The journal: lent bytes, one entry per approval, oldest first (document 01, "State and journal").
#![tactic(auto)]

ghost use Rattle.std.specs.Prelude.{◌≡◌, map};
ghost use Rattle.entry.specs.Entry.{decode};
ghost use Rattle.entry.specs.Form.{due_entry};
ghost use Rattle.journal.specs.Journal.{entries_of, entry_at, every, first_of, asked, batch_sums, totals_of, original_for, fits_at, next_due, put_entry, set_byte};

use entry::Entry;
use kinds::{Sums, Totals};
use numbers::Trace;

// What an entry is looked for by.
#[derive(Clone, Copy)]
pub enum Query {
    Trace(Trace),
    Original { kind: u8, trace: Trace },
    Due(u8),
}

// The bytes of the first n entries, as far as they are there whole.
pub fn entries_of(journal: &[u8], n: u16) -> &[[u8; Entry::SIZE]]
    ensures { map decode result.now ≡ entries_of n journal.now }
{
    let (whole, _) = journal.as_chunks::<{ Entry::SIZE }>();
    &whole[..whole.len().min(usize::from(n))]
}

// Entry i of the first n.
pub fn entry_at(journal: &[u8], n: u16, i: u16) -> Entry
    ensures { result ≡ entry_at (entries_of n journal.now) i }
{
    match entries_of(journal, n).get(usize::from(i)) {
        Some(b) => entry::entry_of(b),
        None => entry::blank(),
    }
}

// The first entry that is what is looked for.
pub fn find(journal: &[u8], n: u16, query: Query) -> Option<u16>
    ensures { result ≡ first_of (asked query) 0 (entries_of n journal.now) }
{
    let i = entries_of(journal, n)
        .iter()
        .position(|b| is_asked(b, query))?;
    Some(i as u16)
}

// Whether each entry keeps the clauses of rule 2 that are about it alone.
pub fn all_fit(journal: &[u8], n: u16, sendings: u8, uploading: bool, awaited: Option<u16>) -> bool
    ensures { result ≡ every (fits_at sendings uploading awaited) 0 (entries_of n journal.now) }
{
    let awaited = awaited.map(usize::from);
    let mut places = entries_of(journal, n).iter().enumerate();
    places.all(|(i, b)| entry::fits(b, sendings, uploading, awaited == Some(i)))
}

// Debit and credit of the first n entries.
pub fn totals_of(journal: &[u8], n: u16) -> Totals
    ensures { result ≡ totals_of (entries_of n journal.now) }
{
    sums_of(journal, n).together()
}

// What the first n entries add up to, each kind its own sum (001, 4.3.2).
pub fn sums_of(journal: &[u8], n: u16) -> Sums
    ensures { result ≡ batch_sums (entries_of n journal.now) }
{
    let entries = entries_of(journal, n);
    let mut sums = Sums::new();
    for b in entries {
        sums = sums.plus(b[0], entry::amount_of(b));
    }
    sums
}

// The entry that a void of a kind is for: its kind is the needed one, and it has this trace.
pub fn find_original(journal: &[u8], n: u16, kind: u8, trace: Trace) -> Option<u16>
    ensures { result ≡ original_for kind trace.0 (entries_of n journal.now) }
{
    let kind = kinds::original_kind(kind);
    find(journal, n, Query::Original { kind, trace })
}

// The first due entry of mark 0 or, where no due one is 0, of mark 1.
#[tactic(auto, unfolding(crate::specs::Journal::next_due))]
pub fn next_due(journal: &[u8], n: u16) -> Option<u16>
    ensures { result ≡ next_due due_entry (entries_of n journal.now) }
{
    find(journal, n, Query::Due(0)).or_else(|| find(journal, n, Query::Due(1)))
}

// Writes an entry's bytes at place i, where the journal has room for them.
pub fn put_entry(journal: &mut [u8], i: u16, e: Entry)
    ensures { journal.new ≡ put_entry i e journal.old }
{
    let at = Entry::SIZE * usize::from(i);
    let end = at + Entry::SIZE;
    if end <= journal.len() {
        digits::copy(&entry::bytes_of(e), &mut journal[at..end]);
    }
}

// Changes one byte of entry i.
pub fn set_byte(journal: &mut [u8], i: u16, offset: u8, x: u8)
    ensures { journal.new ≡ set_byte i offset x journal.old }
{
    let at = Entry::SIZE * usize::from(i) + usize::from(offset);
    if at < journal.len() {
        journal[at] = x;
    }
}

// Whether an entry is what is looked for.
fn is_asked(b: &[u8; Entry::SIZE], query: Query) -> bool
    ensures { result ≡ asked query (decode b.now) }
{
    match query {
        Query::Trace(trace) => entry::trace_of(b).0 == trace.0,
        Query::Original { kind, trace } => (b[0] == kind) & (entry::trace_of(b).0 == trace.0),
        Query::Due(mark) => kinds::is_due(b[0]) & (b[2] == mark),
    }
}
