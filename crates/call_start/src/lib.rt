// Start: the request leaves (document 01, "Calls").
#![tactic(auto)]

ghost use Rattle.std.specs.Prelude.{◌≡◌};
ghost use Rattle.journal.specs.Journal.{entries_of};
ghost use Rattle.checks.specs.Checks.{first_broken};
ghost use Rattle.checks.specs.Refusals.{refused_by};
ghost use Rattle.state.specs.Calls.{lend, result_of};
ghost use Rattle.call_definitions.specs.Start.{original_of, entry_of, named_by, start_rules, start};
ghost use Rattle.call_definitions.specs.Sending.{MaySend, HasSent};

use checks::Refusal;
use desk::Desk;
use entry::Entry;
use numbers::{Batch, Trace};
use outgoing::Original;
use state::{Called, Chip, Request, State};

// Sends the desk's request, with the field 55 of its chip.
pub fn start(s: State, d: Desk, chip: &[u8], journal: &mut [u8], message: &mut [u8]) -> Called
    ensures { result_of result (lend journal.new message.new) ≡ start d chip.now s (lend journal.old message.old) }
{
    let n = s.entries;
    let place = original_of(d, journal, n);
    let e = entry_of(place, journal, n);
    if let Err(why) = judge(s, d, chip, place, e, journal, message) {
        return Called::refused(s, why.into());
    }
    let trace = traces::take(journal, n, s.next);
    send(
        s,
        desk::chip_from(d, chip),
        desk::request_of(d, e, trace),
        named_by(d, s.batch, e),
        message,
    )
}

// The place of the entry that a void is for; another kind has none.
#[tactic(auto, unfolding(call_definitions::specs::Start::original_of))]
fn original_of(d: Desk, journal: &[u8], n: u16) -> Option<u16>
    ensures { result ≡ original_of d (entries_of n journal.now) }
{
    if kinds::takes_original(d.kind) {
        journal::find_original(journal, n, d.kind, d.original)
    } else {
        None
    }
}

// The entry at a place, or one of zeros.
fn entry_of(place: Option<u16>, journal: &[u8], n: u16) -> Entry
    ensures { result ≡ entry_of place (entries_of n journal.now) }
{
    match place {
        Some(i) => journal::entry_at(journal, n, i),
        None => entry::blank(),
    }
}

// What a request names of an earlier one: its original, or what the desk keyed.
fn named_by(d: Desk, batch: Batch, e: Entry) -> Original
    ensures { result ≡ named_by d batch e }
{
    if kinds::takes_original(d.kind) {
        let Entry {
            date,
            authorisation,
            reference,
            ..
        } = e;
        Original {
            batch,
            trace: e.trace,
            date: digits::packed_number(&date) as u16,
            authorisation,
            reference,
        }
    } else {
        let Desk {
            authorisation,
            reference,
            ..
        } = d;
        Original {
            batch: Batch(0),
            trace: Trace(0),
            date: u16::from(d.month) * 100 + u16::from(d.day),
            authorisation,
            reference,
        }
    }
}

// The first rule that refuses.
fn judge(
    s: State,
    d: Desk,
    chip: &[u8],
    place: Option<u16>,
    e: Entry,
    journal: &[u8],
    message: &[u8],
) -> Result<(), Refusal>
    requires { place ≡ original_of d (entries_of s.entries journal.now) }
    ensures { refused_by result ≡ first_broken (start_rules d chip.now s (entries_of s.entries journal.now) e (lend journal.now message.now)) }
{
    rules::judge(s, journal, message)?;
    desk::judge_chip(d, chip)?;
    desk::judge_rest(s)?;
    desk::judge_desk(d, s.settings.refund)?;
    desk::judge_journal(s, d, s.totals, place, e)
}

// The request leaves and is awaited.
fn send(s: State, chip: Chip, q: Request, o: Original, message: &mut [u8]) -> Called
    requires { MaySend s chip q o message.old }
    ensures { HasSent s chip q o message.old result message.new }
{
    let m = outgoing::request_message(s.settings, s.batch, chip, q, o);
    let n = outgoing::write_outgoing(&m, message);
    Called::sends(state_effects::requested(s, chip, q), n)
}
