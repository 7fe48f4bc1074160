// Send next upload (document 01, "Calls").
#![tactic(auto)]

ghost use Rattle.std.specs.Prelude.{◌≡◌, true, ◌≤◌, ◌<◌, length};
ghost use Rattle.message.specs.Message.{largest};
ghost use Rattle.journal.specs.Journal.{entries_of, next_due};
ghost use Rattle.checks.specs.Checks.{first_broken};
ghost use Rattle.state.specs.Calls.{lend, result_of};
ghost use Rattle.rules.specs.Rules.{idle_rules, due};
ghost use Rattle.compose.specs.Compose.{all_held};
ghost use Rattle.call_definitions.specs.SendNextUpload.{sends_item, sends_end, sends_next, send_next_upload};
ghost use Rattle.batch_messages.specs.BatchMessages.{item_fields, end_fields};

use checks::Refusal;
use entry::Entry;
use numbers::Trace;
use state::{Awaited, Called, Phase, State};

// Sends the next due entry, or the upload's end.
pub fn send_next_upload(s: State, journal: &mut [u8], message: &mut [u8]) -> Called
    ensures { result_of result (lend journal.new message.new) ≡ send_next_upload s (lend journal.old message.old) }
{
    if let Err(e) = rules::judge_idle(s, journal, message) {
        return Called::refused(s, e.into());
    }
    let Phase::Uploading = s.phase else {
        return Called::refused(s, Refusal::NothingAwaited.into());
    };
    send_next(s, journal, message)
}

// Entry i leaves and is awaited.
fn send_item(s: State, i: u16, e: Entry, journal: &mut [u8], message: &mut [u8]) -> Called
    requires { (e.resends < 255) × ((all_held (item_fields s.settings s.batch e) ≡ true) × (largest ≤ length message.old)) }
    ensures { result_of result (lend journal.new message.new) ≡ sends_item i e s (lend journal.old message.old) }
{
    let m = batch_messages::item_message(s.settings, s.batch, e);
    let n = outgoing::write_outgoing(&m, message);
    journal_effects::resend(i, e, journal);
    Called::sends(s.in_phase(Phase::Waiting(Awaited::Item(i))), n)
}

// The upload's end leaves and is awaited.
fn send_end(s: State, trace: Trace, journal: &[u8], message: &mut [u8]) -> Called
    requires { (all_held (end_fields s.settings s.batch trace) ≡ true) × (largest ≤ length message.old) }
    ensures { result_of result (lend journal.now message.new) ≡ sends_end trace s (lend journal.now message.old) }
{
    let m = batch_messages::end_message(s.settings, s.batch, trace);
    let n = outgoing::write_outgoing(&m, message);
    Called::sends(state_effects::ending(s, trace), n)
}

// The next due entry leaves or, where there is none, the upload's end.
fn send_next(s: State, journal: &mut [u8], message: &mut [u8]) -> Called
    requires { first_broken (idle_rules s (lend journal.old message.old)) ≡ 0 }
    ensures { result_of result (lend journal.new message.new)
        ≡ sends_next (next_due (due Phase.Uploading) (entries_of s.entries journal.old)) s (lend journal.old message.old) }
{
    let n = s.entries;
    match journal::next_due(journal, n) {
        Some(i) => {
            let e = journal::entry_at(journal, n, i);
            send_item(s, i, e, journal, message)
        }
        None => {
            let trace = traces::take(journal, n, s.next);
            send_end(s, trace, journal, message)
        }
    }
}
