// Answer, no answer, power returned (document 01, "Calls").
#![tactic(auto)]

ghost use Rattle.std.specs.Prelude.{◌≡◌};
ghost use Rattle.checks.specs.Refusals.{refused_by};
ghost use Rattle.journal.specs.Journal.{entries_of};
ghost use Rattle.state.specs.Calls.{lend, result_of};
ghost use Rattle.approval.specs.Approval.{approval_of};
ghost use Rattle.state.specs.State.{Bookable};
ghost use Rattle.call_definitions.specs.Answer.{no_answer, power_returned, trace_sent, answer_in, answer};
ghost use Rattle.call_answer.specs.Bounds.{Gives, sign_on_answer};

use checks::Refusal;
use message::Message;
use numbers::Trace;
use state::{Awaited, Called, Phase, State};

// The line has fallen silent.
pub fn no_answer(s: State, journal: &mut [u8], message: &mut [u8]) -> Called
    ensures { result_of result (lend journal.new message.new) ≡ no_answer s (lend journal.old message.old) }
{
    if let Err(e) = rules::judge(s, journal, message) {
        return Called::refused(s, e.into());
    }
    if !s.is_waiting() {
        return Called::refused(s, Refusal::NothingAwaited.into());
    }
    Called::quiet(journal_effects::unanswered(s, journal))
}

// Power has returned.
pub fn power_returned(s: State, journal: &mut [u8], message: &mut [u8]) -> Called
    ensures { result_of result (lend journal.new message.new) ≡ power_returned s (lend journal.old message.old) }
{
    if let Err(e) = rules::judge(s, journal, message) {
        return Called::refused(s, e.into());
    }
    Called::quiet(journal_effects::unanswered(s, journal).signed(false))
}

// The centre's bytes, and the key pad's word on the MAC.
pub fn answer(s: State, bytes: &[u8], good: bool, journal: &mut [u8], message: &mut [u8]) -> Called
    ensures { result_of result (lend journal.new message.new) ≡ answer bytes.now good s (lend journal.old message.old) }
{
    if let Err(e) = rules::judge(s, journal, message) {
        return Called::refused(s, e.into());
    }
    let reading = reading::read(bytes);
    let Ok(m) = reading else {
        return Called::refused(s, refusal_number(reading));
    };
    answer_in(s, &m, good, journal)
}

// The trace that was sent.
fn trace_sent(a: Awaited, n: u16, journal: &[u8]) -> Trace
    ensures { result ≡ trace_sent (entries_of n journal.now) a }
{
    match a {
        Awaited::Request(q) => q.trace,
        Awaited::Reversal(v) => v.request.trace,
        Awaited::Settlement(x) | Awaited::End(x) => x,
        Awaited::Item(i) => journal::entry_at(journal, n, i).trace,
    }
}

// A message that was read.
fn answer_in(s: State, m: &Message, good: bool, journal: &mut [u8]) -> Called
    requires { Bookable (approval_of m.now).amount s }
    ensures { Gives result journal.old journal.new (answer_in good m.now s) }
{
    if s.chip.approved {
        return Called::refused(s, Refusal::NothingAwaited.into());
    }
    if s.signs_on() {
        return sign_on_answer(s, m);
    }
    let Phase::Waiting(a) = s.phase else {
        return Called::refused(s, Refusal::NothingAwaited.into());
    };
    let trace = trace_sent(a, s.entries, journal);
    if answer_match::is_answer(s.settings, s.batch, trace, a, m) {
        return Called::quiet(journal_effects::answered(s, a, m, good, journal));
    }
    Called::refused(s, Refusal::NoMatch.into())
}

// A message that was read, where the answer to a sign-on is awaited.
fn sign_on_answer(s: State, m: &Message) -> Called
    ensures { result ≡ sign_on_answer m.now s }
{
    if answer_match::is_sign_on_answer(s.settings, s.sign_on, m) {
        return Called::quiet(state_effects::on_sign_on(s, m));
    }
    Called::refused(s, Refusal::NoMatch.into())
}

// The number of a reading that is refused, 0 for none.
fn refusal_number(reading: Result<Message, Refusal>) -> u8
    ensures { result ≡ refused_by reading }
{
    match reading {
        Ok(_) => 0,
        Err(e) => e.into(),
    }
}
