// Settle (document 01, "Calls").
#![tactic(auto)]

ghost use Rattle.std.specs.Prelude.{◌≡◌};
ghost use Rattle.checks.specs.Checks.{first_broken};
ghost use Rattle.checks.specs.Refusals.{refused_by};
ghost use Rattle.state.specs.Calls.{lend, result_of};
ghost use Rattle.call_definitions.specs.Settle.{settle_rules, settle};

use checks::Refusal;
use state::{Called, State};

// Sends the batch's totals: those stored, which rule 2 has just found to be the journal's five sums together (001, 4.3.2).
pub fn settle(s: State, journal: &mut [u8], message: &mut [u8]) -> Called
    ensures { result_of result (lend journal.new message.new) ≡ settle s (lend journal.old message.old) }
{
    if let Err(e) = judge(s, journal, message) {
        return Called::refused(s, e.into());
    }
    let trace = traces::take(journal, s.entries, s.next);
    let m = batch_messages::settlement_message(s.settings, s.batch, trace, s.totals);
    let n = outgoing::write_outgoing(&m, message);
    Called::sends(state_effects::settles(s, trace), n)
}

// The first rule that refuses.
#[tactic(auto, unfolding(checks::specs::Checks::first_broken))]
fn judge(s: State, journal: &[u8], message: &[u8]) -> Result<(), Refusal>
    ensures { refused_by result ≡ first_broken (settle_rules s (lend journal.now message.now)) }
{
    rules::judge_idle(s, journal, message)?;
    if s.is_pending() {
        return Err(Refusal::ReversalPending);
    }
    if s.is_uploading() {
        return Err(Refusal::Closing);
    }
    Ok(())
}
