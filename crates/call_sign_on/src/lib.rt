// Sign on (document 02, request 3).
#![tactic(auto)]

ghost use Rattle.std.specs.Prelude.{◌≡◌};
ghost use Rattle.checks.specs.Checks.{first_broken};
ghost use Rattle.checks.specs.Refusals.{refused_by};
ghost use Rattle.state.specs.Calls.{lend, result_of};
ghost use Rattle.call_definitions.specs.SignOn.{sign_on_rules, sign_on};

use checks::Refusal;
use state::{Called, State};

// Asks the centre for a sign-on.
pub fn sign_on(s: State, journal: &mut [u8], message: &mut [u8]) -> Called
    ensures { result_of result (lend journal.new message.new) ≡ sign_on s (lend journal.old message.old) }
{
    if let Err(e) = judge(s, journal, message) {
        return Called::refused(s, e.into());
    }
    let trace = traces::take(journal, s.entries, s.next);
    let m = batch_messages::sign_on_message(s.settings, s.batch, trace);
    let n = outgoing::write_outgoing(&m, message);
    Called::sends(state_effects::asks_sign_on(s, trace), n)
}

// The first rule that refuses.
#[tactic(auto, unfolding(checks::specs::Checks::first_broken))]
fn judge(s: State, journal: &[u8], message: &[u8]) -> Result<(), Refusal>
    ensures { refused_by result ≡ first_broken (sign_on_rules s (lend journal.now message.now)) }
{
    rules::judge(s, journal, message)?;
    if s.is_waiting() {
        return Err(Refusal::Awaiting);
    }
    Ok(())
}
