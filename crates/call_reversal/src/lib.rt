// Send reversal (document 01, "Calls").
#![tactic(auto)]

ghost use Rattle.std.specs.Prelude.{◌≡◌, ◌≤◌, length};
ghost use Rattle.message.specs.Message.{largest};
ghost use Rattle.state.specs.Calls.{lend, result_of};
ghost use Rattle.outgoing.specs.Held.{CardHeld};
ghost use Rattle.call_definitions.specs.SendReversal.{sends_reversal, send_reversal};

use checks::Refusal;
use state::{Awaited, Called, Phase, Reversal, State};

// Sends the pending reversal.
pub fn send_reversal(s: State, journal: &mut [u8], message: &mut [u8]) -> Called
    ensures { result_of result (lend journal.new message.new) ≡ send_reversal s (lend journal.old message.old) }
{
    if let Err(e) = rules::judge_idle(s, journal, message) {
        return Called::refused(s, e.into());
    }
    let Phase::Pending(v) = s.phase else {
        return Called::refused(s, Refusal::NothingAwaited.into());
    };
    send(s, state_effects::again(v), journal, message)
}

// A reversal leaves and is awaited.
fn send(s: State, v: Reversal, journal: &[u8], message: &mut [u8]) -> Called
    requires { CardHeld s.settings s.chip v.request × (largest ≤ length message.old) }
    ensures { result_of result (lend journal.now message.new) ≡ sends_reversal v s (lend journal.now message.old) }
{
    let m = outgoing::reversal_message(s.settings, s.batch, s.chip, v);
    let n = outgoing::write_outgoing(&m, message);
    Called::sends(s.in_phase(Phase::Waiting(Awaited::Reversal(v))), n)
}
