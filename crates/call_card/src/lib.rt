// Card agrees, card declines (document 02, request 1).
#![tactic(auto)]

ghost use Rattle.std.specs.Prelude.{◌≡◌};
ghost use Rattle.checks.specs.Checks.{first_broken};
ghost use Rattle.checks.specs.Refusals.{refused_by};
ghost use Rattle.state.specs.Calls.{lend, result_of};
ghost use Rattle.call_definitions.specs.Answer.{card_rules, card_agrees, card_declines};

use checks::Refusal;
use state::{Called, State};

// The card agrees to the request that the centre has approved.
pub fn card_agrees(s: State, journal: &mut [u8], message: &mut [u8]) -> Called
    ensures { result_of result (lend journal.new message.new) ≡ card_agrees s (lend journal.old message.old) }
{
    if let Err(e) = judge(s, journal, message) {
        return Called::refused(s, e.into());
    }
    Called::quiet(journal_effects::agreed_in(s, journal))
}

// The card declines it.
pub fn card_declines(s: State, journal: &mut [u8], message: &mut [u8]) -> Called
    ensures { result_of result (lend journal.new message.new) ≡ card_declines s (lend journal.old message.old) }
{
    if let Err(e) = judge(s, journal, message) {
        return Called::refused(s, e.into());
    }
    Called::quiet(journal_effects::silent_in(s, journal))
}

// The first rule that refuses.
#[tactic(auto, unfolding(checks::specs::Checks::first_broken))]
fn judge(s: State, journal: &[u8], message: &[u8]) -> Result<(), Refusal>
    ensures { refused_by result ≡ first_broken (card_rules s (lend journal.now message.now)) }
{
    rules::judge(s, journal, message)?;
    if !s.chip.approved {
        return Err(Refusal::NothingAwaited);
    }
    Ok(())
}
