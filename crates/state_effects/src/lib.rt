// How a call changes the state (document 01, "Calls"): by value, without a buffer.
#![tactic(auto)]

ghost use Rattle.std.specs.Prelude.{◌≡◌, ◌<◌};
ghost use Rattle.numbers.specs.Limits.{most_sendings};
ghost use Rattle.state.specs.State.{CountsSmall, CountsBounded, Bookable};
ghost use Rattle.effect_definitions.specs.StateEffects.{adopts, asks_sign_on, sign_on_ended, on, on_sign_on, requested, ended, pending_or_unanswered, silence_of, failed, one_more, on_reversal, on_settlement, on_end, again, settles, ending};

use message::Message;
use numbers::{Batch, Trace};
use state::{Awaited, Chip, Count, Phase, Reason, Request, Reversal, State};

// Whether signing on adopts the batch number: no card request has left in this batch, and the terminal rests.
#[tactic(auto, unfolding(effect_definitions::specs::StateEffects::adopts))]
fn adopts(s: State) -> bool
    ensures { result ≡ adopts s }
{
    s.counts.sent == 0 && s.is_resting()
}

// The state signed on in a batch.
fn on(s: State, batch: Batch) -> State
    ensures { result ≡ on batch s }
{
    s.in_batch(batch).signed(true)
}

// The state in which the answer to a sign-on is awaited.
pub fn asks_sign_on(s: State, trace: Trace) -> State
    ensures { result ≡ asks_sign_on s trace }
{
    s.took(trace).with_sign_on(trace)
}

// The state once a sign-on has ended.
pub fn sign_on_ended(s: State) -> State
    ensures { result ≡ sign_on_ended s }
{
    s.with_sign_on(Trace(0))
}

// An answer to a sign-on.
#[tactic(auto, unfolding(effect_definitions::specs::StateEffects::on_sign_on))]
pub fn on_sign_on(s: State, m: &Message) -> State
    ensures { result ≡ on_sign_on m.now s }
{
    let ended = sign_on_ended(s);
    if !answer_match::approves(m) {
        return ended;
    }
    let batch = if adopts(s) {
        answer_match::batch_in(m)
    } else {
        s.batch
    };
    on(ended, batch)
}

// The state in which the request is awaited.
pub fn requested(s: State, chip: Chip, q: Request) -> State
    ensures { CountsSmall s.counts → result ≡ requested s chip q }
{
    s.with_counts(s.counts.plus(Count::Sent))
        .took(q.trace)
        .with_chip(chip)
        .in_phase(Phase::Waiting(Awaited::Request(q)))
}

// The state with one card request more that has ended so; its chip is forgotten, and the terminal rests.
pub fn ended(s: State, count: Count) -> State
    ensures { CountsBounded s → result ≡ ended count s }
{
    s.with_counts(s.counts.plus(count))
        .with_chip(Chip::none())
        .in_phase(Phase::Resting)
}

// Why an awaited card request is reversed where nothing comes: the card is silent, or the line.
pub fn silence_of(s: State) -> Reason
    ensures { result ≡ silence_of s }
{
    if s.chip.approved {
        Reason::CardDeclined
    } else {
        Reason::Silence
    }
}

// Silence, a bad MAC or a card that declines, after a card request.
#[tactic(auto, unfolding(effect_definitions::specs::StateEffects::pending_or_unanswered))]
pub fn pending_or_unanswered(s: State, q: Request, reason: Reason) -> State
    ensures { CountsBounded s → result ≡ pending_or_unanswered reason q s }
{
    if kinds::is_never_reversed(q.kind) {
        return ended(s, Count::Unanswered);
    }
    let reversal = Reversal {
        request: q,
        reason,
        sendings: 0,
    };
    s.with_chip(s.chip.as_sent())
        .in_phase(Phase::Pending(reversal))
}

// A reversal's sending has failed.
#[tactic(auto, unfolding(effect_definitions::specs::StateEffects::failed))]
pub fn failed(s: State, v: Reversal) -> State
    ensures { CountsBounded s → result ≡ failed v s }
{
    if s.settings.sendings <= v.sendings {
        ended(s, Count::GivenUp)
    } else {
        s.in_phase(Phase::Pending(v))
    }
}

// An approval: one entry more, its amount booked, and the request counted.
pub fn one_more(s: State, kind: u8, amount: u64) -> State
    ensures { Bookable amount s → result ≡ one_more kind amount s }
{
    ended(s, Count::Approved)
        .with_entries(s.entries.wrapping_add(1))
        .with_totals(s.totals.plus(kind, amount))
}

// An answer to a reversal.
#[tactic(auto, unfolding(effect_definitions::specs::StateEffects::on_reversal))]
pub fn on_reversal(s: State, v: Reversal, m: &Message, good: bool) -> State
    ensures { CountsBounded s → result ≡ on_reversal good m.now v s }
{
    if answer_match::ends_reversal(good, m) {
        ended(s, Count::Reversed)
    } else {
        failed(s, v)
    }
}

// An answer to a settlement.
#[tactic(auto, unfolding(effect_definitions::specs::StateEffects::on_settlement))]
pub fn on_settlement(s: State, m: &Message) -> State
    ensures { result ≡ on_settlement m.now s }
{
    if answer_match::closes_batch(m) {
        s.closed()
    } else {
        s.in_phase(Phase::Uploading)
    }
}

// An answer to the upload's end.
#[tactic(auto, unfolding(effect_definitions::specs::StateEffects::on_end))]
pub fn on_end(s: State, m: &Message) -> State
    ensures { result ≡ on_end m.now s }
{
    if answer_match::approves(m) {
        s.closed()
    } else {
        s.in_phase(Phase::Uploading)
    }
}

// A reversal with one sending more, where there is room for it.
pub fn again(v: Reversal) -> Reversal
    ensures { v.sendings < most_sendings → result ≡ again v }
{
    Reversal {
        sendings: v.sendings.wrapping_add(1),
        ..v
    }
}

// The state in which the settlement is awaited.
pub fn settles(s: State, trace: Trace) -> State
    ensures { result ≡ settles s trace }
{
    s.took(trace)
        .in_phase(Phase::Waiting(Awaited::Settlement(trace)))
}

// The state in which the upload's end is awaited.
pub fn ending(s: State, trace: Trace) -> State
    ensures { result ≡ ending s trace }
{
    s.took(trace).in_phase(Phase::Waiting(Awaited::End(trace)))
}
