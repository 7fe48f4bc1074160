// Rule 2 of document 01 for settings and state, and the bound of rule 21: by value, without a journal.
#![tactic(auto)]

ghost use Rattle.std.specs.Prelude.{◌≡◌, ◌≤◌};
ghost use Rattle.state_rules.specs.StateRules.{settings_in_form, is_card, request_in_form, reversal_in_form, awaited_in_form, phase_in_form, kind_in, amount_in, request_awaited, approval_in_form, answered_kept, consent_kept, chip_kept, sign_on_kept, state_in_form, waiting, balanced, state_kept, exceeds, past, sums_kept};

use kinds::{Side, Totals};
use state::{Approval, Awaited, Card, Chip, Counts, Phase, Request, Reversal, Settings, State};

// Whether a card number has 13 to 19 digits, and no more than it says.
#[tactic(auto, unfolding(crate::specs::StateRules::is_card, numbers::specs::Numbers::within))]
pub fn is_card(card: Card) -> bool
    ensures { result ≡ is_card card }
{
    (13..=19).contains(&card.length) && card.number < 10u64.pow(u32::from(card.length))
}

// Whether a kind's total would pass 999,999,999,999.
#[tactic(auto, unfolding(crate::specs::StateRules::past))]
pub fn is_past(kind: u8, amount: u64, t: Totals) -> bool
    ensures { result ≡ past kind amount t }
{
    match kinds::side_of(kind) {
        Side::Debit => exceeds(t.debit, amount),
        Side::Credit => exceeds(t.credit, amount),
        Side::Neither => false,
    }
}

// Rule 21 of the sums that a journal has.
#[tactic(auto, unfolding(crate::specs::StateRules::sums_kept))]
pub fn sums_kept(t: Totals) -> bool
    ensures { result ≡ sums_kept t }
{
    t.debit <= numbers::LARGEST_TOTAL && t.credit <= numbers::LARGEST_TOTAL
}

// How many card requests are undecided.
pub fn waiting_in(p: Phase) -> u64
    ensures { (result ≡ waiting p) × (result ≤ 1) }
{
    match p {
        Phase::Waiting(Awaited::Request(_) | Awaited::Reversal(_)) | Phase::Pending(_) => 1,
        _ => 0,
    }
}

// Rule 2, settings and state, by the totals of the journal.
#[tactic(auto, unfolding(crate::specs::StateRules::state_kept, crate::specs::StateRules::totals_true))]
pub fn state_kept(s: State, found: Totals) -> bool
    ensures { result ≡ state_kept s found }
{
    settings_in_form(s.settings)
        && state_in_form(s)
        && u32::from(s.entries) <= s.settings.limit
        && is_balanced(s.counts, waiting_in(s.phase), s.entries)
        && s.totals == found
}

#[tactic(auto, unfolding(crate::specs::StateRules::settings_in_form, numbers::specs::Numbers::within))]
fn settings_in_form(x: Settings) -> bool
    ensures { result ≡ settings_in_form x }
{
    (1..=numbers::MOST_ENTRIES).contains(&x.limit)
        && (1..=numbers::MOST_SENDINGS).contains(&x.sendings)
        && numbers::is_within(1, x.refund, numbers::LARGEST_AMOUNT)
        && field::all_printable(&x.terminal)
        && field::all_printable(&x.merchant)
}

#[tactic(auto, unfolding(crate::specs::StateRules::request_in_form))]
fn request_in_form(q: Request) -> bool
    ensures { result ≡ request_in_form q }
{
    let original = q.original.0;
    kinds::is_kind(q.kind)
        && numbers::is_within(1, q.amount, numbers::LARGEST_AMOUNT)
        && is_card(q.card)
        && numbers::is_number(q.trace.0)
        && if kinds::takes_original(q.kind) {
            numbers::is_number(original)
        } else {
            original == 0
        }
}

#[tactic(auto, unfolding(crate::specs::StateRules::reversal_in_form))]
fn reversal_in_form(v: Reversal) -> bool
    ensures { result ≡ reversal_in_form v }
{
    request_in_form(v.request) && !kinds::is_never_reversed(v.request.kind)
}

fn awaited_in_form(a: Awaited) -> bool
    ensures { result ≡ awaited_in_form a }
{
    match a {
        Awaited::Request(q) => request_in_form(q),
        Awaited::Reversal(v) => reversal_in_form(v),
        Awaited::Settlement(x) | Awaited::End(x) => numbers::is_number(x.0),
        Awaited::Item(_) => true,
    }
}

fn phase_in_form(p: Phase) -> bool
    ensures { result ≡ phase_in_form p }
{
    match p {
        Phase::Waiting(a) => awaited_in_form(a),
        Phase::Pending(v) => reversal_in_form(v),
        Phase::Resting | Phase::Settling | Phase::Uploading => true,
    }
}

#[tactic(auto, unfolding(crate::specs::StateRules::state_in_form))]
fn state_in_form(s: State) -> bool
    ensures { result ≡ state_in_form s }
{
    numbers::is_number(s.batch.0)
        && numbers::is_number(s.next.0)
        && s.counts.sent <= numbers::MOST_REQUESTS
        && phase_in_form(s.phase)
        && chip_kept(s.phase, s.chip)
        && sign_on_kept(s)
}

// Whether no sign-on is awaited, or one with a trace over a phase that is no wait.
#[tactic(auto, unfolding(crate::specs::StateRules::sign_on_kept))]
fn sign_on_kept(s: State) -> bool
    ensures { result ≡ sign_on_kept s.phase s.sign_on }
{
    s.sign_on.0 == 0 || numbers::is_number(s.sign_on.0) && !s.phase.waits()
}

// The kind of the request that is awaited or reversed, 0 where there is none.
fn kind_in(p: Phase) -> u8
    ensures { result ≡ kind_in p }
{
    match p {
        Phase::Waiting(Awaited::Request(q)) => q.kind,
        Phase::Waiting(Awaited::Reversal(v)) | Phase::Pending(v) => v.request.kind,
        _ => 0,
    }
}

// The amount that the awaited request asks for, 0 where there is none.
fn amount_in(p: Phase) -> u64
    ensures { result ≡ amount_in p }
{
    match p {
        Phase::Waiting(Awaited::Request(q)) => q.amount,
        _ => 0,
    }
}

// Whether a card request is awaited.
fn request_awaited(p: Phase) -> bool
    ensures { result ≡ request_awaited p }
{
    matches!(p, Phase::Waiting(Awaited::Request(_)))
}

#[tactic(auto, unfolding(crate::specs::StateRules::approval_in_form))]
fn approval_in_form(a: Approval) -> bool
    ensures { result ≡ approval_in_form a }
{
    digits::is_packed(&a.date, 4)
        && field::all_printable(&a.authorisation)
        && field::all_printable(&a.reference)
}

// Whether an amount may have been approved for the awaited request: a part of what it asks only where its kind allows it.
#[tactic(auto, unfolding(crate::specs::StateRules::answered_kept))]
fn answered_kept(p: Phase, amount: u64) -> bool
    ensures { result ≡ answered_kept p amount }
{
    if kinds::allows_partial(kind_in(p)) {
        numbers::is_within(1, amount, amount_in(p))
    } else {
        amount == amount_in(p)
    }
}

// Whether the card's word is awaited only where the request is.
#[tactic(auto, unfolding(crate::specs::StateRules::consent_kept))]
fn consent_kept(p: Phase, chip: Chip) -> bool
    ensures { result ≡ consent_kept p chip }
{
    !chip.approved
        || request_awaited(p)
            && chip.length != 0
            && approval_in_form(chip.approval())
            && answered_kept(p, chip.amount)
}

// Whether a chip stands only where its request is awaited or reversed, and passes 23.
#[tactic(auto, unfolding(crate::specs::StateRules::chip_kept))]
fn chip_kept(p: Phase, chip: Chip) -> bool
    ensures { result ≡ chip_kept p chip }
{
    (chip.length == 0
        || kinds::sends_chip(kind_in(p))
            && elements::chip_in_form(&chip.bytes[..usize::from(chip.length)]))
        && consent_kept(p, chip)
}

#[tactic(auto, unfolding(crate::specs::StateRules::balanced))]
fn is_balanced(c: Counts, undecided: u64, n: u16) -> bool
    requires { undecided ≤ 1 }
    ensures { result ≡ balanced c undecided n }
{
    let decided = u64::from(c.approved)
        + u64::from(c.declined)
        + u64::from(c.reversed)
        + u64::from(c.given_up)
        + u64::from(c.unanswered);
    u64::from(c.sent) == decided + undecided && c.approved == u32::from(n)
}

fn exceeds(total: u64, amount: u64) -> bool
    ensures { result ≡ exceeds total amount }
{
    total.saturating_add(amount) > numbers::LARGEST_TOTAL
}
