// What the desk keys, the request that it makes, and the rules of start that need no look at a journal (document 01, "Calls").
#![tactic(auto)]

ghost use Rattle.std.specs.Prelude.{◌≡◌, ◌&&◌, ◌≤◌, length};
ghost use Rattle.checks.specs.Checks.{first_broken};
ghost use Rattle.checks.specs.Refusals.{refused_by};
ghost use Rattle.numbers.specs.Numbers.{within};
ghost use Rattle.state.specs.State.{chip_of};
ghost use Rattle.desk.specs.DeskRules.{sends_field55, chip_from, chip_rules, desk_in_form, request_of, rest_rules, desk_rules, journal_rules};

use checks::Refusal;
use entry::Entry;
use kinds::Totals;
use numbers::Trace;
use state::{Card, Chip, Request, State};

// What the desk keys for a request; the original is the trace of the entry that a void is for. Whether the card is read by its chip, whose
// field 55 stands beside it.
#[derive(Clone, Copy)]
pub struct Desk {
    pub kind: u8,
    pub amount: u64,
    pub card: Card,
    pub original: Trace,
    pub month: u8,
    pub day: u8,
    pub authorisation: [u8; 6],
    pub reference: [u8; 12],
    pub chip: bool,
}

// The chip of a request, where the kind sends field 55 and it is in form.
pub fn chip_from(d: Desk, chip: &[u8]) -> Chip
    ensures { first_broken (chip_rules d chip.now) ≡ 0 → result ≡ chip_from d chip.now }
{
    if sends_field55(d) {
        chip_of(chip)
    } else {
        Chip::none()
    }
}

// Rule 23: the desk's field 55, where it is to be sent, is in form.
#[tactic(auto, unfolding(checks::specs::Checks::first_broken))]
pub fn judge_chip(d: Desk, chip: &[u8]) -> Result<(), Refusal>
    ensures { refused_by result ≡ first_broken (chip_rules d chip.now) }
{
    if sends_field55(d) && !elements::chip_in_form(chip) {
        return Err(Refusal::BadChip);
    }
    Ok(())
}

// What a request is for: card and amount are the original's or the desk's.
pub fn request_of(d: Desk, e: Entry, trace: Trace) -> Request
    ensures { result ≡ request_of d e trace.0 }
{
    if kinds::takes_original(d.kind) {
        Request {
            kind: d.kind,
            amount: e.amount,
            card: approval::card_of(e),
            trace,
            original: d.original,
        }
    } else {
        Request {
            kind: d.kind,
            amount: d.amount,
            card: d.card,
            trace,
            original: Trace(0),
        }
    }
}

// The first of rules 10 to 13 that is broken.
#[tactic(auto, unfolding(checks::specs::Checks::first_broken))]
pub fn judge_rest(s: State) -> Result<(), Refusal>
    ensures { refused_by result ≡ first_broken (rest_rules s) }
{
    if !s.signed_on {
        return Err(Refusal::SignedOff);
    }
    if s.is_waiting() {
        return Err(Refusal::Awaiting);
    }
    if s.is_pending() {
        return Err(Refusal::ReversalPending);
    }
    if s.is_closing() {
        return Err(Refusal::Closing);
    }
    Ok(())
}

// The first of rules 15 to 17 that is broken.
#[tactic(auto, unfolding(checks::specs::Checks::first_broken, numbers::specs::Numbers::within))]
pub fn judge_desk(d: Desk, refund: u64) -> Result<(), Refusal>
    ensures { refused_by result ≡ first_broken (desk_rules d refund) }
{
    if !kinds::takes_original(d.kind) && !(1..=numbers::LARGEST_AMOUNT).contains(&d.amount) {
        return Err(Refusal::AmountOutOfRange);
    }
    if !desk_in_form(d) {
        return Err(Refusal::DeskOutOfForm);
    }
    if kinds::is_refund(d.kind) && refund < d.amount {
        return Err(Refusal::RefundTooLarge);
    }
    Ok(())
}

// The first of rules 18 to 21 that is broken.
#[tactic(auto, unfolding(checks::specs::Checks::first_broken))]
pub fn judge_journal(
    s: State,
    d: Desk,
    totals: Totals,
    place: Option<u16>,
    e: Entry,
) -> Result<(), Refusal>
    ensures { refused_by result ≡ first_broken (journal_rules d s totals place e) }
{
    let void = kinds::takes_original(d.kind);
    if s.settings.limit <= u32::from(s.entries) || numbers::MOST_REQUESTS <= s.counts.sent {
        return Err(Refusal::Full);
    }
    if void && place.is_none() {
        return Err(Refusal::NoSuchEntry);
    }
    if void && e.voided != 0 {
        return Err(Refusal::VoidedAlready);
    }
    if state_rules::is_past(d.kind, amount_of(d, e), totals) {
        return Err(Refusal::TotalTooLarge);
    }
    Ok(())
}

// Whether the request sends the desk's field 55.
fn sends_field55(d: Desk) -> bool
    ensures { result ≡ sends_field55 d }
{
    d.chip && kinds::sends_chip(d.kind)
}

// Up to 255 bytes as a chip's field 55.
fn chip_of(b: &[u8]) -> Chip
    ensures { length b.now ≤ 255 → result ≡ chip_of b.now }
{
    if 255 < b.len() {
        return Chip::none();
    }
    let mut bytes = [0; 255];
    digits::copy(b, &mut bytes);
    Chip {
        length: b.len() as u8,
        bytes,
        ..Chip::none()
    }
}

// Whether what the kind sends of the desk's data is in form.
#[tactic(auto, unfolding(crate::specs::DeskRules::desk_in_form))]
fn desk_in_form(d: Desk) -> bool
    ensures { result ≡ desk_in_form d }
{
    kinds::is_kind(d.kind)
        && (kinds::takes_original(d.kind) || state_rules::is_card(d.card))
        && (!kinds::keys_date(d.kind) || is_date(d.month, d.day))
        && (!kinds::keys_reference(d.kind) || field::all_printable(&d.reference))
        && (!kinds::keys_authorisation(d.kind) || field::all_printable(&d.authorisation))
}

// Whether a month and a day are those of a date.
#[tactic(auto, unfolding(numbers::specs::Numbers::within))]
fn is_date(month: u8, day: u8) -> bool
    ensures { result ≡ (within 1 month 12 && within 1 day 31) }
{
    (1..=12).contains(&month) && (1..=31).contains(&day)
}

// The amount of a request: the original's or the desk's.
fn amount_of(d: Desk, e: Entry) -> u64
    ensures { result ≡ (request_of d e 0).amount }
{
    if kinds::takes_original(d.kind) {
        e.amount
    } else {
        d.amount
    }
}
