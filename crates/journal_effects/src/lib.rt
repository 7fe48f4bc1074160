// What silence, an answer and a resend leave of state and journal (document 01, "Calls").
#![tactic(auto)]

ghost use Rattle.std.specs.Prelude.{◌≡◌, ◌+◌, ◌<◌};
ghost use Rattle.journal.specs.Journal.{entries_of, entry_at};
ghost use Rattle.approval.specs.Approval.{approval_of};
ghost use Rattle.state.specs.State.{CountsBounded, Bookable};
ghost use Rattle.effect_definitions.specs.JournalEffects.{changed, silent_mark, marked, silent, silent_in, unanswered, voided_at, original_voided, approved, granted, on_request, agreed, agreed_in, on_item, answered, resent};

use entry::Entry;
use message::Message;
use state::{Awaited, Count, Phase, Reason, Request, State};

// What silence leaves of what is awaited.
#[tactic(auto, unfolding(effect_definitions::specs::JournalEffects::silent))]
fn silent(s: State, a: Awaited, journal: &mut [u8]) -> State
    ensures { CountsBounded s → changed result journal.new ≡ silent a s journal.old }
{
    match a {
        Awaited::Request(q) => {
            state_effects::pending_or_unanswered(s, q, state_effects::silence_of(s))
        }
        Awaited::Reversal(v) => state_effects::failed(s, v),
        Awaited::Settlement(_) => s.in_phase(Phase::Settling),
        Awaited::Item(i) => {
            silent_item(i, s.settings.sendings, s.entries, journal);
            s.in_phase(Phase::Uploading)
        }
        Awaited::End(_) => s.in_phase(Phase::Uploading),
    }
}

// What is awaited is silent; in another phase all stays.
pub fn silent_in(s: State, journal: &mut [u8]) -> State
    ensures { CountsBounded s → changed result journal.new ≡ silent_in s.phase s journal.old }
{
    let Phase::Waiting(a) = s.phase else {
        return s;
    };
    silent(s, a, journal)
}

// No answer to what is awaited, be it a sign-on.
#[tactic(auto, unfolding(effect_definitions::specs::JournalEffects::unanswered))]
pub fn unanswered(s: State, journal: &mut [u8]) -> State
    ensures { CountsBounded s → changed result journal.new ≡ unanswered s journal.old }
{
    if s.signs_on() {
        state_effects::sign_on_ended(s)
    } else {
        silent_in(s, journal)
    }
}

// What an answer leaves of what is awaited.
#[tactic(auto, unfolding(effect_definitions::specs::JournalEffects::answered))]
pub fn answered(s: State, a: Awaited, m: &Message, good: bool, journal: &mut [u8]) -> State
    ensures { Bookable (approval_of m.now).amount s → changed result journal.new ≡ answered good m.now a s journal.old }
{
    match a {
        Awaited::Request(q) => on_request(s, q, m, good, journal),
        Awaited::Reversal(v) => state_effects::on_reversal(s, v, m, good),
        Awaited::Settlement(_) => state_effects::on_settlement(s, m),
        Awaited::Item(i) => {
            on_item(i, m, journal);
            s.in_phase(Phase::Uploading)
        }
        Awaited::End(_) => state_effects::on_end(s, m),
    }
}

// The card agrees to the request that is awaited; in another phase all stays.
#[tactic(auto, unfolding(effect_definitions::specs::JournalEffects::agreed, approval::specs::Approval::approved_entry))]
pub fn agreed_in(s: State, journal: &mut [u8]) -> State
    ensures { Bookable s.chip.amount s → changed result journal.new ≡ agreed_in s.phase s journal.old }
{
    let Phase::Waiting(Awaited::Request(q)) = s.phase else {
        return s;
    };
    let e = approval::approved_entry(q, s.chip.approval());
    approved(s, q, e, journal)
}

// Counts a resend of entry i, where there is room for it; its first sending is none.
#[tactic(auto, unfolding(effect_definitions::specs::JournalEffects::resent))]
pub fn resend(i: u16, e: Entry, journal: &mut [u8])
    ensures { e.resends < 255 → journal.new ≡ resent i e journal.old }
{
    if e.mark != 0 {
        journal::set_byte(journal, i, Entry::RESENDS, e.resends.wrapping_add(1));
    }
}

// The upload mark of an item that was not answered.
#[tactic(auto, unfolding(effect_definitions::specs::JournalEffects::silent_mark))]
fn silent_mark(e: Entry, sendings: u8) -> u8
    ensures { result ≡ silent_mark sendings e }
{
    if e.mark != 0 && sendings <= e.resends {
        Entry::GIVEN_UP
    } else {
        Entry::SILENT
    }
}

// An item was not answered.
fn silent_item(i: u16, sendings: u8, n: u16, journal: &mut [u8])
    ensures { journal.new ≡ marked i (silent_mark sendings (entry_at (entries_of n journal.old) i)) journal.old }
{
    let e = journal::entry_at(journal, n, i);
    journal::set_byte(journal, i, Entry::MARK, silent_mark(e, sendings));
}

// Marks the entry that a void was for.
#[tactic(auto, unfolding(effect_definitions::specs::JournalEffects::original_voided))]
fn void_original(q: Request, n: u16, journal: &mut [u8])
    ensures { journal.new ≡ original_voided q (entries_of n journal.old) journal.old }
{
    if kinds::takes_original(q.kind) {
        if let Some(i) = journal::find_original(journal, n, q.kind, q.original) {
            journal::set_byte(journal, i, Entry::VOIDED, 1);
        }
    }
}

// A request is approved: its entry is written.
#[tactic(auto, unfolding(effect_definitions::specs::JournalEffects::approved))]
fn approved(s: State, q: Request, e: Entry, journal: &mut [u8]) -> State
    ensures { Bookable e.amount s → changed result journal.new ≡ approved q e s journal.old }
{
    void_original(q, s.entries, journal);
    journal::put_entry(journal, s.entries, e);
    state_effects::one_more(s, e.kind, e.amount)
}

// A good approval: without a chip it is the last word; with one the card has that.
#[tactic(auto, unfolding(effect_definitions::specs::JournalEffects::granted, approval::specs::Approval::approved_entry))]
fn granted(s: State, q: Request, m: &Message, journal: &mut [u8]) -> State
    ensures { Bookable (approval_of m.now).amount s → changed result journal.new ≡ granted m.now q s journal.old }
{
    let approval = approval::approval_of(m);
    if s.chip.length == 0 {
        approved(s, q, approval::approved_entry(q, approval), journal)
    } else {
        s.with_chip(s.chip.approved_by(approval))
    }
}

// An answer to a card request.
#[tactic(auto, unfolding(effect_definitions::specs::JournalEffects::on_request))]
fn on_request(s: State, q: Request, m: &Message, good: bool, journal: &mut [u8]) -> State
    ensures { Bookable (approval_of m.now).amount s → changed result journal.new ≡ on_request good m.now q s journal.old }
{
    if !answer_match::approves_request(q.kind, m) {
        state_effects::ended(s, Count::Declined)
    } else if answer_match::is_good(good, m) {
        granted(s, q, m, journal)
    } else {
        state_effects::pending_or_unanswered(s, q, Reason::BadMac)
    }
}

// An answer to an upload item.
#[tactic(auto, unfolding(effect_definitions::specs::JournalEffects::on_item))]
fn on_item(i: u16, m: &Message, journal: &mut [u8])
    ensures { journal.new ≡ on_item m.now i journal.old }
{
    let mark = if answer_match::approves(m) {
        Entry::ACCEPTED
    } else {
        Entry::REJECTED
    };
    journal::set_byte(journal, i, Entry::MARK, mark);
}
