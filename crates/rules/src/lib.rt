// Rules 1 and 2 of document 01, "Why a call is turned down".
#![tactic(auto)]

ghost use Rattle.std.specs.Prelude.{◌≡◌};
ghost use Rattle.entry.specs.Form.{due_entry};
ghost use Rattle.journal.specs.Journal.{entries_of, totals_of};
ghost use Rattle.checks.specs.Checks.{first_broken};
ghost use Rattle.checks.specs.Refusals.{refused_by};
ghost use Rattle.state.specs.Calls.{lend};
ghost use Rattle.rules.specs.Rules.{journal_kept, awaited_in_upload, in_upload, item_in, awaited_item, unvoided_at, original_unvoided, request_kept, awaited_kept, phase_kept, keeps_rule2, rules12, report_rules, idle_rules};

use checks::Refusal;
use entry::Entry;
use journal::Query;
use kinds::Totals;
use message::Message;
use state::{Awaited, Phase, Request, Settings, State};

// Rule 2, the journal of n entries: by its totals, the sendings set, whether it is the upload, and the place of the awaited item.
pub fn journal_kept(
    journal: &[u8],
    n: u16,
    totals: Totals,
    sendings: u8,
    uploading: bool,
    item: Option<u16>,
) -> bool
    ensures { totals ≡ totals_of (entries_of n journal.now) → result ≡ journal_kept sendings due_entry uploading item (entries_of n journal.now) }
{
    journal::all_fit(journal, n, sendings, uploading, item)
        && traces::are_distinct(journal, n)
        && state_rules::sums_kept(totals)
}

// Rule 2: whether settings, state and journal break no rule.
#[tactic(auto, unfolding(crate::specs::Rules::keeps_rule2))]
pub fn keeps_rule2(s: State, journal: &[u8]) -> bool
    ensures { result ≡ keeps_rule2 s (entries_of s.entries journal.now) }
{
    let n = s.entries;
    let totals = journal::totals_of(journal, n);
    state_rules::state_kept(s, totals)
        && journal_kept(
            journal,
            n,
            totals,
            s.settings.sendings,
            in_upload(s.phase),
            awaited_item(s.phase),
        )
        && phase_kept(s.settings, journal, n, totals, s.phase)
}

// The first of rules 1 and 2 that is broken.
#[tactic(auto, unfolding(checks::specs::Checks::first_broken, crate::specs::Rules::too_short))]
pub fn judge(s: State, journal: &[u8], message: &[u8]) -> Result<(), Refusal>
    ensures { refused_by result ≡ first_broken (rules12 s (lend journal.now message.now)) }
{
    if message.len() < Message::LARGEST {
        return Err(Refusal::TooSmall);
    }
    judge_report(s, journal)
}

// The same for a report on terminal and journal, which is lent no message buffer.
#[tactic(auto, unfolding(checks::specs::Checks::first_broken))]
pub fn judge_report(s: State, journal: &[u8]) -> Result<(), Refusal>
    ensures { refused_by result ≡ first_broken (report_rules s journal.now) }
{
    if journal.len() < Entry::SIZE * s.settings.limit as usize {
        return Err(Refusal::TooSmall);
    }
    if !keeps_rule2(s, journal) {
        return Err(Refusal::OutOfForm);
    }
    Ok(())
}

// The first of rules 1, 2, 10 and 11 that is broken.
#[tactic(auto, unfolding(checks::specs::Checks::first_broken))]
pub fn judge_idle(s: State, journal: &[u8], message: &[u8]) -> Result<(), Refusal>
    ensures { refused_by result ≡ first_broken (idle_rules s (lend journal.now message.now)) }
{
    judge(s, journal, message)?;
    if !s.signed_on {
        return Err(Refusal::SignedOff);
    }
    if s.is_waiting() {
        return Err(Refusal::Awaiting);
    }
    Ok(())
}

fn awaited_in_upload(a: Awaited) -> bool
    ensures { result ≡ awaited_in_upload a }
{
    matches!(a, Awaited::Item(_) | Awaited::End(_))
}

fn in_upload(p: Phase) -> bool
    ensures { result ≡ in_upload p }
{
    match p {
        Phase::Waiting(a) => awaited_in_upload(a),
        Phase::Uploading => true,
        _ => false,
    }
}

fn item_in(a: Awaited) -> Option<u16>
    ensures { result ≡ item_in a }
{
    match a {
        Awaited::Item(i) => Some(i),
        _ => None,
    }
}

fn awaited_item(p: Phase) -> Option<u16>
    ensures { result ≡ awaited_item p }
{
    match p {
        Phase::Waiting(a) => item_in(a),
        _ => None,
    }
}

fn unvoided_at(place: Option<u16>, journal: &[u8], n: u16) -> bool
    ensures { result ≡ unvoided_at place (entries_of n journal.now) }
{
    match place {
        Some(i) => journal::entry_at(journal, n, i).voided == 0,
        None => false,
    }
}

#[tactic(auto, unfolding(crate::specs::Rules::original_unvoided))]
fn original_unvoided(q: Request, journal: &[u8], n: u16) -> bool
    ensures { result ≡ original_unvoided q.kind q.original.0 (entries_of n journal.now) }
{
    !kinds::takes_original(q.kind)
        || unvoided_at(
            journal::find_original(journal, n, q.kind, q.original),
            journal,
            n,
        )
}

#[tactic(auto, unfolding(crate::specs::Rules::request_kept))]
fn request_kept(limit: u32, journal: &[u8], n: u16, totals: Totals, q: Request) -> bool
    ensures { totals ≡ totals_of (entries_of n journal.now) → result ≡ request_kept limit n (entries_of n journal.now) q }
{
    u32::from(n) < limit
        && !state_rules::is_past(q.kind, q.amount, totals)
        && original_unvoided(q, journal, n)
        && journal::find(journal, n, Query::Trace(q.trace)).is_none()
}

#[tactic(auto, unfolding(numbers::specs::Numbers::within))]
fn awaited_kept(x: Settings, journal: &[u8], n: u16, totals: Totals, a: Awaited) -> bool
    ensures { totals ≡ totals_of (entries_of n journal.now) → result ≡ awaited_kept x n (entries_of n journal.now) a }
{
    match a {
        Awaited::Request(q) => request_kept(x.limit, journal, n, totals, q),
        Awaited::Reversal(v) => (1..=x.sendings).contains(&v.sendings),
        Awaited::Settlement(_) => true,
        Awaited::Item(i) => journal::next_due(journal, n) == Some(i),
        Awaited::End(_) => journal::next_due(journal, n).is_none(),
    }
}

fn phase_kept(x: Settings, journal: &[u8], n: u16, totals: Totals, p: Phase) -> bool
    ensures { totals ≡ totals_of (entries_of n journal.now) → result ≡ phase_kept x n (entries_of n journal.now) p }
{
    match p {
        Phase::Waiting(a) => awaited_kept(x, journal, n, totals, a),
        Phase::Pending(v) => v.sendings < x.sendings,
        Phase::Resting | Phase::Settling | Phase::Uploading => true,
    }
}
