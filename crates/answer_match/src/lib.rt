// What an answer must hold to be one, and what it says (document 01, "Calls").
#![tactic(auto)]

ghost use Rattle.std.specs.Prelude.{◌≡◌, ◌*◌, ◌≤◌, length};
ghost use Rattle.digits.specs.Digits.{pack};
ghost use Rattle.digits.specs.Numbers.{digits_of};
ghost use Rattle.parts.specs.Parts.{matches};
ghost use Rattle.answer_match.specs.Match.{indicator_sent, is_value_within, repeats, matches_sent, approves, approves_request, amount_holds, approval_holds, holds_named, is_answer, batch_in, sign_on_holds, is_sign_on_answer, good_mac, ends_reversal, closes_batch};

use message::Message;
use numbers::{Batch, Trace};
use parts::Part;
use state::{Awaited, Settings};

// Whether field 39 is 00.
pub fn approves(m: &Message) -> bool
    ensures { result ≡ approves m.now }
{
    parts::field_matches(m, 39, b"00")
}

// Whether an answer approves a request of this kind, whole or in part.
#[tactic(auto, unfolding(crate::specs::Match::approves_request))]
pub fn approves_request(kind: u8, m: &Message) -> bool
    ensures { result ≡ approves_request kind m.now }
{
    approves(m) || kinds::allows_partial(kind) && parts::field_matches(m, 39, b"10")
}

// Rule 22: whether a message answers what is awaited, which was sent with this trace.
#[tactic(auto, unfolding(crate::specs::Match::is_answer))]
pub fn is_answer(x: Settings, batch: Batch, trace: Trace, a: Awaited, m: &Message) -> bool
    ensures { result ≡ is_answer x batch trace a m.now }
{
    matches_sent(x, batch, indicator_sent(a), trace, m) && holds_named(a, m)
}

// Rule 22: whether a message answers a sign-on, which was sent with this trace.
#[tactic(auto, unfolding(crate::specs::Match::is_sign_on_answer))]
pub fn is_sign_on_answer(x: Settings, trace: Trace, m: &Message) -> bool
    ensures { result ≡ is_sign_on_answer x trace m.now }
{
    repeats(x, 0x0800, trace, m) && field::named(&m.bitmap, 39) && sign_on_holds(m)
}

// The batch number that an answer brings, 0 where it brings none from 1 to 999999.
#[tactic(auto, unfolding(crate::specs::Match::batch_in))]
pub fn batch_in(m: &Message) -> Batch
    ensures { result ≡ batch_in m.now }
{
    match parts::part_of(m, Part::Batch) {
        Some(n) if numbers::is_within(1, n, u64::from(numbers::LAST_NUMBER)) => Batch(n as u32),
        _ => Batch(0),
    }
}

// Whether the MAC is good.
#[tactic(auto, unfolding(crate::specs::Match::good_mac))]
pub fn is_good(good: bool, m: &Message) -> bool
    ensures { result ≡ good_mac good m.now }
{
    good && field::named(&m.bitmap, 64)
}

// Whether an answer ends a reversal.
#[tactic(auto, unfolding(crate::specs::Match::ends_reversal))]
pub fn ends_reversal(good: bool, m: &Message) -> bool
    ensures { result ≡ ends_reversal good m.now }
{
    approves(m) && is_good(good, m)
        || parts::field_matches(m, 39, b"25")
        || parts::field_matches(m, 39, b"12")
}

// Whether the answer to a settlement closes the batch.
#[tactic(auto, unfolding(crate::specs::Match::closes_batch))]
pub fn closes_batch(m: &Message) -> bool
    ensures { result ≡ closes_batch m.now }
{
    parts::part_of(m, Part::Reconciliation) == Some(1)
}

// The type of what is awaited, as it was sent.
fn indicator_sent(a: Awaited) -> u16
    ensures { (result ≡ indicator_sent a) × (result ≤ 0x0500) }
{
    match a {
        Awaited::Request(q) => kinds::indicator_of(q.kind),
        Awaited::Reversal(_) => 0x0400,
        Awaited::Settlement(_) => 0x0500,
        Awaited::Item(_) | Awaited::End(_) => 0x0320,
    }
}

#[tactic(auto, unfolding(crate::specs::Match::matches_sent))]
fn matches_sent(x: Settings, batch: Batch, indicator: u16, trace: Trace, m: &Message) -> bool
    requires { indicator ≤ 0x0500 }
    ensures { result ≡ matches_sent x batch indicator trace m.now }
{
    repeats(x, indicator, trace, m) && parts::part_of(m, Part::Batch) == Some(u64::from(batch.0))
}

#[tactic(auto, unfolding(crate::specs::Match::repeats))]
fn repeats(x: Settings, indicator: u16, trace: Trace, m: &Message) -> bool
    requires { indicator ≤ 0x0800 }
    ensures { result ≡ repeats x indicator trace m.now }
{
    m.indicator == indicator + 0x10
        && holds_number(m, 11, u64::from(trace.0), &mut [0; 3])
        && parts::field_matches(m, 41, &x.terminal)
        && parts::field_matches(m, 42, &x.merchant)
}

fn holds_named(a: Awaited, m: &Message) -> bool
    ensures { result ≡ holds_named a m.now }
{
    match a {
        Awaited::Request(q) => {
            field::named(&m.bitmap, 39) && approval_holds(q.kind, q.amount, m)
        }
        Awaited::Settlement(_) => is_value_within(1, 3, parts::part_of(m, Part::Reconciliation)),
        Awaited::Reversal(_) | Awaited::Item(_) | Awaited::End(_) => field::named(&m.bitmap, 39),
    }
}

#[tactic(auto, unfolding(crate::specs::Match::approval_holds))]
fn approval_holds(kind: u8, amount: u64, m: &Message) -> bool
    ensures { result ≡ approval_holds kind amount m.now }
{
    !approves_request(kind, m)
        || amount_holds(amount, m) && field::named(&m.bitmap, 13) && field::named(&m.bitmap, 37)
}

// Whether field 4 of a card approval is the amount asked or, in part, from 1 to that.
#[tactic(auto, unfolding(crate::specs::Match::amount_holds))]
fn amount_holds(amount: u64, m: &Message) -> bool
    ensures { result ≡ amount_holds amount m.now }
{
    if approves(m) {
        return holds_number(m, 4, amount, &mut [0; 6]);
    }
    is_value_within(1, amount, parts::part_of(m, Part::Amount))
}

#[tactic(auto, unfolding(crate::specs::Match::sign_on_holds))]
fn sign_on_holds(m: &Message) -> bool
    ensures { result ≡ sign_on_holds m.now }
{
    !approves(m) || numbers::is_number(batch_in(m).0) && field::named(&m.bitmap, 62)
}

// Whether field n holds this number in packed digits, two for each byte of room.
fn holds_number(m: &Message, n: u8, x: u64, room: &mut [u8]) -> bool
    ensures { result ≡ matches m.now n (pack (digits_of (2 * length room.old) x)) }
{
    digits::put_number(x, room);
    parts::field_matches(m, n, room)
}

fn is_value_within(low: u64, high: u64, x: Option<u64>) -> bool
    ensures { result ≡ is_value_within low high x }
{
    matches!(x, Some(v) if low <= v && v <= high)
}
