// The entry of an approval, and the card of an entry (document 01, "State and journal" and "Calls").
#![tactic(auto)]

ghost use Rattle.std.specs.Prelude.{◌≡◌};
ghost use Rattle.approval.specs.Cards.{card_of};
ghost use Rattle.approval.specs.Approval.{zero_filled, approval_of, approved_entry};

use entry::Entry;
use message::Message;
use parts::Part;
use state::{Approval, Card, Request};

// What an entry takes from the answer that approves its request.
pub fn approval_of(m: &Message) -> Approval
    ensures { result ≡ approval_of m.now }
{
    let mut date = [0; 2];
    let mut authorisation = [b' '; 6];
    let mut reference = [0; 12];
    parts::field_into(m, 13, &mut date);
    parts::field_into(m, 38, &mut authorisation);
    parts::field_into(m, 37, &mut reference);
    Approval {
        amount: parts::part_of(m, Part::Amount).unwrap_or(0),
        date,
        authorisation,
        reference,
    }
}

// The entry that an approval of a request makes.
pub fn approved_entry(q: Request, a: Approval) -> Entry
    ensures { result ≡ approved_entry q a }
{
    let Approval {
        date,
        authorisation,
        reference,
        ..
    } = a;
    Entry {
        kind: q.kind,
        voided: 0,
        mark: 0,
        resends: 0,
        trace: q.trace,
        amount: a.amount,
        digits: q.card.length,
        card: zero_filled(q.card),
        date,
        authorisation,
        reference,
        reserved: [0; 4],
    }
}

// The card of an entry, as a number and its count of digits.
pub fn card_of(e: Entry) -> Card
    ensures { result ≡ card_of e }
{
    let n = usize::from(e.digits);
    let mut ds = [0; 255];
    digits::unpack_into(&e.card, &mut ds[..n]);
    Card {
        number: digits::number_of(&ds[..n]).unwrap_or(0),
        length: e.digits,
    }
}

fn zero_filled(card: Card) -> [u8; 10]
    ensures { result ≡ zero_filled card }
{
    let mut ds = [0; 275];
    let mut out = [0; 10];
    digits::digits_into(card.number, &mut ds[..usize::from(card.length)]);
    digits::pack_into(&ds[..20], &mut out);
    out
}
