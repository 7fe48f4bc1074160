// The messages that leave (document 01, "Kinds" and "Calls").
#![tactic(auto)]

ghost use Rattle.std.specs.Prelude.{◌≡◌, true, [], ◌++◌, take, drop, replicate};
ghost use Rattle.digits.specs.Digits.{all_digits};
ghost use Rattle.message.specs.Build.{digits, bytes, message_of};
ghost use Rattle.kinds.specs.Kinds.{indicator_of};
ghost use Rattle.writing.specs.Writing.{write_message};
ghost use Rattle.compose.specs.Compose.{with_item, with_all};
ghost use Rattle.outgoing.specs.Outgoing.{field60, card_field60, field61, entry_mode, chip_fields, plain_fields, card_fields, original_fields, request_fields, reason_code, reversal_fields, length_of};

use message::Message;
use numbers::{Batch, Trace};
use parts::Part;
use state::{Chip, Reason, Request, Reversal, Settings};

// Field 49: Chinese yuan.
pub const CURRENCY: [u8; 3] = [b'1', b'5', b'6'];

// What a request says of an earlier one: an entry of the journal, or what the desk keyed.
#[derive(Clone, Copy)]
pub struct Original {
    pub batch: Batch,
    pub trace: Trace,
    pub date: u16,
    pub authorisation: [u8; 6],
    pub reference: [u8; 12],
}

// Puts field 60: kind, batch, management code.
pub fn put_field60(m: &mut Message, kind: u8, batch: Batch, code: u64)
    ensures { m.new ≡ with_item (digits 60 (field60 kind batch code)) m.old }
{
    let mut ds = [0; parts::FIELD60];
    put_codes(m, kind, batch, code, &mut ds);
}

// A card request.
pub fn request_message(x: Settings, batch: Batch, chip: Chip, q: Request, o: Original) -> Message
    ensures { result ≡ with_all (request_fields x batch chip q o) (message_of (indicator_of q.kind) []) }
{
    let mut m = compose::typed(kinds::indicator_of(q.kind));
    put_card_fields(&mut m, x, batch, chip, q);
    put_original_fields(&mut m, q.kind, o);
    m
}

// A reversal.
pub fn reversal_message(x: Settings, batch: Batch, chip: Chip, v: Reversal) -> Message
    ensures { result ≡ with_all (reversal_fields x batch chip v) (message_of 0x0400 []) }
{
    let mut m = compose::typed(0x0400);
    put_card_fields(&mut m, x, batch, chip, v.request);
    compose::put_bytes(&mut m, 39, &reason_code(v.reason));
    m
}

// Writes a message that leaves, and gives its length; 0 where it is not written.
pub fn write_outgoing(m: &Message, message: &mut [u8]) -> usize
    ensures { (result ≡ length_of (write_message m.now message.old).outcome) × (message.new ≡ (write_message m.now message.old).buffer) }
{
    writing::write(m, message).unwrap_or(0)
}

// The fields of a card request, those of its chip with them.
fn put_card_fields(m: &mut Message, x: Settings, batch: Batch, chip: Chip, q: Request)
    ensures { m.new ≡ with_all (card_fields x batch chip q) m.old }
{
    put_plain_fields(m, x, batch, chip, q);
    put_chip_fields(m, chip);
}

// The fields of every card request.
fn put_plain_fields(m: &mut Message, x: Settings, batch: Batch, chip: Chip, q: Request)
    ensures { m.new ≡ with_all (plain_fields x batch chip q) m.old }
{
    compose::put_number(m, 2, q.card.length, q.card.number);
    compose::put_number(m, 3, 6, u64::from(kinds::processing_of(q.kind)));
    compose::put_number(m, 4, 12, q.amount);
    compose::put_number(m, 11, 6, u64::from(q.trace.0));
    compose::put_number(m, 22, 3, entry_mode(chip));
    compose::put_number(m, 25, 2, u64::from(kinds::condition_of(q.kind)));
    compose::put_bytes(m, 41, &x.terminal);
    compose::put_bytes(m, 42, &x.merchant);
    compose::put_bytes(m, 49, &CURRENCY);
    put_card_field60(m, q.kind, batch);
    compose::put_bytes(m, 64, &[0; 8]);
}

// Field 22.
fn entry_mode(chip: Chip) -> u64
    ensures { result ≡ entry_mode chip }
{
    if chip.length == 0 { 12 } else { 52 }
}

// Field 60 of a card request: a sale asks for approval in part.
fn put_card_field60(m: &mut Message, kind: u8, batch: Batch)
    ensures { m.new ≡ with_item (digits 60 (card_field60 kind batch)) m.old }
{
    if kinds::allows_partial(kind) {
        let mut ds = [0; parts::FIELD60_WHOLE];
        ds[13] = 1;
        put_codes(m, kind, batch, 0, &mut ds);
    } else {
        put_field60(m, kind, batch, 0);
    }
}

// Field 60: kind, batch and management code in place of the zeros that ds begins with, then its other digits.
fn put_codes(m: &mut Message, kind: u8, batch: Batch, code: u64, ds: &mut [u8])
    requires { (take 11 ds.old ≡ replicate 11 0) × (all_digits (drop 11 ds.old) ≡ true) }
    ensures { m.new ≡ with_item (digits 60 (field60 kind batch code ++ drop 11 ds.old)) m.old }
{
    parts::put_part(Part::Kind, u64::from(kind), ds);
    parts::put_part(Part::Batch, u64::from(batch.0), ds);
    parts::put_part(Part::Management, code, ds);
    compose::put_digits(m, 60, ds);
}

fn put_chip_fields(m: &mut Message, chip: Chip)
    ensures { m.new ≡ with_all (chip_fields chip) m.old }
{
    if chip.length != 0 {
        compose::put_bytes(m, 55, &chip.bytes[..usize::from(chip.length)]);
    }
}

// What a request names of an earlier one.
fn put_original_fields(m: &mut Message, kind: u8, o: Original)
    ensures { m.new ≡ with_all (original_fields kind o) m.old }
{
    if kinds::takes_original(kind) {
        compose::put_bytes(m, 37, &o.reference);
        compose::put_bytes(m, 38, &o.authorisation);
        put_field61(m, o);
    } else if kinds::keys_reference(kind) {
        compose::put_bytes(m, 37, &o.reference);
        put_field61(m, o);
    } else if kinds::keys_authorisation(kind) {
        compose::put_bytes(m, 38, &o.authorisation);
        put_field61(m, o);
    }
}

fn put_field61(m: &mut Message, o: Original)
    ensures { m.new ≡ with_item (digits 61 (field61 o)) m.old }
{
    let mut ds = [0; parts::FIELD61];
    parts::put_part(Part::OriginalBatch, u64::from(o.batch.0), &mut ds);
    parts::put_part(Part::OriginalTrace, u64::from(o.trace.0), &mut ds);
    parts::put_part(Part::OriginalDate, u64::from(o.date), &mut ds);
    compose::put_digits(m, 61, &ds);
}

// Field 39 of a reversal.
fn reason_code(reason: Reason) -> [u8; 2]
    ensures { result ≡ reason_code reason }
{
    match reason {
        Reason::Silence => [b'9', b'8'],
        Reason::BadMac => [b'A', b'0'],
        Reason::CardDeclined => [b'0', b'6'],
    }
}
