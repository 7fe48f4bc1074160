// The messages of a batch: sign-on, settlement, upload item and the upload's end (document 01, "Messages"; document 02, request 3).
#![tactic(auto)]

ghost use Rattle.std.specs.Prelude.{◌≡◌, []};
ghost use Rattle.message.specs.Build.{digits, message_of};
ghost use Rattle.compose.specs.Compose.{with_item, with_all};
ghost use Rattle.batch_messages.specs.BatchMessages.{field48, settlement_fields, item_fields, management_fields, end_fields, sign_on_fields};

use entry::Entry;
use kinds::Totals;
use message::Message;
use numbers::{Batch, Trace};
use parts::Part;
use state::Settings;

// A settlement request.
pub fn settlement_message(x: Settings, batch: Batch, trace: Trace, t: Totals) -> Message
    ensures { result ≡ with_all (settlement_fields x batch trace t) (message_of 0x0500 []) }
{
    let mut m = compose::typed(0x0500);
    compose::put_number(&mut m, 11, 6, u64::from(trace.0));
    compose::put_bytes(&mut m, 41, &x.terminal);
    compose::put_bytes(&mut m, 42, &x.merchant);
    put_field48(&mut m, t);
    compose::put_bytes(&mut m, 49, &outgoing::CURRENCY);
    outgoing::put_field60(&mut m, 0, batch, 201);
    m
}

// An upload item: an entry as it was approved.
pub fn item_message(x: Settings, batch: Batch, e: Entry) -> Message
    ensures { result ≡ with_all (item_fields x batch e) (message_of 0x0320 []) }
{
    let card = approval::card_of(e);
    let mut m = compose::typed(0x0320);
    compose::put_number(&mut m, 2, card.length, card.number);
    compose::put_number(&mut m, 3, 6, u64::from(kinds::processing_of(e.kind)));
    compose::put_number(&mut m, 4, 12, e.amount);
    compose::put_number(&mut m, 11, 6, u64::from(e.trace.0));
    compose::put_bytes(&mut m, 37, &e.reference);
    compose::put_bytes(&mut m, 38, &e.authorisation);
    compose::put_bytes(&mut m, 41, &x.terminal);
    compose::put_bytes(&mut m, 42, &x.merchant);
    compose::put_bytes(&mut m, 49, &outgoing::CURRENCY);
    outgoing::put_field60(&mut m, e.kind, batch, 201);
    m
}

// The upload's end.
pub fn end_message(x: Settings, batch: Batch, trace: Trace) -> Message
    ensures { result ≡ with_all (end_fields x batch trace) (message_of 0x0320 []) }
{
    management_message(0x0320, 202, x, batch, trace)
}

// A sign-on request.
pub fn sign_on_message(x: Settings, batch: Batch, trace: Trace) -> Message
    ensures { result ≡ with_all (sign_on_fields x batch trace) (message_of 0x0800 []) }
{
    management_message(0x0800, 3, x, batch, trace)
}

// A message of a type that says no more than its management code.
fn management_message(indicator: u16, code: u64, x: Settings, batch: Batch, trace: Trace) -> Message
    ensures { result ≡ with_all (management_fields code x batch trace) (message_of indicator []) }
{
    let mut m = compose::typed(indicator);
    compose::put_number(&mut m, 11, 6, u64::from(trace.0));
    compose::put_bytes(&mut m, 41, &x.terminal);
    compose::put_bytes(&mut m, 42, &x.merchant);
    outgoing::put_field60(&mut m, 0, batch, code);
    m
}

fn put_field48(m: &mut Message, t: Totals)
    ensures { m.new ≡ with_item (digits 48 (field48 t)) m.old }
{
    let mut ds = [0; parts::FIELD48];
    parts::put_part(Part::DebitAmount, t.debit, &mut ds);
    parts::put_part(Part::DebitCount, u64::from(t.debits), &mut ds);
    parts::put_part(Part::CreditAmount, t.credit, &mut ds);
    parts::put_part(Part::CreditCount, u64::from(t.credits), &mut ds);
    compose::put_digits(m, 48, &ds);
}
