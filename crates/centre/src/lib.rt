// The simulated centre: what it answers to a message that left.
#![tactic(auto)]

ghost use Rattle.std.specs.Prelude.{◌≡◌, ◌*◌, ◌≤◌};
ghost use Rattle.message.specs.Build.{digits, bytes};
ghost use Rattle.parts.specs.Parts.{number_in};
ghost use Rattle.compose.specs.Compose.{with_item, with_all};
ghost use Rattle.centre_types.specs.Types.{left_as};
ghost use Rattle.centre_totals.specs.Totals.{field48_with};
ghost use Rattle.centre.specs.Centre.{sent_number, digits_sent, bytes_sent, own_fields, codes_count, sent_fields, trace_figures, mac_field, is_given, answered_amount, authorisation_field, approval_fields, also_to, usual_reply, brought_number, key_field, sign_on_reply, reply, reconciliation};

use centre_types::Left;
use message::Message;

// The answer to a message that left, with this code: to a card request on this date and with this amount, where one that is not
// given stands for the amount as sent; to a sign-on with this batch number, where one above 999999 stands for the number as sent.
#[tactic(auto, unfolding(crate::specs::Centre::reply))]
pub fn reply(sent: &Message, date: u16, batch: u32, code: [u8; 2], amount: u64) -> Message
    ensures { result ≡ reply sent.now date batch code amount }
{
    if sent.indicator == 0x0800 {
        return sign_on_reply(sent, batch, code);
    }
    usual_reply(sent, date, code, amount)
}

// The answer to a settlement, with this reconciliation digit.
#[tactic(auto, unfolding(crate::specs::Centre::reconciliation))]
pub fn reconciliation(sent: &Message, digit: u8) -> Message
    ensures { result ≡ reconciliation sent.now digit }
{
    let mut m = compose::typed(centre_types::answer_type(sent.indicator));
    put_field48(&mut m, sent, digit);
    put_sent_fields(&mut m, sent);
    m
}

// Whether an amount is given: one of more than twelve digits stands for none.
pub fn is_given(amount: u64) -> bool
    ensures { result ≡ is_given amount }
{
    amount <= 999999999999
}

// The answer to anything but a sign-on.
#[tactic(auto, unfolding(crate::specs::Centre::usual_reply))]
fn usual_reply(sent: &Message, date: u16, code: [u8; 2], amount: u64) -> Message
    ensures { result ≡ usual_reply sent.now date code amount }
{
    let mut m = compose::typed(centre_types::answer_type(sent.indicator));
    put_sent_fields(&mut m, sent);
    compose::put_bytes(&mut m, 39, &code);
    put_also(&mut m, sent, date, code, amount);
    m
}

#[tactic(auto, unfolding(crate::specs::Centre::sign_on_reply))]
fn sign_on_reply(sent: &Message, batch: u32, code: [u8; 2]) -> Message
    ensures { result ≡ sign_on_reply sent.now batch code }
{
    let mut m = compose::typed(0x0810);
    put_own_fields(&mut m, sent);
    compose::put_number(&mut m, 60, 11, brought_number(sent, batch));
    compose::put_bytes(&mut m, 39, &code);
    put_key(&mut m, code);
    m
}

// What is answered besides, by what left.
fn put_also(m: &mut Message, sent: &Message, date: u16, code: [u8; 2], amount: u64)
    ensures { m.new ≡ with_all (also_to (left_as sent.now.indicator) sent.now date code amount) m.old }
{
    match centre_types::left_as(sent.indicator) {
        Left::Request => put_approval_fields(m, sent, date, code, amount),
        Left::Reversal => put_mac(m),
        Left::Nothing | Left::Settlement | Left::Upload | Left::SignOn => {}
    }
}

// What a card request is answered besides.
fn put_approval_fields(m: &mut Message, sent: &Message, date: u16, code: [u8; 2], amount: u64)
    ensures { m.new ≡ with_all (approval_fields sent.now date code amount) m.old }
{
    compose::put_number(m, 4, 12, answered_amount(sent, amount));
    compose::put_number(m, 13, 4, u64::from(date));
    put_trace_figures(m, 37, 6, sent);
    put_authorisation(m, sent, code, amount);
    put_mac(m);
}

// Field 4 of the answer to a card request as a number.
#[tactic(auto, unfolding(crate::specs::Centre::answered_amount))]
fn answered_amount(sent: &Message, amount: u64) -> u64
    ensures { result ≡ answered_amount amount sent.now }
{
    if is_given(amount) {
        return amount;
    }
    number_sent(sent, 4, 12)
}

fn put_authorisation(m: &mut Message, sent: &Message, code: [u8; 2], amount: u64)
    ensures { m.new ≡ with_all (authorisation_field sent.now code amount) m.old }
{
    if centre_types::is_approval(code) || is_given(amount) {
        put_trace_figures(m, 38, 3, sent);
    }
}

// The trace as digits in field n, two for each of so many bytes.
fn put_trace_figures(m: &mut Message, n: u8, pairs: usize, sent: &Message)
    requires { pairs ≤ 6 }
    ensures { m.new ≡ with_item (bytes n (trace_figures (2 * pairs) sent.now)) m.old }
{
    let end = 2 * pairs;
    let mut figures = [0; 6];
    let mut text = [0; 12];
    digits::put_number(number_sent(sent, 11, 6), &mut figures[..pairs]);
    hexadecimal::put_hex(&figures[..pairs], &mut text[..end]);
    compose::put_bytes(m, n, &text[..end]);
}

fn put_mac(m: &mut Message)
    ensures { m.new ≡ with_all mac_field m.old }
{
    compose::put_bytes(m, 64, &[0; 8]);
}

// Key material where the code is 00.
fn put_key(m: &mut Message, code: [u8; 2])
    ensures { m.new ≡ with_all (key_field code) m.old }
{
    if centre_types::is_approval(code) {
        compose::put_bytes(m, 62, &[0; 24]);
    }
}

// Field 60 of the answer to a sign-on as a number: 00, the batch number, 003.
#[tactic(auto, unfolding(crate::specs::Centre::brought_number))]
fn brought_number(sent: &Message, batch: u32) -> u64
    ensures { result ≡ brought_number batch sent.now }
{
    if batch <= 999999 {
        return u64::from(batch) * 1000 + 3;
    }
    number_sent(sent, 60, 11)
}

fn put_field48(m: &mut Message, sent: &Message, digit: u8)
    ensures { m.new ≡ with_item (digits 48 (field48_with sent.now digit)) m.old }
{
    compose::put_digits(m, 48, &centre_totals::field48_with(sent, digit));
}

// Fields 11, 41, 42, 60 as sent.
fn put_sent_fields(m: &mut Message, sent: &Message)
    ensures { m.new ≡ with_all (sent_fields sent.now) m.old }
{
    put_own_fields(m, sent);
    put_digits_sent(m, 60, codes_count(sent), sent);
}

// Fields 11, 41, 42 as sent.
fn put_own_fields(m: &mut Message, sent: &Message)
    ensures { m.new ≡ with_all (own_fields sent.now) m.old }
{
    put_digits_sent(m, 11, 6, sent);
    put_bytes_sent(m, 41, 8, sent);
    put_bytes_sent(m, 42, 15, sent);
}

// How many digits field 60 was sent with.
fn codes_count(sent: &Message) -> u8
    ensures { result ≡ codes_count (number_in sent.now 60 0 14) }
{
    match parts::number_in(sent, 60, 0, 14) {
        Some(_) => 14,
        None => 11,
    }
}

// Field n as sent, of so many digits.
fn put_digits_sent(m: &mut Message, n: u8, count: u8, sent: &Message)
    ensures { m.new ≡ with_item (digits_sent n count sent.now) m.old }
{
    compose::put_number(m, n, count, number_sent(sent, n, count));
}

// So many digits of field n as a number.
fn number_sent(sent: &Message, n: u8, count: u8) -> u64
    ensures { result ≡ sent_number n 0 count sent.now }
{
    parts::number_in(sent, n, 0, usize::from(count)).unwrap_or(0)
}

// Field n as sent, of so many bytes.
fn put_bytes_sent(m: &mut Message, n: u8, count: usize, sent: &Message)
    requires { count ≤ 15 }
    ensures { m.new ≡ with_item (bytes_sent n count sent.now) m.old }
{
    let mut b = [b' '; 15];
    parts::field_into(sent, n, &mut b[..count]);
    compose::put_bytes(m, n, &b[..count]);
}
