// The terminal for C: the functions of the static library, over the bytes of an image. include/whistlaurel.h says how they are used.
#![tactic(auto)]

ghost use Rattle.std.specs.Prelude.{◌≡◌, [], length as lengthIn};
ghost use Rattle.message.specs.Message.{largest};
ghost use Rattle.reading.specs.Reading.{read_message};
ghost use Rattle.entry.specs.Entry.{entry_size};
ghost use Rattle.state.specs.Calls.{lend};
ghost use Rattle.image_definitions.specs.Layout.{size};
ghost use Rattle.image_definitions.specs.Image.{image as image_of};
ghost use Rattle.call_definitions.specs.Events.{event_of, sign_on_event, starts, answers, no_answer_event, power_returned_event, card_agrees_event, card_declines_event, send_reversal_event, settles, send_next_upload_event};
ghost use Rattle.interface_definitions.specs.Interface.{gives, number_of, length_of, on_image, settings_of, desk_of, nothing_keyed, returned, fresh_image, number_at, totals_on, sums_values, sums_on, read_number, held, field_at};

use calls::Call;
use checks::Refusal;
use desk::Desk;
use kinds::Sums;
use numbers::Trace;
use parts::NotTaken;
use state::{Card, Outcome, Settings, State};
use terminal::Terminal;

// What a function returns beside the numbers of documents 01 and 02: a message leaves; a message does not hold the field.
const SENDS: u8 = 255;

const ABSENT: u8 = 254;

// The bytes of an image.
#[unsafe(no_mangle)]
pub extern "C" fn whistlaurel_image_size() -> usize
    ensures { result ≡ size }
{
    image::SIZE
}

// The bytes of a message buffer.
#[unsafe(no_mangle)]
pub extern "C" fn whistlaurel_message_size() -> usize
    ensures { result ≡ largest }
{
    Terminal::MESSAGE
}

// The bytes of a journal entry.
#[unsafe(no_mangle)]
pub extern "C" fn whistlaurel_entry_size() -> usize
    ensures { result ≡ entry_size }
{
    Terminal::ENTRY
}

// Puts the image of a fresh terminal.
#[unsafe(no_mangle)]
pub extern "C" fn whistlaurel_fresh(
    image: &mut [u8],
    limit: u32,
    sendings: u8,
    refund: u64,
    terminal: &[u8; 8],
    merchant: &[u8; 15],
) -> u8
    ensures { returned result image.new ≡ fresh_image (settings_of limit sendings refund terminal.now merchant.now) image.old }
{
    if image.len() != image::SIZE {
        return Refusal::OutOfForm.into();
    }
    let settings = Settings {
        limit,
        sendings,
        refund,
        terminal: *terminal,
        merchant: *merchant,
    };
    put_image(State::new(settings), image);
    0
}

// Asks the centre for a sign-on.
#[unsafe(no_mangle)]
pub extern "C" fn whistlaurel_sign_on(
    image: &mut [u8],
    journal: &mut [u8],
    message: &mut [u8],
    length: &mut usize,
) -> u8
    ensures { gives result length.new image.new journal.new message.new ≡ on_image sign_on_event image.old (lend journal.old message.old) }
{
    plain(image, journal, message, length, Call::SignOn)
}

// A card request leaves.
#[unsafe(no_mangle)]
pub extern "C" fn whistlaurel_start(
    image: &mut [u8],
    journal: &mut [u8],
    message: &mut [u8],
    length: &mut usize,
    kind: u8,
    amount: u64,
    card_number: u64,
    card_length: u8,
    original: u32,
    month: u8,
    day: u8,
    authorisation: &[u8; 6],
    reference: &[u8; 12],
    has_chip: bool,
    chip: &[u8],
) -> u8
    ensures { gives result length.new image.new journal.new message.new ≡ on_image (starts (desk_of kind amount card_number card_length original month day authorisation.now reference.now has_chip) chip.now) image.old (lend journal.old message.old) }
{
    let desk = Desk {
        kind,
        amount,
        card: Card {
            number: card_number,
            length: card_length,
        },
        original: Trace(original),
        month,
        day,
        authorisation: *authorisation,
        reference: *reference,
        chip: has_chip,
    };
    make(image, journal, message, length, Call::Start, desk, chip)
}

// The centre's bytes, and the key pad's word on the MAC.
#[unsafe(no_mangle)]
pub extern "C" fn whistlaurel_answer(
    image: &mut [u8],
    journal: &mut [u8],
    message: &mut [u8],
    length: &mut usize,
    bytes: &[u8],
    good: bool,
) -> u8
    ensures { gives result length.new image.new journal.new message.new ≡ on_image (answers bytes.now good) image.old (lend journal.old message.old) }
{
    make(
        image,
        journal,
        message,
        length,
        Call::Answer(good),
        nothing_keyed(),
        bytes,
    )
}

// The line has fallen silent.
#[unsafe(no_mangle)]
pub extern "C" fn whistlaurel_no_answer(
    image: &mut [u8],
    journal: &mut [u8],
    message: &mut [u8],
    length: &mut usize,
) -> u8
    ensures { gives result length.new image.new journal.new message.new ≡ on_image no_answer_event image.old (lend journal.old message.old) }
{
    plain(image, journal, message, length, Call::NoAnswer)
}

// Power has returned.
#[unsafe(no_mangle)]
pub extern "C" fn whistlaurel_power_returned(
    image: &mut [u8],
    journal: &mut [u8],
    message: &mut [u8],
    length: &mut usize,
) -> u8
    ensures { gives result length.new image.new journal.new message.new ≡ on_image power_returned_event image.old (lend journal.old message.old) }
{
    plain(image, journal, message, length, Call::PowerReturned)
}

// The card agrees to the request that the centre has approved.
#[unsafe(no_mangle)]
pub extern "C" fn whistlaurel_card_agrees(
    image: &mut [u8],
    journal: &mut [u8],
    message: &mut [u8],
    length: &mut usize,
) -> u8
    ensures { gives result length.new image.new journal.new message.new ≡ on_image card_agrees_event image.old (lend journal.old message.old) }
{
    plain(image, journal, message, length, Call::CardAgrees)
}

// The card declines it.
#[unsafe(no_mangle)]
pub extern "C" fn whistlaurel_card_declines(
    image: &mut [u8],
    journal: &mut [u8],
    message: &mut [u8],
    length: &mut usize,
) -> u8
    ensures { gives result length.new image.new journal.new message.new ≡ on_image card_declines_event image.old (lend journal.old message.old) }
{
    plain(image, journal, message, length, Call::CardDeclines)
}

// The pending reversal leaves.
#[unsafe(no_mangle)]
pub extern "C" fn whistlaurel_send_reversal(
    image: &mut [u8],
    journal: &mut [u8],
    message: &mut [u8],
    length: &mut usize,
) -> u8
    ensures { gives result length.new image.new journal.new message.new ≡ on_image send_reversal_event image.old (lend journal.old message.old) }
{
    plain(image, journal, message, length, Call::SendReversal)
}

// The batch's totals leave.
#[unsafe(no_mangle)]
pub extern "C" fn whistlaurel_settle(
    image: &mut [u8],
    journal: &mut [u8],
    message: &mut [u8],
    length: &mut usize,
) -> u8
    ensures { gives result length.new image.new journal.new message.new ≡ on_image settles image.old (lend journal.old message.old) }
{
    plain(image, journal, message, length, Call::Settle)
}

// The next due entry leaves, or the upload's end.
#[unsafe(no_mangle)]
pub extern "C" fn whistlaurel_send_next_upload(
    image: &mut [u8],
    journal: &mut [u8],
    message: &mut [u8],
    length: &mut usize,
) -> u8
    ensures { gives result length.new image.new journal.new message.new ≡ on_image send_next_upload_event image.old (lend journal.old message.old) }
{
    plain(image, journal, message, length, Call::SendNextUpload)
}

// The number in a row of an image.
#[unsafe(no_mangle)]
pub extern "C" fn whistlaurel_number(image: &[u8], row: usize, number: &mut u64) -> u8
    ensures { returned result number.new ≡ number_at image.now row number.old }
{
    if image::ROWS <= row {
        return Refusal::OutOfForm.into();
    }
    match image::read(image) {
        Some(state) => {
            let values = image::values_of(state);
            *number = values[row];
            0
        }
        None => Refusal::OutOfForm.into(),
    }
}

// The debit amount and count and the credit amount and count in an image.
#[unsafe(no_mangle)]
pub extern "C" fn whistlaurel_totals(image: &[u8], totals: &mut [u64; 4]) -> u8
    ensures { returned result totals.new ≡ totals_on image.now totals.old }
{
    match image::read(image) {
        Some(state) => {
            let t = state.totals;
            *totals = [t.debit, t.debits as u64, t.credit, t.credits as u64];
            0
        }
        None => Refusal::OutOfForm.into(),
    }
}

// The five sums of the journal in the order of 001, 4.3.2: amount and count of sales, completions, refunds, sale voids, completion voids.
#[unsafe(no_mangle)]
pub extern "C" fn whistlaurel_sums(image: &[u8], journal: &[u8], sums: &mut [u64; 10]) -> u8
    ensures { returned result sums.new ≡ sums_on image.now journal.now sums.old }
{
    match image::read(image) {
        Some(state) => match rules::judge_report(state, journal) {
            Ok(_) => {
                *sums = sums_values(journal::sums_of(journal, state.entries));
                0
            }
            Err(e) => e.into(),
        },
        None => Refusal::OutOfForm.into(),
    }
}

// Whether bytes are a message: 0, or the number by which they are refused.
#[unsafe(no_mangle)]
pub extern "C" fn whistlaurel_read(bytes: &[u8]) -> u8
    ensures { result ≡ read_number (read_message bytes.now).outcome }
{
    match reading::outcome_of(bytes) {
        Ok(()) => 0,
        Err(e) => e.into(),
    }
}

// Puts the bytes of field n of a message to the front of out, and how many digits or bytes it has.
#[unsafe(no_mangle)]
pub extern "C" fn whistlaurel_field(bytes: &[u8], n: u8, out: &mut [u8], count: &mut usize) -> u8
    ensures { returned result (held count.new out.new) ≡ field_at bytes.now n (held count.old out.old) }
{
    match reading::read(bytes) {
        Ok(m) => match parts::take_field(&m, n, out) {
            Ok(k) => {
                *count = k;
                0
            }
            Err(NotTaken::Absent) => ABSENT,
            Err(NotTaken::TooLong) => Refusal::TooSmall.into(),
        },
        Err(e) => e.into(),
    }
}

fn sums_values(x: Sums) -> [u64; 10]
    ensures { result ≡ sums_values x }
{
    [
        x.sales.amount,
        x.sales.count as u64,
        x.completions.amount,
        x.completions.count as u64,
        x.refunds.amount,
        x.refunds.count as u64,
        x.sale_voids.amount,
        x.sale_voids.count as u64,
        x.completion_voids.amount,
        x.completion_voids.count as u64,
    ]
}

// What the desk has keyed where a call takes nothing from it.
fn nothing_keyed() -> Desk
    ensures { result ≡ nothing_keyed }
{
    Desk {
        kind: 0,
        amount: 0,
        card: Card {
            number: 0,
            length: 0,
        },
        original: Trace(0),
        month: 0,
        day: 0,
        authorisation: [0; 6],
        reference: [0; 12],
        chip: false,
    }
}

// Makes a call that takes nothing from the desk and no bytes.
fn plain(
    image: &mut [u8],
    journal: &mut [u8],
    message: &mut [u8],
    length: &mut usize,
    call: Call,
) -> u8
    ensures { gives result length.new image.new journal.new message.new ≡ on_image (event_of call nothing_keyed []) image.old (lend journal.old message.old) }
{
    make(image, journal, message, length, call, nothing_keyed(), b"")
}

// Makes a call on the terminal of an image, and puts the image of the terminal after it.
fn make(
    image: &mut [u8],
    journal: &mut [u8],
    message: &mut [u8],
    length: &mut usize,
    call: Call,
    desk: Desk,
    bytes: &[u8],
) -> u8
    ensures { gives result length.new image.new journal.new message.new ≡ on_image (event_of call desk bytes.now) image.old (lend journal.old message.old) }
{
    *length = 0;
    match image::read(image) {
        Some(state) => {
            let step = Terminal { state }.make(call, desk, bytes, journal, message);
            put_image(step.terminal.state, image);
            *length = length_of(step.outcome);
            number_of(step.outcome)
        }
        None => Refusal::OutOfForm.into(),
    }
}

// Puts the image of a state.
fn put_image(s: State, out: &mut [u8])
    requires { lengthIn out.old ≡ size }
    ensures { out.new ≡ image_of s }
{
    let b = image::image_of(s);
    digits::copy(&b, out);
}

fn length_of(o: Outcome) -> usize
    ensures { result ≡ length_of o }
{
    match o {
        Outcome::Send(n) => n,
        Outcome::Quiet => 0,
        Outcome::Refused(_) => 0,
    }
}

fn number_of(o: Outcome) -> u8
    ensures { result ≡ number_of o }
{
    match o {
        Outcome::Send(_) => SENDS,
        Outcome::Quiet => 0,
        Outcome::Refused(k) => k,
    }
}
