// An entry of the journal: its bytes and its values (document 01, "State and journal").
#![tactic(auto)]

ghost use Rattle.std.specs.Prelude.{◌≡◌, ◌+◌, ◌≤◌, length};
ghost use Rattle.field.specs.Contents.{all_printable};
ghost use Rattle.entry.specs.Entry.{decode, encode, part, all_zero, blank, entry_size};
ghost use Rattle.entry.specs.Form.{card_in_form, in_form, fits};

use numbers::Trace;

// The values of an entry; card and date are packed digits.
#[derive(Clone, Copy)]
pub struct Entry {
    pub kind: u8,
    pub voided: u8,
    pub mark: u8,
    pub resends: u8,
    pub trace: Trace,
    pub amount: u64,
    pub digits: u8,
    pub card: [u8; 10],
    pub date: [u8; 2],
    pub authorisation: [u8; 6],
    pub reference: [u8; 12],
    pub reserved: [u8; 4],
}

impl Entry {
    // The bytes of an entry.
    pub const SIZE: usize = 48;

    // Where the bytes that change stand: voided, the upload mark, resends.
    pub const VOIDED: u8 = 1;

    pub const MARK: u8 = 2;

    pub const RESENDS: u8 = 3;

    // Where the packed trace and amount stand.
    pub const TRACE: usize = 4;

    pub const AMOUNT: usize = 7;

    // The upload marks but 0, which is not sent: silent, accepted, rejected, given up.
    pub const SILENT: u8 = 1;

    pub const ACCEPTED: u8 = 2;

    pub const REJECTED: u8 = 3;

    pub const GIVEN_UP: u8 = 4;
}

// The values that 48 bytes hold.
#[tactic(auto, unfolding(crate::specs::Entry::decode))]
pub fn entry_of(b: &[u8; Entry::SIZE]) -> Entry
    ensures { result ≡ decode b.now }
{
    Entry {
        kind: b[0],
        voided: b[1],
        mark: b[2],
        resends: b[3],
        trace: trace_of(b),
        amount: amount_of(b),
        digits: b[13],
        card: part(b, 14),
        date: part(b, 24),
        authorisation: part(b, 26),
        reference: part(b, 32),
        reserved: part(b, 44),
    }
}

// The trace and the amount that they hold.
#[tactic(auto, unfolding(crate::specs::Entry::decode))]
pub fn trace_of(b: &[u8; Entry::SIZE]) -> Trace
    ensures { result ≡ (decode b.now).trace }
{
    Trace(digits::packed_number(&b[Entry::TRACE..Entry::AMOUNT]) as u32)
}

#[tactic(auto, unfolding(crate::specs::Entry::decode))]
pub fn amount_of(b: &[u8; Entry::SIZE]) -> u64
    ensures { result ≡ (decode b.now).amount }
{
    digits::packed_number(&b[Entry::AMOUNT..13])
}

// The 48 bytes that hold an entry's values.
pub fn bytes_of(e: Entry) -> [u8; Entry::SIZE]
    ensures { result ≡ encode e }
{
    let mut b = [0; Entry::SIZE];
    write(e, &mut b);
    b
}

// Whether the entry that 48 bytes hold keeps the clauses of rule 2 that are about it alone.
pub fn fits(b: &[u8; Entry::SIZE], sendings: u8, uploading: bool, awaited: bool) -> bool
    ensures { result ≡ fits sendings uploading awaited (decode b.now) }
{
    let (kind, mark, resends) = (b[0], b[2], b[3]);
    is_in_form(b)
        & ((b[1] == 0) | kinds::is_voidable(kind))
        & ((uploading & kinds::is_due(kind)) | ((mark == 0) & (resends == 0)))
        & ((resends <= sendings) & ((mark != 0) | (resends == 0)))
        & (!((mark == 1) & (resends == sendings)) | awaited)
}

// The values of 48 zeros, which stand for no entry.
pub fn blank() -> Entry
    ensures { result ≡ blank }
{
    Entry {
        kind: 0,
        voided: 0,
        mark: 0,
        resends: 0,
        trace: Trace(0),
        amount: 0,
        digits: 0,
        card: [0; 10],
        date: [0; 2],
        authorisation: [0; 6],
        reference: [0; 12],
        reserved: [0; 4],
    }
}

// Writes an entry's values over 48 bytes.
fn write(e: Entry, b: &mut [u8; Entry::SIZE])
    ensures { b.new ≡ encode e }
{
    b[0] = e.kind;
    b[1] = e.voided;
    b[2] = e.mark;
    b[3] = e.resends;
    digits::put_number(u64::from(e.trace.0), &mut b[Entry::TRACE..Entry::AMOUNT]);
    digits::put_number(e.amount, &mut b[Entry::AMOUNT..13]);
    b[13] = e.digits;
    digits::copy(&e.card, &mut b[14..24]);
    digits::copy(&e.date, &mut b[24..26]);
    digits::copy(&e.authorisation, &mut b[26..32]);
    digits::copy(&e.reference, &mut b[32..44]);
    digits::copy(&e.reserved, &mut b[44..48]);
}

// N of the bytes, from an offset on.
fn part<const N: usize>(b: &[u8; Entry::SIZE], at: usize) -> [u8; N]
    requires { at + N ≤ entry_size }
    ensures { result ≡ part at N b.now }
{
    let mut out = [0; N];
    digits::copy(&b[at..at + N], &mut out);
    out
}

// Whether each value is in its range and form.
#[tactic(auto, unfolding(crate::specs::Entry::decode, crate::specs::Form::in_form))]
fn is_in_form(b: &[u8; Entry::SIZE]) -> bool
    ensures { result ≡ in_form (decode b.now) }
{
    kinds::is_kind(b[0])
        & (b[1] <= 1)
        & (b[2] <= 4)
        & numbers::is_number(trace_of(b).0)
        & numbers::is_within(1, amount_of(b), numbers::LARGEST_AMOUNT)
        & is_card(b[13], &b[14..24])
        & digits::is_packed(&b[24..26], 4)
        & is_printable(&b[26..32])
        & is_printable(&b[32..44])
        & is_zero(&b[44..48])
}

fn is_zero(s: &[u8]) -> bool
    ensures { result ≡ all_zero s.now }
{
    s.iter().all(|b| *b == 0)
}

// Whether each byte is 20 to 7E; without an exit, so that the machine tests several at once.
#[tactic(auto, unfolding(field::specs::Contents::all_printable))]
fn is_printable(s: &[u8]) -> bool
    ensures { result ≡ all_printable s.now }
{
    let mut good = true;
    for b in s {
        good &= (0x20..=0x7E).contains(b);
    }
    good
}

// Whether n packed digits stand in a card's ten bytes, zero filled.
fn is_card(n: u8, card: &[u8]) -> bool
    requires { length card.now ≡ 10 }
    ensures { result ≡ card_in_form n card.now }
{
    if !numbers::is_within(13, u64::from(n), 19) {
        return false;
    }
    let count = usize::from(n);
    let size = count.div_ceil(2);
    digits::is_packed(&card[..size], count) & is_zero(&card[size..])
}
