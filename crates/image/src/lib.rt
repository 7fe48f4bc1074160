// The image of the state: its bytes, of one length, with the version of the format at the front. WIDTHS is the layout: a row for each
// number of the state. After the rows stands a region of bytes, those of the chip.
#![tactic(auto)]

ghost use Rattle.std.specs.Prelude.{◌≡◌, ◌+◌, ◌≤◌, length};
ghost use Rattle.field.specs.Bitmap.{word_of};
ghost use Rattle.image_definitions.specs.Layout.{widths, region_offset, size, bytes_of, laid_in, numbers_in};
ghost use Rattle.image_definitions.specs.Image.{reason_value, request_values, reversal_values, plain_values, awaited_values, phase_values, member_values, settings_values, counts_values, totals_values, chip_values, values_of, region_of, image, settings_of, counts_of, totals_in, request_of, reason_of, reversal_of, phase_of, chip_in, state_of, reading_of, read_image};

use kinds::Totals;
use numbers::{Batch, Trace};
use state::{Awaited, Card, Chip, Counts, Phase, Reason, Request, Reversal, Settings, State};

// The bytes of an image.
pub const SIZE: usize = 415;

// The version of the format.
const VERSION: u64 = 5;

pub const ROWS: usize = 35;

// Where the region stands, and in it its parts after field 55: date, authorisation, reference.
const REGION: usize = 140;

const DATE: usize = 255;

const AUTHORISATION: usize = 257;

const REFERENCE: usize = 263;

// The bytes of each number, in the image's order.
const WIDTHS: [usize; ROWS] = [
    2, // version
    4, // entry limit
    1, // sendings
    8, // largest refund
    8, // field 41
    8, // field 42, first 8 bytes
    7, // field 42, last 7 bytes
    1, // signed on
    4, // batch
    4, // next trace
    2, // entries
    4, // sent
    4, // approved
    4, // declined
    4, // reversed
    4, // given up
    4, // unanswered
    8, // debit amount
    2, // debit count
    8, // credit amount
    2, // credit count
    1, // phase
    1, // kind of its request
    8, // amount
    8, // card number
    1, // card length
    4, // trace
    4, // original trace
    1, // reason of its reversal
    1, // sendings of its reversal
    4, // trace of a settlement or an upload's end, place of an item
    1, // length of the chip's field 55
    1, // approved
    8, // for which amount
    4, // trace of the sign-on that is awaited
];

// The image of a state.
#[tactic(auto, using(crate::proofs::Region::image_put))]
pub fn image_of(s: State) -> [u8; SIZE]
    ensures { result ≡ image s }
{
    let values = values_of(s);
    let mut out = [0; SIZE];
    put_rows(&values, &mut out[..REGION]);
    put_region(s.chip, &mut out[REGION..]);
    out
}

// The state whose image these bytes are; all others are refused. The region is carried as it stands, so the rows decide.
pub fn read(b: &[u8]) -> Option<State>
    ensures { reading_of result ≡ read_image b.now }
{
    if b.len() != SIZE {
        return None;
    }
    let numbers = numbers_in(b);
    let state = state_of(numbers, &b[REGION..]);
    if numbers == values_of(state) {
        Some(state)
    } else {
        None
    }
}

// Fills out with the numbers of the rows.
fn put_rows(values: &[u64; ROWS], out: &mut [u8])
    requires { length out.old ≡ region_offset }
    ensures { out.new ≡ laid_in widths values.now }
{
    let mut at = 0;
    for (k, width) in WIDTHS.iter().enumerate() {
        let end = at + width;
        put_number(values[k], &mut out[at..end]);
        at = end;
    }
}

// Fills out with the region of a chip.
fn put_region(c: Chip, out: &mut [u8])
    requires { length out.old + region_offset ≡ size }
    ensures { out.new ≡ region_of c }
{
    digits::copy(&c.bytes, &mut out[..DATE]);
    digits::copy(&c.date, &mut out[DATE..AUTHORISATION]);
    digits::copy(&c.authorisation, &mut out[AUTHORISATION..REFERENCE]);
    digits::copy(&c.reference, &mut out[REFERENCE..]);
}

// Fills out with the last bytes of a number.
fn put_number(x: u64, out: &mut [u8])
    ensures { out.new ≡ bytes_of (length out.old) x }
{
    let mut y = x;
    for i in (0..out.len()).rev() {
        out[i] = (y % 256) as u8;
        y /= 256;
    }
}

// The number that bytes say.
fn number_in(b: &[u8]) -> u64
    requires { length b.now ≤ 8 }
    ensures { result ≡ word_of (length b.now) b.now }
{
    let mut word = 0;
    for &x in b {
        word = word * 256 + u64::from(x);
    }
    word
}

// The number of each row.
fn numbers_in(b: &[u8]) -> [u64; ROWS]
    requires { length b.now ≡ size }
    ensures { result ≡ numbers_in widths b.now }
{
    let mut numbers = [0; ROWS];
    let mut at = 0;
    for (k, width) in WIDTHS.iter().enumerate() {
        let end = at + width;
        numbers[k] = number_in(&b[at..end]);
        at = end;
    }
    numbers
}

// The number of each row, of a state.
pub fn values_of(s: State) -> [u64; ROWS]
    ensures { result ≡ values_of s }
{
    let x = settings_values(s.settings);
    let m = member_values(s);
    let c = counts_values(s.counts);
    let t = totals_values(s.totals);
    let p = phase_values(s.phase);
    let k = chip_values(s.chip);
    [
        VERSION,
        x[0],
        x[1],
        x[2],
        x[3],
        x[4],
        x[5],
        m[0],
        m[1],
        m[2],
        m[3],
        c[0],
        c[1],
        c[2],
        c[3],
        c[4],
        c[5],
        t[0],
        t[1],
        t[2],
        t[3],
        p[0],
        p[1],
        p[2],
        p[3],
        p[4],
        p[5],
        p[6],
        p[7],
        p[8],
        p[9],
        k[0],
        k[1],
        k[2],
        u64::from(s.sign_on.0),
    ]
}

fn settings_values(x: Settings) -> [u64; 6]
    ensures { result ≡ settings_values x }
{
    [
        u64::from(x.limit),
        u64::from(x.sendings),
        x.refund,
        number_in(&x.terminal),
        number_in(&x.merchant[..8]),
        number_in(&x.merchant[8..]),
    ]
}

// Signed on, batch, next trace, entries.
fn member_values(s: State) -> [u64; 4]
    ensures { result ≡ member_values s }
{
    [
        u64::from(s.signed_on),
        u64::from(s.batch.0),
        u64::from(s.next.0),
        u64::from(s.entries),
    ]
}

fn counts_values(c: Counts) -> [u64; 6]
    ensures { result ≡ counts_values c }
{
    [
        u64::from(c.sent),
        u64::from(c.approved),
        u64::from(c.declined),
        u64::from(c.reversed),
        u64::from(c.given_up),
        u64::from(c.unanswered),
    ]
}

fn totals_values(t: Totals) -> [u64; 4]
    ensures { result ≡ totals_values t }
{
    [t.debit, u64::from(t.debits), t.credit, u64::from(t.credits)]
}

// Length of field 55, approved, for which amount.
fn chip_values(c: Chip) -> [u64; 3]
    ensures { result ≡ chip_values c }
{
    [u64::from(c.length), u64::from(c.approved), c.amount]
}

fn phase_values(p: Phase) -> [u64; 10]
    ensures { result ≡ phase_values p }
{
    match p {
        Phase::Resting => plain_values(0, 0),
        Phase::Waiting(a) => awaited_values(a),
        Phase::Pending(v) => reversal_values(6, v),
        Phase::Settling => plain_values(7, 0),
        Phase::Uploading => plain_values(8, 0),
    }
}

fn awaited_values(a: Awaited) -> [u64; 10]
    ensures { result ≡ awaited_values a }
{
    match a {
        Awaited::Request(q) => request_values(1, q, 0, 0),
        Awaited::Reversal(v) => reversal_values(2, v),
        Awaited::Settlement(t) => plain_values(3, u64::from(t.0)),
        Awaited::Item(i) => plain_values(4, u64::from(i)),
        Awaited::End(t) => plain_values(5, u64::from(t.0)),
    }
}

fn reversal_values(p: u64, v: Reversal) -> [u64; 10]
    ensures { result ≡ reversal_values p v }
{
    request_values(p, v.request, reason_value(v.reason), u64::from(v.sendings))
}

fn request_values(p: u64, q: Request, reason: u64, sendings: u64) -> [u64; 10]
    ensures { result ≡ request_values p q reason sendings }
{
    [
        p,
        u64::from(q.kind),
        q.amount,
        q.card.number,
        u64::from(q.card.length),
        u64::from(q.trace.0),
        u64::from(q.original.0),
        reason,
        sendings,
        0,
    ]
}

fn plain_values(p: u64, x: u64) -> [u64; 10]
    ensures { result ≡ plain_values p x }
{
    [p, 0, 0, 0, 0, 0, 0, 0, 0, x]
}

fn reason_value(r: Reason) -> u64
    ensures { result ≡ reason_value r }
{
    match r {
        Reason::Silence => 0,
        Reason::BadMac => 1,
        Reason::CardDeclined => 2,
    }
}

// The state that the numbers of the rows and the region say.
fn state_of(v: [u64; ROWS], region: &[u8]) -> State
    requires { length region.now + region_offset ≡ size }
    ensures { result ≡ state_of v region.now }
{
    State {
        settings: settings_of(&v[1..7]),
        signed_on: v[7] == 1,
        sign_on: Trace((v[34] & 0xffff_ffff) as u32),
        batch: Batch((v[8] & 0xffff_ffff) as u32),
        next: Trace((v[9] & 0xffff_ffff) as u32),
        entries: (v[10] & 0xffff) as u16,
        counts: counts_of(&v[11..17]),
        totals: totals_in(&v[17..21]),
        chip: chip_in(&v[31..34], region),
        phase: phase_of(&v[21..31]),
    }
}

fn settings_of(v: &[u64]) -> Settings
    requires { length v.now ≡ 6 }
    ensures { result ≡ settings_of v.now }
{
    let mut terminal = [0; 8];
    let mut merchant = [0; 15];
    put_number(v[3], &mut terminal);
    put_number(v[4], &mut merchant[..8]);
    put_number(v[5], &mut merchant[8..]);
    Settings {
        limit: (v[0] & 0xffff_ffff) as u32,
        sendings: (v[1] & 0xff) as u8,
        refund: v[2],
        terminal,
        merchant,
    }
}

fn counts_of(v: &[u64]) -> Counts
    requires { length v.now ≡ 6 }
    ensures { result ≡ counts_of v.now }
{
    Counts {
        sent: (v[0] & 0xffff_ffff) as u32,
        approved: (v[1] & 0xffff_ffff) as u32,
        declined: (v[2] & 0xffff_ffff) as u32,
        reversed: (v[3] & 0xffff_ffff) as u32,
        given_up: (v[4] & 0xffff_ffff) as u32,
        unanswered: (v[5] & 0xffff_ffff) as u32,
    }
}

// The totals in their four rows.
fn totals_in(v: &[u64]) -> Totals
    requires { length v.now ≡ 4 }
    ensures { result ≡ totals_in v.now }
{
    Totals {
        debit: v[0],
        debits: (v[1] & 0xffff) as u16,
        credit: v[2],
        credits: (v[3] & 0xffff) as u16,
    }
}

// The chip in its three rows and the region.
fn chip_in(v: &[u64], region: &[u8]) -> Chip
    requires { (length v.now ≡ 3) × (length region.now + region_offset ≡ size) }
    ensures { result ≡ chip_in v.now region.now }
{
    let mut bytes = [0; 255];
    let mut date = [0; 2];
    let mut authorisation = [0; 6];
    let mut reference = [0; 12];
    digits::copy(&region[..DATE], &mut bytes);
    digits::copy(&region[DATE..AUTHORISATION], &mut date);
    digits::copy(&region[AUTHORISATION..REFERENCE], &mut authorisation);
    digits::copy(&region[REFERENCE..], &mut reference);
    Chip {
        length: (v[0] & 0xff) as u8,
        bytes,
        approved: v[1] == 1,
        amount: v[2],
        date,
        authorisation,
        reference,
    }
}

// The phase in its ten rows; a number of no phase gives some phase.
fn phase_of(v: &[u64]) -> Phase
    requires { length v.now ≡ 10 }
    ensures { result ≡ phase_of v.now }
{
    match v[0] {
        1 => Phase::Waiting(Awaited::Request(request_of(v))),
        2 => Phase::Waiting(Awaited::Reversal(reversal_of(v))),
        3 => Phase::Waiting(Awaited::Settlement(Trace((v[9] & 0xffff_ffff) as u32))),
        4 => Phase::Waiting(Awaited::Item((v[9] & 0xffff) as u16)),
        5 => Phase::Waiting(Awaited::End(Trace((v[9] & 0xffff_ffff) as u32))),
        6 => Phase::Pending(reversal_of(v)),
        7 => Phase::Settling,
        8 => Phase::Uploading,
        _ => Phase::Resting,
    }
}

fn reversal_of(v: &[u64]) -> Reversal
    requires { length v.now ≡ 10 }
    ensures { result ≡ reversal_of v.now }
{
    Reversal {
        request: request_of(v),
        reason: reason_of(v[7]),
        sendings: (v[8] & 0xff) as u8,
    }
}

fn request_of(v: &[u64]) -> Request
    requires { length v.now ≡ 10 }
    ensures { result ≡ request_of v.now }
{
    Request {
        kind: (v[1] & 0xff) as u8,
        amount: v[2],
        card: Card {
            number: v[3],
            length: (v[4] & 0xff) as u8,
        },
        trace: Trace((v[5] & 0xffff_ffff) as u32),
        original: Trace((v[6] & 0xffff_ffff) as u32),
    }
}

fn reason_of(x: u64) -> Reason
    ensures { result ≡ reason_of x }
{
    match x {
        1 => Reason::BadMac,
        2 => Reason::CardDeclined,
        _ => Reason::Silence,
    }
}
