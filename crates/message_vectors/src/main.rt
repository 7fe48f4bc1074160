// Cases of reading and writing that the documents do not star. What this writes is compared with the file stdout.
#![tactic(auto)]

ghost use Rattle.std.specs.Prelude.{◌<◌, ◌≤◌, length};
ghost use Rattle.field.specs.Table.{rows};

use checks::Refusal;
use field::Class;
use message::{Contents, Message};

// The descriptor of standard output.
const STDOUT: i32 = 1;

// A sale of 12,000 fen, trace 1, batch 1.
const SALE: [u8; 77] = [
    0x02, 0x00, 0x70, 0x20, 0x04, 0x80, 0x00, 0xC0, 0x80, 0x11, 0x16, 0x62, 0x22, 0x02, 0x12, 0x34,
    0x56, 0x78, 0x90, 0x00, 0x00, 0x00, 0x00, 0x00, 0x00, 0x01, 0x20, 0x00, 0x00, 0x00, 0x01, 0x01,
    0x20, 0x00, 0x31, 0x31, 0x31, 0x31, 0x31, 0x31, 0x31, 0x31, 0x32, 0x32, 0x32, 0x32, 0x32, 0x32,
    0x32, 0x32, 0x32, 0x32, 0x32, 0x32, 0x32, 0x32, 0x32, 0x31, 0x35, 0x36, 0x00, 0x14, 0x22, 0x00,
    0x00, 0x01, 0x00, 0x00, 0x01, 0x00, 0x00, 0x00, 0x00, 0x00, 0x00, 0x00, 0x00,
];

// A message of field 55 alone, with elements 9F26 and 82.
const CHIP: [u8; 20] = [
    0x02, 0x10, 0x00, 0x00, 0x00, 0x00, 0x00, 0x00, 0x02, 0x00, 0x00, 0x08, 0x9F, 0x26, 0x01, 0xAA,
    0x82, 0x02, 0x00, 0x00,
];

// Its second tag given as 9F26 too, with a value of one byte.
const TWICE: [u8; 20] = [
    0x02, 0x10, 0x00, 0x00, 0x00, 0x00, 0x00, 0x00, 0x02, 0x00, 0x00, 0x08, 0x9F, 0x26, 0x01, 0xAA,
    0x9F, 0x26, 0x01, 0x00,
];

// A message of field 62 alone, with 24 bytes.
const KEYS: [u8; 36] = [
    0x08, 0x10, 0x00, 0x00, 0x00, 0x00, 0x00, 0x00, 0x00, 0x04, 0x00, 0x24, 0x00, 0x1F, 0x20, 0x7E,
    0x7F, 0x80, 0x9A, 0xFF, 0x00, 0x1F, 0x20, 0x7E, 0x7F, 0x80, 0x9A, 0xFF, 0x00, 0x1F, 0x20, 0x7E,
    0x7F, 0x80, 0x9A, 0xFF,
];

// One with 25 bytes.
const LONG_KEYS: [u8; 37] = [
    0x08, 0x10, 0x00, 0x00, 0x00, 0x00, 0x00, 0x00, 0x00, 0x04, 0x00, 0x25, 0x00, 0x1F, 0x20, 0x7E,
    0x7F, 0x80, 0x9A, 0xFF, 0x00, 0x1F, 0x20, 0x7E, 0x7F, 0x80, 0x9A, 0xFF, 0x00, 0x1F, 0x20, 0x7E,
    0x7F, 0x80, 0x9A, 0xFF, 0x00,
];

// Fields 55 and 62: an element of tag 9F00 without a length, and one byte.
const CHIP_AND_KEYS: [u8; 17] = [
    0x08, 0x10, 0x00, 0x00, 0x00, 0x00, 0x00, 0x00, 0x02, 0x04, 0x00, 0x02, 0x9F, 0x00, 0x00, 0x01,
    0x00,
];

// The rows of fields 60 and 62 in the table.
const CODES_ROW: usize = 21;

const KEYS_ROW: usize = 23;

// The lengths of each, and those beside them.
const NEAR_CODES: [u8; 6] = [10, 11, 12, 13, 14, 15];

const NEAR_KEYS: [u8; 15] = [23, 24, 25, 39, 40, 41, 55, 56, 57, 59, 60, 61, 83, 84, 85];

// The bitmap that names every field.
const ALL_FIELDS: [u8; 8] = [0x70, 0x3E, 0x04, 0x81, 0x0E, 0xD1, 0x86, 0x1F];

fn say(text: &[u8]) {
    io::write_all(STDOUT, text);
}

fn show_number(x: u64) {
    say(b" ");
    io::print_decimal(STDOUT, x);
}

fn show_refusal(e: Refusal) {
    say(b" r");
    io::print_decimal(STDOUT, u64::from(u8::from(e)));
}

// 0 where a message was read, else the refusal number.
fn show_reading(s: &[u8]) {
    let number = match reading::read(s) {
        Ok(_) => 0,
        Err(e) => u8::from(e),
    };
    show_number(u64::from(number));
}

// The length of what was written, or the refusal number after an r.
fn show_writing(written: Result<usize, Refusal>) {
    match written {
        Ok(n) => show_number(n as u64),
        Err(e) => show_refusal(e),
    }
}

// A message cut off after each number of bytes.
fn cut_copies(s: &[u8]) {
    say(b"cut");
    for n in 0..=s.len() {
        show_reading(&s[..n]);
    }
    say(b"\n");
}

// A message of at most 80 bytes with the byte at place i replaced.
fn show_damaged(s: &[u8], i: usize, b: u8)
    requires { (i < length s.now) × (length s.now ≤ 80) }
{
    let n = s.len();
    let mut copy = [0; 80];
    digits::copy(s, &mut copy[..n]);
    copy[i] = b;
    show_reading(&copy[..n]);
}

// The same at each place in turn.
fn damaged_copies(s: &[u8], b: u8)
    requires { length s.now ≤ 80 }
{
    say(b"damaged");
    for i in 0..s.len() {
        show_damaged(s, i, b);
    }
    say(b"\n");
}

// A message of less than 80 bytes with bytes after its last field.
fn long_copy(s: &[u8])
    requires { length s.now < 80 }
{
    say(b"long");
    let n = s.len();
    let mut longer = [0; 80];
    digits::copy(s, &mut longer[..n]);
    show_reading(&longer[..n + 1]);
    show_reading(&longer);
    say(b"\n");
}

// A message that names only the field of row k, with this count and a space or a zero in each place.
fn field_message(k: usize, count: u8) -> Message
    requires { k < rows }
{
    let f = field::table()[k];
    let mut m = Message::new();
    m.indicator = 0x0210;
    m.bitmap = bitmap_of(f.number);
    m.counts[k] = count;
    m.contents = filled(f.class);
    m
}

// The bitmap that names field n alone.
fn bitmap_of(n: u8) -> [u8; 8] {
    let mut bitmap = [0; 8];
    if (1..=64).contains(&n) {
        let i = n - 1;
        bitmap[usize::from(i / 8)] = 128 >> (i % 8);
    }
    bitmap
}

fn filled(class: Class) -> Contents {
    match class {
        Class::Digits => [0; message::ROOM],
        Class::Printable => [0x20; message::ROOM],
        Class::Any => [0xFF; message::ROOM],
    }
}

// A message written, read again and written again.
fn round_trip(m: &Message) {
    let mut first = [0xEE; 620];
    let written = writing::write(m, &mut first);
    show_writing(written);
    let Ok(n) = written else { return };
    let Some(s) = first.get(..n) else { return };
    let Ok(back) = reading::read(s) else { return };
    let mut second = [0xEE; 620];
    show_writing(writing::write(&back, &mut second));
    if first == second {
        say(b" same");
    }
}

// Each field with its smallest and largest count, one less and one more.
fn field_lengths() {
    for (k, f) in field::table().iter().enumerate() {
        say(b"field");
        show_number(u64::from(f.number));
        if 0 < f.low {
            round_trip(&field_message(k, f.low - 1));
        }
        round_trip(&field_message(k, f.low));
        round_trip(&field_message(k, f.high));
        if f.high < 255 {
            round_trip(&field_message(k, f.high + 1));
        }
        say(b"\n");
    }
}

// The field of row k with each of these counts.
fn near_counts(k: usize, counts: &[u8])
    requires { k < rows }
{
    for &count in counts {
        round_trip(&field_message(k, count));
    }
    say(b"\n");
}

// Fields 60 and 62 with their lengths, and those beside them.
fn listed_lengths() {
    say(b"codes");
    near_counts(CODES_ROW, &NEAR_CODES);
    say(b"keys");
    near_counts(KEYS_ROW, &NEAR_KEYS);
}

// A field 62 of n bytes that is read, or is refused by another number than 24.
fn show_keys(n: usize)
    requires { n < 300 }
{
    let mut s = [0; 312];
    s[0] = 0x08;
    s[1] = 0x10;
    s[9] = 0x04;
    s[10] = (n / 100) as u8;
    s[11] = (n / 10 % 10 * 16 + n % 10) as u8;
    match reading::read(&s[..n + 12]) {
        Ok(_) => show_number(n as u64),
        Err(Refusal::BadKeyLength) => {}
        Err(e) => show_refusal(e),
    }
}

// Each length up to 299 in turn.
fn key_lengths() {
    say(b"lengths");
    for n in 0..300 {
        show_keys(n);
    }
    say(b"\n");
}

// A message of all fields, each as long as it may be: packed digits 20, spaces, and one element in field 55.
fn largest_message() -> Message {
    let mut counts = [0; field::ROWS];
    for (count, f) in counts.iter_mut().zip(&field::table()) {
        *count = f.high;
    }
    Message {
        indicator: 0x0210,
        bitmap: ALL_FIELDS,
        counts,
        contents: with_element([0x20; message::ROOM]),
    }
}

// These contents with an element of tag 82 and 252 bytes at the front of field 55.
fn with_element(mut contents: Contents) -> Contents {
    if let Some(at) = message::locate(55) {
        if at.from < message::ROOM - 3 {
            contents[at.from] = 0x82;
            contents[at.from + 1] = 0x81;
            contents[at.from + 2] = 0xFC;
        }
    }
    contents
}

fn largest_trip() {
    say(b"largest");
    round_trip(&largest_message());
    say(b"\n");
}

fn sale_message() -> Message {
    reading::read(&SALE).unwrap_or(Message::new())
}

// The sale with a fault in it, and with two, the earlier of which decides.
fn written_faults() {
    say(b"written");
    let mut m = sale_message();
    round_trip(&m);
    let mut short = [0; 613];
    show_writing(writing::write(&m, &mut short));
    m.contents[60] = 0x1F;
    round_trip(&m);
    m.contents[10] = 0xA0;
    round_trip(&m);
    m.counts[0] = 12;
    round_trip(&m);
    m.bitmap[0] = 0xF0;
    round_trip(&m);
    m.indicator = 0x0300;
    round_trip(&m);
    show_writing(writing::write(&m, &mut short));
    say(b"\n");
}

// The sale, cut off, damaged and too long.
fn sale_copies() {
    cut_copies(&SALE);
    damaged_copies(&SALE, 0xFF);
    damaged_copies(&SALE, 0x0A);
    damaged_copies(&SALE, 0x99);
    long_copy(&SALE);
}

// Field 55 alone, in form and not.
fn chip_copies() {
    cut_copies(&CHIP);
    damaged_copies(&CHIP, 0x00);
    damaged_copies(&CHIP, 0x9F);
    long_copy(&CHIP);
    cut_copies(&TWICE);
    long_copy(&TWICE);
}

// Field 62 alone, of two lengths, and after a field 55 out of form.
fn key_copies() {
    cut_copies(&KEYS);
    damaged_copies(&KEYS, 0x00);
    damaged_copies(&KEYS, 0x99);
    damaged_copies(&KEYS, 0x0A);
    long_copy(&KEYS);
    cut_copies(&LONG_KEYS);
    long_copy(&LONG_KEYS);
    cut_copies(&CHIP_AND_KEYS);
    damaged_copies(&CHIP_AND_KEYS, 0x00);
    long_copy(&CHIP_AND_KEYS);
}

fn main() {
    sale_copies();
    chip_copies();
    key_copies();
    field_lengths();
    listed_lengths();
    key_lengths();
    largest_trip();
    written_faults();
}
