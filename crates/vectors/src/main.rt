// Cases of the calls: reads a case in hexadecimal from each line of standard input, and writes what its call gives.
#![tactic(auto)]

mod cases;
mod integers;

use hexadecimal::HexError;
use input::Input;
use state::Outcome;

// The descriptors of standard input and output.
const STDIN: i32 = 0;

const STDOUT: i32 = 1;

// Adds a name and a number to a text of n bytes in out, and gives the new number of bytes.
fn add_named(name: &[u8], x: u64, n: usize, out: &mut [u8]) -> usize {
    let next = texts::add(name, n, out);
    texts::add_decimal(x, next, out)
}

fn add_outcome(o: Outcome, n: usize, out: &mut [u8]) -> usize {
    match o {
        Outcome::Send(k) => add_named(b"send ", k as u64, n, out),
        Outcome::Quiet => texts::add(b"quiet", n, out),
        Outcome::Refused(k) => add_named(b"refused ", u64::from(k), n, out),
    }
}

// Adds what a call left of these bytes: `same`, or the bytes in hexadecimal.
fn add_bytes(before: &[u8], after: &[u8], n: usize, out: &mut [u8]) -> usize {
    if digits::same(before, after) {
        return texts::add(b" same", n, out);
    }
    let next = texts::add(b" ", n, out);
    texts::add_hex(after, next, out)
}

// Writes what the call of a case gave in one piece; the message buffer was blank.
fn say(s: &[u8], outcome: Outcome, state: &[u8], blank: &[u8], journal: &[u8], message: &[u8]) {
    let mut text = [0; 4224];
    let mut n = add_outcome(outcome, 0, &mut text);
    n = add_bytes(cases::state_bytes(s), state, n, &mut text);
    n = add_bytes(cases::journal_of(s), journal, n, &mut text);
    n = add_bytes(blank, message, n, &mut text);
    n = texts::add(b"\n", n, &mut text);
    io::write_all(STDOUT, texts::front(&text, n));
}

fn show(s: &[u8], blank: &[u8], journal: &mut [u8], message: &mut [u8]) -> bool {
    let Some(step) = cases::call(s, journal, message) else {
        return false;
    };
    let state = image::image_of(step.terminal.state);
    say(s, step.outcome, &state, blank, journal, message);
    true
}

// Lends a case its buffers and shows it; false where these bytes are no case.
fn show_case(s: &[u8]) -> bool {
    let m = cases::message_length(s);
    let before = cases::journal_of(s);
    let j = before.len();
    if 640 < m || 1024 < j || !cases::is_whole(s) {
        return false;
    }
    let blank = [0xEE; 640];
    let mut message = blank;
    let mut journal = [0; 1024];
    texts::add(before, 0, &mut journal);
    show(s, &blank[..m], &mut journal[..j], &mut message[..m])
}

fn complain(number: u64, reason: &[u8]) {
    let mut text = [0; 64];
    let mut n = add_named(b"error line ", number, 0, &mut text);
    n = texts::add(reason, n, &mut text);
    io::write_all(STDOUT, texts::front(&text, n));
}

fn complain_of_length(number: u64) {
    complain(number, b" longer than 4096 bytes\n");
}

// The answer to a line's words.
fn answer(number: u64, words: &[u8]) {
    let mut bytes = [0; 2048];
    match hexadecimal::hex_into(words, &mut bytes) {
        Ok(n) => {
            if !show_case(texts::front(&bytes, n)) {
                complain(number, b" not a case\n");
            }
        }
        Err(HexError::NotHexadecimal) => complain(number, b" not hexadecimal\n"),
        Err(HexError::TooLong) => complain_of_length(number),
    }
}

// Answers the line in hand, unless it is skipped.
fn answer_line(at: Input, line: &[u8]) {
    if input::is_too_long(at, line) {
        complain_of_length(at.number);
        return;
    }
    let words = input::words_of(at, line);
    if !words.is_empty() {
        answer(at.number, words);
    }
}

// Answers each line before the next is read, until the input ends. A proved loop has to end, and nothing says that the
// input does, so the loop counts its turns.
fn answer_all(chunk: &mut [u8], line: &mut [u8]) {
    let mut at = Input::new(STDIN);
    for _ in 0..u64::MAX {
        at = input::next(at, chunk, line);
        answer_line(at, line);
        if at.ended {
            return;
        }
    }
}

fn main() {
    let mut chunk = io::buffer();
    let mut line = input::buffer();
    answer_all(&mut chunk, &mut line);
}
