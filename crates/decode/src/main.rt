// Shows messages: reads a message in hexadecimal from each line of standard input, and writes what it holds.
#![tactic(auto)]

use hexadecimal::HexError;
use input::Input;

// The descriptors of standard input and output.
const STDIN: i32 = 0;

const STDOUT: i32 = 1;

fn main() {
    let mut chunk = io::buffer();
    let mut line = input::buffer();
    answer_all(&mut chunk, &mut line);
}

// Answers each line before the next is read, until the input ends. A proved loop has to end, and nothing says that the
// input does, so the loop counts its turns.
fn answer_all(chunk: &mut [u8], line: &mut [u8]) {
    let mut at = Input::new(STDIN);
    for _ in 0..u64::MAX {
        at = input::next(at, chunk, line);
        answer_line(at, line);
        if at.ended {
            return;
        }
    }
}

// Answers the line in hand, unless it is skipped.
fn answer_line(at: Input, line: &[u8]) {
    if input::is_too_long(at, line) {
        complain_of_length(at.number);
        return;
    }
    let words = input::words_of(at, line);
    if !words.is_empty() {
        answer(at.number, words);
    }
}

// The answer to a line's words.
fn answer(number: u64, words: &[u8]) {
    let mut bytes = [0; 2048];
    match hexadecimal::hex_into(words, &mut bytes) {
        Ok(n) => show(&bytes[..n]),
        Err(HexError::NotHexadecimal) => complain(number, b" not hexadecimal\n"),
        Err(HexError::TooLong) => complain_of_length(number),
    }
}

// What a message of these bytes holds, or why it is refused.
fn show(s: &[u8]) {
    match reading::read(s) {
        Ok(m) => {
            let mut text = io::large_buffer();
            let n = dump::add_message(&m, s.len() as u64, 0, &mut text);
            io::write_all(STDOUT, &text[..n]);
        }
        Err(e) => say(b"refused ", u64::from(u8::from(e)), b"\n"),
    }
}

fn complain_of_length(number: u64) {
    complain(number, b" longer than 4096 bytes\n");
}

fn complain(number: u64, reason: &[u8]) {
    say(b"error line ", number, reason);
}

// Writes words, a number and words in one piece.
fn say(before: &[u8], number: u64, after: &[u8]) {
    let mut text = [0; 64];
    let mut n = texts::add(before, 0, &mut text);
    n = texts::add_decimal(number, n, &mut text);
    n = texts::add(after, n, &mut text);
    io::write_all(STDOUT, &text[..n]);
}
