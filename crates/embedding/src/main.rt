// A whole small program around the terminal: signing on, a sale on a line that stays silent, and its reversal until the desk is free.
#![tactic(auto)]

use desk::Desk;
use numbers::Trace;
use state::{Card, Settings};
use terminal::{Step, Terminal};

// The descriptor of standard output.
const STDOUT: i32 = 1;

// The entry limit, and the bytes of a journal for it.
const LIMIT: u32 = 10;

const JOURNAL: usize = 10 * Terminal::ENTRY;

// The centre's answer to the sign-on, in hexadecimal: 0810 for trace 1, code 00, batch number 1 and key material of 24 bytes. A real
// program reads it from the line.
const ANSWER: [u8; 144] =
    *b"08100020000002C000140000013030313030303030303131303030303030303030303030303100110000000100300024000000000000000000000000000000000000000000000000";

fn main() {
    let mut journal = [0u8; JOURNAL];
    let mut message = [0u8; Terminal::MESSAGE];
    sell(&mut journal, &mut message);
}

// Signs on and starts a sale; no answer to it comes.
fn sell(journal: &mut [u8], message: &mut [u8]) {
    let signed = opened(journal, message);
    let started = start(signed, journal, message);
    let silent = fall_silent(started, journal, message);
    reverse(silent, journal, message);
}

// A terminal that has signed on.
fn opened(journal: &mut [u8], message: &mut [u8]) -> Terminal {
    let fresh = Terminal::new(settings());
    let asked = sign_on(fresh, journal, message);
    hear(asked, journal, message)
}

// Sends the pending reversal, and waits in vain, until it has ended.
fn reverse(t: Terminal, journal: &mut [u8], message: &mut [u8]) {
    let mut terminal = t;
    for _ in 0..Terminal::MOST_SENDINGS {
        if !terminal.state.is_pending() {
            break;
        }
        let sent = send_reversal(terminal, journal, message);
        terminal = fall_silent(sent, journal, message);
    }
}

// The calls, each with what follows it.
fn sign_on(t: Terminal, journal: &mut [u8], message: &mut [u8]) -> Terminal {
    let step = t.sign_on(journal, message);
    told(b"sign on: ", step, message)
}

fn hear(t: Terminal, journal: &mut [u8], message: &mut [u8]) -> Terminal {
    let text = ANSWER;
    let mut answer = [0u8; 72];
    let _ = hexadecimal::hex_into(&text, &mut answer);
    let step = t.answer(&answer, true, journal, message);
    told(b"answer: ", step, message)
}

fn start(t: Terminal, journal: &mut [u8], message: &mut [u8]) -> Terminal {
    let step = t.start(sale(), b"", journal, message);
    told(b"start: ", step, message)
}

fn fall_silent(t: Terminal, journal: &mut [u8], message: &mut [u8]) -> Terminal {
    let step = t.no_answer(journal, message);
    told(b"no answer: ", step, message)
}

fn send_reversal(t: Terminal, journal: &mut [u8], message: &mut [u8]) -> Terminal {
    let step = t.send_reversal(journal, message);
    told(b"send reversal: ", step, message)
}

// What follows a call. A real program stores terminal and journal here, then sends the message or tells the desk; this one writes
// what the call gave.
fn told(name: &[u8], step: Step, message: &[u8]) -> Terminal {
    let mut text = [0u8; 128];
    let outcome = step.outcome;
    let n = texts::add(name, 0, &mut text);
    let end = screen::add_outcome(outcome, message, n, &mut text);
    io::write_all(STDOUT, texts::front(&text, end));
    step.terminal
}

fn settings() -> Settings {
    Settings::usual(LIMIT, *b"10000001", *b"100000000000001")
}

// A fee of 80.00 yuan; what a sale does not send is left zero.
fn sale() -> Desk {
    Desk {
        kind: 22,
        amount: 8000,
        card: Card {
            number: 6222029876543214,
            length: 16,
        },
        original: Trace(0),
        month: 0,
        day: 0,
        authorisation: [0; 6],
        reference: [0; 12],
        chip: false,
    }
}
