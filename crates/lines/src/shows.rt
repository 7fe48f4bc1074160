// What a line that makes no call writes at the front of out, as far as out has room.
ghost use Rattle.std.specs.Prelude.{◌≡◌};
ghost use Rattle.state.specs.Calls.{lend};
ghost use Rattle.texts.specs.Text.{Text};
ghost use Rattle.grammar.specs.declared.Fault.TheVariants.{Word};
ghost use Rattle.screen.specs.Outcomes.{error_line};
ghost use Rattle.lines.specs.Shows.{last, message_in, fields_text, shown, fault_text, said};

use grammar::Fault;
use message::Message;
use script::{Command, Show};
use stage::Rehearsal;

// Why a line that is understood is not obeyed: row k is error k, and 0 is none.
const ERRORS: [u8; 126] = *b"
no terminal
nothing to answer
a settlement left last: reconcile answers it
no settlement left last
no card request left last
";

// The last message that left.
#[tactic(auto, using(crate::proofs::Laws::message_read))]
pub fn last_message(r: Rehearsal, message: &[u8]) -> Message
    ensures { result ≡ message_in (last r message.now) }
{
    reading::read(last(r, message)).unwrap_or(Message::new())
}

// Writes why a line is not obeyed, what it shows or what is wrong with it.
pub fn say(
    error: usize,
    number: u64,
    command: Command,
    r: Rehearsal,
    journal: &[u8],
    message: &[u8],
    out: &mut [u8],
) -> usize
    ensures { Text (said error number command r (lend journal.now message.now)) result out.new }
{
    if error != 0 {
        return screen::add_error(number, words::row(&ERRORS, error), 0, out);
    }
    match command {
        Command::Show(x) => show(x, r, journal, message, out),
        Command::Wrong(f) => add_fault(number, f, out),
        _ => 0,
    }
}

// Its bytes; all of the buffer where it is shorter.
fn last(r: Rehearsal, message: &[u8]) -> &[u8]
    ensures { result.now ≡ last r message.now }
{
    texts::front(message, r.length)
}

// Writes what is shown of the terminal.
fn show(x: Show, r: Rehearsal, journal: &[u8], message: &[u8], out: &mut [u8]) -> usize
    ensures { Text (shown x r (lend journal.now message.now)) result out.new }
{
    match x {
        Show::Counts => screen::add_counts(r.state.counts, r.state.phase, 0, out),
        Show::Totals => screen::add_totals(r.state.totals, 0, out),
        Show::State => screen::add_state(r.state, 0, out),
        Show::Journal => screen::add_journal(journal, r.state.entries, 0, out),
        Show::Message => screen::add_message(last(r, message), 0, out),
        Show::Fields => put_fields(r, message, out),
    }
}

// Writes the fields of the last message that left.
fn put_fields(r: Rehearsal, message: &[u8], out: &mut [u8]) -> usize
    ensures { Text (fields_text (last r message.now)) result out.new }
{
    let b = last(r, message);
    if b.is_empty() {
        return texts::add(b"message none\n", 0, out);
    }
    dump::add_message(&last_message(r, message), b.len() as u64, 0, out)
}

// Writes what is wrong with a line.
fn add_fault(number: u64, fault: Fault, out: &mut [u8]) -> usize
    ensures { Text (error_line number (fault_text fault)) result out.new }
{
    match fault {
        Fault::Unknown => screen::add_error(number, b"unknown command", 0, out),
        Fault::Count => screen::add_error(number, b"too many or too few words", 0, out),
        Fault::Word(k) => add_word_fault(number, k, out),
    }
}

fn add_word_fault(number: u64, k: u8, out: &mut [u8]) -> usize
    ensures { Text (error_line number (fault_text (Word k))) result out.new }
{
    let at = screen::add_named(b"error line ", number, 0, out);
    let next = screen::add_named(b" word ", u64::from(k), at, out);
    texts::add(b" not understood\n", next, out)
}
