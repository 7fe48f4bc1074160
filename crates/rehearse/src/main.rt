// A desk and its terminal, driven by a script: that of standard input, or each that an argument names, under its name.
#![tactic(auto)]

mod commands;

ghost use Rattle.std.specs.Prelude.{◌≡◌, false};
ghost use Rattle.state.specs.Calls.{lend};
ghost use Rattle.input.specs.Input.{in_hand};
ghost use Rattle.texts.specs.Text.{Text};
ghost use Rattle.rehearse.specs.Rehearsal.{Did};
ghost use Rattle.rehearse.specs.Scripts.{echoed, answered, Rehearses};

use commands::Acted;
use input::Input;
use stage::Rehearsal;
use std::env;
use std::env::Args;
use std::fs::File;
use std::os::fd::AsRawFd;
use terminal::Terminal;

// The descriptors of standard input and output.
const STDIN: i32 = 0;

const STDOUT: i32 = 1;

// Room for 1,000 entries, so that a limit above 300 is judged by rule 2 up to there, and by rule 1 beyond.
const JOURNAL: usize = 1000 * Terminal::ENTRY;

// Where a rehearsal has stopped.
#[derive(Clone, Copy)]
struct Stopped {
    input: Input,
    rehearsal: Rehearsal,
}

fn main(rt: HostRuntime) -> std::io::Result<()> {
    let arguments = env::args(&rt)?;
    if arguments.len() < 2 {
        rehearse(STDIN);
        return Ok(());
    }
    run_arguments(&rt, arguments);
    Ok(())
}

// Runs each script that an argument names; the first argument is the program.
fn run_arguments(rt: &HostRuntime, arguments: Args) {
    for path in arguments.skip(1) {
        run(rt, &path);
    }
}

// Runs the script in a file, or says why it cannot. The file is open until it has been rehearsed.
fn run(rt: &HostRuntime, path: &str) {
    match File::open(rt, path) {
        Ok(file) => {
            io::write_all(STDOUT, b"# ");
            io::write_all(STDOUT, path.as_bytes());
            io::write_all(STDOUT, b"\n");
            rehearse(file.as_raw_fd());
        }
        // Where that cannot be written either, the next script goes on.
        Err(error) => {
            let _ = eprintln!(rt; "{path}: {error}");
        }
    }
}

// Rehearses the script in an open file.
fn rehearse(script: i32) -> Stopped
    ensures { (result.input.file ≡ script) × (result.input.ended ≡ false → result.input.number ≡ 18446744073709551615) }
{
    let mut chunk = io::buffer();
    rehearse_lines(Rehearsal::new(), Input::new(script), &mut chunk)
}

// Answers each line before the next is read, until the input ends. The text has room for a journal of 300 entries. A proved loop
// has to end, and nothing says that the input does, so the loop counts its turns.
fn rehearse_lines(r: Rehearsal, input: Input, chunk: &mut [u8]) -> Stopped
    ensures { Rehearses r input chunk.old result chunk.new }
{
    let mut line = input::buffer();
    let mut journal = [0u8; JOURNAL];
    let mut message = [0u8; Terminal::MESSAGE];
    let mut text = io::large_buffer();
    let mut rehearsal = r;
    let mut at = input;
    for _ in 0..u64::MAX {
        at = input::next(at, chunk, &mut line);
        write_echo(rehearsal, at, &line);
        let acted = answer(rehearsal, at, &line, &mut journal, &mut message, &mut text);
        io::write_all(STDOUT, &text[..acted.written]);
        rehearsal = acted.rehearsal;
        if at.ended {
            break;
        }
    }
    Stopped {
        input: at,
        rehearsal,
    }
}

// Writes the echo of the line in hand, before its answer. There is room for the longest line, with `> ` and a line feed.
fn write_echo(r: Rehearsal, at: Input, line: &[u8]) {
    let mut text = [0u8; 4099];
    let n = echoed(r, at, line, &mut text);
    io::write_all(STDOUT, &text[..n]);
}

// Echoes the line in hand where echo is on; what is to be written stands at the front of text.
fn echoed(r: Rehearsal, at: Input, line: &[u8], text: &mut [u8]) -> usize
    ensures { Text (echoed (in_hand at.whole at.len line.now) r) result text.new }
{
    let words = input::trimmed(at, line);
    if !r.echo || input::is_too_long(at, line) || words.is_empty() {
        return 0;
    }
    echo::add_echo(words, 0, text)
}

// Answers the line in hand; what is to be written stands at the front of text.
fn answer(
    r: Rehearsal,
    at: Input,
    line: &[u8],
    journal: &mut [u8],
    message: &mut [u8],
    text: &mut [u8],
) -> Acted
    ensures { Did (answered at.number (in_hand at.whole at.len line.now) r (lend journal.old message.old)) result (lend journal.new message.new) text.new }
{
    if input::is_too_long(at, line) {
        return Acted {
            rehearsal: r,
            written: screen::add_error(at.number, b"longer than 4096 bytes", 0, text),
        };
    }
    let words = input::words_of(at, line);
    if words.is_empty() {
        return Acted {
            rehearsal: r,
            written: 0,
        };
    }
    commands::act(r, at.number, words, journal, message, text)
}
