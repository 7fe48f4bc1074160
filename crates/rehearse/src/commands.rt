// What a line of a script does to a rehearsal.
ghost use Rattle.std.specs.Prelude.{◌≡◌};
ghost use Rattle.state.specs.Calls.{lend};
ghost use Rattle.texts.specs.Text.{Text};
ghost use Rattle.screen.specs.Outcomes.{outcome_line};
ghost use Rattle.stage.specs.Stage.{after_call};
ghost use Rattle.rehearse.specs.Rehearsal.{Did};
ghost use Rattle.rehearse.specs.Commands.{done};

use stage::Rehearsal;
use terminal::{Step, Terminal};

// A rehearsal after a line, and how many bytes the line wrote.
#[derive(Clone, Copy)]
pub struct Acted {
    pub rehearsal: Rehearsal,
    pub written: usize,
}

// Does what line `number` of words s says; what it writes stands at the front of out, as far as out has room. The bytes of a
// call are those of a word of the line, or of the simulated centre.
pub fn act(
    r: Rehearsal,
    number: u64,
    s: &[u8],
    journal: &mut [u8],
    message: &mut [u8],
    out: &mut [u8],
) -> Acted
    ensures { Did (done number s.now r (lend journal.old message.old)) result (lend journal.new message.new) out.new }
{
    let line = script::parse(s);
    let command = line.command;
    let sent = lines::last_message(r, message);
    let asked = lines::asked_by(command, r.begun, centre_types::left_as(sent.indicator));
    match asked {
        Ok(Some(c)) => {
            let mut bytes = [0; 2048];
            let n = lines::bytes_into(command, s, &sent, r.date, r.batch, &mut bytes);
            let terminal = Terminal { state: r.state };
            let step = terminal.make(c, line.desk, &bytes[..n], journal, message);
            told(step, r, message, out)
        }
        Ok(None) | Err(_) => {
            let error = lines::error_of(asked.err());
            Acted {
                rehearsal: lines::changed(error, command, line.settings, r),
                written: lines::say(error, number, command, r, journal, message, out),
            }
        }
    }
}

// Writes what a call gave.
fn told(step: Step, r: Rehearsal, message: &[u8], out: &mut [u8]) -> Acted
    ensures { (result.rehearsal ≡ after_call step.outcome step.terminal.state r) × Text (outcome_line step.outcome message.now) result.written out.new }
{
    Acted {
        rehearsal: stage::after_call(step.outcome, step.terminal.state, r),
        written: screen::add_outcome(step.outcome, message, 0, out),
    }
}
