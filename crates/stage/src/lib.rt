// Where a rehearsal of the desk, its terminal and a simulated centre stands.
#![tactic(auto)]

ghost use Rattle.std.specs.Prelude.{◌≡◌, false};
ghost use Rattle.stage.specs.Stage.{as_sent, length_after, after_call, begun, dated, numbered, echoing};

use state::{Outcome, Settings, State};

// The simulated centre brings the batch number that a sign-on carried.
const AS_SENT: u32 = 1000000;

// Whether a rehearsal has a terminal, the terminal's state, the simulated centre's date MMDD, the batch number that it brings to a
// sign-on, where one above 999999 stands for the number that the request carried, the length of the last message that left, which
// stands in the message buffer, and whether lines are echoed.
#[derive(Clone, Copy)]
pub struct Rehearsal {
    pub begun: bool,
    pub state: State,
    pub date: u16,
    pub batch: u32,
    pub length: usize,
    pub echo: bool,
}

impl Rehearsal {
    // Before the first line there is no terminal, no message and no echo, the date is 0101, and the centre brings no number of its own.
    pub fn new() -> Self
        ensures { (result.begun ≡ false) × (result.date ≡ 101) × (result.batch ≡ as_sent) × (result.length ≡ 0) × (result.echo ≡ false) }
    {
        let settings = Settings {
            limit: 0,
            sendings: 0,
            refund: 0,
            terminal: [0; 8],
            merchant: [0; 15],
        };
        Rehearsal {
            begun: false,
            state: State::new(settings),
            date: 101,
            batch: AS_SENT,
            length: 0,
            echo: false,
        }
    }
}

// A fresh terminal of these settings.
pub fn begun(settings: Settings, r: Rehearsal) -> Rehearsal
    ensures { result ≡ begun settings r }
{
    Rehearsal {
        begun: true,
        state: State::new(settings),
        batch: AS_SENT,
        length: 0,
        ..r
    }
}

pub fn dated(date: u16, r: Rehearsal) -> Rehearsal
    ensures { result ≡ dated date r }
{
    Rehearsal { date, ..r }
}

pub fn numbered(batch: u32, r: Rehearsal) -> Rehearsal
    ensures { result ≡ numbered batch r }
{
    Rehearsal { batch, ..r }
}

pub fn echoing(on: bool, r: Rehearsal) -> Rehearsal
    ensures { result ≡ echoing on r }
{
    Rehearsal { echo: on, ..r }
}

// After a call that gave this outcome and left this state.
pub fn after_call(outcome: Outcome, state: State, r: Rehearsal) -> Rehearsal
    ensures { result ≡ after_call outcome state r }
{
    Rehearsal {
        begun: true,
        state,
        length: length_after(outcome, r.length),
        ..r
    }
}

fn length_after(outcome: Outcome, old: usize) -> usize
    ensures { result ≡ length_after outcome old }
{
    match outcome {
        Outcome::Send(n) => n,
        Outcome::Quiet | Outcome::Refused(_) => old,
    }
}
