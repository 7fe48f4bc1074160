// A line of a script as a command.
#![tactic(auto)]

mod names;
mod values;

ghost use Rattle.std.specs.Prelude.{◌≡◌};
ghost use Rattle.script.specs.Script.{command_of, judged_command, parsed};

use calls::Call;
use desk::Desk;
use grammar::Fault;
use state::Settings;

// What is shown.
#[derive(Clone, Copy)]
pub enum Show {
    Counts,
    Totals,
    State,
    Journal,
    Message,
    Fields,
}

// What the first word of a line names; requests, voids and what follows an authorisation come with their kind.
#[derive(Clone, Copy)]
pub enum Name {
    Terminal,
    Request(u8),
    Void(u8),
    Authorised(u8),
    Refund,
    Start,
    Answer,
    Reply,
    Reconcile,
    Date,
    CentreBatch,
    Echo,
    Call(Call),
    Show(Show),
    Unknown,
}

// What a line asks for; settings and desk data stand beside it. A call comes with the number of the word that gives its bytes, those of an
// answer or of a chip's field 55; for a call without bytes it is 9, and no word stands there. An amount of more than twelve digits stands
// for none.
#[derive(Clone, Copy)]
pub enum Command {
    Terminal,
    Call {
        call: Call,
        word: u8,
    },
    Reply {
        first: u8,
        second: u8,
        amount: u64,
        good: bool,
    },
    Reconcile(u8),
    Date(u16),
    CentreBatch(u32),
    Echo(bool),
    Show(Show),
    Wrong(Fault),
}

#[derive(Clone, Copy)]
pub struct Line {
    pub command: Command,
    pub settings: Settings,
    pub desk: Desk,
}

// The line of these words, which have no spaces before or after them.
#[tactic(auto, unfolding(crate::specs::Script::parsed))]
pub fn parse(s: &[u8]) -> Line
    ensures { result ≡ parsed s.now }
{
    let k = grammar::row_of(words::word(s, 0));
    let name = names::name_at(k);
    Line {
        command: judged_command(grammar::line_fault(k, s), name, s),
        settings: values::settings_in(s),
        desk: values::desk_of(name, s),
    }
}

// The command of a line `reply`; no word stands after `bad`.
#[tactic(auto, unfolding(crate::specs::Script::replied_by))]
fn replied(s: &[u8]) -> Command
    ensures { result ≡ command_of Name.Reply s.now }
{
    let code = words::word(s, 1);
    let amount = words::word(s, 2);
    let last = words::word(s, 3);
    let bad = grammar::is_bad(amount);
    if bad && !last.is_empty() {
        return Command::Wrong(Fault::Count);
    }
    Command::Reply {
        first: texts::byte_at(code, 0),
        second: texts::byte_at(code, 1),
        amount: values::answered_in(amount),
        good: !bad && last.is_empty(),
    }
}

// The command of a line whose words are fine.
fn command_of(name: Name, s: &[u8]) -> Command
    ensures { result ≡ command_of name s.now }
{
    match name {
        Name::Terminal => Command::Terminal,
        Name::Request(_) => Command::Call {
            call: Call::Start,
            word: 4,
        },
        Name::Answer => Command::Call {
            call: Call::Answer(word_values::is_good(words::word(s, 2))),
            word: 1,
        },
        Name::Reply => replied(s),
        Name::Reconcile => Command::Reconcile(values::number8(words::word(s, 1))),
        Name::Date => Command::Date(values::month_day(words::word(s, 1))),
        Name::CentreBatch => Command::CentreBatch(values::number32(words::word(s, 1))),
        Name::Echo => Command::Echo(digits::same(words::word(s, 1), b"on")),
        Name::Call(call) => Command::Call { call, word: 9 },
        Name::Show(x) => Command::Show(x),
        Name::Unknown => Command::Wrong(Fault::Unknown),
        Name::Void(_) | Name::Authorised(_) | Name::Refund | Name::Start => Command::Call {
            call: Call::Start,
            word: 9,
        },
    }
}

fn judged_command(verdict: Result<(), Fault>, name: Name, s: &[u8]) -> Command
    ensures { result ≡ judged_command verdict name s.now }
{
    match verdict {
        Ok(()) => command_of(name, s),
        Err(f) => Command::Wrong(f),
    }
}
