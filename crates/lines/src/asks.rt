// What a line of a script asks for: a call, or none; how a line that makes no call changes a rehearsal; the bytes of a call.
ghost use Rattle.std.specs.Prelude.{◌≡◌, ◌≤◌, length, take};
ghost use Rattle.lines.specs.Asked.{number_in, unobeyed_by, asked_as};
ghost use Rattle.lines.specs.Asks.{usual_error, amount_error, reply_error, reconcile_error, error_after, asked_by, changed_after, call_bytes};

use calls::Call;
use centre_types::Left;
use message::Message;
use script::Command;
use stage::Rehearsal;
use state::Settings;

// Why a line that is understood is not obeyed, in the order of their numbers, 1 to 5.
#[derive(Clone, Copy, Debug, PartialEq, Eq)]
pub enum Unobeyed {
    NoTerminal,
    NothingLeft,
    SettlementLeft,
    NoSettlement,
    NoCardRequest,
}

// The call that a line asks for, or none, before or after the first terminal and with this left last.
pub fn asked_by(command: Command, begun: bool, left: Left) -> Result<Option<Call>, Unobeyed>
    ensures { asked_as result ≡ asked_by command begun left }
{
    match command {
        Command::Terminal | Command::Date(_) | Command::Echo(_) | Command::Wrong(_) => Ok(None),
        Command::CentreBatch(_) | Command::Show(_) => {
            needs_terminal(begun)?;
            Ok(None)
        }
        Command::Call { call, .. } => {
            needs_terminal(begun)?;
            Ok(Some(call))
        }
        Command::Reply { amount, good, .. } => {
            needs_terminal(begun)?;
            reply_error(amount, left)?;
            Ok(Some(Call::Answer(good)))
        }
        Command::Reconcile(_) => {
            needs_terminal(begun)?;
            reconcile_error(left)?;
            Ok(Some(Call::Answer(true)))
        }
    }
}

// The number of why a line is not obeyed, 0 where it is.
pub fn error_of(unobeyed: Option<Unobeyed>) -> usize
    ensures { result ≡ number_in unobeyed }
{
    match unobeyed {
        None => 0,
        Some(Unobeyed::NoTerminal) => 1,
        Some(Unobeyed::NothingLeft) => 2,
        Some(Unobeyed::SettlementLeft) => 3,
        Some(Unobeyed::NoSettlement) => 4,
        Some(Unobeyed::NoCardRequest) => 5,
    }
}

// The rehearsal after a line that makes no call; an error changes nothing. A number, as in `say`, since each has a meaning in the definitions.
pub fn changed(error: usize, command: Command, settings: Settings, r: Rehearsal) -> Rehearsal
    ensures { result ≡ changed_after error command settings r }
{
    if error != 0 {
        return r;
    }
    match command {
        Command::Terminal => stage::begun(settings, r),
        Command::Date(d) => stage::dated(d, r),
        Command::CentreBatch(batch) => stage::numbered(batch, r),
        Command::Echo(on) => stage::echoing(on, r),
        _ => r,
    }
}

// Puts the bytes of the call of a line s at the front of out, 2,048 bytes, and gives their number: those of the simulated centre's
// message, or those that a word gives in hexadecimal.
pub fn bytes_into(
    command: Command,
    s: &[u8],
    sent: &Message,
    date: u16,
    batch: u32,
    out: &mut [u8],
) -> usize
    ensures { (result ≤ length out.new) × (length out.old ≡ 2048 → take result out.new ≡ call_bytes command s.now sent.now date batch) }
{
    match command {
        Command::Call { word, .. } => {
            hexadecimal::hex_into(words::word(s, word), out).unwrap_or(0)
        }
        Command::Reply {
            first,
            second,
            amount,
            ..
        } => {
            let code = [first, second];
            outgoing::write_outgoing(&centre::reply(sent, date, batch, code, amount), out)
        }
        Command::Reconcile(digit) => {
            outgoing::write_outgoing(&centre::reconciliation(sent, digit), out)
        }
        _ => 0,
    }
}

#[tactic(auto, unfolding(crate::specs::Asks::error_after))]
fn needs_terminal(begun: bool) -> Result<(), Unobeyed>
    ensures { unobeyed_by result ≡ error_after begun 0 }
{
    if begun {
        Ok(())
    } else {
        Err(Unobeyed::NoTerminal)
    }
}

// Why the simulated centre has no answer with this amount, or no reconciliation, to what left last.
#[tactic(auto, unfolding(crate::specs::Asks::reply_error))]
fn reply_error(amount: u64, left: Left) -> Result<(), Unobeyed>
    ensures { unobeyed_by result ≡ reply_error amount left }
{
    if centre::is_given(amount) {
        amount_error(left)
    } else {
        usual_error(left)
    }
}

fn amount_error(left: Left) -> Result<(), Unobeyed>
    ensures { unobeyed_by result ≡ amount_error left }
{
    match left {
        Left::Nothing => Err(Unobeyed::NothingLeft),
        Left::Request => Ok(()),
        Left::Reversal | Left::Settlement | Left::Upload | Left::SignOn => {
            Err(Unobeyed::NoCardRequest)
        }
    }
}

fn usual_error(left: Left) -> Result<(), Unobeyed>
    ensures { unobeyed_by result ≡ usual_error left }
{
    match left {
        Left::Nothing => Err(Unobeyed::NothingLeft),
        Left::Settlement => Err(Unobeyed::SettlementLeft),
        Left::Request | Left::Reversal | Left::Upload | Left::SignOn => Ok(()),
    }
}

fn reconcile_error(left: Left) -> Result<(), Unobeyed>
    ensures { unobeyed_by result ≡ reconcile_error left }
{
    match left {
        Left::Nothing => Err(Unobeyed::NothingLeft),
        Left::Settlement => Ok(()),
        Left::Request | Left::Reversal | Left::Upload | Left::SignOn => {
            Err(Unobeyed::NoSettlement)
        }
    }
}
