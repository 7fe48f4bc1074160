// What each row of the table of commands names.
ghost use Rattle.std.specs.Prelude.{◌≡◌, get_or};
ghost use Rattle.script.specs.Names.{names};

use crate::{Name, Show};
use calls::Call;

const NAMES: [Name; 30] = [
    Name::Terminal,
    Name::Call(Call::SignOn),
    Name::Request(22),
    Name::Request(10),
    Name::Void(23),
    Name::Void(21),
    Name::Authorised(11),
    Name::Authorised(20),
    Name::Refund,
    Name::Start,
    Name::Answer,
    Name::Reply,
    Name::Reconcile,
    Name::Date,
    Name::CentreBatch,
    Name::Echo,
    Name::Call(Call::NoAnswer),
    Name::Call(Call::PowerReturned),
    Name::Call(Call::CardAgrees),
    Name::Call(Call::CardDeclines),
    Name::Call(Call::SendReversal),
    Name::Call(Call::Settle),
    Name::Call(Call::SendNextUpload),
    Name::Show(Show::Counts),
    Name::Show(Show::Totals),
    Name::Show(Show::State),
    Name::Show(Show::Journal),
    Name::Show(Show::Message),
    Name::Show(Show::Fields),
    Name::Unknown,
];

// What row k names.
pub fn name_at(k: usize) -> Name
    ensures { result ≡ get_or names k Name.Unknown }
{
    NAMES.get(k).copied().unwrap_or(Name::Unknown)
}
