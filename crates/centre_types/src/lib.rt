// What left by its message type, the type of the answer to it, and whether the code of an answer approves.
#![tactic(auto)]

ghost use Rattle.std.specs.Prelude.{◌≡◌};
ghost use Rattle.centre_types.specs.Types.{left_as, answer_type, is_approval};

// What left.
#[derive(Clone, Copy)]
pub enum Left {
    Nothing,
    Request,
    Reversal,
    Settlement,
    Upload,
    SignOn,
}

// What left, by its type.
#[tactic(auto, unfolding(crate::specs::Types::left_as))]
pub fn left_as(indicator: u16) -> Left
    ensures { result ≡ left_as indicator }
{
    match indicator {
        0x0100 | 0x0200 | 0x0220 => Left::Request,
        0x0400 => Left::Reversal,
        0x0500 => Left::Settlement,
        0x0320 => Left::Upload,
        0x0800 => Left::SignOn,
        _ => Left::Nothing,
    }
}

// The type of the answer.
#[tactic(auto, unfolding(crate::specs::Types::answer_type))]
pub fn answer_type(indicator: u16) -> u16
    ensures { result ≡ answer_type indicator }
{
    match indicator {
        0x0100 | 0x0200 | 0x0220 | 0x0320 | 0x0400 | 0x0500 | 0x0800 => indicator + 0x10,
        _ => 0,
    }
}

// Whether the code is 00.
#[tactic(auto, unfolding(crate::specs::Types::is_approval))]
pub fn is_approval(code: [u8; 2]) -> bool
    ensures { result ≡ is_approval code }
{
    code == *b"00"
}
