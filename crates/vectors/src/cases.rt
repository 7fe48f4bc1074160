// The bytes of a case: a head, its journal and the bytes handed in, those of an answer or of the desk's field 55. The head has the event
// at 0, what the desk keyed, the word on the MAC, how long the message buffer, the journal and the bytes handed in are, and the image of the
// state.
use crate::integers::{bytes_at, from, part, u16_at};
use calls::Call;
use desk::Desk;
use numbers::Trace;
use state::Card;
use terminal::{Step, Terminal};

const DESK: usize = 1;

const CHIP: usize = 43;

const MAC: usize = 44;

const MESSAGE_LENGTH: usize = 45;

const JOURNAL_LENGTH: usize = 47;

const BYTES_LENGTH: usize = 49;

const STATE: usize = 51;

const HEAD: usize = STATE + image::SIZE;

// How long the message buffer of a case is.
pub fn message_length(s: &[u8]) -> usize {
    usize::from(u16_at(s, MESSAGE_LENGTH))
}

// The image of the state, the bytes of the journal and those handed in.
pub fn state_bytes(s: &[u8]) -> &[u8] {
    part(s, STATE, image::SIZE)
}

pub fn journal_of(s: &[u8]) -> &[u8] {
    part(s, HEAD, usize::from(u16_at(s, JOURNAL_LENGTH)))
}

fn handed_in(s: &[u8]) -> &[u8] {
    let at = HEAD + usize::from(u16_at(s, JOURNAL_LENGTH));
    part(s, at, usize::from(u16_at(s, BYTES_LENGTH)))
}

// Whether a case has all its bytes, and names an event and a word on chip and MAC.
pub fn is_whole(s: &[u8]) -> bool {
    let journal = usize::from(u16_at(s, JOURNAL_LENGTH));
    let handed = usize::from(u16_at(s, BYTES_LENGTH));
    s.len() == HEAD + journal + handed
        && handed <= 1024
        && matches!(texts::byte_at(s, 0), 1..=10)
        && texts::byte_at(s, CHIP) <= 1
        && texts::byte_at(s, MAC) <= 1
}

// What the desk keyed, from its 43 bytes.
fn desk_of(s: &[u8]) -> Desk {
    Desk {
        kind: texts::byte_at(s, 0),
        amount: u64::from_be_bytes(bytes_at(s, 1)),
        card: card_of(from(s, 9)),
        original: Trace(u32::from_be_bytes(bytes_at(s, 18))),
        month: texts::byte_at(s, 22),
        day: texts::byte_at(s, 23),
        authorisation: bytes_at(s, 24),
        reference: bytes_at(s, 30),
        chip: texts::byte_at(s, 42) == 1,
    }
}

// A card, from its nine bytes.
fn card_of(s: &[u8]) -> Card {
    Card {
        number: u64::from_be_bytes(bytes_at(s, 0)),
        length: texts::byte_at(s, 8),
    }
}

// What the call of a case gives; nothing where its state is no image.
pub fn call(s: &[u8], journal: &mut [u8], message: &mut [u8]) -> Option<Step> {
    let state = image::read(state_bytes(s))?;
    let desk = desk_of(part(s, DESK, 43));
    Some(Terminal { state }.make(call_of(s), desk, handed_in(s), journal, message))
}

fn call_of(s: &[u8]) -> Call {
    match texts::byte_at(s, 0) {
        1 => Call::SignOn,
        2 => Call::Start,
        3 => Call::Answer(texts::byte_at(s, MAC) == 1),
        4 => Call::NoAnswer,
        5 => Call::PowerReturned,
        6 => Call::SendReversal,
        7 => Call::Settle,
        8 => Call::SendNextUpload,
        9 => Call::CardAgrees,
        _ => Call::CardDeclines,
    }
}
