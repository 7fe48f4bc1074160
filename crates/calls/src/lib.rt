// The calls on a terminal as values.
#![tactic(auto)]

// A call; what the desk keyed at a start, and the bytes of its field 55 or of an answer, stand beside it.
#[derive(Clone, Copy)]
pub enum Call {
    SignOn,
    Start,
    Answer(bool),
    NoAnswer,
    PowerReturned,
    CardAgrees,
    CardDeclines,
    SendReversal,
    Settle,
    SendNextUpload,
}
