// The grammar of a script: which commands there are, what the words of each must be, and what is wrong with a line.
#![tactic(auto)]

mod shapes;
mod table;

pub use shapes::{is_bad, line_fault};
pub use table::row_of;

// What a word must be.
#[derive(Clone, Copy)]
pub enum Shape {
    Number(u64),
    Card,
    CardOrNone,
    Text(u8),
    TextOrNone(u8),
    Chip,
    Field55,
    Field55OrNone,
    Date,
    Code,
    Bytes,
    Mac,
    Bad(bool),
    Switch,
    Any,
    End,
}

// What is wrong with a line: its first word, the number of its words, or word k, the first being 1.
#[derive(Clone, Copy)]
pub enum Fault {
    Unknown,
    Count,
    Word(u8),
}
