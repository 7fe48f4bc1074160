// The lines of a file or of standard input, and the words of the line in hand.
#![tactic(auto)]

ghost use Rattle.std.specs.Prelude.{◌≡◌, ◌≤◌, true, false, length, nat_lt};
ghost use Rattle.words.specs.Lines.{trimmed};
ghost use Rattle.input.specs.Input.{in_hand, words_in, Refills, Takes, NextLine};

// Where the bytes of a chunk that are still to be taken begin and end.
#[derive(Clone, Copy)]
pub struct Left {
    from: usize,
    end: usize,
}

// Where the reading of lines stands: the file that is read, the number of the line in hand and how many of its bytes are kept, whether it ended in
// a line feed, whether the input has ended, and what is left of the chunk.
#[derive(Clone, Copy)]
pub struct Input {
    file: i32,
    pub number: u64,
    len: usize,
    whole: bool,
    pub ended: bool,
    left: Left,
}

impl Input {
    // The most bytes of a line, without its line end.
    const LONGEST: usize = 4096;

    // Before the first line of an open file.
    pub fn new(file: i32) -> Self
        ensures { (result.file ≡ file) × (result.number ≡ 0) × (result.len ≡ 0) × (result.ended ≡ false) × (result.left.from ≡ 0) × (result.left.end ≡ 0) }
    {
        Input {
            file,
            number: 0,
            len: 0,
            whole: false,
            ended: false,
            left: Left { from: 0, end: 0 },
        }
    }

    // The same line, where nothing more comes.
    fn at_end(self) -> Self
        ensures { (result.file ≡ self.file) × (result.number ≡ self.number) × (result.len ≡ self.len) × (result.whole ≡ false) × (result.ended ≡ true) × (result.left.from ≡ 0) × (result.left.end ≡ 0) }
    {
        Input {
            whole: false,
            ended: true,
            left: Left { from: 0, end: 0 },
            ..self
        }
    }
}

// Room for a line: beyond the longest one place is for a carriage return, and one for a byte too many.
pub fn buffer() -> [u8; 4098]
    ensures { 4098 ≡ length result }
{
    [0; 4098]
}

// Reads the next line: its first bytes stand in line, as many as fit, and the rest of it is dropped; what stands behind its line
// feed is left for the next one. The input has ended where nothing more comes; bytes after the last line feed are a line too. A
// proved loop has to end, and nothing says that the line does, so the loop counts its turns.
pub fn next(input: Input, chunk: &mut [u8], line: &mut [u8]) -> Input
    ensures { NextLine input chunk.old line.old result chunk.new line.new }
{
    let mut at = Input {
        number: input.number.wrapping_add(1),
        len: 0,
        whole: false,
        ended: false,
        ..input
    };
    for _ in 0..u64::MAX {
        at = more(at, chunk, line);
        if at.whole || at.ended {
            return at;
        }
    }
    at.at_end()
}

// Whether the line in hand, which stands at the front of line, has more bytes than a line may have.
pub fn is_too_long(at: Input, line: &[u8]) -> bool
    ensures { result ≡ nat_lt 4096 (length (in_hand at.whole at.len line.now)) }
{
    Input::LONGEST < in_hand(at, line).len()
}

// Its words, without the spaces before the first and after the last; none where the line is skipped or nothing came.
#[tactic(auto, unfolding(crate::specs::Input::words_in))]
pub fn words_of(at: Input, line: &[u8]) -> &[u8]
    ensures { result.now ≡ words_in (in_hand at.whole at.len line.now) }
{
    let words = trimmed(at, line);
    if words::is_skipped(words) { &[] } else { words }
}

// The line in hand without the spaces before its first word and after its last, also where it is skipped.
pub fn trimmed(at: Input, line: &[u8]) -> &[u8]
    ensures { result.now ≡ trimmed (in_hand at.whole at.len line.now) }
{
    words::trim(in_hand(at, line))
}

#[tactic(auto, unfolding(crate::specs::Input::in_hand))]
fn in_hand(at: Input, line: &[u8]) -> &[u8]
    ensures { result.now ≡ in_hand at.whole at.len line.now }
{
    line_ends::line_of(at.whole, texts::front(line, at.len))
}

// What is left of the chunk, or what a read brings where that is nothing.
fn refilled(left: Left, file: i32, chunk: &mut [u8]) -> Left
    ensures { Refills left chunk.old result chunk.new }
{
    if left.from < left.end && left.end <= chunk.len() {
        return left;
    }
    Left {
        from: 0,
        end: read_some(file, chunk),
    }
}

// What the file brings next, at the front of the chunk, and how many bytes that is: one, or none where nothing more comes. A read
// that is to fill more than one byte waits until it has, and so for a line that has not come, before the line in hand is answered.
fn read_some(file: i32, chunk: &mut [u8]) -> usize
    ensures { result ≤ length chunk.new }
{
    let n = chunk.len().min(1);
    io::read_full(file, &mut chunk[..n])
}

// Takes what is left of the chunk, or what a read brings, into the line, up to a line feed.
fn more(at: Input, chunk: &mut [u8], line: &mut [u8]) -> Input
    ensures { (result.file ≡ at.file) × (result.number ≡ at.number) × (result.ended ≡ true → result.whole ≡ false) × Takes at.left chunk.old at.len line.old result chunk.new line.new }
{
    let left = refilled(at.left, at.file, chunk);
    if left.from == left.end {
        return at.at_end();
    }
    let taken = line_ends::take_in(&chunk[left.from..left.end], at.len, line);
    Input {
        len: taken.len,
        whole: taken.whole,
        ended: false,
        left: Left {
            from: left.from + taken.used,
            ..left
        },
        ..at
    }
}
