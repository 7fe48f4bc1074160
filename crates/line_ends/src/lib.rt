// Where a line ends: what it takes of some bytes, and the line without its line end.
#![tactic(auto)]

ghost use Rattle.std.specs.Prelude.{◌≡◌};
ghost use Rattle.texts.specs.Text.{Adds};
ghost use Rattle.line_ends.specs.Lines.{before_feed, has_feed, used, without_return, line_of};

// What a line takes of some bytes: how many bytes it has then, how many of those are used, and whether it ended in a line feed.
#[derive(Clone, Copy)]
pub struct Taken {
    pub len: usize,
    pub used: usize,
    pub whole: bool,
}

// Takes the bytes of s up to its first line feed into a line of len bytes, as far as there is room for them.
#[tactic(auto, unfolding(crate::specs::Lines::before_feed, crate::specs::Lines::has_feed, crate::specs::Lines::used))]
pub fn take_in(s: &[u8], len: usize, line: &mut [u8]) -> Taken
    ensures { Adds (before_feed s.now) len line.old result.len line.new × (result.used ≡ used s.now) × (result.whole ≡ has_feed s.now) }
{
    let end = words::scan::find(s, b'\n');
    let whole = end < s.len();
    Taken {
        len: texts::add(&s[..end], len, line),
        used: end + usize::from(whole),
        whole,
    }
}

// A line without its line end.
pub fn line_of(whole: bool, s: &[u8]) -> &[u8]
    ensures { result.now ≡ line_of whole s.now }
{
    if whole { without_return(s) } else { s }
}

// A line without a carriage return at its end.
#[tactic(auto, unfolding(crate::specs::Lines::without_return))]
fn without_return(s: &[u8]) -> &[u8]
    ensures { result.now ≡ without_return s.now }
{
    s.strip_suffix(b"\r").unwrap_or(s)
}
