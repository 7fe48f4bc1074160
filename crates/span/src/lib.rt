// One field at the front of some bytes (document 01, rules 3, 6, 7 and 8).
#![tactic(auto)]

ghost use Rattle.std.specs.Prelude.{◌≡◌, ◌+◌, ◌*◌, ◌<◌};
ghost use Rattle.checks.specs.Refusals.{numbered};
ghost use Rattle.field.specs.Contents.{skip};
ghost use Rattle.span.specs.Span.{count_in, passed_at, sized_at, frame_at};

use checks::Refusal;
use field::{Format, Prefix};

// A field's count, the bytes before its contents and the bytes of its contents. Key material of a length that is not allowed has no
// contents: all its bytes stand before them.
#[derive(Clone, Copy)]
pub struct Span {
    pub count: u8,
    pub skip: usize,
    pub size: usize,
}

// The bytes of a length.
pub fn skip_of(prefix: Prefix) -> usize
    ensures { result ≡ skip prefix }
{
    match prefix {
        Prefix::Absent => 0,
        Prefix::One => 1,
        Prefix::Two => 2,
    }
}

// The field at the front of s, its contents not judged.
pub fn frame_of(f: Format, s: &[u8]) -> Result<Span, Refusal>
    ensures { numbered result ≡ frame_at f s.now }
{
    match f.prefix {
        Prefix::Absent => sized_at(f, usize::from(f.high), s),
        Prefix::One => prefixed_at(f, s),
        Prefix::Two => prefixed_at(f, s),
    }
}

// The field at the front of s after its length.
fn prefixed_at(f: Format, s: &[u8]) -> Result<Span, Refusal>
    ensures { numbered result ≡ frame_at f s.now }
{
    let skip = skip_of(f.prefix);
    if s.len() < skip {
        return Err(Refusal::EndsEarly);
    }
    if digits::is_packed(&s[..skip], 2 * skip) {
        let n = count_in(f.prefix, f.high, &s[..skip]);
        return sized_at(f, n, &s[skip..]);
    }
    Err(Refusal::BadDigit)
}

fn two_digits(tens: u8, ones: u8) -> usize
    ensures { (result ≡ tens * 10 + ones) × (result < 2816) }
{
    usize::from(tens) * 10 + usize::from(ones)
}

// The count that the length bytes s say; with no length the field's only count.
fn count_in(prefix: Prefix, high: u8, s: &[u8]) -> usize
    ensures { (result ≡ count_in prefix high s.now) × (result < 0x100000) }
{
    match prefix {
        Prefix::Absent => usize::from(high),
        Prefix::One => two_digits(digits::half_at(s, 0), digits::half_at(s, 1)),
        Prefix::Two => {
            let hundreds = two_digits(digits::half_at(s, 0), digits::half_at(s, 1));
            let rest = two_digits(digits::half_at(s, 2), digits::half_at(s, 3));
            hundreds * 100 + rest
        }
    }
}

// The contents of n digits or bytes at the front of s, not judged.
fn sized_at(f: Format, n: usize, s: &[u8]) -> Result<Span, Refusal>
    requires { n < 0x100000 }
    ensures { numbered result ≡ sized_at f n s.now }
{
    if !field::is_allowed(f, n) {
        return passed_at(f, n, s);
    }
    let count = n as u8;
    let size = field::size_of(f.class, count);
    if s.len() < size {
        return Err(Refusal::EndsEarly);
    }
    let skip = skip_of(f.prefix);
    Ok(Span { count, skip, size })
}

// Contents of n digits or bytes at the front of s where that many are not allowed.
fn passed_at(f: Format, n: usize, s: &[u8]) -> Result<Span, Refusal>
    requires { n < 0x100000 }
    ensures { numbered result ≡ passed_at f n s.now }
{
    if !field::is_late(f) {
        return Err(Refusal::BadLength);
    }
    if s.len() < n {
        return Err(Refusal::EndsEarly);
    }
    Ok(Span {
        count: 0,
        skip: skip_of(f.prefix) + n,
        size: 0,
    })
}
