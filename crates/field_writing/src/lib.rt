// Writing one field: its length, then its contents (document 01, "Message bytes", rules 6 to 8).
#![tactic(auto)]

ghost use Rattle.std.specs.Prelude.{◌≡◌, ◌+◌, ◌*◌, ◌/◌, ◌%◌, length, take};
ghost use Rattle.digits.specs.Digits.{pack};
ghost use Rattle.digits.specs.Numbers.{digits_of};
ghost use Rattle.field.specs.Contents.{size, skip, kept};
ghost use Rattle.span.specs.Span.{field_bytes};
ghost use Rattle.field_writing.specs.Placing.{held_fault, put_fault, Placing};

use checks::Refusal;
use field::{Format, Prefix};

// Writes a field of n digits or bytes, with its contents at the front of bs, at the front of out, and gives how many bytes it takes.
pub fn put_field(f: Format, n: u8, bs: &[u8], out: &mut [u8]) -> Result<usize, Refusal>
    ensures { Placing (put_fault f n bs.now out.old) (field_bytes f (kept f n) (take (size f.class (kept f n)) bs.now)) result out.new }
{
    if field::is_allowed(f, usize::from(n)) {
        return put_held(f, n, bs, out);
    }
    if field::is_late(f) {
        return put_held(f, 0, bs, out);
    }
    Err(Refusal::BadLength)
}

// Writes a field of n digits or bytes, whatever it may have.
fn put_held(f: Format, n: u8, bs: &[u8], out: &mut [u8]) -> Result<usize, Refusal>
    ensures { Placing (held_fault f n bs.now out.old) (field_bytes f n (take (size f.class n) bs.now)) result out.new }
{
    let size = field::size_of(f.class, n);
    let skip = span::skip_of(f.prefix);
    let end = skip + size;
    if bs.len() < size {
        return Err(Refusal::EndsEarly);
    }
    if out.len() < end {
        return Err(Refusal::TooSmall);
    }
    put_count(f.prefix, n, &mut out[..skip]);
    contents::take(f.class, n, &bs[..size], &mut out[skip..end])?;
    Ok(end)
}

// A count's last two digits, packed.
fn pair(n: u8) -> u8
    ensures { result ≡ n / 10 % 10 * 16 + n % 10 }
{
    n / 10 % 10 * 16 + n % 10
}

// Writes a field's length at the front of out.
fn put_count(prefix: Prefix, n: u8, out: &mut [u8])
    requires { length out.old ≡ skip prefix }
    ensures { out.new ≡ pack (digits_of (2 * skip prefix) n) }
{
    match prefix {
        Prefix::Absent => {}
        Prefix::One => {
            out[0] = pair(n);
        }
        Prefix::Two => {
            out[0] = n / 100;
            out[1] = pair(n);
        }
    }
}
