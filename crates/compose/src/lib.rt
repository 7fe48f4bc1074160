// A message put together field by field, in place.
#![tactic(auto)]

ghost use Rattle.std.specs.Prelude.{◌≡◌, cond, ◌&&◌, [], ◌+◌, ◌≤◌, ◌<◌, eqb, length};
ghost use Rattle.digits.specs.Digits.{all_digits};
ghost use Rattle.digits.specs.Numbers.{digits_of};
ghost use Rattle.field.specs.Table.{rows};
ghost use Rattle.field.specs.Contents.{size, room, fault};
ghost use Rattle.message.specs.Message.{rooms};
ghost use Rattle.message.specs.Build.{digits, bytes, padded, message_of};
ghost use Rattle.compose.specs.Compose.{with_item, with_bit};
ghost use Rattle.compose.specs.Placed.{put_at, item};

use field::Format;
use message::{Located, Message};

// A message of a type that names no field.
pub fn typed(indicator: u16) -> Message
    ensures { result ≡ message_of indicator [] }
{
    Message {
        indicator,
        ..Message::new()
    }
}

// Puts these bytes into field n, where it may hold them.
pub fn put_bytes(m: &mut Message, n: u8, b: &[u8])
    ensures { m.new ≡ with_item (bytes n b.now) m.old }
{
    put_item(m, n, b.len(), b);
}

// Puts these digits, one a place, into field n, where it may hold them.
pub fn put_digits(m: &mut Message, n: u8, ds: &[u8])
    ensures { m.new ≡ cond (all_digits ds.now) (with_item (digits n ds.now) m.old) m.old }
{
    let count = ds.len();
    if count > 255 {
        return;
    }
    let end = count.div_ceil(2);
    let mut packed = [0; 128];
    if digits::pack_into(ds, &mut packed[..end]) {
        put_item(m, n, count, &packed[..end]);
    }
}

// Puts the last digits of x, as many as said, into field n, where it may hold them.
pub fn put_number(m: &mut Message, n: u8, count: u8, x: u64)
    ensures { m.new ≡ with_item (digits n (digits_of count x)) m.old }
{
    let end = usize::from(count);
    let mut ds = [0; 255];
    digits::digits_into(x, &mut ds[..end]);
    put_digits(m, n, &ds[..end]);
}

// Puts count digits or bytes into field n, where it may hold them.
fn put_item(m: &mut Message, n: u8, count: usize, b: &[u8])
    ensures { m.new ≡ with_item (item n count b.now) m.old }
{
    if let Some(at) = message::locate(n) {
        if field::is_allowed(at.form, count) && in_form(at.form, count as u8, b) {
            put(m, n, at, count as u8, b);
        }
    }
}

// Whether b is n digits or bytes of a field, in form.
fn in_form(f: Format, n: u8, b: &[u8]) -> bool
    ensures { result ≡ (eqb (length b.now) (size f.class n) && eqb (fault f.class n b.now) 0) }
{
    b.len() == field::size_of(f.class, n) && field::judge(f.class, n, b).is_ok()
}

// Puts count digits or bytes into field n, which stands there.
fn put(m: &mut Message, n: u8, at: Located, count: u8, b: &[u8])
    requires { (0 < n) × (n ≤ 64) × (at.row < rows) × (at.from + room at.form ≤ rooms) × (length b.now ≤ room at.form) }
    ensures counted { length m.old.counts ≡ rows }
    ensures held { m.new ≡ put_at m.old n at.row at.from (room at.form) count b.now }
{
    let end = at.from + field::size_of(at.form.class, at.form.high);
    set_bit(&mut m.bitmap, n);
    m.counts[at.row] = count;
    fill(b, &mut m.contents[at.from..end]);
}

// Sets the bit of field n.
fn set_bit(bitmap: &mut [u8; 8], n: u8)
    requires { (0 < n) × (n ≤ 64) }
    ensures { bitmap.new ≡ with_bit n bitmap.old }
{
    if !field::named(bitmap, n) {
        let i = usize::from(n) - 1;
        bitmap[i / 8] += 1 << (7 - i % 8);
    }
}

// Fills out with b and then zeros.
fn fill(b: &[u8], out: &mut [u8])
    requires { length b.now ≤ length out.old }
    ensures { out.new ≡ padded (length out.old) b.now }
{
    for (i, x) in out.iter_mut().enumerate() {
        *x = b.get(i).copied().unwrap_or(0);
    }
}
