// Bytes as hexadecimal text.
#![tactic(auto)]

ghost use Rattle.std.specs.Prelude.{◌≡◌, true, cond, ◌+◌, ◌*◌, ◌<◌, ◌/◌, eqb, length, get_or};
ghost use Rattle.hexadecimal.specs.Hexadecimal.{hex_value, hex_digit, is_hex, from_hex, hex_at, to_hex};
ghost use Rattle.hexadecimal.specs.Outcome.{hex_outcome, hex_stored};

// Why text gives no bytes: it is not hexadecimal, or it says more bytes than there is room for.
#[derive(Clone, Copy, Debug, PartialEq, Eq)]
pub enum HexError {
    NotHexadecimal,
    TooLong,
}

// The bytes that hexadecimal text of either case says, at the front of out, and how many they are; else out stays.
#[tactic(auto, unfolding(crate::specs::Outcome::hex_outcome))]
pub fn hex_into(s: &[u8], out: &mut [u8]) -> Result<usize, HexError>
    ensures { (result ≡ hex_outcome s.now (length out.old)) × (out.new ≡ hex_stored result s.now out.old) }
{
    if !is_hex(s) {
        return Err(HexError::NotHexadecimal);
    }
    let n = s.len() / 2;
    if out.len() < n {
        return Err(HexError::TooLong);
    }
    put_bytes(s, &mut out[..n]);
    Ok(n)
}

// Bytes as hexadecimal capitals, which must fill out; else out stays.
pub fn put_hex(s: &[u8], out: &mut [u8]) -> bool
    ensures { (result ≡ eqb (length out.old) (2 * length s.now)) × (out.new ≡ cond result (to_hex s.now) out.old) }
{
    if out.len() != 2 * s.len() {
        return false;
    }
    put_digits(s, out);
    true
}

fn is_hex(s: &[u8]) -> bool
    ensures { result ≡ is_hex s.now }
{
    s.len() % 2 == 0 && s.iter().all(|&b| hex_value(b) < 16)
}

fn put_bytes(s: &[u8], out: &mut [u8])
    requires { (length out.old ≡ length s.now / 2) × (is_hex s.now ≡ true) }
    ensures { out.new ≡ from_hex s.now }
{
    for (j, b) in out.iter_mut().enumerate() {
        *b = hex_byte(s, j);
    }
}

#[tactic(auto, using(crate::proofs::Hexadecimal::hex_pair))]
fn hex_byte(s: &[u8], j: usize) -> u8
    requires { (j < length s.now / 2) × (is_hex s.now ≡ true) }
    ensures { result ≡ hex_value (get_or s.now (2 * j) 0) * 16 + hex_value (get_or s.now (2 * j + 1) 0) }
{
    let i = 2 * j;
    hex_value(s[i]) * 16 + hex_value(s[i + 1])
}

#[tactic(auto, unfolding(crate::specs::Hexadecimal::hex_value))]
fn hex_value(b: u8) -> u8
    ensures { result ≡ hex_value b }
{
    match b {
        b'0'..=b'9' => b - b'0',
        b'A'..=b'F' => b - b'A' + 10,
        b'a'..=b'f' => b - b'a' + 10,
        _ => 16,
    }
}

fn put_digits(s: &[u8], out: &mut [u8])
    requires { length out.old ≡ 2 * length s.now }
    ensures { out.new ≡ to_hex s.now }
{
    for (i, b) in out.iter_mut().enumerate() {
        *b = hex_at(s, i);
    }
}

#[tactic(auto, unfolding(crate::specs::Hexadecimal::hex_at))]
fn hex_at(s: &[u8], i: usize) -> u8
    requires { i / 2 < length s.now }
    ensures { result ≡ hex_at s.now i }
{
    let b = s[i / 2];
    hex_digit(if i % 2 == 0 { b / 16 } else { b % 16 })
}

#[tactic(auto, unfolding(crate::specs::Hexadecimal::hex_digit))]
fn hex_digit(x: u8) -> u8
    requires { x < 16 }
    ensures { result ≡ hex_digit x }
{
    if x < 10 { x + b'0' } else { x - 10 + b'A' }
}
