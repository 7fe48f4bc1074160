// Parts of a text, and a text that grows in a buffer. Each function that adds, adds to a text of n bytes at the front of out, as far as out has room, and
// gives the new number of bytes.
#![tactic(auto)]

ghost use Rattle.std.specs.Prelude.{◌≡◌, [], ◌∷◌, get_or, take};
ghost use Rattle.texts.specs.Decimal.{decimal};
ghost use Rattle.hexadecimal.specs.Hexadecimal.{to_hex};
ghost use Rattle.texts.specs.Text.{six_digits, Adds};

// Adds the bytes of x.
pub fn add(x: &[u8], n: usize, out: &mut [u8]) -> usize
    ensures { Adds x.now n out.old result out.new }
{
    if out.len() < n {
        return n;
    }
    let k = x.len().min(out.len() - n);
    let end = n + k;
    digits::copy(&x[..k], &mut out[n..end]);
    end
}

// Adds a number in decimal.
pub fn add_decimal(x: u64, n: usize, out: &mut [u8]) -> usize
    ensures { Adds (decimal x) n out.old result out.new }
{
    let mut text = [0; 20];
    let k = io::decimal(x, &mut text);
    add(&text[..k], n, out)
}

// Adds the last six digits of a number.
#[tactic(auto, unfolding(crate::specs::Text::six_digits))]
pub fn add_six(x: u64, n: usize, out: &mut [u8]) -> usize
    ensures { Adds (six_digits x) n out.old result out.new }
{
    let mut digits = [0; 3];
    digits::put_number(x, &mut digits);
    add_hex(&digits, n, out)
}

// Adds bytes as hexadecimal capitals.
pub fn add_hex(s: &[u8], n: usize, out: &mut [u8]) -> usize
    ensures { Adds (to_hex s.now) n out.old result out.new }
{
    let mut at = n;
    for &b in s {
        at = add_hex_byte(b, at, out);
    }
    at
}

// Byte i of s; 0 past its end.
pub fn byte_at(s: &[u8], i: usize) -> u8
    ensures { result ≡ get_or s.now i 0 }
{
    s.get(i).copied().unwrap_or(0)
}

// The first n bytes of s, or all where it has fewer.
pub fn front(s: &[u8], n: usize) -> &[u8]
    ensures { result.now ≡ take n s.now }
{
    &s[..n.min(s.len())]
}

fn add_hex_byte(b: u8, n: usize, out: &mut [u8]) -> usize
    ensures { Adds (to_hex (b ∷ [])) n out.old result out.new }
{
    let mut text = [0; 2];
    hexadecimal::put_hex(&[b], &mut text);
    add(&text, n, out)
}
