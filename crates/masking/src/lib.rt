// Packed digits as text. A card number is never shown whole.
#![tactic(auto)]

ghost use Rattle.std.specs.Prelude.{◌≡◌, ◌≤◌, ◌<◌, length};
ghost use Rattle.texts.specs.Text.{Adds};
ghost use Rattle.masking.specs.Masking.{symbol, digits_text};

// Adds n packed digits, or the digits of a card number, to a text of `at` bytes in out, as far as out has room, and gives the
// new number of bytes.
pub fn add_digits(card: bool, n: u8, b: &[u8], at: usize, out: &mut [u8]) -> usize
    ensures { Adds (digits_text card n b.now) at out.old result out.new }
{
    let end = usize::from(n);
    let mut text = [0; 255];
    put_symbols(card, b, &mut text[..end]);
    texts::add(&text[..end], at, out)
}

fn put_symbols(card: bool, b: &[u8], out: &mut [u8])
    requires { length out.old ≤ 255 }
    ensures { out.new ≡ digits_text card (length out.old) b.now }
{
    let n = out.len();
    for (i, c) in out.iter_mut().enumerate() {
        *c = symbol_at(card, n, b, i);
    }
}

#[tactic(auto, using(crate::proofs::Symbols::half_below), unfolding(crate::specs::Masking::symbol))]
fn symbol_at(card: bool, n: usize, b: &[u8], i: usize) -> u8
    requires { (i < n) × (n ≤ 255) }
    ensures { result ≡ symbol card n b.now i }
{
    if card && 6 <= i && i + 4 < n {
        b'*'
    } else {
        digits::half_at(b, i) + b'0'
    }
}
