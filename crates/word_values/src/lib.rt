// What a word says: a number in decimal, a text, or whether a MAC is good.
#![tactic(auto)]

ghost use Rattle.std.specs.Prelude.{◌≡◌, cond, length, get_or};
ghost use Rattle.digits.specs.Lists.{tabulate};
ghost use Rattle.word_values.specs.Values.{digit_of, number_in, up_to, number_up_to, says_bytes, character, is_text, text_in, is_good};

// The number that a word of 1 to so many digits says; at most 19 are read.
#[tactic(auto, using(crate::proofs::Values::number_none, crate::proofs::Values::number_long, crate::proofs::Values::number_past))]
pub fn decimal_in(longest: usize, w: &[u8]) -> Option<u64>
    ensures { result ≡ number_in longest w.now }
{
    let n = w.len();
    if n == 0 || longest < n || 19 < n {
        return None;
    }
    let mut ds = [0; 19];
    digits_into(w, &mut ds[..n]);
    digits::number_of(&ds[..n])
}

// The number that a word of up to 18 digits says, where it is at most so much.
#[tactic(auto, unfolding(crate::specs::Values::number_up_to))]
pub fn number_up_to(most: u64, w: &[u8]) -> Option<u64>
    ensures { result ≡ number_up_to most w.now }
{
    up_to(most, decimal_in(18, w))
}

// The bytes of a text, which must fill out; else out stays.
#[tactic(auto, unfolding(crate::specs::Values::is_text, crate::specs::Values::text_in))]
pub fn text_into(w: &[u8], out: &mut [u8]) -> bool
    ensures { (result ≡ is_text (length out.old) w.now) × (out.new ≡ cond result (text_in w.now) out.old) }
{
    if says_bytes(w) {
        return w.len() == 2 * out.len() + 1 && hexadecimal::hex_into(&w[1..], out).is_ok();
    }
    if w.len() != out.len() {
        return false;
    }
    characters_into(w, out);
    true
}

// Whether a word says that a MAC is good.
#[tactic(auto, unfolding(crate::specs::Values::is_good))]
pub fn is_good(w: &[u8]) -> bool
    ensures { result ≡ is_good w.now }
{
    digits::same(w, b"good")
}

#[tactic(auto, unfolding(crate::specs::Values::digit_of))]
fn digit_of(b: u8) -> u8
    ensures { result ≡ digit_of b }
{
    match b {
        b'0'..=b'9' => b - b'0',
        _ => 10,
    }
}

fn digits_into(w: &[u8], out: &mut [u8])
    requires { length out.old ≡ length w.now }
    ensures { out.new ≡ tabulate (length w.now) (λ i. digit_of (get_or w.now i 0)) }
{
    for (i, d) in out.iter_mut().enumerate() {
        *d = digit_of(w[i]);
    }
}

fn up_to(most: u64, x: Option<u64>) -> Option<u64>
    ensures { result ≡ up_to most x }
{
    x.filter(|&v| v <= most)
}

#[tactic(auto, unfolding(crate::specs::Values::says_bytes))]
fn says_bytes(w: &[u8]) -> bool
    ensures { result ≡ says_bytes w.now }
{
    matches!(w, [b'=', ..])
}

#[tactic(auto, unfolding(crate::specs::Values::character))]
fn character(b: u8) -> u8
    ensures { result ≡ character b }
{
    if b == b'_' { b' ' } else { b }
}

fn characters_into(w: &[u8], out: &mut [u8])
    requires { length out.old ≡ length w.now }
    ensures { out.new ≡ tabulate (length w.now) (λ i. character (get_or w.now i 0)) }
{
    for (i, c) in out.iter_mut().enumerate() {
        *c = character(w[i]);
    }
}
