// What the words after the first must be, and what is wrong with them.
ghost use Rattle.std.specs.Prelude.{◌≡◌, ◌<◌};
ghost use Rattle.word_values.specs.Values.{is_text};
ghost use Rattle.grammar.specs.Shapes.{is_dash, is_bad, is_bytes, is_field55, fits, is_end, judged, line_fault};

use crate::{Fault, Shape, table};

// The first fault of a line's words after the first, where the line has row k of the table.
pub fn line_fault(k: usize, s: &[u8]) -> Result<(), Fault>
    ensures { result ≡ line_fault k s.now }
{
    for i in 1..11 {
        judged(
            table::shape_at(k, i),
            i,
            words::word(s, i - 1),
            words::word(s, i),
        )?;
    }
    Ok(())
}

// Whether a word says that a MAC is bad.
#[tactic(auto, unfolding(crate::specs::Shapes::is_bad))]
pub fn is_bad(w: &[u8]) -> bool
    ensures { result ≡ is_bad w.now }
{
    digits::same(w, b"bad")
}

#[tactic(auto, unfolding(crate::specs::Shapes::is_dash))]
fn is_dash(w: &[u8]) -> bool
    ensures { result ≡ is_dash w.now }
{
    digits::same(w, b"-")
}

fn is_text(n: u8, w: &[u8]) -> bool
    ensures { result ≡ is_text n w.now }
{
    let mut bytes = [0; 255];
    word_values::text_into(w, &mut bytes[..usize::from(n)])
}

#[tactic(auto, using(crate::proofs::Faults::gave_bytes))]
fn is_hexadecimal(w: &[u8]) -> bool
    ensures { result ≡ is_bytes w.now }
{
    let mut bytes = [0; 2048];
    hexadecimal::hex_into(w, &mut bytes).is_ok()
}

// Whether a word is a field 55: at most 300 bytes, so that more than a field holds can be tried.
#[tactic(auto, unfolding(crate::specs::Shapes::is_field55))]
fn is_field55(w: &[u8]) -> bool
    ensures { result ≡ is_field55 w.now }
{
    is_dash(w) || !w.is_empty() && w.len() / 2 <= 300 && is_hexadecimal(w)
}

// Whether a word is what it must be.
fn fits(shape: Shape, w: &[u8]) -> bool
    ensures { result ≡ fits shape w.now }
{
    match shape {
        Shape::Number(most) => word_values::number_up_to(most, w).is_some(),
        Shape::Card => word_values::decimal_in(19, w).is_some(),
        Shape::CardOrNone => is_dash(w) || word_values::decimal_in(19, w).is_some(),
        Shape::Text(n) => is_text(n, w),
        Shape::TextOrNone(n) => is_dash(w) || is_text(n, w),
        Shape::Chip => w.is_empty() || digits::same(w, b"chip"),
        Shape::Field55 => is_field55(w),
        Shape::Field55OrNone => digits::same(w, b"none") || is_field55(w),
        Shape::Date => w.len() == 4 && word_values::decimal_in(4, w).is_some(),
        Shape::Code => w.len() == 2 && field::all_printable(w),
        Shape::Bytes => !w.is_empty() && is_hexadecimal(w),
        Shape::Mac => word_values::is_good(w) || is_bad(w),
        Shape::Bad(amount) => {
            w.is_empty()
                || is_bad(w)
                || amount && word_values::number_up_to(999999999999, w).is_some()
        }
        Shape::Switch => digits::same(w, b"on") || digits::same(w, b"off"),
        Shape::Any => true,
        Shape::End => w.is_empty(),
    }
}

// Whether no word may stand here.
fn is_end(shape: Shape) -> bool
    ensures { result ≡ is_end shape }
{
    matches!(shape, Shape::End)
}

// What is to be said of word k, which may be missing where the word before it is.
#[tactic(auto, unfolding(crate::specs::Shapes::judged))]
fn judged(shape: Shape, k: u8, before: &[u8], w: &[u8]) -> Result<(), Fault>
    requires { k < 11 }
    ensures { result ≡ judged shape k before.now w.now }
{
    if before.is_empty() || fits(shape, w) {
        return Ok(());
    }
    if w.is_empty() || is_end(shape) {
        return Err(Fault::Count);
    }
    Err(Fault::Word(k + 1))
}
