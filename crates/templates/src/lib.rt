// Templates: texts in which marks stand for numbers and for another text.
#![tactic(auto)]

ghost use Rattle.std.specs.Prelude.{◌≡◌, ◌≤◌};
ghost use Rattle.texts.specs.Text.{Adds};
ghost use Rattle.templates.specs.Template.{meant, taken, filled};

// Adds a template with its marks filled to a text of n bytes in out, as far as out has room, and gives the new number of bytes.
// The mark `#` stands for the next of the values in decimal, `%` for its last six digits, `$` for the text x and `@` for the
// bytes of x in hexadecimal.
pub fn add_filled(template: &[u8], values: &[u64], x: &[u8], n: usize, out: &mut [u8]) -> usize
    ensures { Adds (filled template.now values.now x.now) n out.old result out.new }
{
    let mut at = n;
    let mut k = 0;
    for &c in template {
        let value = values.get(k).copied().unwrap_or(0);
        at = add_meant(c, value, x, at, out);
        k += taken(c);
    }
    at
}

// Adds what a character of a template stands for.
#[tactic(auto, unfolding(crate::specs::Template::meant))]
fn add_meant(c: u8, value: u64, x: &[u8], n: usize, out: &mut [u8]) -> usize
    ensures { Adds (meant c value x.now) n out.old result out.new }
{
    match c {
        b'#' => texts::add_decimal(value, n, out),
        b'%' => texts::add_six(value, n, out),
        b'$' => texts::add(x, n, out),
        b'@' => texts::add_hex(x, n, out),
        _ => texts::add(&[c], n, out),
    }
}

// How many values a character of a template takes.
#[tactic(auto, unfolding(crate::specs::Template::taken))]
fn taken(c: u8) -> usize
    ensures { (result ≡ taken c) × (result ≤ 1) }
{
    usize::from(matches!(c, b'#' | b'%'))
}
