// A field's contents, tested and copied in one pass (document 01, rules 6 and 8).
#![tactic(auto)]

ghost use Rattle.std.specs.Prelude.{◌≡◌, true, length};
ghost use Rattle.checks.specs.Refusals.{refused_by};
ghost use Rattle.digits.specs.Digits.{is_packed};
ghost use Rattle.field.specs.Contents.{all_printable};
ghost use Rattle.contents.specs.Taken.{Taken};

use checks::Refusal;
use field::Class;

// Copies contents b of n digits or bytes to out, where they are in form and fill it: else they are refused by 6 or 8, or by 3 where they
// do not fill it.
pub fn take(class: Class, n: u8, b: &[u8], out: &mut [u8]) -> Result<(), Refusal>
    ensures { Taken class n b.now (length out.old) (refused_by result) out.new }
{
    if out.len() != b.len() {
        return Err(Refusal::EndsEarly);
    }
    match class {
        Class::Digits => {
            if take_digits(n, b, out) {
                return Ok(());
            }
            Err(Refusal::BadDigit)
        }
        Class::Printable => {
            if take_printable(b, out) {
                return Ok(());
            }
            Err(Refusal::NotPrintable)
        }
        Class::Any => {
            digits::copy(b, out);
            Ok(())
        }
    }
}

// Copies n packed digits; false where b is something else.
fn take_digits(n: u8, b: &[u8], out: &mut [u8]) -> bool
    requires { length out.old ≡ length b.now }
    ensures { (result ≡ is_packed n b.now) × (result ≡ true → out.new ≡ b.now) }
{
    let count = n as usize;
    if b.len() != (count + 1) / 2 {
        return false;
    }
    for i in 0..b.len() {
        let x = b[i];
        if 0x9F < x {
            return false;
        }
        if 9 < x % 16 {
            return false;
        }
        out[i] = x;
    }
    if count % 2 == 0 {
        return true;
    }
    b[count / 2] % 16 == 0
}

// Copies printable bytes; false where b has another.
fn take_printable(b: &[u8], out: &mut [u8]) -> bool
    requires { length out.old ≡ length b.now }
    ensures { (result ≡ all_printable b.now) × (result ≡ true → out.new ≡ b.now) }
{
    for i in 0..b.len() {
        let x = b[i];
        if x < 0x20 {
            return false;
        }
        if 0x7E < x {
            return false;
        }
        out[i] = x;
    }
    true
}
