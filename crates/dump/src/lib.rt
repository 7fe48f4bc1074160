// Fields and messages as text. Each function adds to a text of `at` bytes in out, as far as out has room, and gives the new
// number of bytes.
#![tactic(auto, unfolding(templates::specs::Template::filled, templates::specs::Template::meant, templates::specs::Template::taken))]

ghost use Rattle.std.specs.Prelude.{◌++◌};
ghost use Rattle.field.specs.Table.{formats};
ghost use Rattle.texts.specs.Text.{text, Adds};
ghost use Rattle.dump.specs.Shown.{contents_text, field_line, named_line, field_lines, type_line, end_line, message_text};

use field::{Class, Format};
use message::Message;

// Adds a message of n bytes.
pub fn add_message(m: &Message, n: u64, at: usize, out: &mut [u8]) -> usize
    ensures { Adds (message_text m.now n) at out.old result out.new }
{
    let mut end = add_type(m.indicator, at, out);
    end = add_lines(m, end, out);
    add_end(n, end, out)
}

// Adds a field's contents b of n digits or bytes, the digits of a card masked.
pub fn add_contents(class: Class, card: bool, n: u8, b: &[u8], at: usize, out: &mut [u8]) -> usize
    ensures { Adds (contents_text class card n b.now) at out.old result out.new }
{
    match class {
        Class::Digits => masking::add_digits(card, n, b, at, out),
        Class::Printable => add_quoted(b, at, out),
        Class::Any => texts::add_hex(b, at, out),
    }
}

fn add_quoted(b: &[u8], at: usize, out: &mut [u8]) -> usize
    ensures { Adds (text "\"" ++ b.now ++ text "\"") at out.old result out.new }
{
    templates::add_filled(b"\"$\"", &[], b, at, out)
}

fn add_line(f: Format, n: u8, b: &[u8], at: usize, out: &mut [u8]) -> usize
    ensures { Adds (field_line f n b.now) at out.old result out.new }
{
    let mut end = templates::add_filled(b"# ", &[u64::from(f.number)], b"", at, out);
    end = add_contents(f.class, f.number == 2, n, b, end, out);
    texts::add(b"\n", end, out)
}

#[tactic(auto, using(texts::proofs::Texts::nothing), unfolding(crate::specs::Shown::named_line))]
fn add_named(f: Format, bitmap: &[u8; 8], n: u8, b: &[u8], at: usize, out: &mut [u8]) -> usize
    ensures { Adds (named_line f bitmap.now n b.now) at out.old result out.new }
{
    if !field::named(bitmap, f.number) {
        return at;
    }
    add_line(f, n, texts::front(b, field::size_of(f.class, n)), at, out)
}

fn add_lines(m: &Message, at: usize, out: &mut [u8]) -> usize
    ensures { Adds (field_lines formats m.now.bitmap m.now.counts m.now.contents) at out.old result out.new }
{
    let table = field::table();
    let places = field::places();
    let mut end = at;
    for k in 0..field::ROWS {
        let from = usize::from(places[k]);
        end = add_named(
            table[k],
            &m.bitmap,
            m.counts[k],
            &m.contents[from..],
            end,
            out,
        );
    }
    end
}

fn add_type(indicator: u16, at: usize, out: &mut [u8]) -> usize
    ensures { Adds (type_line indicator) at out.old result out.new }
{
    templates::add_filled(b"type @\n", &[], &indicator.to_be_bytes(), at, out)
}

fn add_end(n: u64, at: usize, out: &mut [u8]) -> usize
    ensures { Adds (end_line n) at out.old result out.new }
{
    templates::add_filled(b"end #\n", &[n], b"", at, out)
}
