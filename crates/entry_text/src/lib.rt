// An entry of a journal as a line of text, its card number masked. Each function adds to a text of n bytes in out, as far as out has
// room, and gives the new number of bytes.
#![tactic(auto)]

ghost use Rattle.std.specs.Prelude.{◌++◌};
ghost use Rattle.texts.specs.Decimal.{decimal};
ghost use Rattle.texts.specs.Text.{text, feed, Adds};
ghost use Rattle.entry_text.specs.Entries.{entry_marks, entry_approval, entry_line};

use entry::Entry;

// Adds the line of an entry whose number is i, the first being 1.
pub fn add_entry(i: u16, e: Entry, n: usize, out: &mut [u8]) -> usize
    ensures { Adds (entry_line i e) n out.old result out.new }
{
    let at = add_marks(i, e, n, out);
    add_approval(e, at, out)
}

// Adds the number and the first values of an entry.
fn add_marks(i: u16, e: Entry, n: usize, out: &mut [u8]) -> usize
    ensures { Adds (text "entry " ++ decimal i ++ entry_marks e) n out.old result out.new }
{
    let values = [
        u64::from(i),
        u64::from(e.kind),
        u64::from(e.voided),
        u64::from(e.mark),
        u64::from(e.resends),
        u64::from(e.trace.0),
        e.amount,
    ];
    templates::add_filled(
        b"entry # kind # voided # mark # resends # trace % amount #",
        &values,
        b"",
        n,
        out,
    )
}

// Adds what an approval gave, its card, date, authorisation and reference, and the line's end.
fn add_approval(e: Entry, n: usize, out: &mut [u8]) -> usize
    ensures { Adds (entry_approval e ++ feed) n out.old result out.new }
{
    let mut at = texts::add(b" card ", n, out);
    at = masking::add_digits(true, e.digits, &e.card, at, out);
    at = texts::add(b" date ", at, out);
    at = masking::add_digits(false, 4, &e.date, at, out);
    at = templates::add_filled(b" authorisation \"$\"", &[], &e.authorisation, at, out);
    templates::add_filled(b" reference \"$\"\n", &[], &e.reference, at, out)
}
