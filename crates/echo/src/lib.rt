// A line of a script as it is echoed, its card numbers masked. Each function adds to a text of n bytes at the front of out, as far as out has room, and
// gives the new number of bytes.
#![tactic(auto)]

ghost use Rattle.std.specs.Prelude.{◌≡◌, ◌≤◌, ◌<◌, length};
ghost use Rattle.texts.specs.Text.{Adds};
ghost use Rattle.echo.specs.Echo.{is_card_number, masked, shown_word, shown_line, ended_word, start_after, echo_line};

// Adds the line s after `> `, and a line feed.
pub fn add_echo(s: &[u8], n: usize, out: &mut [u8]) -> usize
    ensures { Adds (echo_line s.now) n out.old result out.new }
{
    let from = texts::add(b"> ", n, out);
    let end = add_words(s, from, out);
    texts::add(b"\n", end, out)
}

// Adds the words of s, and the spaces around them.
fn add_words(s: &[u8], n: usize, out: &mut [u8]) -> usize
    ensures { Adds (shown_line s.now) n out.old result out.new }
{
    let mut at = n;
    let mut from = 0;
    for i in 0..s.len() {
        at = add_ended(s, from, i, at, out);
        from = start_after(s, from, i);
    }
    add_word(&s[from..], at, out)
}

// Adds the word that begins at `from`, and a space, where byte i is the space that ends it.
#[tactic(auto, unfolding(crate::specs::Echo::ended_word))]
fn add_ended(s: &[u8], from: usize, i: usize, n: usize, out: &mut [u8]) -> usize
    requires { (from ≤ i) × (i < length s.now) }
    ensures { Adds (ended_word s.now from i) n out.old result out.new }
{
    if s[i] != b' ' {
        return n;
    }
    let at = add_word(&s[from..i], n, out);
    texts::add(b" ", at, out)
}

// Where the word begins that byte i belongs to, or the next where byte i is a space.
#[tactic(auto, unfolding(crate::specs::Echo::start_after))]
fn start_after(s: &[u8], from: usize, i: usize) -> usize
    requires { i < length s.now }
    ensures { result ≡ start_after s.now from i }
{
    if s[i] == b' ' { i + 1 } else { from }
}

#[tactic(auto, using(crate::proofs::Lines::card_length), unfolding(crate::specs::Echo::shown_word))]
fn add_word(w: &[u8], n: usize, out: &mut [u8]) -> usize
    ensures { Adds (shown_word w.now) n out.old result out.new }
{
    if is_card_number(w) {
        return add_masked(w, n, out);
    }
    texts::add(w, n, out)
}

// Adds a card number: its first six and last four digits, and a * for each digit between.
fn add_masked(w: &[u8], n: usize, out: &mut [u8]) -> usize
    requires { (13 ≤ length w.now) × (length w.now ≤ 19) }
    ensures { Adds (masked w.now) n out.old result out.new }
{
    let hidden = w.len() - 10;
    let last = w.len() - 4;
    let at = texts::add(&w[..6], n, out);
    let next = texts::add(&[b'*'; 9][..hidden], at, out);
    texts::add(&w[last..], next, out)
}

// Whether a word is 13 to 19 digits.
#[tactic(auto, unfolding(crate::specs::Echo::is_card_number))]
fn is_card_number(w: &[u8]) -> bool
    ensures { result ≡ is_card_number w.now }
{
    (13..=19).contains(&w.len()) && word_values::decimal_in(19, w).is_some()
}
