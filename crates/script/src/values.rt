// What words say: numbers, cards, a desk's data and settings.
ghost use Rattle.std.specs.Prelude.{◌≡◌, ◌<◌};
ghost use Rattle.script.specs.Script.{number8, number32, number64, month_day, answered_in, card_in, keyed, desk_of, settings_in};

use crate::Name;
use desk::Desk;
use numbers::Trace;
use state::{Card, Settings};

// Numbers of 8, 32 and 64 bits; 0 where a word is none.
#[tactic(auto, unfolding(crate::specs::Script::number8), using(crate::proofs::Says::up_to_most))]
pub fn number8(w: &[u8]) -> u8
    ensures { result ≡ number8 w.now }
{
    word_values::number_up_to(255, w).unwrap_or(0) as u8
}

#[tactic(auto, unfolding(crate::specs::Script::number32), using(crate::proofs::Says::up_to_most))]
pub fn number32(w: &[u8]) -> u32
    ensures { result ≡ number32 w.now }
{
    word_values::number_up_to(4294967295, w).unwrap_or(0) as u32
}

#[tactic(auto, unfolding(crate::specs::Script::number64))]
fn number64(w: &[u8]) -> u64
    ensures { result ≡ number64 w.now }
{
    word_values::number_up_to(999999999999999999, w).unwrap_or(0)
}

// A date MMDD as a number.
#[tactic(auto, unfolding(crate::specs::Script::month_day), using(crate::proofs::Says::number_below))]
pub fn month_day(w: &[u8]) -> u16
    ensures { (result ≡ month_day w.now) × (result < 10000) }
{
    word_values::decimal_in(4, w).unwrap_or(0) as u16
}

// An amount that is answered; another word is none, for which a larger amount stands.
#[tactic(auto, unfolding(crate::specs::Script::answered_in))]
pub fn answered_in(w: &[u8]) -> u64
    ensures { result ≡ answered_in w.now }
{
    word_values::number_up_to(999999999999, w).unwrap_or(1000000000000)
}

#[tactic(auto, unfolding(crate::specs::Script::card_in), using(crate::proofs::Says::number_length))]
fn card_in(w: &[u8]) -> Card
    ensures { result ≡ card_in w.now }
{
    match word_values::decimal_in(19, w) {
        Some(number) => Card {
            number,
            length: w.len() as u8,
        },
        None => Card {
            number: 0,
            length: 0,
        },
    }
}

// A desk's data from its words; an empty word is none.
#[tactic(auto, unfolding(crate::specs::Script::keyed, crate::specs::Script::text_or))]
fn keyed(
    kind: u8,
    amount: &[u8],
    card: &[u8],
    trace: &[u8],
    reference: &[u8],
    authorisation: &[u8],
    month: u8,
    day: u8,
    chip: bool,
) -> Desk
    ensures { result ≡ keyed kind amount.now card.now trace.now reference.now authorisation.now month day chip }
{
    let mut field37 = [0; 12];
    let mut field38 = [0; 6];
    word_values::text_into(reference, &mut field37);
    word_values::text_into(authorisation, &mut field38);
    Desk {
        kind,
        amount: number64(amount),
        card: card_in(card),
        original: Trace(number32(trace)),
        month,
        day,
        authorisation: field38,
        reference: field37,
        chip,
    }
}

fn requested(kind: u8, s: &[u8]) -> Desk
    ensures { result ≡ desk_of (Name.Request kind) s.now }
{
    let chip = !words::word(s, 3).is_empty();
    keyed(
        kind,
        words::word(s, 1),
        words::word(s, 2),
        &[],
        &[],
        &[],
        0,
        0,
        chip,
    )
}

fn voiding(kind: u8, s: &[u8]) -> Desk
    ensures { result ≡ desk_of (Name.Void kind) s.now }
{
    keyed(kind, &[], &[], words::word(s, 1), &[], &[], 0, 0, false)
}

fn authorised(kind: u8, s: &[u8]) -> Desk
    ensures { result ≡ desk_of (Name.Authorised kind) s.now }
{
    let date = month_day(words::word(s, 4));
    keyed(
        kind,
        words::word(s, 1),
        words::word(s, 2),
        &[],
        &[],
        words::word(s, 3),
        (date / 100) as u8,
        (date % 100) as u8,
        false,
    )
}

fn refunded(s: &[u8]) -> Desk
    ensures { result ≡ desk_of Name.Refund s.now }
{
    let date = month_day(words::word(s, 4));
    keyed(
        25,
        words::word(s, 1),
        words::word(s, 2),
        &[],
        words::word(s, 3),
        &[],
        (date / 100) as u8,
        (date % 100) as u8,
        false,
    )
}

// Every datum, as `start` gives it.
#[tactic(auto, unfolding(crate::specs::Script::given))]
fn given(s: &[u8]) -> Desk
    ensures { result ≡ desk_of Name.Start s.now }
{
    keyed(
        number8(words::word(s, 1)),
        words::word(s, 2),
        words::word(s, 3),
        words::word(s, 4),
        words::word(s, 5),
        words::word(s, 6),
        number8(words::word(s, 7)),
        number8(words::word(s, 8)),
        !digits::same(words::word(s, 9), b"none"),
    )
}

// What the desk keyed on a line of this name; where it is no start, that has no meaning.
pub fn desk_of(name: Name, s: &[u8]) -> Desk
    ensures { result ≡ desk_of name s.now }
{
    match name {
        Name::Request(kind) => requested(kind, s),
        Name::Void(kind) => voiding(kind, s),
        Name::Authorised(kind) => authorised(kind, s),
        Name::Refund => refunded(s),
        _ => given(s),
    }
}

// The settings of a line `terminal`; of another line they have no meaning.
#[tactic(auto, unfolding(crate::specs::Script::settings_in, crate::specs::Script::text_or))]
pub fn settings_in(s: &[u8]) -> Settings
    ensures { result ≡ settings_in s.now }
{
    let mut terminal = [0; 8];
    let mut merchant = [0; 15];
    word_values::text_into(words::word(s, 4), &mut terminal);
    word_values::text_into(words::word(s, 5), &mut merchant);
    Settings {
        limit: number32(words::word(s, 1)),
        sendings: number8(words::word(s, 2)),
        refund: number64(words::word(s, 3)),
        terminal,
        merchant,
    }
}
