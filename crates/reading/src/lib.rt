// Reading a message (document 01, rules 3 to 9).
#![tactic(auto)]

ghost use Rattle.std.specs.Prelude.{◌≡◌, ◌≤◌, length};
ghost use Rattle.checks.specs.Refusals.{numbered};
ghost use Rattle.field.specs.Table.{formats};
ghost use Rattle.field.specs.Contents.{room};
ghost use Rattle.message.specs.Message.{empty};
ghost use Rattle.reading.specs.Reading.{read_fields, read_message, reading_of, outcome_of};
ghost use Rattle.reading.specs.Found.{Fresh, told, parsed, Copied};

use checks::Refusal;
use field::Format;
use message::Message;
use span::Span;

// Reads a message from bytes of any length.
pub fn read(s: &[u8]) -> Result<Message, Refusal>
    ensures { reading_of result ≡ read_message s.now }
{
    let mut m = Message::new();
    read_into(s, &mut m)?;
    Ok(m)
}

// Whether bytes of any length are a message, which is not kept.
pub fn outcome_of(s: &[u8]) -> Result<(), Refusal>
    ensures { outcome_of result ≡ (read_message s.now).outcome }
{
    let mut m = Message::new();
    read_into(s, &mut m)
}

// Reads a message in place of an empty one.
fn read_into(s: &[u8], m: &mut Message) -> Result<(), Refusal>
    requires { m.old ≡ empty }
    ensures { parsed result m.new ≡ read_message s.now }
{
    if s.len() < 10 {
        return Err(Refusal::EndsEarly);
    }
    m.indicator = u16::from_be_bytes([s[0], s[1]]);
    if !field::listed_indicator(m.indicator) {
        return Err(Refusal::TypeNotListed);
    }
    digits::copy(&s[2..10], &mut m.bitmap);
    if !field::all_listed(&m.bitmap) {
        return Err(Refusal::FieldNotListed);
    }
    read_fields(&s[10..], m)?;
    message::judge(m)
}

// Reads the fields that the bitmap of m names from s: each one's count, and its contents at its place.
fn read_fields(s: &[u8], m: &mut Message) -> Result<(), Refusal>
    requires { Fresh m.old }
    ensures fields { read_fields formats m.old.bitmap s.now ≡ told result m.new.counts m.new.contents }
    ensures indicator { m.new.indicator ≡ m.old.indicator }
    ensures bitmap { m.new.bitmap ≡ m.old.bitmap }
{
    let table = field::table();
    let places = field::places();
    let bits = field::bits();
    let word = field::word_of(&m.bitmap);
    let mut at = 0;
    for k in 0..field::ROWS {
        if field::is_set(word, bits[k]) {
            let to = usize::from(places[k]);
            let t = read_field(table[k], &s[at..], &mut m.contents[to..])?;
            m.counts[k] = t.count;
            at = at + t.skip + t.size;
        }
    }
    if at < s.len() {
        return Err(Refusal::BytesFollow);
    }
    Ok(())
}

// The field at the front of s, its contents copied to the front of out.
fn read_field(f: Format, s: &[u8], out: &mut [u8]) -> Result<Span, Refusal>
    requires { room f ≤ length out.old }
    ensures { Copied f s.now out.old (numbered result) out.new }
{
    let t = span::frame_of(f, s)?;
    let end = t.skip + t.size;
    contents::take(f.class, t.count, &s[t.skip..end], &mut out[..t.size])?;
    Ok(t)
}
