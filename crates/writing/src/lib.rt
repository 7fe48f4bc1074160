// Writing a message (document 01, rules 1 and 4 to 8).
#![tactic(auto)]

ghost use Rattle.std.specs.Prelude.{◌≡◌, ◌++◌, ◌+◌, ◌≤◌, length, drop};
ghost use Rattle.checks.specs.Refusals.{numbered};
ghost use Rattle.field.specs.Table.{formats};
ghost use Rattle.message.specs.Message.{largest};
ghost use Rattle.field_writing.specs.Placing.{Placing};
ghost use Rattle.writing.specs.Writing.{written, fields_fault, fields_bytes, head, message_fault, write_message};

use checks::Refusal;
use message::Message;

// Writes a message into buf, which must have room for the largest, and gives its length; bytes past it stay, and a refusal leaves buf.
pub fn write(m: &Message, buf: &mut [u8]) -> Result<usize, Refusal>
    ensures { written (numbered result) buf.new ≡ write_message m.now buf.old }
{
    if buf.len() < Message::LARGEST {
        return Err(Refusal::TooSmall);
    }
    let mut fields = [0; Message::LARGEST];
    let n = put_contents(m, &mut fields)?;
    Ok(put_message(m, &fields[..n], buf))
}

// Writes a message's fields at the front of out, where the message is in form, and gives how many bytes they take.
fn put_contents(m: &Message, out: &mut [u8]) -> Result<usize, Refusal>
    requires { largest ≤ 10 + length out.old }
    ensures { Placing (message_fault m.now) (fields_bytes formats m.now.bitmap m.now.counts m.now.contents) result out.new }
{
    if !field::listed_indicator(m.indicator) {
        return Err(Refusal::TypeNotListed);
    }
    if !field::all_listed(&m.bitmap) {
        return Err(Refusal::FieldNotListed);
    }
    let n = put_fields(m, out)?;
    message::judge(m)?;
    Ok(n)
}

// Writes the fields that the bitmap names at the front of out, ascending, up to the first that is refused.
fn put_fields(m: &Message, out: &mut [u8]) -> Result<usize, Refusal>
    requires { largest ≤ 10 + length out.old }
    ensures { Placing (fields_fault formats m.now.bitmap m.now.counts m.now.contents) (fields_bytes formats m.now.bitmap m.now.counts m.now.contents) result out.new }
{
    let table = field::table();
    let places = field::places();
    let bits = field::bits();
    let word = field::word_of(&m.bitmap);
    let mut at = 0;
    for k in 0..field::ROWS {
        if field::is_set(word, bits[k]) {
            let from = usize::from(places[k]);
            at += field_writing::put_field(
                table[k],
                m.counts[k],
                &m.contents[from..],
                &mut out[at..],
            )?;
        }
    }
    Ok(at)
}

// Writes a message's type, its bitmap and the bytes of its fields at the front of buf, and gives how many bytes these are.
fn put_message(m: &Message, fields: &[u8], buf: &mut [u8]) -> usize
    requires { 10 + length fields.now ≤ length buf.old }
    ensures { (result ≡ length (head m.now ++ fields.now)) × (buf.new ≡ (head m.now ++ fields.now) ++ drop (length (head m.now ++ fields.now)) buf.old) }
{
    buf[0] = (m.indicator / 256) as u8;
    buf[1] = (m.indicator % 256) as u8;
    digits::copy(&m.bitmap, &mut buf[2..10]);
    let end = 10 + fields.len();
    digits::copy(fields, &mut buf[10..end]);
    end
}
