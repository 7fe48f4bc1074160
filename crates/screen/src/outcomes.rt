// What a call writes, and what an error of a line writes.
ghost use Rattle.std.specs.Prelude.{◌++◌};
ghost use Rattle.texts.specs.Decimal.{decimal};
ghost use Rattle.texts.specs.Text.{Adds};
ghost use Rattle.screen.specs.Outcomes.{outcome_line, error_line};

use state::Outcome;

// Why a call is turned down: row k is number k of documents 01 and 02.
const REASONS: [u8; 713] = *b"
message buffer or journal too small
settings, state or journal out of form
the message ends too early
the message type is not listed
the message names a field not listed
a digit is out of form
a length is not allowed
a character is not printable
bytes follow the last field
signed off
something is awaited
a reversal is pending
the batch is settling or uploading
nothing of that kind is awaited, pending or uploading
the amount is out of range
kind, card, date, text or batch out of form
the refund is above its setting
the journal or the batch is full
no such entry
the entry is voided already
the total would be too large
the answer does not match
field 55 is out of form
the length of field 62 is not allowed
";

// Adds what a call gave; what left stands at the front of message.
pub fn add_outcome(outcome: Outcome, message: &[u8], n: usize, out: &mut [u8]) -> usize
    ensures { Adds (outcome_line outcome message.now) n out.old result out.new }
{
    match outcome {
        Outcome::Send(length) => templates::add_filled(
            b"sent @ #\n",
            &[length as u64],
            texts::front(message, 2),
            n,
            out,
        ),
        Outcome::Quiet => texts::add(b"quiet\n", n, out),
        Outcome::Refused(number) => templates::add_filled(
            b"refused # $\n",
            &[u64::from(number)],
            words::row(&REASONS, usize::from(number)),
            n,
            out,
        ),
    }
}

// Adds an error of a line.
#[tactic(auto, using(crate::proofs::Lines::error_filled))]
pub fn add_error(number: u64, why: &[u8], n: usize, out: &mut [u8]) -> usize
    ensures { Adds (error_line number why.now) n out.old result out.new }
{
    templates::add_filled(b"error line # $\n", &[number], why, n, out)
}

// Adds a name and a number.
pub fn add_named(name: &[u8], x: u64, n: usize, out: &mut [u8]) -> usize
    ensures { Adds (name.now ++ decimal x) n out.old result out.new }
{
    let at = texts::add(name, n, out);
    texts::add_decimal(x, at, out)
}
