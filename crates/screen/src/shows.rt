// What is shown of a terminal.
ghost use Rattle.std.specs.Prelude.{◌≡◌};
ghost use Rattle.texts.specs.Text.{Adds};
ghost use Rattle.journal.specs.Journal.{entries_of};
ghost use Rattle.state_rules.specs.StateRules.{waiting};
ghost use Rattle.screen.specs.Shows.{counts_line, totals_line, awaited_number, phase_number, state_number, state_line, journal_text, message_line};

use kinds::Totals;
use state::{Awaited, Counts, Phase, State};

// The names of the phases by number; the last two are those of the waits for the card's word and for the answer to a sign-on.
const PHASES: [u8; 150] = *b"resting
waiting-card
waiting-reversal
waiting-settlement
waiting-item
waiting-end
reversal-pending
settling
uploading
waiting-consent
waiting-sign-on
";

pub fn add_counts(c: Counts, phase: Phase, n: usize, out: &mut [u8]) -> usize
    ensures { Adds (counts_line c (waiting phase)) n out.old result out.new }
{
    let values = [
        u64::from(c.sent),
        u64::from(c.approved),
        u64::from(c.declined),
        u64::from(c.reversed),
        u64::from(c.given_up),
        u64::from(c.unanswered),
        state_rules::waiting_in(phase),
    ];
    templates::add_filled(
        b"counts sent # approved # declined # reversed # given-up # unanswered # waiting #\n",
        &values,
        b"",
        n,
        out,
    )
}

pub fn add_totals(t: Totals, n: usize, out: &mut [u8]) -> usize
    ensures { Adds (totals_line t) n out.old result out.new }
{
    let values = [t.debit, u64::from(t.debits), t.credit, u64::from(t.credits)];
    templates::add_filled(b"totals debit # # credit # #\n", &values, b"", n, out)
}

pub fn add_state(s: State, n: usize, out: &mut [u8]) -> usize
    ensures { Adds (state_line s) n out.old result out.new }
{
    let template: &[u8] = if s.signed_on {
        b"state on batch % trace % phase $ entries #\n"
    } else {
        b"state off batch % trace % phase $ entries #\n"
    };
    let values = [
        u64::from(s.batch.0),
        u64::from(s.next.0),
        u64::from(s.entries),
    ];
    templates::add_filled(
        template,
        &values,
        words::row(&PHASES, state_number(s)),
        n,
        out,
    )
}

// Adds a line for each of the first entries of a journal.
pub fn add_journal(journal: &[u8], entries: u16, n: usize, out: &mut [u8]) -> usize
    ensures { Adds (journal_text entries (entries_of entries journal.now)) n out.old result out.new }
{
    if entries == 0 {
        return texts::add(b"journal empty\n", n, out);
    }
    let mut at = n;
    for i in 0..entries {
        at = entry_text::add_entry(i + 1, journal::entry_at(journal, entries, i), at, out);
    }
    at
}

// Adds the bytes of a message, or that there is none.
pub fn add_message(message: &[u8], n: usize, out: &mut [u8]) -> usize
    ensures { Adds (message_line message.now) n out.old result out.new }
{
    if message.is_empty() {
        return texts::add(b"message none\n", n, out);
    }
    templates::add_filled(b"message @\n", &[], message, n, out)
}

fn awaited_number(a: Awaited) -> usize
    ensures { result ≡ awaited_number a }
{
    match a {
        Awaited::Request(_) => 1,
        Awaited::Reversal(_) => 2,
        Awaited::Settlement(_) => 3,
        Awaited::Item(_) => 4,
        Awaited::End(_) => 5,
    }
}

fn phase_number(phase: Phase) -> usize
    ensures { result ≡ phase_number phase }
{
    match phase {
        Phase::Resting => 0,
        Phase::Waiting(a) => awaited_number(a),
        Phase::Pending(_) => 6,
        Phase::Settling => 7,
        Phase::Uploading => 8,
    }
}

// The number of a state's phase, where the answer to a sign-on or the card's word may be awaited.
#[tactic(auto, unfolding(crate::specs::Shows::state_number))]
fn state_number(s: State) -> usize
    ensures { result ≡ state_number s }
{
    if s.signs_on() {
        return 10;
    }
    if s.chip.approved {
        return 9;
    }
    phase_number(s.phase)
}
