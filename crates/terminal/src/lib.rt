// The card terminal: its state, and the calls of document 01 as methods.
#![tactic(auto)]

ghost use Rattle.std.specs.Prelude.{◌≡◌};
ghost use Rattle.state.specs.State.{fresh};
ghost use Rattle.state.specs.Calls.{lend};
ghost use Rattle.terminal.specs.Terminal.{limits, step_result, step_of};
ghost use Rattle.call_definitions.specs.Events.{call, event_of, sign_on_event, starts, answers, no_answer_event, power_returned_event, card_agrees_event, card_declines_event, send_reversal_event, settles, send_next_upload_event};

use calls::Call;
use desk::Desk;
use entry::Entry;
use message::Message;
use state::{Called, Outcome, Settings, State};

#[derive(Clone, Copy)]
pub struct Terminal {
    pub state: State,
}

// The constants of the terminal as one value.
#[derive(Clone, Copy)]
pub struct Limits {
    pub message: usize,
    pub entry: usize,
    pub entries: u32,
    pub sendings: u8,
    pub refund: u64,
}

// What a call gives back: a message to send, a quiet change or a refusal, with the terminal beside it.
#[derive(Clone, Copy)]
pub struct Step {
    pub outcome: Outcome,
    pub terminal: Terminal,
}

impl Terminal {
    // The bytes of a message buffer, and those of one journal entry.
    pub const MESSAGE: usize = Message::LARGEST;

    pub const ENTRY: usize = Entry::SIZE;
    // The largest settings.
    pub const MOST_ENTRIES: u32 = numbers::MOST_ENTRIES;

    pub const MOST_SENDINGS: u8 = numbers::MOST_SENDINGS;

    pub const LARGEST_REFUND: u64 = numbers::LARGEST_AMOUNT;

    // These constants, for a program that cannot name them.
    pub fn limits() -> Limits
        ensures { result ≡ limits }
    {
        Limits {
            message: Terminal::MESSAGE,
            entry: Terminal::ENTRY,
            entries: Terminal::MOST_ENTRIES,
            sendings: Terminal::MOST_SENDINGS,
            refund: Terminal::LARGEST_REFUND,
        }
    }

    // A fresh terminal of any settings; the calls judge them.
    pub fn new(settings: Settings) -> Self
        ensures { result.state ≡ fresh settings }
    {
        Terminal {
            state: State::new(settings),
        }
    }

    // Asks the centre for a sign-on.
    pub fn sign_on(self, journal: &mut [u8], message: &mut [u8]) -> Step
        ensures { step_result result (lend journal.new message.new) ≡ call sign_on_event self.state (lend journal.old message.old) }
    {
        step_of(call_sign_on::sign_on(self.state, journal, message))
    }

    // A card request leaves.
    pub fn start(self, desk: Desk, chip: &[u8], journal: &mut [u8], message: &mut [u8]) -> Step
        ensures { step_result result (lend journal.new message.new) ≡ call (starts desk chip.now) self.state (lend journal.old message.old) }
    {
        step_of(call_start::start(self.state, desk, chip, journal, message))
    }

    // The centre's bytes, and the key pad's word on the MAC.
    pub fn answer(self, bytes: &[u8], good: bool, journal: &mut [u8], message: &mut [u8]) -> Step
        ensures { step_result result (lend journal.new message.new) ≡ call (answers bytes.now good) self.state (lend journal.old message.old) }
    {
        step_of(call_answer::answer(self.state, bytes, good, journal, message))
    }

    // The line has fallen silent.
    pub fn no_answer(self, journal: &mut [u8], message: &mut [u8]) -> Step
        ensures { step_result result (lend journal.new message.new) ≡ call no_answer_event self.state (lend journal.old message.old) }
    {
        step_of(call_answer::no_answer(self.state, journal, message))
    }

    // Power has returned.
    pub fn power_returned(self, journal: &mut [u8], message: &mut [u8]) -> Step
        ensures { step_result result (lend journal.new message.new) ≡ call power_returned_event self.state (lend journal.old message.old) }
    {
        step_of(call_answer::power_returned(self.state, journal, message))
    }

    // The card agrees to the request that the centre has approved.
    pub fn card_agrees(self, journal: &mut [u8], message: &mut [u8]) -> Step
        ensures { step_result result (lend journal.new message.new) ≡ call card_agrees_event self.state (lend journal.old message.old) }
    {
        step_of(call_card::card_agrees(self.state, journal, message))
    }

    // The card declines it.
    pub fn card_declines(self, journal: &mut [u8], message: &mut [u8]) -> Step
        ensures { step_result result (lend journal.new message.new) ≡ call card_declines_event self.state (lend journal.old message.old) }
    {
        step_of(call_card::card_declines(self.state, journal, message))
    }

    // The pending reversal leaves.
    pub fn send_reversal(self, journal: &mut [u8], message: &mut [u8]) -> Step
        ensures { step_result result (lend journal.new message.new) ≡ call send_reversal_event self.state (lend journal.old message.old) }
    {
        step_of(call_reversal::send_reversal(self.state, journal, message))
    }

    // The batch's totals leave.
    pub fn settle(self, journal: &mut [u8], message: &mut [u8]) -> Step
        ensures { step_result result (lend journal.new message.new) ≡ call settles self.state (lend journal.old message.old) }
    {
        step_of(call_settle::settle(self.state, journal, message))
    }

    // The next due entry leaves, or the upload's end.
    pub fn send_next_upload(self, journal: &mut [u8], message: &mut [u8]) -> Step
        ensures { step_result result (lend journal.new message.new) ≡ call send_next_upload_event self.state (lend journal.old message.old) }
    {
        step_of(call_upload::send_next_upload(self.state, journal, message))
    }

    // The call that a value names, with what the desk keyed and the bytes of its field 55 or of an answer.
    pub fn make(
        self,
        c: Call,
        desk: Desk,
        bytes: &[u8],
        journal: &mut [u8],
        message: &mut [u8],
    ) -> Step
        ensures { step_result result (lend journal.new message.new) ≡ call (event_of c desk bytes.now) self.state (lend journal.old message.old) }
    {
        match c {
            Call::SignOn => self.sign_on(journal, message),
            Call::Start => self.start(desk, bytes, journal, message),
            Call::Answer(good) => self.answer(bytes, good, journal, message),
            Call::NoAnswer => self.no_answer(journal, message),
            Call::PowerReturned => self.power_returned(journal, message),
            Call::CardAgrees => self.card_agrees(journal, message),
            Call::CardDeclines => self.card_declines(journal, message),
            Call::SendReversal => self.send_reversal(journal, message),
            Call::Settle => self.settle(journal, message),
            Call::SendNextUpload => self.send_next_upload(journal, message),
        }
    }
}

fn step_of(c: Called) -> Step
    ensures { result ≡ step_of c }
{
    Step {
        outcome: c.outcome,
        terminal: Terminal { state: c.state },
    }
}
