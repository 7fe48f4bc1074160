// A line of a script, short of the call that it makes: what it asks for, what it changes and what it shows.
#![tactic(auto)]

mod asks;
mod shows;

pub use asks::{Unobeyed, asked_by, bytes_into, changed, error_of};
pub use shows::{last_message, say};
