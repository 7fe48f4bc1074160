// The lines that a rehearsal writes. Each function adds to a text of n bytes in out, as far as out has room, and gives the
// new number of bytes.
#![tactic(auto)]

mod outcomes;
mod shows;

pub use outcomes::{add_error, add_named, add_outcome};
pub use shows::{add_counts, add_journal, add_message, add_state, add_totals};
