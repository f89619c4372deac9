//! The copies of a client (RFC 7862 section 4): what each asks of the source and of the destination, and what it says of
//! itself on the way.
//!
//! A [`ClientCopy`] is one copy. [`ClientCopy::on`] is all that happens to one, an [`Event`] at a time; its contract is the
//! one to read first, with the table that it cites, `specs/Steps.antt`. A [`CopyTable`] has all copies of a client by their
//! numbers, and [`HeldOffloads`] the CB_OFFLOADs that come before their copy is known by its stateid. Nothing here knows a
//! record, a context or a slot: who owns the copies sends what is due and tells what came of it. What holds of every copy
//! is in `laws.rt`: it is stable at most once, and whoever hears its words knows where it stands.
#![tactic(auto)]

mod copy;
mod event;
mod held;
mod laws;
mod refusal;
mod steps;
mod table;
mod told;

pub use copy::{Asking, ClientCopy, First, Query, Report, Session, Stage, Step, Verdict};
pub use event::Event;
pub use held::{HeldOffload, HeldOffloads, MOST_HELD};
pub use laws::{
    early_reports_count, held_reports_are_told, only_these_are_stable_and_exact,
    words_say_where_a_copy_is,
};
pub use refusal::Refusal;
pub use table::{CopyTable, MOST_COPIES, Named};
pub use told::{Said, Word};
