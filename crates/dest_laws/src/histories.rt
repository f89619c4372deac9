//! What deeds leave of a destination's jobs, as a client or a history sees them: the plan of each, and its entries.
//!
//! There is no code here. What is done to a book of jobs, one thing after another, is that of crate `dest_tasks`;
//! [`entries_grow_by_deeds`] says that a job's entries grow by what those deeds give it, and by nothing else, and
//! [`histories_stay_linked`] that a history of copies which goes on as the jobs show it stays linked to them.

mod laws;

pub use laws::{entries_grow_by_deeds, histories_stay_linked};
