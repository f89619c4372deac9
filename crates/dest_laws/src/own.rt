//! How the jobs of a destination go on, in each of its steps (RFC 7862 sections 4.2 and 15.2).
//!
//! There is no code here. In a step that takes a record on a connection copies are taken and jobs end, and nothing else is done to
//! them ([`records_take_and_end`]). In any other step jobs get one entry at most, and no copy is taken ([`steps_give_one_entry`]).
//! So every step changes the jobs by deeds ([`steps_go_by_deeds`]); what these leave of a job is said in
//! [`histories`](crate::histories).

mod following;
mod laws;

pub use following::TakesAlong;
pub use laws::{jobs_get_one_entry, records_take_and_end, steps_give_one_entry, steps_go_by_deeds};
