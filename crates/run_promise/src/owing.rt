//! What the destination of a run owes, at every moment of it, also where a server stops and is opened anew.
//!
//! There is no code here. What it owes is in `specs/Owing/Owing.antt`: it owes it in each opening by the copies of that alone
//! ([`openings_owe_all`], by [`dest`](crate::dest)), where each begins with a destination that was just opened
//! ([`openings_are_begun`]) and none of its steps leaves it ([`steps_keep_openings`]). So it owes it in the whole run
//! ([`runs_owe_all`]), where the copies of an opening stand behind those of the openings before ([`opening`](crate::opening)), and a
//! stop loses all.

mod openings;
mod whole;

pub use openings::{openings_are_begun, openings_owe_all, steps_keep_openings};
pub use whole::runs_owe_all;
