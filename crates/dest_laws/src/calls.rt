//! A destination as a caller of its source: in each of its steps it owes the source's wire what every caller owes (`caller_laws`).
//!
//! There is no code here. `specs/Calls/Settled.antt` says what holds between steps, `specs/Calls/Steps.antt` how a step is seen: as a run
//! of its mount's steps, each of which it may take, and the rest is nothing to the source (`caller_laws::one_step`). A worker's turn is
//! seen so by [`workers_turns_are_seen`], a record of the source by [`replies_are_seen`], a second that comes by itself by
//! [`ticks_are_seen`], a record on a connection by [`records_are_seen`], a link that failed by [`failures_are_seen`]. What is seen so
//! obeys the laws by [`seen_steps_are_lawful`], where what is asked can be spelled: [`fit_steps_are_spelled`] says when it can
//! (`specs/Calls/Fits.antt`). What a worker hears it answers by no reply ([`heard_records_are_not_answered`]).
//! What holds between steps holds at the beginning ([`destinations_begin_settled`]) and stays; so does the number of the volume's
//! opening ([`openings_stay`]).

mod following;
mod openings;
mod seen;
mod whole;

pub use following::SeatsAlong;
pub use openings::openings_stay;
pub use seen::{
    failures_are_seen, heard_records_are_not_answered, records_are_seen, replies_are_seen,
    rests_are_seen, ticks_are_seen, workers_turns_are_seen,
};
pub use whole::{
    contexts_stay_own, destinations_begin_settled, fit_steps_are_spelled, mechanisms_stay,
    principals_stay, seen_steps_are_lawful, started_tokens_are_own,
};
