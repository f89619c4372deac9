//! The client of a run of three machines, at every moment of it.
//!
//! There is no code here. In each small step the client's part is a turn or a rest (`Turns.antt` and `Steps.antt` of `specs/Client`), so
//! that it goes along a run by them ([`clients_go_by_turns`], `Along.antt`), and owes both servers what every caller owes
//! ([`clients_are_lawful`]); and by [`wires_are_unmistaken`] no end is mistaken on either wire. That its acts are ones that it may make,
//! with an xid for each call, follows from the schedule, whose events are in order and within their limits (`Accepted.antt`,
//! [`schedules_are_accepted`], [`clients_may_go`]). It obeys the laws of its word ([`runs_keep_the_word`]). What it tells along a run it
//! tells in a run of its turns ([`clients_tell_in_turns`]), so that `stable` stands there once for each copy ([`stable_stands_once`]); the
//! run's lines say that and no more ([`lines_tell_what_is_told`]), and it is so by the client's word ([`what_is_told_is_the_word`]).

mod bounds;
mod clients;
mod lines;
mod told;
mod word;
mod words;

pub use bounds::{clients_may_go, each_step_calls_few, schedules_are_accepted};
pub use clients::{clients_are_lawful, clients_go_by_turns, wires_are_unmistaken};
pub use lines::{lines_say_stable_once, lines_tell_what_is_told};
pub use told::{clients_tell_in_turns, none_is_stable_behind_cancelled, stable_stands_once};
pub use word::what_is_told_is_the_word;
pub use words::{clients_are_carried, runs_keep_the_word};
