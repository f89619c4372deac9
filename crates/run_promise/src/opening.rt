//! A run by the openings of its destination.
//!
//! There is no code here. What the crates below say of a destination they say of one opening, in which it never stops. A run goes on over
//! its stops: `specs/Opening/Openings.antt` says when the present opening began at a moment, and which steps are its own. These are a run
//! of their own ([`openings_are_runs`]) that begins with a destination that was just opened ([`openings_begin`]). What the system of that
//! run shows, that of the whole run shows behind the copies of the openings before ([`openings_stand_behind`]). In a step in which the
//! destination stops it is opened anew ([`stops_open_anew`]), and all copies are lost ([`stops_lose_all`]). So `opening_laws`
//! carries over to a run what each of its openings obeys.

mod openings;
mod stops;

pub use openings::{openings_are_runs, openings_begin, openings_stand_behind};
pub use stops::{stops_lose_all, stops_open_anew};
