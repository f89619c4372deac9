//! The destination of a run of three machines, at every moment of one of its openings: from the moment on at which it was opened, in
//! steps in which it never stops.
//!
//! There is no code here. By module, with the definitions of `specs/Dest`:
//!
//! - `begun`: how it is then (`Begun.antt`), on a volume that was just formatted ([`destinations_begin_fresh`]) and after a stop
//!   ([`destinations_begin_anew`]).
//! - `calls`: the destination as a caller of the source (`Kept.antt`): each of its steps is seen as its mount's steps
//!   ([`runs_are_seen`]), it stays as it should be and asks what can be spelled ([`destinations_go_as_callers`]), and so it obeys the
//!   laws of the source's wire ([`destinations_are_lawful_callers`]).
//! - `copies`: what a small step is to the destination (`Acts.antt`, `ActLaws.antt`), and how it is at each moment (`Moments.antt`),
//!   where the opening's system shows it ([`destinations_are_shown`]).
//! - `lands` and `goes`: in which ways it goes on (`Ways.antt`), that each moment is one of them (`Goes.antt`,
//!   [`destinations_go_on`]), so that what lands and is held is due, and its copies obey their laws ([`copies_are_lawful`]).
//! - `dests`: what it does to its volume and what it tells of names and reports (`Kinds.antt`, `Mounts.antt`;
//!   [`volumes_are_lawful`], [`names_are_lawful`]).

mod begun;
mod calls;
mod copies;
mod dests;
mod goes;
mod lands;

pub use begun::{destinations_begin_anew, destinations_begin_fresh};
pub use calls::{destinations_are_lawful_callers, destinations_go_as_callers, runs_are_seen};
pub use copies::{destinations_are_shown, shown_copies_are_lawful};
pub use dests::{jobs_are_few, names_are_lawful, volumes_are_lawful};
pub use goes::{copies_are_lawful, destinations_go_on};
pub use lands::{calls_stay_spelled, runs_land_well};
