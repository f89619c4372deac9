//! The client's word (RFC 7862 section 4): each step of a client obeys the laws of its word in any system.
//!
//! There is no code here. Read `words_are_lawful` first: it gives all of `wire_model`'s `WordLaws`, and with it every word that a
//! client says has its cause at the wires. `specs/Speaking/Views.antt` says how a client is seen in a system and when a step of the
//! system is a turn of a client, `specs/Speaking/Carried.antt` what holds of a client between turns, and
//! `specs/Speaking/Places.antt` what it awaits at each place of its mounts.

mod carried;
mod places;
mod word;

pub use carried::clients_carry_on;
pub use places::places_stay;
pub use word::{words_are_lawful, words_begin, words_rest};
