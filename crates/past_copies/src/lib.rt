//! The copies of a destination over its openings, with their names.
//!
//! There is no code here. A destination numbers its copies from the first on in each opening. A crash ends the opening, and its
//! copies are lost then, but keep their places and names in a run. `specs/Past.antt` has all copies in their order, and what a
//! crash makes of them. The contract to read first is that of [`crashes_end_openings`].
#![tactic(auto)]

mod laws;

pub use laws::{copies_of_the_past_stay, copies_stand_in_order, crashes_end_openings};
