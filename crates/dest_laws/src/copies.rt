//! The laws of a destination's copies (RFC 7862 section 15.2), but for what lands, what is held and what is reported.
//!
//! There is no code here. Each step of a destination has a story of what it does to the jobs ([`steps_have_stories`]), from which
//! follow the laws of copies ([`copies_go_on`]), that those stay safe that are ([`safe_copies_stay`]), and how much room they take
//! ([`rooms_narrow`], [`last_lengths_are_reached`]); together they give the laws of copies at every moment ([`runs_keep_copies`]).

mod laws;

pub use laws::{
    copies_go_on, last_lengths_are_reached, rooms_narrow, runs_keep_copies, safe_copies_stay,
    steps_have_stories,
};
