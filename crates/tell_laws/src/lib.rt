//! What a server's steps do to its volume, and what they tell of it (`wire_model`'s `VolumeLaws` and `TellsRight`), whatever a
//! particular server adds.
//!
//! There is no code here. A step makes one call on the volume at most, where the server takes only what calls it once
//! ([`steps_call_once`]), and one call is one effect that is allowed ([`steps_change_volumes_lawfully`]): so each step obeys
//! `VolumeLaws` ([`servers_change_volumes_lawfully`]). What a step tells is right of
//! the volume before it ([`steps_tell_of_the_volume`]), as long as its numbers fit in words, and they stay so
//! ([`volumes_stay_fitting`]). A caller reads its results back as they were told ([`results_are_read_back`]).
#![tactic(auto)]

mod fitting;
mod telling;
mod volumes;

pub use fitting::volumes_stay_fitting;
pub use telling::{results_are_read_back, steps_tell_of_the_volume};
pub use volumes::{
    seconds_change_nothing, servers_change_volumes_lawfully, steps_call_once,
    steps_change_volumes_lawfully,
};
