//! What holds of a destination's jobs from its opening on: each log is lawful, each claim is of a chunk that hasn't landed, and the
//! ranges of jobs that run are apart ([`tables_stay_sound`]).
//!
//! There is no code here. The types of the jobs' table promise as much of each value; here it is said of every state that the
//! steps of a destination can come to.

mod laws;

pub use laws::tables_stay_sound;
