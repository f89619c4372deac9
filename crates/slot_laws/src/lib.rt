//! What a COMPOUND does to the slots of a server's sessions, as a wire sees them (RFC 8881 section 2.10.6).
//!
//! There is no code here. `specs/View.antt` says what is seen of a session table: the reply that a slot keeps, and the
//! number executed last in it; `specs/Turns.antt` what a COMPOUND is to the slots, and `specs/Effects.antt` what it does to
//! them. The contract to read first is [`compounds_keep_slots`].
#![tactic(auto)]

mod laws;

pub use laws::{compounds_keep_slots, sessions_are_sound};
