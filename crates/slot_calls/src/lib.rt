//! What a record that names a slot (RFC 8881 section 2.10.6) is to a server.
//!
//! There is no code here. `specs/Asked.antt` says what a COMPOUND is, as a server takes it and as a wire sees it. The
//! contract to read first is [`slot_calls_are_compounds`].
#![tactic(auto)]

mod laws;

pub use laws::slot_calls_are_compounds;
