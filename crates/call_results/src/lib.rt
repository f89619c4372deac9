//! What the results of these ends' calls say (RFC 8881 section 18, RFC 7862 section 15).
//!
//! Each function takes the results of a reply that answers its call, and gives what they tell, by their places behind
//! SEQUENCE. `specs/Results.antt` has what each is; [`grant_in`] is the one to read first.
#![tactic(auto)]

mod copies;
mod files;

pub use copies::{Granted, accepted_in, grant_in, progress_in};
pub use files::{Opened, Written, bytes_in, change_in, committed_in, open_in, size_in, written_in};
