//! The commands that call or serve others over a net: each waits for them, and answers its exit status.
//!
//! - `serving`: `serve-source` and `serve-dest`, over crates `source_server` and `dest_server` (`specs/Serving.antt`).
//! - `copying`: `copy`, over crate `linked_copy` (`specs/Copying.antt`).
//!
//! The source, the destination and the client are those of every schedule (crate `run_ends`, `specs/Setting.antt`).
#![tactic(auto)]

mod copying;
mod serving;

pub use copying::copy;
pub use serving::{serve_as_dest, serve_as_source};
