//! What becomes of a server's volume whose machine stops, in a call that the server makes on it or between two steps.
//!
//! The machine crashes then, and the volume is opened anew. A crash may find a commit unfinished ([`Pending`]): one that was
//! under way, or one that failed before. What it kept of it ([`Kept`]) is read off the disk, by the home in force of the
//! file's table. `specs/Stops.antt` says what a stop leaves of a volume (`StopsIn`). The contract to read first is that of
//! [`stops_leave_volumes`]: whatever a crash leaves at the moment of the stop can be opened, and is that. Where the step made
//! one call at most, the stop is to the volume the one crash that was told ([`one_stop_is_one_crash`]). COMMIT is that of RFC
//! 8881 section 18.3.
#![tactic(auto)]

mod kept;
mod laws;
mod pending;

pub use kept::Kept;
pub use laws::{failed_commits_are_pending, one_stop_is_one_crash, stops_leave_volumes};
pub use pending::Pending;
