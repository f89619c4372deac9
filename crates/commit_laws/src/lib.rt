//! What WRITE and COMMIT promise together, at every server (RFC 8881 sections 18.3 and 18.32).
//!
//! There is no code here. `specs/Run.antt` says what a run of a server is, with its crashes, over the steps of
//! `session_server`; `specs/Executing.antt` which operations a record has executed; `specs/Commits.antt` has the promise,
//! and [`commits_are_kept`] states it of every run. A server's extension is one that is [`Calling`]; then each step changes the volume
//! by calls alone ([`steps_change_by_calls`]).
#![tactic(auto)]

mod calling;
mod laws;
mod stores;

pub use calling::Calling;
pub use laws::commits_are_kept;
pub use stores::steps_change_by_calls;
