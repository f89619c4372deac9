//! What nfscopy promises, and nothing of how it works.
//!
//! `specs/Promise.antt` says when a run keeps its copies (`IsKept`) and stops them (`IsStopped`), over a
//! history that shows a moment after each step. `specs/Laws.antt` has local laws of single steps. The
//! contract to read first is [`lawful_runs`]: a run whose every step obeys the laws keeps and stops its
//! copies. Every runner gives a history of this one type and proves the laws alone.
//!
//! The words are those of RFC 7862 (COPY, CB_OFFLOAD) and RFC 8881 (WRITE, COMMIT, change).
#![tactic(auto)]

mod logs;
mod promise;
mod sanity;
mod steps;
mod volume;

pub use logs::{first_chunks, log_marks, logs_grow};
pub use promise::lawful_runs;
pub use sanity::{crash_leavings, kept_example, refused_examples};
pub use steps::{alike_volumes, change_names_contents, volume_effects};
pub use volume::{recovered_files, written_bytes, written_files};
