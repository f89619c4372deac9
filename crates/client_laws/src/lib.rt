//! What a client owes to the promise: its word, of every run of its steps (RFC 7862 section 4).
//!
//! There is no code here. `specs/Turns.antt` says what a run is, over the steps of `client_core`; `specs/Causes.antt` why
//! something happens to a copy. The law to read first is [`copies_change_by_causes`]; by it what holds of every copy
//! (`client_copies`) holds of what a client tells, as [`stable_is_told_once`] and [`none_is_stable_once_cancelled`]. By
//! [`turns_are_mount_runs`] and [`turns_are_lawful`] a client owes each of its servers what every caller owes (`caller_laws`):
//! `specs/CallerLaws.antt` says what a run of a mount's steps is, `specs/MountTurns.antt` that a turn is one at each server,
//! `specs/WholeTurns.antt` what both wires see of it; by [`turns_are_spelled`] what a fit client asks can be spelled. By module:
//!
//! - [`bounds`]: a client is fit from the beginning on, and stays so;
//! - [`speaking`]: the laws of its word, in any system.
#![tactic(auto)]

mod answered;
pub mod bounds;
mod callers;
mod counting;
mod fits;
mod keeping;
mod order;
pub mod speaking;
mod whole;
mod word;

pub use answered::answers_are_taken;
pub use callers::{
    clients_begin_lawful, mount_runs_are_lawful, started_tokens_are_own, turns_are_mount_runs,
};
pub use counting::{copies_begin_by_command, each_step_counts_one};
pub use fits::{fit_turns_are_lawful, turns_are_spelled, turns_leave_clients_fit};
pub use keeping::{what_is_held_was_called_back, what_is_known_stays};
pub use order::{none_is_stable_once_cancelled, stable_is_told_once};
pub use whole::{clients_stay_settled, turns_are_lawful};
pub use word::{
    answers_come_to_what_they_say, copies_change_by_causes, what_is_known_was_told,
    words_are_told_in_order, words_have_causes,
};
