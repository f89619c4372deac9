//! What the program's words ask for, and what it answers: its commands, the disks that each uses, its exit statuses.
//!
//! - `command`: the commands, and the words of each (`Command::from_words`, `specs/Command.antt`).
//! - `disks`: which disks are enough for a command (`specs/Disks.antt`).
//! - `exit_status`, `ends`: the exit statuses, and that of each end of each command (`specs/ExitStatus.antt`).
#![tactic(auto)]

mod command;
mod disks;
mod ends;
mod exit_status;

pub use command::{Asked, Command, DestOrder, Service, Workers, asked_service, is_copy, is_format};
pub use disks::disks_suffice;
pub use ends::{GenEnd, RunEnd, ShowEnd, UsageEnd, copy_code, format_code, serve_code};
pub use exit_status::ExitStatus;
