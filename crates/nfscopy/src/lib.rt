//! The top call: all that the program does, over values that `main` makes real.
//!
//! The contract to read first is [`nfscopy`]: for each command and each status it says what was read,
//! what was put, and why. `specs/Ends.antt` has the definitions; for `run` they name the run of the schedule by three
//! machines and its lines (crates `wire_run`, `wire_machine`), for `gen` that of a schedule that is made here (crate `large_copy`,
//! module `wire_run::large_runs`), for `show` the lines of a stream of records (crate `wire_show`), for `format` what a disk holds (crate
//! `volume_format`), for `serve-source` what each connection of a net got (crate `source_server`), for `serve-dest` by which steps the
//! destination and its workers went (crate `dest_server`), and for `copy` what a client did over two links (crates `linked_copy`,
//! `single_copy`).
#![tactic(auto)]

mod commands;
mod generate;
mod notice;
mod run;
mod show;
mod summary;
mod top;

pub use commands::{do_format, do_gen, do_run, do_show};
pub use summary::Summary;
pub use top::nfscopy;
