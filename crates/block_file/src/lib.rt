//! The files of a server's volume.
//!
//! [`Volume`] is the volume on a disk: a crash at any moment leaves of each file what its last commit made
//! safe, or what a commit under way was making safe. Each block of a file has two homes, and the file's table,
//! which a [`GatedCell`] keeps, has a bit for each that names the home in force. A write goes to the disk at
//! once, to the home that the safe table doesn't name ([`write_run`]); a commit puts the newest table in the
//! place of the safe one ([`put_table`]), so that its cost isn't the file's size. What a volume keeps in memory
//! is two tables a file. Contracts see the volume that the promise speaks of
//! (`specs/Volume.antt` of `copy_model`). The contract to read first is [`Volume::commit`]'s, with
//! `specs/Opened.antt`. The words are those of RFC 8881: WRITE (section 18.32), COMMIT (section 18.3),
//! the change attribute (section 5.8.1.4).
#![tactic(auto)]

mod blocks;
mod cell;
mod faults;
mod files;
mod flaws;
mod format;
mod head;
mod info;
mod laws;
mod load;
mod opening;
mod runs;
mod shape;
mod tables;
mod volume;

pub use blocks::put_table;
pub use cell::GatedCell;
pub use faults::{FormatFault, OpenFault, ReadFault, WriteFault};
pub use info::FileInfo;
pub use laws::may_be_opened;
pub use runs::{read_run, write_run};
pub use shape::Shape;
pub use tables::with_words;
pub use volume::Volume;
