//! Disks of blocks, and what a crash leaves of them.
//!
//! [`Disk`] reads, writes and syncs blocks of 4,096 bytes. Its contract says what a crash may leave:
//! a block that was written since the last sync that succeeded holds any bytes, and every other block
//! holds what a read gives. [`CrashDisk`] is a disk whose machine can be made to stop at a chosen
//! write or sync, and crash. [`MemoryDisk`] tells all this of itself; of [`FileDisk`], a disk over a
//! file, it is a premise. The contract to read first is that of [`Disk::write`], with
//! `specs/Disk.antt`.
#![tactic(auto)]

mod crashes;
mod disk;
mod file_disk;
mod fuse;
mod memory_disk;
mod store;

pub use crashes::crash_laws;
pub use disk::{Block, CrashDisk, Disk, Io};
pub use file_disk::FileDisk;
pub use fuse::Fuse;
pub use memory_disk::{Counts, MemoryDisk};
