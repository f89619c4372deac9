//! A disk in memory that tells nothing of what it holds, for tests of what is said of such disks.
#![tactic(auto)]

mod disk;

pub use disk::BlindDisk;
