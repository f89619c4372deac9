//! What is done: what is copied, by how many workers, over which links.

use nfs_base::CopySpec;

/// What the client copies.
#[derive(Clone, Copy, PartialEq, Eq)]
pub enum Copied {
    /// The whole file.
    Whole,

    /// The whole file, whose bytes are to land in their order.
    Consecutive,

    /// The whole file twice, into two files.
    Files,

    /// Both halves of the file, each by a copy of its own.
    Halves,
}

/// When the links to the source give its answers.
#[derive(Clone, Copy, PartialEq, Eq)]
pub enum Links {
    /// At once.
    Free,

    /// At once, but for the first large one of each link: that waits until every worker has put a READ.
    Together,

    /// In the same way, but the last worker's link fails in place of giving that one.
    Breaking,

    /// At once, but each link fails after so many.
    Failing(u32),
}

/// What is done.
#[derive(Clone, Copy)]
pub struct Plan {
    /// How many workers there are, at most eight.
    pub workers: u8,

    /// How many turns each of them has.
    pub turns: u32,

    /// How many bytes the source's file has.
    pub size: u32,

    pub copied: Copied,

    pub links: Links,

    /// Whether the files are compared afterwards.
    pub compares: bool,
}

impl Plan {
    /// How many copies the client begins.
    pub fn copies(&self) -> u8 {
        match self.copied {
            Copied::Whole | Copied::Consecutive => 1,
            Copied::Files | Copied::Halves => 2,
        }
    }

    /// How many files the destination has.
    pub(crate) fn files(&self) -> u32 {
        if self.copied == Copied::Files { 2 } else { 1 }
    }

    /// Copy `j` of the client.
    pub(crate) fn spec(&self, j: u8) -> CopySpec {
        let half = u64::from(self.size / 2);
        let (from, count, dst_file) = match self.copied {
            Copied::Whole | Copied::Consecutive => (0, 0, 1),
            Copied::Files => (0, 0, u32::from(j)),
            Copied::Halves if j == 1 => (0, half, 1),
            Copied::Halves => (half, 0, 1),
        };
        CopySpec {
            src_file: 1,
            src_off: from,
            dst_file,
            dst_off: from,
            count,
            consecutive: self.copied == Copied::Consecutive,
        }
    }
}
