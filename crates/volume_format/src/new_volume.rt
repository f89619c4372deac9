ghost use Rattle.std.specs.Prelude.{◌≡◌, ◌*◌, ◌≤◌};
ghost use Rattle.volume_format.specs.Shapes.{new_volume, Numbers};

use nfs_base::{MOST_BLOCKS, MOST_FILES};
use std::marker::Model;

/// The numbers of a volume that is to be made: 1 to 64 files of 1 to 16,384 blocks each, and of no more blocks in all; and its tag.
#[derive(Clone, Copy, PartialEq, Eq)]
pub struct NewVolume {
    files: u32,
    blocks: u32,
    tag: u64,
}

impl Model for NewVolume {
    ghost use Rattle.volume_format.specs.Shapes.{Fits, Numbers};

    ghost Value = { Numbers };

    ghost view = { λ v. record { files = v.files; blocks = v.blocks; tag = v.tag } };

    ghost invariant = { λ v. Fits v.files v.blocks };

    ghost inverse = { λ n. record { files = n.files; blocks = n.blocks; tag = n.tag } };
}

impl NewVolume {
    /// A volume of these numbers, where they are within their limits.
    pub fn new(files: u32, blocks: u32, tag: u64) -> Option<NewVolume>
        ensures { result ≡ new_volume files blocks tag }
    {
        if files < 1 || files > MOST_FILES || blocks < 1 || blocks > MOST_BLOCKS {
            return None;
        }
        if files * blocks > MOST_BLOCKS {
            return None;
        }
        Some(NewVolume { files, blocks, tag })
    }

    /// How many files it has, but for the root directory.
    pub fn files(self) -> u32
        ensures is { result ≡ self.files }
        ensures some { 1 ≤ self.files }
        ensures few { self.files ≤ MOST_FILES }
    {
        self.files
    }

    /// How many blocks each of its files has at most.
    pub fn blocks(self) -> u32
        ensures is { result ≡ self.blocks }
        ensures some { 1 ≤ self.blocks }
        ensures few { self.blocks ≤ MOST_BLOCKS }
        ensures room { self.files * self.blocks ≤ MOST_BLOCKS }
    {
        self.blocks
    }

    /// Its tag.
    pub fn tag(self) -> u64
        ensures { result ≡ self.tag }
    {
        self.tag
    }
}
