//! The volumes of cases.

ghost use Rattle.std.specs.Prelude.{◌≤◌, ◌<◌, ◌*◌, length, IfOk, IfSome, IsTrue};
ghost use Rattle.block_file.specs.Opened.{CanBeOpened};
ghost use Rattle.disk_model.specs.Disk.{Image, MayLeave};
ghost use Rattle.disk_model.specs.Elapsed.{present};
ghost use Rattle.nfs_base.specs.declared.limits.TheConstants.{MOST_BLOCKS, MOST_FILES};

use crate::lines::long;
use block_file::{FileInfo, Volume};
use disk_model::{Disk, MemoryDisk};
use nfs_base::{MOST_BLOCKS, MOST_FILES};
use outcome::Mem;
use row_text::number;
use std::alloc::Global;

/// How many blocks the disk of a case has.
const DISK_BLOCKS: u64 = 40_000;

/// The disk of a case, not formatted yet.
pub fn new_disk(alloc: Global) -> MemoryDisk {
    MemoryDisk::new(alloc, DISK_BLOCKS, Vec::new(alloc))
}

/// Formats a disk by the words of a case's first line. None where there is no such volume.
pub fn formatted<D: Disk + Drop>(disk: D, words: &[&str]) -> Mem<Option<D>>
    ensures { IfOk result (λ answer. IfSome answer (λ disk. D.Told → (image : Image) → MayLeave (present (D.timeline disk)) image → CanBeOpened (D.size disk) image)) }
{
    let (files, blocks) = (number(words, 2), number(words, 3));
    if !is_volume(files, blocks) {
        return Ok(None);
    }
    Ok(Volume::format(disk, files, blocks, long(words, 4))?.ok())
}

/// Whether a volume may have so many files of so many blocks.
fn is_volume(files: u32, blocks: u32) -> bool
    ensures files { IsTrue result → 1 ≤ files }
    ensures most_files { IsTrue result → files ≤ MOST_FILES }
    ensures blocks { IsTrue result → 1 ≤ blocks }
    ensures most_blocks { IsTrue result → blocks ≤ MOST_BLOCKS }
    ensures room { IsTrue result → files * blocks ≤ MOST_BLOCKS }
{
    1 <= files
        && files <= MOST_FILES
        && 1 <= blocks
        && blocks <= MOST_BLOCKS
        && files.saturating_mul(blocks) <= MOST_BLOCKS
}

/// Whether a volume has a file of this number.
pub fn has_file<D: Disk>(volume: &Volume<D>, file: u32) -> bool
    ensures no_root { IsTrue result → 1 ≤ file }
    ensures there { IsTrue result → file < length volume.now.volume.files }
{
    1 <= file && file <= volume.files()
}

/// What is told of a file, where it is there.
pub fn info<D: Disk>(volume: &Volume<D>, file: u32) -> Option<FileInfo> {
    if !has_file(volume, file) {
        return None;
    }
    Some(volume.file(file))
}
