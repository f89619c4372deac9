ghost use Rattle.std.specs.Prelude.{◌≡◌, ◌≢◌, ℕ, ◌+◌, ◌*◌, ◌≤◌, ◌<◌, replicate, IfOk, IsOk, MatchResult};
ghost use Rattle.outcome.specs.Causes.{Rose};
ghost use Rattle.disk_model.specs.declared.fuse.Fuse.TheVariants.{Unset};
ghost use Rattle.disk_model.specs.Disk.{Image, MayLeave, IsSettled};
ghost use Rattle.disk_model.specs.Elapsed.{present, contents};
ghost use Rattle.disk_model.specs.Passes.{Passes};
ghost use Rattle.block_file.specs.Layout.{blocks_of};
ghost use Rattle.block_file.specs.Stored.{IsFormatted, IsCleared, HasHead, KeepsHead, LeftByFormat};
ghost use Rattle.block_file.specs.Opened.{HeadIs};

use crate::faults::FormatFault;
use crate::head::head_block;
use crate::shape::Shape;
use crate::volume::Volume;
use disk_model::{Disk, Io};
use nfs_base::{MOST_BLOCKS, MOST_FILES};
use outcome::Mem;

impl<D: Disk + Drop> Volume<D> {
    /// Makes a volume of so many files of so many blocks of a disk. Each file is empty. The boot number is
    /// 0, and the first opening raises it to 1. Answered first: the disk has too few blocks; it is as it was
    /// then. A crash at any moment leaves block 0 as it was, or all other blocks as they are laid out.
    pub fn format(disk: D, files: u32, blocks: u32, tag: u64) -> Mem<Result<D, (D, FormatFault)>>
        requires some_files { 1 ≤ files }
        requires few_files { files ≤ MOST_FILES }
        requires some_blocks { 1 ≤ blocks }
        requires few_blocks { blocks ≤ MOST_BLOCKS }
        requires room { files * blocks ≤ MOST_BLOCKS }
        ensures ok { IsOk result }
        ensures small { IfOk result (λ answer. MatchResult answer (λ made. blocks_of files blocks ≤ D.size disk)
            (λ fault. (D.size disk < blocks_of files blocks → fault.1 ≡ FormatFault.TooSmall (blocks_of files blocks) (D.size disk))
            × (blocks_of files blocks ≤ D.size disk → fault.1 ≡ FormatFault.DiskFailed))) }
        ensures formatted { D.Told → IfOk result (λ answer. MatchResult answer
            (λ made. (image : Image) → MayLeave (present (D.timeline made)) image → IsFormatted (D.size made) files blocks tag image)
            (λ fault. Unit {0})) }
        ensures untouched { D.size disk < blocks_of files blocks → IfOk result (λ answer. MatchResult answer (λ made. Unit {0}) (λ fault. fault.0 ≡ disk)) }
        ensures unset { D.fuse disk ≡ Unset → IfOk result (λ answer. MatchResult answer (λ made. D.fuse made ≡ Unset) (λ fault. D.fuse fault.0 ≡ Unset)) }
        ensures any_moment { D.Told → IfOk result (λ answer. MatchResult answer
            (λ made. Passes (D.fuse disk) (D.fuse made) (D.timeline disk) (D.timeline made) (LeftByFormat files blocks (present (D.timeline disk))))
            (λ fault. Passes (D.fuse disk) (D.fuse fault.0) (D.timeline disk) (D.timeline fault.0) (LeftByFormat files blocks (present (D.timeline disk))))) }
        ensures size { IfOk result (λ answer. MatchResult answer (λ made. D.size made ≡ D.size disk) (λ fault. D.size fault.0 ≡ D.size disk)) }
        ensures faults { IfOk result (λ answer. MatchResult answer (λ made. D.faults disk ≤ D.faults made) (λ fault. D.faults disk ≤ D.faults fault.0)) }
        ensures cause { IfOk result (λ answer. MatchResult answer (λ made. Unit {0})
            (λ fault. fault.1 ≡ FormatFault.DiskFailed → Rose (D.faults disk) (D.faults fault.0))) }
    {
        let shape = Shape { files, blocks };
        let mut disk = disk;
        let have = disk.blocks();
        let need = 4 + 3 * u64::from(files) + 2 * (u64::from(files) * u64::from(blocks));
        if have < need {
            return Ok(Err((disk, FormatFault::TooSmall { need, have })));
        }
        match lay_out(&mut disk, shape, tag, have) {
            Io::Failed => Ok(Err((disk, FormatFault::DiskFailed))),
            Io::Done => Ok(Ok(disk)),
        }
    }
}

// Writes zeros to the first homes and to the gates, and then block 0.
fn lay_out<D: Disk>(disk: &mut D, shape: Shape, tag: u64, size: u64) -> Io
    requires size { size ≡ D.size disk.old }
    requires room { blocks_of shape.files shape.blocks ≤ size }
    ensures head { D.Told → result ≡ Io.Done → HeadIs size shape tag (contents (D.timeline disk.new) 0) }
    ensures cleared { D.Told → result ≡ Io.Done → IsCleared shape.files shape.blocks (contents (D.timeline disk.new)) }
    ensures settled { D.Told → result ≡ Io.Done → IsSettled (present (D.timeline disk.new)) }
    ensures any_moment { D.Told → Passes (D.fuse disk.old) (D.fuse disk.new) (D.timeline disk.old) (D.timeline disk.new)
        (LeftByFormat shape.files shape.blocks (present (D.timeline disk.old))) }
    ensures size { D.size disk.new ≡ D.size disk.old }
    ensures unset { D.fuse disk.old ≡ Unset → D.fuse disk.new ≡ Unset }
    ensures faults { D.faults disk.old ≤ D.faults disk.new }
    ensures cause { result ≡ Io.Failed → Rose (D.faults disk.old) (D.faults disk.new) }
{
    match clear(disk, shape) {
        Io::Failed => return Io::Failed,
        Io::Done => {}
    }
    match disk.sync() {
        Io::Failed => return Io::Failed,
        Io::Done => {}
    }
    let head = head_block(shape, tag, size);
    match disk.write(0, &head) {
        Io::Failed => return Io::Failed,
        Io::Done => {}
    }
    disk.sync()
}

// Writes zeros to home 0 of each block, and to the gate and home 0 of each cell.
fn clear<D: Disk>(disk: &mut D, shape: Shape) -> Io
    requires { blocks_of shape.files shape.blocks ≤ D.size disk.old }
    ensures cleared { D.Told → result ≡ Io.Done → IsCleared shape.files shape.blocks (contents (D.timeline disk.new)) }
    ensures keeps { D.Told → KeepsHead (present (D.timeline disk.old)) (present (D.timeline disk.new)) }
    ensures any_moment { D.Told → Passes (D.fuse disk.old) (D.fuse disk.new) (D.timeline disk.old) (D.timeline disk.new)
        (HasHead (present (D.timeline disk.old))) }
    ensures size { D.size disk.new ≡ D.size disk.old }
    ensures unset { D.fuse disk.old ≡ Unset → D.fuse disk.new ≡ Unset }
    ensures faults { D.faults disk.old ≤ D.faults disk.new }
    ensures cause { result ≡ Io.Failed → Rose (D.faults disk.old) (D.faults disk.new) }
{
    let zeros = [0; 4096];
    let files = u64::from(shape.files);
    let slots = files * u64::from(shape.blocks);
    for slot in 0..slots {
        match disk.write(4 + 3 * files + 2 * slot, &zeros) {
            Io::Failed => return Io::Failed,
            Io::Done => {}
        }
    }
    for cell in 0..files + 1 {
        match clear_cell(disk, cell) {
            Io::Failed => return Io::Failed,
            Io::Done => {}
        }
    }
    Io::Done
}

// Writes zeros to the gate and home 0 of a cell.
fn clear_cell<D: Disk>(disk: &mut D, cell: u64) -> Io
    requires { 2 + 3 * cell < D.size disk.old }
    ensures gate { D.Told → result ≡ Io.Done → contents (D.timeline disk.new) (1 + 3 * cell) ≡ replicate 4096 0 }
    ensures home { D.Told → result ≡ Io.Done → contents (D.timeline disk.new) (2 + 3 * cell) ≡ replicate 4096 0 }
    ensures elsewhere { D.Told → (b : ℕ) → b ≢ 1 + 3 * cell → b ≢ 2 + 3 * cell
        → contents (D.timeline disk.new) b ≡ contents (D.timeline disk.old) b }
    ensures keeps { D.Told → KeepsHead (present (D.timeline disk.old)) (present (D.timeline disk.new)) }
    ensures any_moment { D.Told → Passes (D.fuse disk.old) (D.fuse disk.new) (D.timeline disk.old) (D.timeline disk.new)
        (HasHead (present (D.timeline disk.old))) }
    ensures size { D.size disk.new ≡ D.size disk.old }
    ensures unset { D.fuse disk.old ≡ Unset → D.fuse disk.new ≡ Unset }
    ensures faults { D.faults disk.old ≤ D.faults disk.new }
    ensures cause { result ≡ Io.Failed → Rose (D.faults disk.old) (D.faults disk.new) }
{
    let _count = disk.blocks();
    let zeros = [0; 4096];
    match disk.write(1 + 3 * cell, &zeros) {
        Io::Failed => return Io::Failed,
        Io::Done => {}
    }
    disk.write(2 + 3 * cell, &zeros)
}
