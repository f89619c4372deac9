ghost use Rattle.std.specs.Prelude.{◌≡◌, ℕ, ◌+◌, ◌*◌, ◌<◌, ◌≤◌, ◌^◌, [], length, false, slice_index, slice_index_or, IfOk, IfErr, IsOk, MatchResult, Ok, None, ◌⊎◌};
ghost use Rattle.outcome.specs.Causes.{Rose};
ghost use Rattle.disk_model.specs.declared.fuse.Fuse.TheVariants.{Unset};
ghost use Rattle.disk_model.specs.Disk.{Image, MayLeave, IsSettled};
ghost use Rattle.disk_model.specs.Elapsed.{present, contents};
ghost use Rattle.disk_model.specs.Passes.{Passes};
ghost use Rattle.block_file.specs.Layout.{blocks_of, head_tag, boot_in, table_of};
ghost use Rattle.block_file.specs.Stored.{reopened, tag_of, home_of, flaw_of, head_flaw, IsClean};
ghost use Rattle.block_file.specs.Opened.{HeadIs, CanBeOpened, LeftByOpening, Reopens, RefusedFor, IsOpen, AreNewest, held_of, volume_at};
ghost use Rattle.block_file.specs.Loaded.{IsLoaded, HasAll};

use crate::blocks::put_table;
use crate::faults::OpenFault;
use crate::flaws::{cell_flaw, shape_in};
use crate::load::{Cells, load_cells};
use crate::shape::Shape;
use crate::tables::{boot_block, boot_in, table_at, tag_in};
use disk_model::{Disk, Io};
use outcome::Mem;
use std::alloc::Global;

/// A volume as it is read from a disk.
#[derive(Drop)]
pub struct Loaded {
    pub shape: Shape,
    pub tag: u64,
    pub boot: u32,
    pub cells: Cells,
}

/// Reads the volume on a disk and raises its boot number by one.
pub fn start<D: Disk>(alloc: Global, disk: &mut D) -> Mem<Result<Loaded, OpenFault>>
    requires { D.Told → (image : Image) → MayLeave (present (D.timeline disk.old)) image → CanBeOpened (D.size disk.old) image }
    ensures refused { D.Told → IfOk result (λ answer. MatchResult answer
        (λ _. flaw_of (D.size disk.old) (contents (D.timeline disk.old)) ≡ None)
        (λ fault. RefusedFor (flaw_of (D.size disk.old) (contents (D.timeline disk.old))) fault)) }
    ensures lists { IfOk result (λ answer. IfOk answer HasAll) }
    ensures opened { IfOk result (λ answer. IfOk answer (λ v.
        IsOpen D.Told (D.size disk.new) (present (D.timeline disk.new)) v.shape v.tag v.boot 0 false 0
        (λ j. slice_index v.cells.homes.items j) (held_of v.shape (λ j. slice_index_or v.cells.newest.items j []) (contents (D.timeline disk.new)))
        (λ j. slice_index_or v.cells.tables.items j []))) }
    ensures files { IfOk result (λ answer. IfOk answer (λ v.
        AreNewest D.Told v.shape (λ j. slice_index_or v.cells.newest.items j []) (contents (D.timeline disk.new)))) }
    ensures volume { D.Told → IfOk result (λ answer. IfOk answer (λ v.
        volume_at v.shape v.boot 0 false 0 (λ j. slice_index_or v.cells.newest.items j [])
        (λ j. slice_index_or v.cells.tables.items j []) (contents (D.timeline disk.new))
        ≡ reopened (contents (D.timeline disk.old)))) }
    ensures tag { D.Told → IfOk result (λ answer. IfOk answer (λ v. v.tag ≡ tag_of (contents (D.timeline disk.old)))) }
    ensures homes { D.Told → IfOk result (λ answer. IfOk answer (λ v. (j : ℕ) → 1 ≤ j → j ≤ v.shape.files
        → slice_index v.cells.homes.items j ≡ home_of (contents (D.timeline disk.old)) j)) }
    ensures any_moment { D.Told → IsOk result → Passes (D.fuse disk.old) (D.fuse disk.new) (D.timeline disk.old) (D.timeline disk.new)
        (LeftByOpening (D.size disk.old) (present (D.timeline disk.old))) }
    ensures next { D.Told → IfOk result (λ answer. IfOk answer (λ v. v.boot ≡ boot_in (table_of (contents (D.timeline disk.old)) 0) + 1)) }
    ensures untouched { D.Told → IfOk result (λ answer. IfErr answer (λ fault. (fault ≡ OpenFault.DiskFailed → ⊥)
        → contents (D.timeline disk.new) ≡ contents (D.timeline disk.old))) }
    ensures boot { IfOk result (λ answer. IfOk answer (λ v. (1 ≤ v.boot) × (v.boot < 2 ^ 32))) }
    ensures size { D.size disk.new ≡ D.size disk.old }
    ensures unset { D.fuse disk.old ≡ Unset → D.fuse disk.new ≡ Unset }
    ensures faults { D.faults disk.old ≤ D.faults disk.new }
    ensures cause { result ≡ Ok (Err OpenFault.DiskFailed) → Rose (D.faults disk.old) (D.faults disk.new) }
{
    let mut loaded = match load(alloc, disk)? {
        Err(fault) => return Ok(Err(fault)),
        Ok(loaded) => loaded,
    };
    match raise(disk, &mut loaded) {
        Io::Failed => Ok(Err(OpenFault::DiskFailed)),
        Io::Done => Ok(Ok(loaded)),
    }
}

// Makes the disk safe as it is, and reads the volume on it.
fn load<D: Disk>(alloc: Global, disk: &mut D) -> Mem<Result<Loaded, OpenFault>>
    ensures refused { D.Told → IfOk result (λ answer. MatchResult answer
        (λ _. flaw_of (D.size disk.old) (contents (D.timeline disk.old)) ≡ None)
        (λ fault. RefusedFor (flaw_of (D.size disk.old) (contents (D.timeline disk.old))) fault)) }
    ensures lists { IfOk result (λ answer. IfOk answer HasAll) }
    ensures loaded { IfOk result (λ answer. IfOk answer (λ v. IsLoaded D.Told (D.size disk.old) v.shape v.tag v.boot
        (λ j. slice_index v.cells.homes.items j) (λ j. slice_index_or v.cells.tables.items j []) (contents (D.timeline disk.old)))) }
    ensures settled { D.Told → IfOk result (λ answer. IsOk answer → IsSettled (present (D.timeline disk.new))) }
    ensures reads { D.Told → contents (D.timeline disk.new) ≡ contents (D.timeline disk.old) }
    ensures any_moment { D.Told → Passes (D.fuse disk.old) (D.fuse disk.new) (D.timeline disk.old) (D.timeline disk.new)
        (MayLeave (present (D.timeline disk.old))) }
    ensures size { D.size disk.new ≡ D.size disk.old }
    ensures unset { D.fuse disk.old ≡ Unset → D.fuse disk.new ≡ Unset }
    ensures faults { D.faults disk.old ≤ D.faults disk.new }
    ensures cause { result ≡ Ok (Err OpenFault.DiskFailed) → Rose (D.faults disk.old) (D.faults disk.new) }
{
    let (shape, tag) = match load_head(disk) {
        Err(fault) => return Ok(Err(fault)),
        Ok(head) => head,
    };
    let cells = match load_cells(alloc, disk, shape)? {
        None => return Ok(Err(OpenFault::DiskFailed)),
        Some(cells) => cells,
    };
    match cell_flaw(shape, &cells) {
        Some(block) => return Ok(Err(OpenFault::NotVolume { block, at: 0 })),
        None => {}
    }
    let _count = disk.blocks();
    Ok(Ok(Loaded {
        shape,
        tag,
        boot: boot_in(&table_at(&cells.tables, 0)),
        cells,
    }))
}

// Makes the disk safe as it is, and reads what block 0 says.
fn load_head<D: Disk>(disk: &mut D) -> Result<(Shape, u64), OpenFault>
    ensures head { D.Told → IfOk result (λ head. HeadIs (D.size disk.old) head.0 head.1 (contents (D.timeline disk.old) 0)) }
    ensures room { IfOk result (λ head. blocks_of head.0.files head.0.blocks ≤ D.size disk.old) }
    ensures refused { D.Told → IfErr result (λ fault. RefusedFor (flaw_of (D.size disk.old) (contents (D.timeline disk.old))) fault) }
    ensures settled { D.Told → IsOk result → IsSettled (present (D.timeline disk.new)) }
    ensures reads { D.Told → contents (D.timeline disk.new) ≡ contents (D.timeline disk.old) }
    ensures any_moment { D.Told → Passes (D.fuse disk.old) (D.fuse disk.new) (D.timeline disk.old) (D.timeline disk.new)
        (MayLeave (present (D.timeline disk.old))) }
    ensures size { D.size disk.new ≡ D.size disk.old }
    ensures unset { D.fuse disk.old ≡ Unset → D.fuse disk.new ≡ Unset }
    ensures faults { D.faults disk.old ≤ D.faults disk.new }
    ensures cause { result ≡ Err OpenFault.DiskFailed → Rose (D.faults disk.old) (D.faults disk.new) }
{
    match disk.sync() {
        Io::Failed => return Err(OpenFault::DiskFailed),
        Io::Done => {}
    }
    let size = disk.blocks();
    if size == 0 {
        return Err(OpenFault::NotVolume { block: 0, at: 0 });
    }
    let mut head = [0; 4096];
    match disk.read(0, &mut head) {
        Io::Failed => return Err(OpenFault::DiskFailed),
        Io::Done => {}
    }
    match shape_in(&head, size) {
        Err(at) => Err(OpenFault::NotVolume { block: 0, at }),
        Ok(shape) => Ok((shape, tag_in(&head))),
    }
}

// Puts the next boot number.
fn raise<D: Disk>(disk: &mut D, loaded: &mut Loaded) -> Io
    requires lists { HasAll loaded.old }
    requires loaded { IsLoaded D.Told (D.size disk.old) loaded.old.shape loaded.old.tag loaded.old.boot
        (λ j. slice_index loaded.old.cells.homes.items j) (λ j. slice_index_or loaded.old.cells.tables.items j []) (contents (D.timeline disk.old)) }
    requires settled { D.Told → IsSettled (present (D.timeline disk.old)) }
    requires clean { D.Told → IsClean (contents (D.timeline disk.old)) }
    ensures lists { HasAll loaded.new }
    ensures opened { result ≡ Io.Done → IsOpen D.Told (D.size disk.new) (present (D.timeline disk.new)) loaded.new.shape loaded.new.tag loaded.new.boot 0 false 0
        (λ j. slice_index loaded.new.cells.homes.items j)
        (held_of loaded.new.shape (λ j. slice_index_or loaded.new.cells.newest.items j []) (contents (D.timeline disk.new)))
        (λ j. slice_index_or loaded.new.cells.tables.items j []) }
    ensures files { result ≡ Io.Done
        → AreNewest D.Told loaded.new.shape (λ j. slice_index_or loaded.new.cells.newest.items j []) (contents (D.timeline disk.new)) }
    ensures volume { D.Told → result ≡ Io.Done
        → volume_at loaded.new.shape loaded.new.boot 0 false 0 (λ j. slice_index_or loaded.new.cells.newest.items j [])
        (λ j. slice_index_or loaded.new.cells.tables.items j []) (contents (D.timeline disk.new))
        ≡ reopened (contents (D.timeline disk.old)) }
    ensures tag { D.Told → loaded.new.tag ≡ tag_of (contents (D.timeline disk.old)) }
    ensures homes { D.Told → (j : ℕ) → 1 ≤ j → j ≤ loaded.new.shape.files
        → slice_index loaded.new.cells.homes.items j ≡ home_of (contents (D.timeline disk.old)) j }
    ensures any_moment { D.Told → Passes (D.fuse disk.old) (D.fuse disk.new) (D.timeline disk.old) (D.timeline disk.new)
        (λ image. Reopens (D.size disk.old) 0 (contents (D.timeline disk.old)) image ⊎ Reopens (D.size disk.old) 1 (contents (D.timeline disk.old)) image) }
    ensures next { result ≡ Io.Done → loaded.new.boot ≡ loaded.old.boot + 1 }
    ensures boot { result ≡ Io.Done → (1 ≤ loaded.new.boot) × (loaded.new.boot < 2 ^ 32) }
    ensures size { D.size disk.new ≡ D.size disk.old }
    ensures unset { D.fuse disk.old ≡ Unset → D.fuse disk.new ≡ Unset }
    ensures faults { D.faults disk.old ≤ D.faults disk.new }
    ensures cause { result ≡ Io.Failed → Rose (D.faults disk.old) (D.faults disk.new) }
{
    let boot = loaded.boot + 1;
    let table = boot_block(boot);
    let cells = &mut loaded.cells;
    let mut home = cells.homes[0];
    match put_table(disk, loaded.shape, 0, &mut home, &table) {
        Io::Failed => Io::Failed,
        Io::Done => {
            loaded.boot = boot;
            cells.homes[0] = home;
            cells.tables[0] = table;
            Io::Done
        }
    }
}
