//! Whether two files have the same bytes.

ghost use Rattle.std.specs.Prelude.{◌≡◌, ◌≢◌, length, true, false, IfOk};
ghost use Rattle.wire_run.specs.LargeRuns.Alike.{AreAlike, AreAlikeAt, LeavesAll, MayDiffer};
ghost use Rattle.wire_run.specs.Running.{HasDisks, Later};
ghost use Rattle.wire_run.specs.System.{HasFile};

use crate::System;
use disk_model::CrashDisk;
use gss_mech::Mechanism;
use nfs_base::Side;
use outcome::Mem;
use std::alloc::Global;

/// How many bytes of each file are read at a time.
const CHUNK: u64 = 65_536;

/// Whether file 1 of the source and file 1 of the destination have the same bytes now. It is no step. It reads 64 KiB of each at a
/// time, and stops at the first that differ, or that a broken volume or a fault of a disk keeps from being read.
pub fn files_are_alike<D: CrashDisk + Drop, M: Mechanism + Copy>(
    system: &mut System<D, M>,
    alloc: Global,
) -> Mem<bool>
    requires source { HasFile system.old.context Side.Source 1 }
    requires dest { HasFile system.old.context Side.Dest 1 }
    requires disks { HasDisks system.old }
    ensures yes { D.Told → IfOk result (λ alike. alike ≡ true → AreAlike system.old) }
    ensures no { D.Told → IfOk result (λ alike. alike ≡ false → MayDiffer D.faults system.old system.new) }
    ensures still { D.Told → LeavesAll system.old system.new }
    ensures disks { HasDisks system.new }
    ensures source_later { Later D.faults D.size 0 system.old.source system.new.source }
    ensures dest_later { Later D.faults D.size 0 system.old.dest system.new.dest }
{
    let size = system.size(Side::Source, 1);
    if system.size(Side::Dest, 1) != size {
        return Ok(false);
    }
    let mut source = vec![in alloc; 0; CHUNK as usize]?;
    let mut dest = vec![in alloc; 0; CHUNK as usize]?;
    for chunk in 0..size.div_ceil(CHUNK) {
        if !chunk_is_alike(system, chunk * CHUNK, &mut source, &mut dest) {
            return Ok(false);
        }
    }
    Ok(true)
}

/// Whether both files are shown from `off` on, and have the same bytes there. The bytes are left in `source` and `dest`.
fn chunk_is_alike<D: CrashDisk + Drop, M: Mechanism + Copy>(
    system: &mut System<D, M>,
    off: u64,
    source: &mut [u8],
    dest: &mut [u8],
) -> bool
    requires source { HasFile system.old.context Side.Source 1 }
    requires dest { HasFile system.old.context Side.Dest 1 }
    requires disks { HasDisks system.old }
    requires as_long { length dest.old ≡ length source.old }
    ensures yes { D.Told → result ≡ true → AreAlikeAt system.old off (length source.old) }
    ensures no { D.Told → result ≡ false → MayDiffer D.faults system.old system.new }
    ensures still { D.Told → LeavesAll system.old system.new }
    ensures context { system.new.context ≡ system.old.context }
    ensures disks { HasDisks system.new }
    ensures source_later { Later D.faults D.size 0 system.old.source system.new.source }
    ensures dest_later { Later D.faults D.size 0 system.old.dest system.new.dest }
{
    if !system.peek(Side::Source, 1, off, source) {
        return false;
    }
    if !system.peek(Side::Dest, 1, off, dest) {
        return false;
    }
    &*source == &*dest
}
