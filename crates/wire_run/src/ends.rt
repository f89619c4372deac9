//! The two servers of a run.

ghost use Rattle.std.specs.Prelude.{◌≡◌, ◌<◌, ◌≤◌, IfOk, OnErr, MatchResult};
ghost use Rattle.block_file.specs.Layout.{blocks_of};
ghost use Rattle.disk_model.specs.declared.fuse.Fuse.TheVariants.{Unset};
ghost use Rattle.wire_run.specs.Fresh.{dest_with, source_with, DestLeft, DestMakes, IsDestDisk, IsDestMade, IsShape, IsSourceDisk, IsSourceMade, IsUnmade, SourceLeft, SourceMakes};
ghost use Rattle.wire_run.specs.Stage.{dest_disk, source_disk};
ghost use Rattle.wire_run.specs.Watching.{fuse_in};

use crate::fresh::{OTHER_FILES, Unmade, unformatted, unopened};
use block_file::Volume;
use dest_core::DestCore;
use disk_model::{CrashDisk, Disk};
use gss_mech::Mechanism;
use outcome::Mem;
use run_ends::{
    DEST_TAG, SOURCE_TAG, dest_name, dest_place, dest_source, source_peers, source_place,
};
use source_core::SourceCore;
use std::alloc::Global;
use std::mem;

/// The disks of the two servers.
#[derive(Drop)]
pub struct Disks<D> {
    pub source: Option<D>,
    pub dest: Option<D>,
}

/// A source: its disk, and from its `volume` line on the server there. The disk is away where it was never there, or where
/// memory ran out while the server was made.
#[derive(Drop)]
pub(crate) enum SourceEnd<D: Disk, M> {
    Away,
    Disk(D),
    Open(SourceCore<D, M>),
}

/// A destination, in the same way.
#[derive(Drop)]
pub(crate) enum DestEnd<D: Disk, M> {
    Away,
    Disk(D),
    Open(DestCore<D, M>),
}

impl<D: CrashDisk + Drop, M: Mechanism> SourceEnd<D, M> {
    pub(crate) fn new(disk: Option<D>) -> SourceEnd<D, M>
        ensures { result ≡ source_with disk }
    {
        match disk {
            None => SourceEnd::Away,
            Some(disk) => SourceEnd::Disk(disk),
        }
    }

    /// The disk, which is the end of the server.
    pub(crate) fn hand_back(self) -> Option<D>
        ensures disk { result ≡ source_disk self }
        ensures left { D.Told → SourceLeft D.timeline D.size self result }
    {
        match self {
            SourceEnd::Away => None,
            SourceEnd::Disk(disk) => Some(disk),
            SourceEnd::Open(core) => Some(core.hand_back()),
        }
    }

    /// Formats the disk, and opens the server on it.
    pub(crate) fn make(
        &mut self,
        alloc: Global,
        mech: M,
        files: u32,
        blocks: u32,
    ) -> Mem<Result<(), Unmade>>
        requires disk { IsSourceDisk self.old }
        requires shape { IsShape files blocks }
        ensures made { IfOk result (SourceMakes D.Told D.faults D.size mech (record { files = files; blocks = blocks }) self.old self.new) }
        ensures away { OnErr result (self.new ≡ SourceEnd.Away) }
        ensures unset { IfOk result (λ made. IfOk made (λ _. fuse_in D.fuse (source_disk self.new) ≡ Unset)) }
    {
        let disk = match mem::replace(self, SourceEnd::Away) {
            SourceEnd::Disk(disk) => disk,
            other => {
                drop(other);
                unreachable!()
            }
        };
        let disk = disarmed(disk, files, blocks);
        match open_source(alloc, disk, mech, files, blocks)? {
            Ok(core) => {
                drop(mem::replace(self, SourceEnd::Open(core)));
                Ok(Ok(()))
            }
            Err((disk, cause)) => {
                drop(mem::replace(self, SourceEnd::Disk(disk)));
                Ok(Err(cause))
            }
        }
    }
}

fn open_source<D: Disk + Drop, M: Mechanism>(
    alloc: Global,
    disk: D,
    mech: M,
    files: u32,
    blocks: u32,
) -> Mem<Result<SourceCore<D, M>, (D, Unmade)>>
    requires shape { IsShape files blocks }
    ensures made { IfOk result (λ answer. MatchResult answer
        (λ core. IsSourceMade D.Told D.faults D.size mech (record { files = files; blocks = blocks }) disk core)
        (λ fault. IsUnmade D.Told D.faults D.size (record { files = files; blocks = blocks }) disk fault.0 fault.1)) }
    ensures unset { D.fuse disk ≡ Unset → IfOk result (λ answer. IfOk answer (λ core. D.fuse core.server.files.volume.disk ≡ Unset)) }
{
    let peers = source_peers(alloc)?;
    let own = source_place(alloc)?;
    let disk = match Volume::format(disk, files, blocks, SOURCE_TAG)? {
        Ok(disk) => disk,
        Err((disk, fault)) => return Ok(Err((disk, unformatted(fault)))),
    };
    match SourceCore::open(alloc, disk, mech, peers, own)? {
        Ok(core) => {
            if core.volume().files() == files {
                Ok(Ok(core))
            } else {
                Ok(Err((core.hand_back(), OTHER_FILES)))
            }
        }
        Err((disk, fault)) => Ok(Err((disk, unopened(fault)))),
    }
}

impl<D: CrashDisk + Drop, M: Mechanism> DestEnd<D, M> {
    pub(crate) fn new(disk: Option<D>) -> DestEnd<D, M>
        ensures { result ≡ dest_with disk }
    {
        match disk {
            None => DestEnd::Away,
            Some(disk) => DestEnd::Disk(disk),
        }
    }

    /// The disk, which is the end of the server.
    pub(crate) fn hand_back(self) -> Option<D>
        ensures disk { result ≡ dest_disk self }
        ensures left { D.Told → DestLeft D.timeline D.size self result }
    {
        match self {
            DestEnd::Away => None,
            DestEnd::Disk(disk) => Some(disk),
            DestEnd::Open(core) => Some(core.hand_back()),
        }
    }

    /// Formats the disk, and opens the server on it.
    pub(crate) fn make(
        &mut self,
        alloc: Global,
        mech: M,
        files: u32,
        blocks: u32,
    ) -> Mem<Result<(), Unmade>>
        requires disk { IsDestDisk self.old }
        requires shape { IsShape files blocks }
        ensures made { IfOk result (DestMakes D.Told D.faults D.size mech (record { files = files; blocks = blocks }) self.old self.new) }
        ensures away { OnErr result (self.new ≡ DestEnd.Away) }
        ensures unset { IfOk result (λ made. IfOk made (λ _. fuse_in D.fuse (dest_disk self.new) ≡ Unset)) }
    {
        let disk = match mem::replace(self, DestEnd::Away) {
            DestEnd::Disk(disk) => disk,
            other => {
                drop(other);
                unreachable!()
            }
        };
        let disk = disarmed(disk, files, blocks);
        match open_dest(alloc, disk, mech, files, blocks)? {
            Ok(core) => {
                drop(mem::replace(self, DestEnd::Open(core)));
                Ok(Ok(()))
            }
            Err((disk, cause)) => {
                drop(mem::replace(self, DestEnd::Disk(disk)));
                Ok(Err(cause))
            }
        }
    }
}

fn open_dest<D: Disk + Drop, M: Mechanism>(
    alloc: Global,
    disk: D,
    mech: M,
    files: u32,
    blocks: u32,
) -> Mem<Result<DestCore<D, M>, (D, Unmade)>>
    requires shape { IsShape files blocks }
    ensures made { IfOk result (λ answer. MatchResult answer
        (λ core. IsDestMade D.Told D.faults D.size mech (record { files = files; blocks = blocks }) disk core)
        (λ fault. IsUnmade D.Told D.faults D.size (record { files = files; blocks = blocks }) disk fault.0 fault.1)) }
    ensures unset { D.fuse disk ≡ Unset → IfOk result (λ answer. IfOk answer (λ core. D.fuse core.server.files.volume.disk ≡ Unset)) }
{
    let source = dest_source(alloc)?;
    let principal = dest_name(alloc)?;
    let own = dest_place(alloc)?;
    let disk = match Volume::format(disk, files, blocks, DEST_TAG)? {
        Ok(disk) => disk,
        Err((disk, fault)) => return Ok(Err((disk, unformatted(fault)))),
    };
    match DestCore::open(alloc, disk, mech, source, principal, own)? {
        Ok(core) => {
            if core.volume().files() == files {
                Ok(Ok(core))
            } else {
                Ok(Err((core.hand_back(), OTHER_FILES)))
            }
        }
        Err((disk, fault)) => Ok(Err((disk, unopened(fault)))),
    }
}

/// A disk that has room for a volume, with no fuse set: it crashes first, as all that it held is written over. One that is too small stays as it is.
fn disarmed<D: CrashDisk>(disk: D, files: u32, blocks: u32) -> D
    requires shape { IsShape files blocks }
    ensures short { D.size disk < blocks_of files blocks → result ≡ disk }
    ensures unset { blocks_of files blocks ≤ D.size disk → D.fuse result ≡ Unset }
    ensures size { D.size result ≡ D.size disk }
    ensures faults { D.faults result ≡ D.faults disk }
{
    let mut disk = disk;
    let need = 4 + 3 * u64::from(files) + 2 * (u64::from(files) * u64::from(blocks));
    if need <= disk.blocks() {
        disk.crash(0);
    }
    disk
}
