//! Each server, opened anew.

ghost use Rattle.std.specs.Prelude.{◌≡◌, length, IfOk, MatchResult};
ghost use Rattle.dest_core.specs.Core as new_dest;
ghost use Rattle.run_ends.specs.Stops.Reopening.{IsReopened, IsUnopened, MayReopen};
ghost use Rattle.source_core.specs.Core as new_source;
ghost use Rattle.source_core.specs.Location.{IsShort};
ghost use Rattle.volume_stops.specs.Stops.{kept_by};

use block_file::{OpenFault, Volume};
use copy_privs::Peer;
use dest_core::DestCore;
use disk_model::{CrashDisk, Disk};
use gss_mech::Mechanism;
use nfs_base::NetLoc;
use outcome::Mem;
use source_core::SourceCore;
use std::alloc::Global;
use volume_stops::{Kept, Pending};
use wire_xdr::{Items, Octets};

/// The disk of a source crashes under a pick, and the source is opened anew on it, with its mechanism. A disk that refuses that
/// comes back; where memory is refused, it is let go.
pub fn reopen_source<D: CrashDisk + Drop, M: Mechanism>(
    alloc: Global,
    core: SourceCore<D, M>,
    pick: u8,
    peers: Items<Peer>,
    own: NetLoc,
) -> Mem<Result<SourceCore<D, M>, (D, OpenFault)>>
    requires may { MayReopen D.Told D.size D.fuse D.timeline core.server.files.volume.disk }
    requires short { IsShort own }
    ensures reopened { IfOk result (λ answer. MatchResult answer
        (λ next. IsReopened D.Told D.size D.fuse D.timeline D.faults core.server.files.volume.disk next.server.files.volume)
        (λ fault. IsUnopened D.Told D.size D.fuse D.timeline D.faults core.server.files.volume.disk fault.0 fault.1)) }
    ensures new { IfOk result (λ answer. IfOk answer (new_source.IsNew core.server.files.extra.mech peers own)) }
{
    let (mut disk, mech) = core.close();
    disk.crash(pick);
    match SourceCore::open(alloc, disk, mech, peers, own)? {
        Ok(next) => {
            let _boot = next.boot();
            Ok(Ok(next))
        }
        Err(fault) => Ok(Err(fault)),
    }
}

/// The same of a destination.
pub fn reopen_dest<D: CrashDisk + Drop, M: Mechanism>(
    alloc: Global,
    core: DestCore<D, M>,
    pick: u8,
    source: Peer,
    principal: Octets,
    own: NetLoc,
) -> Mem<Result<DestCore<D, M>, (D, OpenFault)>>
    requires { MayReopen D.Told D.size D.fuse D.timeline core.server.files.volume.disk }
    ensures reopened { IfOk result (λ answer. MatchResult answer
        (λ next. IsReopened D.Told D.size D.fuse D.timeline D.faults core.server.files.volume.disk next.server.files.volume)
        (λ fault. IsUnopened D.Told D.size D.fuse D.timeline D.faults core.server.files.volume.disk fault.0 fault.1)) }
    ensures new { IfOk result (λ answer. IfOk answer (new_dest.IsNew core.server.files.extra.mech source principal own)) }
{
    let (mut disk, mech) = core.close();
    disk.crash(pick);
    match DestCore::open(alloc, disk, mech, source, principal, own)? {
        Ok(next) => {
            let _boot = next.boot();
            Ok(Ok(next))
        }
        Err(fault) => Ok(Err(fault)),
    }
}

/// What a crash kept of a commit that it may have found unfinished, by the home in force of its file's table.
pub fn kept_by<D: Disk>(volume: &Volume<D>, pending: Option<Pending>) -> Kept
    ensures { result ≡ kept_by (length volume.now.volume.files) volume.now.homes pending }
{
    match pending {
        None => Kept::Nothing,
        Some(commit) => {
            if 1 <= commit.file && commit.file <= volume.files() {
                commit.kept(volume.home(commit.file))
            } else {
                Kept::Nothing
            }
        }
    }
}
