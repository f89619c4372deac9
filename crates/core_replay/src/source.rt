//! The source of a case.

ghost use Rattle.block_file.specs.Opened.{CanBeOpened};
ghost use Rattle.disk_model.specs.Disk.{Image, MayLeave};
ghost use Rattle.disk_model.specs.Elapsed.{present};
ghost use Rattle.source_core.specs.Location.{IsShort};

use crate::setting::{source_peers, source_place};
use copy_privs::Peer;
use disk_model::Disk;
use gss_mech::Mechanism;
use nfs_base::NetLoc;
use outcome::Mem;
use source_core::SourceCore;
use std::alloc::Global;
use wire_xdr::Items;

/// Opens the source of a case.
pub fn open_source<D: Disk + Drop, M: Mechanism + Drop>(
    alloc: Global,
    disk: D,
    mech: M,
) -> Mem<Option<SourceCore<D, M>>>
    requires { D.Told → (image : Image) → MayLeave (present (D.timeline disk)) image → CanBeOpened (D.size disk) image }
{
    let (peers, own) = (source_peers(alloc)?, source_place(alloc)?);
    open_at(alloc, disk, mech, peers, own)
}

/// Opens the source of a case, which knows these servers and is found here.
fn open_at<D: Disk + Drop, M: Mechanism + Drop>(
    alloc: Global,
    disk: D,
    mech: M,
    peers: Items<Peer>,
    own: NetLoc,
) -> Mem<Option<SourceCore<D, M>>>
    requires disk { D.Told → (image : Image) → MayLeave (present (D.timeline disk)) image → CanBeOpened (D.size disk) image }
    requires short { IsShort own }
{
    Ok(SourceCore::open(alloc, disk, mech, peers, own)?.ok())
}
