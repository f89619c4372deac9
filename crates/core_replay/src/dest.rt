//! The destination of a case, and what its workers do.

ghost use Rattle.std.specs.Prelude.{◌<◌, ◌≤◌, IsTrue};
ghost use Rattle.block_file.specs.Opened.{CanBeOpened};
ghost use Rattle.dest_tasks.specs.declared.workers.TheConstants.{WORKERS};
ghost use Rattle.disk_model.specs.Disk.{Image, MayLeave};
ghost use Rattle.disk_model.specs.Elapsed.{present};
ghost use Rattle.session_server.specs.declared.host.TheConstants.{MOST_STEPS};

use crate::draws::CaseDraws;
use crate::event::Event;
use crate::setting::{dest_name, dest_place, dest_source};
use copy_privs::Peer;
use dest_core::DestCore;
use dest_tasks::WORKERS;
use disk_model::Disk;
use gss_mech::Mechanism;
use nfs_base::NetLoc;
use outbox::Outbox;
use outcome::Mem;
use std::alloc::Global;

/// Makes the step of a worker's event. None where it is no worker's, or there is no such worker.
pub fn worker_step<D: Disk + Drop, M: Mechanism>(
    core: &mut DestCore<D, M>,
    alloc: Global,
    event: &Event,
    draws: &mut CaseDraws,
) -> Mem<Option<Outbox>>
    requires { core.old.steps < MOST_STEPS }
{
    match event {
        Event::Work { worker, now } if is_worker(*worker) => {
            core.work(alloc, *worker, *now, draws).map(Some)
        }
        Event::Reply { worker, bytes, now } if is_worker(*worker) => core
            .on_source_reply(alloc, *worker, bytes.as_slice(), *now)
            .map(Some),
        Event::Failed { worker } if is_worker(*worker) => {
            core.link_failed(alloc, *worker).map(Some)
        }
        _ => Ok(None),
    }
}

/// Whether a worker has this number.
fn is_worker(worker: u8) -> bool
    ensures first { IsTrue result → 1 ≤ worker }
    ensures last { IsTrue result → worker ≤ WORKERS }
{
    1 <= worker && u32::from(worker) <= WORKERS
}

/// Opens the destination of a case.
pub fn open_dest<D: Disk + Drop, M: Mechanism + Drop>(
    alloc: Global,
    disk: D,
    mech: M,
) -> Mem<Option<DestCore<D, M>>>
    requires { D.Told → (image : Image) → MayLeave (present (D.timeline disk)) image → CanBeOpened (D.size disk) image }
{
    let (source, own) = (dest_source(alloc)?, dest_place(alloc)?);
    open_at(alloc, disk, mech, source, own)
}

/// Opens the destination of a case, which copies from this source and is found here.
fn open_at<D: Disk + Drop, M: Mechanism + Drop>(
    alloc: Global,
    disk: D,
    mech: M,
    source: Peer,
    own: NetLoc,
) -> Mem<Option<DestCore<D, M>>>
    requires { D.Told → (image : Image) → MayLeave (present (D.timeline disk)) image → CanBeOpened (D.size disk) image }
{
    let name = dest_name(alloc)?;
    Ok(DestCore::open(alloc, disk, mech, source, name, own)?.ok())
}
