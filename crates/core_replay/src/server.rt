//! The servers of cases.

ghost use Rattle.block_file.specs.Opened.{CanBeOpened};
ghost use Rattle.disk_model.specs.Disk.{Image, MayLeave};
ghost use Rattle.disk_model.specs.Elapsed.{present};

use crate::dest::{open_dest, worker_step};
use crate::draws::CaseDraws;
use crate::event::Event;
use crate::player::Core;
use crate::source::open_source;
use crate::volume::{formatted, has_file, info};
use block_file::FileInfo;
use dest_core::DestCore;
use disk_model::Disk;
use gss_mech::Mechanism;
use outbox::Outbox;
use outcome::Mem;
use session_server::MOST_STEPS;
use source_core::SourceCore;
use std::alloc::Global;
use wire_lines::Speaker;

/// The core of a server.
#[derive(Drop)]
pub enum Server<D: Disk, M> {
    Source(SourceCore<D, M>),
    Dest(DestCore<D, M>),
}

/// The server of a case, over a disk that is formatted for it. None where there is no such volume, or no such server.
pub fn new_server<D: Disk + Drop, M: Mechanism + Drop>(
    alloc: Global,
    core: Core,
    disk: D,
    mech: M,
    words: &[&str],
) -> Mem<Option<Server<D, M>>> {
    match formatted(disk, words)? {
        Some(disk) => open(alloc, core, disk, mech),
        None => Ok(None),
    }
}

/// Opens the server of a case.
fn open<D: Disk + Drop, M: Mechanism + Drop>(
    alloc: Global,
    core: Core,
    disk: D,
    mech: M,
) -> Mem<Option<Server<D, M>>>
    requires { D.Told → (image : Image) → MayLeave (present (D.timeline disk)) image → CanBeOpened (D.size disk) image }
{
    match core {
        Core::Source => Ok(open_source(alloc, disk, mech)?.map(|core| Server::Source(core))),
        Core::Dest => Ok(open_dest(alloc, disk, mech)?.map(|core| Server::Dest(core))),
        Core::Client => Ok(None),
    }
}

impl<D: Disk + Drop, M: Mechanism> Server<D, M> {
    /// Who tells the notes of an event: of an answer the worker to which it came.
    pub fn speaker(&self, event: &Event) -> Speaker {
        match (self, event) {
            (_, Event::Reply { .. }) => Speaker::Worker,
            (Server::Source(_), _) => Speaker::Source,
            (Server::Dest(_), _) => Speaker::Dest,
        }
    }

    /// Makes the step of an event. None where the server has no step left, or makes none of such an event.
    pub fn step(
        &mut self,
        alloc: Global,
        event: &Event,
        draws: &mut CaseDraws,
    ) -> Mem<Option<Outbox>> {
        match self {
            Server::Source(core) if core.calls() < MOST_STEPS => match event {
                Event::Record { conn, bytes, now } => core
                    .on_record(alloc, *conn, bytes.as_slice(), *now, draws)
                    .map(Some),
                Event::Tick { now } => core.tick(alloc, *now).map(Some),
                _ => Ok(None),
            },
            Server::Dest(core) if core.calls() < MOST_STEPS => match event {
                Event::Record { conn, bytes, now } => core
                    .on_record(alloc, *conn, bytes.as_slice(), *now, draws)
                    .map(Some),
                Event::Tick { now } => core.tick(alloc, *now).map(Some),
                _ => worker_step(core, alloc, event, draws),
            },
            _ => Ok(None),
        }
    }

    /// What is told of a file, where it is there.
    pub fn info(&self, file: u32) -> Option<FileInfo> {
        match self {
            Server::Source(core) => info(core.volume(), file),
            Server::Dest(core) => info(core.volume(), file),
        }
    }

    /// 32 bytes of a file, where they can be read.
    pub fn bytes(&mut self, file: u32, off: u64) -> Option<[u8; 32]> {
        let mut room = [0u8; 32];
        let read = match self {
            Server::Source(core) if has_file(core.volume(), file) => {
                core.peek(file, off, &mut room)
            }
            Server::Dest(core) if has_file(core.volume(), file) => core.peek(file, off, &mut room),
            _ => return None,
        };
        match read {
            Ok(()) => Some(room),
            Err(_) => None,
        }
    }
}
