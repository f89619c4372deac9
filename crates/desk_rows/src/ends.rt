//! The source and the client, each with what it draws.

use client_copies::Report;
use client_core::Client;
use client_leaving::Leaving;
use disk_model::MemoryDisk;
use gss_mech::Realm;
use nfs_base::{CopySpec, Side};
use outbox::Outbox;
use source_core::SourceCore;
use std::alloc::Global;
use streams::{Clock, CountDraws};
use two_ends::Wrong;

/// A clock that stands still.
#[derive(Drop)]
pub(crate) struct StillClock;

impl Clock for StillClock {
    fn now(&mut self) -> u64 {
        0
    }
}

/// A source and what it draws.
#[derive(Drop)]
pub(crate) struct SourceEnd {
    pub(crate) core: SourceCore<MemoryDisk, Realm>,
    draws: CountDraws,
}

impl SourceEnd {
    pub(crate) fn new(core: SourceCore<MemoryDisk, Realm>) -> SourceEnd {
        SourceEnd {
            core,
            draws: CountDraws::new(),
        }
    }

    /// The source takes a record on a connection.
    pub(crate) fn take(&mut self, alloc: Global, conn: u32, bytes: &[u8]) -> Result<Outbox, Wrong> {
        if self.core.calls() >= session_server::MOST_STEPS {
            return Err(Wrong::Lacks("a step"));
        }
        Ok(self.core.on_record(alloc, conn, bytes, 0, &mut self.draws)?)
    }
}

/// A client and what it draws, which may take leave once its copies are over.
#[derive(Drop)]
pub(crate) struct ClientEnd {
    client: Leaving<Realm>,
    draws: CountDraws,
    leaves: bool,
}

impl ClientEnd {
    pub(crate) fn new(client: Client<Realm>) -> ClientEnd {
        ClientEnd {
            client: Leaving::new(client),
            draws: CountDraws::new(),
            leaves: false,
        }
    }

    /// The client begins copy `j`.
    pub(crate) fn begin(&mut self, alloc: Global, j: u8, spec: CopySpec) -> Result<Outbox, Wrong> {
        let client = &mut self.client.client;
        if client.calls() >= client_core::MOST_STEPS {
            return Err(Wrong::Lacks("a step"));
        }
        if j < 1 || j > 15 || client.has_begun(j) {
            return Err(Wrong::Lacks("a new copy"));
        }
        Ok(client.begin_copy(alloc, j, spec, 0, &mut self.draws)?)
    }

    /// The client takes a record of a server.
    pub(crate) fn take(
        &mut self,
        alloc: Global,
        from: Side,
        bytes: &[u8],
    ) -> Result<Outbox, Wrong> {
        if self.client.client.calls() >= client_core::MOST_STEPS {
            return Err(Wrong::Lacks("a step"));
        }
        let draws = &mut self.draws;
        if self.leaves {
            return Ok(self.client.on_record(alloc, from, bytes, 0, draws)?);
        }
        Ok(self.client.client.on_record(alloc, from, bytes, 0, draws)?)
    }

    /// The client begins to take leave of both servers.
    pub(crate) fn leave(&mut self, alloc: Global) -> Result<Outbox, Wrong> {
        if self.client.client.calls() >= client_core::MOST_STEPS {
            return Err(Wrong::Lacks("a step"));
        }
        self.leaves = true;
        Ok(self.client.farewell(alloc, 0)?)
    }

    /// Whether no answer is awaited, and no server is set up.
    pub(crate) fn has_left(&self) -> bool {
        let client = &self.client.client;
        !client.awaits(Side::Source)
            && !client.awaits(Side::Dest)
            && !client.is_up(Side::Source)
            && !client.is_up(Side::Dest)
    }

    /// What was said of copy `j` last.
    pub(crate) fn report(&self, j: u8) -> Option<Report> {
        self.client.client.report(j)
    }

    /// Whether the first so many copies are over.
    pub(crate) fn is_over(&self, copies: u8) -> bool {
        for j in 1..=copies {
            match self.report(j) {
                None | Some(Report::Stable) => return false,
                Some(_) => {}
            }
        }
        true
    }
}
