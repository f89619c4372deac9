//! What there is between two small steps.

ghost use Rattle.std.specs.Prelude.{◌≡◌};
ghost use Rattle.wire_run.specs.Watching.{no_stop, stop_at, with_stop};

use crate::ends::{DestEnd, SourceEnd};
use crate::fresh::Unmade;
use client_core::Client;
use disk_model::Disk;
use nfs_base::{End, Side};
use outbox::Outbox;
use streams::CountDraws;
use volume_stops::Pending;
use wire_lines::Speaker;
use wire_log::Log;
use wire_machine::{Choice, Mistake};

/// The two servers and the client, the draws, the clock, all records, and what the disks did in each small step.
#[derive(Drop)]
pub(crate) struct Stage<D: Disk, M> {
    pub(crate) source: SourceEnd<D, M>,
    pub(crate) dest: DestEnd<D, M>,
    pub(crate) client: Client<M>,
    pub(crate) draws: CountDraws,
    pub(crate) clock: u64,
    pub(crate) log: Log,
    pub(crate) choices: Vec<Choice>,

    /// All records up to this one were delivered.
    pub(crate) flowed: u64,

    /// What a stop of each server is told by.
    pub(crate) stops: Stops,
}

/// What a stop of a server is told by.
#[derive(Clone, Copy)]
pub(crate) struct Stop {
    /// The commit that a crash may find unfinished.
    pub(crate) pending: Option<Pending>,

    /// Where a fuse is set at its disk: the pick of the crash.
    pub(crate) armed: Option<u8>,
}

/// The same of both servers.
#[derive(Clone, Copy)]
pub(crate) struct Stops {
    pub(crate) source: Stop,
    pub(crate) dest: Stop,
}

impl Stop {
    /// No commit is unfinished, and no fuse is set.
    pub(crate) fn none() -> Stop
        ensures { result ≡ no_stop }
    {
        Stop {
            pending: None,
            armed: None,
        }
    }
}

impl Stops {
    pub(crate) fn at(&self, side: Side) -> Stop
        ensures { result ≡ stop_at side self.now }
    {
        match side {
            Side::Source => self.source,
            Side::Dest => self.dest,
        }
    }

    pub(crate) fn put(&mut self, side: Side, stop: Stop)
        ensures { self.new ≡ with_stop side stop self.old }
    {
        match side {
            Side::Source => self.source = stop,
            Side::Dest => self.dest = stop,
        }
    }
}

/// Why a run ends with a small step.
#[derive(Clone, Copy)]
pub(crate) enum Fault {
    Mistaken(Mistake),
    TooLarge,
}

/// A server that stopped and couldn't be opened anew: its disk, and why.
#[derive(Drop)]
pub(crate) struct Lost<D> {
    pub(crate) side: Side,
    pub(crate) disk: D,
    pub(crate) cause: Unmade,
}

/// What one end did in a small step.
#[derive(Drop)]
pub(crate) struct Acted {
    pub(crate) end: End,

    /// The number of its opening.
    pub(crate) opening: u32,
    pub(crate) speaker: Speaker,

    /// The record that it took, by its number; 0 is none.
    pub(crate) took: u64,
    pub(crate) out: Outbox,
}

/// What the ends did while the clock moved on, with the numbers of the servers' openings.
#[derive(Drop)]
pub(crate) struct Ticked {
    pub(crate) source: Outbox,
    pub(crate) source_opening: u32,
    pub(crate) dest: Outbox,
    pub(crate) dest_opening: u32,
    pub(crate) client: Outbox,
}
