//! The client, and what it tells of itself.

ghost use Rattle.std.specs.Prelude.{◌≡◌, ◌<◌, ◌≤◌, length, IfOk, is_some, option_copied};
ghost use Rattle.std.specs.List.{AllByRecursion};
ghost use Rattle.mount.specs.declared.state.TheConstants.{PLACES};
ghost use Rattle.nfs_base.specs.Forms.{net_loc};
ghost use Rattle.nfs_base.specs.declared.limits.TheConstants.{NAME_LIMIT};
ghost use Rattle.write_queue.specs.Queue.{nothing_queued};
ghost use Rattle.client_steps.specs.Setting.{IsFit};
ghost use Rattle.client_core.specs.State as state;
ghost use Rattle.client_core.specs.Telling as telling;

use client_copies::{ClientCopy, CopyTable, MOST_COPIES, Report};
use client_site::Site;
use client_steps::{Queues, Setting};
use gss_ctx::Contexts;
use gss_mech::Mechanism;
use mount::Mount;
use nfs_base::{End, NetLoc, Side};
use outcome::Mem;
use std::alloc::Global;
use std::marker::Model;
use wire_xdr::Octets;
use write_queue::WriteQueue;

/// How many steps a client makes at most.
pub const MOST_STEPS: u32 = 67_108_863;

/// The client of copies between two servers. Contracts see it as a `ClientState`.
#[derive(Drop)]
pub struct Client<M> {
    pub(crate) setting: Setting<M>,

    /// The greatest second that it was given.
    pub(crate) second: u64,

    /// How many calls it sent: each has the next number as its xid.
    pub(crate) calls: u32,

    pub(crate) source: Site,
    pub(crate) dest: Site,
    pub(crate) copies: CopyTable,
    pub(crate) queues: Queues,

    /// The contexts under which the servers call back.
    pub(crate) back: Contexts<u32>,

    pub(crate) steps: u32,
}

impl<M> Model for Client<M> {
    ghost use Rattle.client_core.specs.State.{ClientState, IsKept};

    ghost Value = { ClientState M };

    ghost view = { λ c. record { setting = c.setting; second = c.second; calls = c.calls; source = c.source; dest = c.dest; copies = c.copies; source_queue = c.queues.source; dest_queue = c.queues.dest; back = c.back; steps = c.steps } };

    ghost invariant = { λ c. IsKept c.setting c.back.made c.steps };
}

impl<M: Mechanism> Client<M> {
    /// A client that has called nobody yet: its mechanism, its principal, and where the servers are.
    pub fn new(alloc: Global, mech: M, me: Octets, source: NetLoc, dest: NetLoc) -> Mem<Client<M>>
        requires me { length me ≤ NAME_LIMIT }
        requires source { net_loc.Fits source }
        requires dest { net_loc.Fits dest }
        ensures { IfOk result (λ client. client ≡ state.new_client (record { mech = mech; me = me; source = source; dest = dest })) }
    {
        let copies = CopyTable::new(alloc)?;
        let back = Contexts::new(alloc, End::Client, 0)?;
        Ok(Client {
            setting: Setting {
                mech,
                me,
                source,
                dest,
            },
            second: 0,
            calls: 0,
            source: Site::new(alloc, Side::Source),
            dest: Site::new(alloc, Side::Dest),
            copies,
            queues: no_queues(alloc),
            back,
            steps: 0,
        })
    }
}

impl<M> Client<M> {
    /// How many steps were made: the calls that take the client by `&mut` and found memory, those included whose draw
    /// failed.
    pub fn calls(&self) -> u32
        ensures { result ≡ self.now.steps }
    {
        self.steps
    }

    /// Whether copy `j` was begun.
    pub fn has_begun(&self, j: u8) -> bool
        ensures { result ≡ is_some (telling.copy_of j self.now) }
    {
        self.copy(j).is_some()
    }

    /// What was said of copy `j` last, where it is stable or over.
    pub fn report(&self, j: u8) -> Option<Report>
        ensures { result ≡ telling.report_of (telling.copy_of j self.now) }
    {
        self.copy(j)?.report()
    }

    fn copy(&self, j: u8) -> Option<&ClientCopy>
        ensures { option_copied result ≡ telling.copy_of j self.now }
    {
        if (j as u32) < MOST_COPIES {
            self.copies.copy(j as u32)
        } else {
            None
        }
    }

    /// Its mechanism and its principal, and where the servers are found.
    pub fn setting(&self) -> &Setting<M>
        ensures is { result.now ≡ self.now.setting }
        ensures fit { IsFit result.now }
    {
        &self.setting
    }

    /// Its writes and commits at both servers.
    pub fn queues(&self) -> &Queues
        ensures source { result.now.source ≡ self.now.source_queue }
        ensures dest { result.now.dest ≡ self.now.dest_queue }
    {
        &self.queues
    }

    /// Whether a server is set up: there is a session with it.
    pub fn is_up(&self, at: Side) -> bool
        ensures { result ≡ telling.is_up at self.now }
    {
        match at {
            Side::Source => self.source.up().is_some(),
            Side::Dest => self.dest.up().is_some(),
        }
    }

    /// Whether an answer of a server is awaited.
    pub fn awaits(&self, of: Side) -> bool
        ensures { result ≡ telling.awaits of self.now }
    {
        let places = &[0, 1, 2, 3, 4, 5, 6, 7, 8, 9, 10, 11, 12, 13, 14, 15];
        match of {
            Side::Source => awaits_at(&self.source.mount, places),
            Side::Dest => awaits_at(&self.dest.mount, places),
        }
    }
}

fn no_queues(alloc: Global) -> Queues
    ensures source { result.source ≡ nothing_queued }
    ensures dest { result.dest ≡ nothing_queued }
{
    Queues {
        source: WriteQueue::new(alloc),
        dest: WriteQueue::new(alloc),
    }
}

fn awaits_at(mount: &Mount, places: &[u32]) -> bool
    requires { AllByRecursion (λ place. place < PLACES) places.now }
    ensures { result ≡ telling.some_awaits places.now mount.now }
{
    match places {
        [] => false,
        [place, more @ ..] => mount.awaits(*place) || awaits_at(mount, more),
    }
}
