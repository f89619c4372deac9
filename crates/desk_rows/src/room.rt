//! The three ends, which workers and their links share.

use crate::ends::{ClientEnd, SourceEnd, StillClock};
use crate::plan::Plan;
use crate::ran::{Counts, Seen};
use crate::reads::Reads;
use core_desk::CoreDesk;
use dest_core::DestCore;
use disk_model::MemoryDisk;
use gss_mech::Realm;
use nfs_base::{End, Side};
use outbox::{Outbox, Outgoing, To};
use outcome::Mem;
use std::alloc::Global;
use std::sync::ledger::Ledger;
use std::sync::{Mutex, Wait};
use std::thread::yield_now;
use streams::CountDraws;
use two_ends::Wrong;

/// The desk of a destination over a disk in memory.
pub(crate) type MemoryDesk<L, T, G> = CoreDesk<
    L,
    T,
    G,
    DestCore<MemoryDisk, Realm>,
    StillClock,
    CountDraws,
>;

/// The connection of the client. Those of workers have their numbers.
const CLIENT: u32 = 0;

/// So many records are under way between the client and a server at most, one after the other.
const MOST_RECORDS: u32 = 1_000;

/// How often a link looks whether enough READs were put.
const LOOKS: u32 = 1_000_000;

/// The three ends, each under a lock of its own. No two locks are held at once.
#[derive(Drop)]
pub(crate) struct Room<'a, R: Wait, L: Ledger, T: Ledger, G: Ledger> {
    pub(crate) rt: &'a R,
    pub(crate) alloc: Global,
    pub(crate) plan: Plan,
    pub(crate) source: &'a Mutex<SourceEnd>,
    pub(crate) client: &'a Mutex<ClientEnd>,
    pub(crate) desk: &'a Mutex<MemoryDesk<L, T, G>>,
    pub(crate) reads: &'a Mutex<Reads>,
}

impl<'a, R: Wait, L: Ledger, T: Ledger, G: Ledger> Room<'a, R, L, T, G> {
    /// The client begins its copies, and its calls are answered until nothing is under way.
    pub(crate) fn begin(&self) -> Result<(), Wrong> {
        for j in 1..=self.plan.copies() {
            let out = self.client_begins(j)?;
            let _sent = self.carry(out)?;
        }
        Ok(())
    }

    fn client_begins(&self, j: u8) -> Result<Outbox, Wrong> {
        let spec = self.plan.spec(j);
        self.client.lock(self.rt).begin(self.alloc, j, spec)
    }

    fn client_takes(&self, from: Side, bytes: &[u8]) -> Result<Outbox, Wrong> {
        self.client.lock(self.rt).take(self.alloc, from, bytes)
    }

    fn client_leaves(&self) -> Result<Outbox, Wrong> {
        self.client.lock(self.rt).leave(self.alloc)
    }

    /// The destination answers the client's call.
    fn dest_takes(&self, bytes: &[u8]) -> Mem<Outbox> {
        self.desk.lock(self.rt).on_record(self.alloc, CLIENT, bytes)
    }

    /// The source answers a worker's call.
    pub(crate) fn ask(&self, worker: u32, bytes: &[u8]) -> Result<Outbox, Wrong> {
        self.source.lock(self.rt).take(self.alloc, worker, bytes)
    }

    /// The destination tells the client something. What the client says to it is answered, and the desk closed where all copies
    /// are over.
    pub(crate) fn tell(&self, bytes: &[u8]) -> Result<(), Wrong> {
        let out = self.client_takes(Side::Dest, bytes)?;
        let _sent = self.carry(out)?;
        if self.is_over() {
            self.desk.lock(self.rt).close();
        }
        Ok(())
    }

    fn is_over(&self) -> bool {
        self.client.lock(self.rt).is_over(self.plan.copies())
    }

    fn has_left(&self) -> bool {
        self.client.lock(self.rt).has_left()
    }

    /// The client takes leave of both servers. How many calls that takes; None where an answer is awaited still, or a server
    /// could be called without being set up anew.
    pub(crate) fn leave(&self) -> Result<Option<u32>, Wrong> {
        let out = self.client_leaves()?;
        let calls = self.carry(out)?;
        Ok(if self.has_left() { Some(calls) } else { None })
    }

    /// Carries what the client sends to the servers, and the answers back, until nothing is under way. How many records the client
    /// sent.
    fn carry(&self, out: Outbox) -> Result<u32, Wrong> {
        let mut waiting = out.sent.into_vec();
        for sent in 0..MOST_RECORDS {
            if waiting.is_empty() {
                return Ok(sent);
            }
            let next = waiting.remove(0);
            self.deliver(next.to, next.bytes.as_slice(), &mut waiting)?;
        }
        Err(Wrong::Lacks("an end"))
    }

    /// A server takes what the client sent, and the client the answers. What it sends then waits.
    fn deliver(&self, to: To, bytes: &[u8], waiting: &mut Vec<Outgoing>) -> Result<(), Wrong> {
        match to {
            To::Server(End::Source) => {
                let answers = self.ask(CLIENT, bytes)?;
                self.bring(Side::Source, answers.sent.as_slice(), waiting)
            }
            To::Server(End::Dest) => {
                let answers = self.dest_takes(bytes)?;
                self.bring(Side::Dest, answers.sent.as_slice(), waiting)
            }
            To::Server(End::Client) | To::Conn(_) | To::Source(_) => Err(Wrong::Lacks("a server")),
        }
    }

    /// The client takes a server's answers.
    fn bring(
        &self,
        from: Side,
        answers: &[Outgoing],
        waiting: &mut Vec<Outgoing>,
    ) -> Result<(), Wrong> {
        for answer in answers {
            let out = self.client_takes(from, answer.bytes.as_slice())?;
            wait_for(waiting, out)?;
        }
        Ok(())
    }

    /// A large READ was put.
    pub(crate) fn begin_read(&self) {
        self.reads.lock(self.rt).begin();
    }

    /// The answer to one is given.
    pub(crate) fn end_read(&self) {
        self.reads.lock(self.rt).end();
    }

    /// What is seen of the links and of the client, where the workers came to this and the leave to that.
    pub(crate) fn seen(&self, counts: Counts, leave: Option<u32>) -> Seen {
        let reads = *self.reads.lock(self.rt);
        let client = self.client.lock(self.rt);
        Seen {
            counts,
            leave,
            most: reads.most,
            faults: reads.faults,
            reports: [client.report(1), client.report(2)],
        }
    }

    /// Whether every worker has put a READ, now or soon. Else that is a fault.
    pub(crate) fn has_come(&self) -> bool {
        for _ in 0..LOOKS {
            let put = self.reads.lock(self.rt).put;
            if put >= u64::from(self.plan.workers) {
                return true;
            }
            yield_now();
        }
        self.fault();
        false
    }

    /// An end did what no end does.
    pub(crate) fn fault(&self) {
        self.reads.lock(self.rt).fault();
    }
}

/// What was sent waits, too.
fn wait_for(waiting: &mut Vec<Outgoing>, out: Outbox) -> Mem<()> {
    for outgoing in out.sent.into_vec() {
        waiting.push(outgoing)?;
    }
    Ok(())
}
