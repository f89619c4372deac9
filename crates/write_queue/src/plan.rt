//! What is to become of a queue.

ghost use Rattle.std.specs.Prelude.{◌≡◌, ◌<◌, ◌≤◌, ◌+◌, ◌++◌, None, Some, IfOk, drop, length, map, option_copied};
ghost use Rattle.write_queue.specs.Plan.{planned};
ghost use Rattle.write_queue.specs.Queue as spec;
ghost use Rattle.write_queue.specs.Queue.{Queued};
ghost use Rattle.write_queue.specs.Steps as table;

use crate::queue::{Head, WriteQueue};
use crate::seen::{Seen, clear, is_same, note};
use crate::work::{Line, QueueEvent, Work};
use nfs_base::Status;
use outcome::Mem;
use std::alloc::Global;
use std::marker::Model;
use wire_xdr::Items;

/// What is to become of a queue, which stays as it is until [`WriteQueue::put`]: how many of its first works are answered,
/// how far the next one is, and the writes that were answered. Contracts see by `planned` what the queue is to be.
#[derive(Drop)]
pub struct QueuePlan {
    pub(crate) gone: usize,
    pub(crate) head: Head,
    pub(crate) seen: Vec<Seen>,
}

impl Model for QueuePlan {
    ghost use Rattle.write_queue.specs.Plan.{Plan};

    ghost Value = { Plan };

    ghost view = { λ p. record { gone = p.gone; head = p.head; seen = p.seen.items } };
}

impl QueuePlan {
    /// The first work.
    pub fn first<'a>(&self, queue: &'a WriteQueue) -> Option<&'a Work>
        ensures { option_copied result ≡ spec.first (planned self.now queue.now).works }
    {
        if self.gone < queue.works.len() {
            Some(&queue.works[self.gone])
        } else {
            None
        }
    }

    /// The work that is due: the first one, where nothing of it is awaited.
    pub fn due<'a>(&self, queue: &'a WriteQueue) -> Option<&'a Work>
        ensures { option_copied result ≡ spec.due (planned self.now queue.now) }
    {
        match self.head {
            Head::Due => self.first(queue),
            Head::Opening | Head::Asked => None,
        }
    }

    /// How far the first work is.
    pub fn head(&self) -> Head
        ensures { result ≡ self.now.head }
    {
        self.head
    }

    /// What happens to the first work: what is told of it, and what the queue is to be then. Where an event doesn't fit,
    /// nothing is told and it stays as it was.
    #[tactic(auto, unfolding(crate::specs::Steps::after))]
    pub fn on(&mut self, queue: &WriteQueue, event: QueueEvent) -> Mem<Option<Line>>
        ensures told { IfOk result (λ told. told ≡ (table.after event (planned self.old queue.now)).0) }
        ensures after { IfOk result (λ told. planned self.new queue.now ≡ (table.after event (planned self.old queue.now)).1) }
    {
        match event {
            QueueEvent::OpenSent => Ok(self.go_out(queue, Head::Opening)),
            QueueEvent::Opened => Ok(self.on_opened()),
            QueueEvent::Sent => Ok(self.go_out(queue, Head::Asked)),
            QueueEvent::Written { count, verifier } => self.on_written(queue, count, verifier),
            QueueEvent::Committed { verifier } => Ok(self.on_committed(queue, &verifier)),
            QueueEvent::Refused(status) => Ok(self.on_refused(queue, status)),
        }
    }

    fn go_out(&mut self, queue: &WriteQueue, to: Head) -> Option<Line>
        ensures told { result ≡ (table.goes_out to self.old.head (spec.first (planned self.old queue.now).works) (planned self.old queue.now)).0 }
        ensures after { planned self.new queue.now ≡ (table.goes_out to self.old.head (spec.first (planned self.old queue.now).works) (planned self.old queue.now)).1 }
    {
        if self.due(queue).is_some() {
            self.head = to;
        }
        None
    }

    fn on_opened(&mut self) -> Option<Line>
        ensures told { (q : Queued) → result ≡ (table.on_opened self.old.head (planned self.old q)).0 }
        ensures after { (q : Queued) → planned self.new q ≡ (table.on_opened self.old.head (planned self.old q)).1 }
    {
        if let Head::Opening = self.head {
            self.head = Head::Due;
        }
        None
    }

    fn on_written(&mut self, queue: &WriteQueue, count: u32, verifier: [u8; 8]) -> Mem<Option<Line>>
        ensures told { IfOk result (λ told. told ≡ (table.on_written count verifier (table.asked self.old.head (spec.first (planned self.old queue.now).works)) (planned self.old queue.now)).0) }
        ensures after { IfOk result (λ told. planned self.new queue.now ≡ (table.on_written count verifier (table.asked self.old.head (spec.first (planned self.old queue.now).works)) (planned self.old queue.now)).1) }
    {
        let Head::Asked = self.head else {
            return Ok(None);
        };
        let Some(Work::Write { file, .. }) = self.first(queue) else {
            return Ok(None);
        };
        let file = *file;
        note(&mut self.seen, Seen { file, verifier })?;
        self.pass(queue);
        Ok(Some(Line::Written { file, count }))
    }

    fn on_committed(&mut self, queue: &WriteQueue, verifier: &[u8; 8]) -> Option<Line>
        ensures told { result ≡ (table.on_committed verifier.now (table.asked self.old.head (spec.first (planned self.old queue.now).works)) (planned self.old queue.now)).0 }
        ensures after { planned self.new queue.now ≡ (table.on_committed verifier.now (table.asked self.old.head (spec.first (planned self.old queue.now).works)) (planned self.old queue.now)).1 }
    {
        let Head::Asked = self.head else {
            return None;
        };
        let Some(Work::Commit { file }) = self.first(queue) else {
            return None;
        };
        let file = *file;
        let same = is_same(self.seen.as_slice(), file, verifier);
        clear(&mut self.seen, file);
        self.pass(queue);
        Some(Line::Committed { file, same })
    }

    fn on_refused(&mut self, queue: &WriteQueue, status: Status) -> Option<Line>
        ensures told { result ≡ (table.on_refused status (table.awaited self.old.head (spec.first (planned self.old queue.now).works)) (planned self.old queue.now)).0 }
        ensures after { planned self.new queue.now ≡ (table.on_refused status (table.awaited self.old.head (spec.first (planned self.old queue.now).works)) (planned self.old queue.now)).1 }
    {
        if let Head::Due = self.head {
            return None;
        }
        let Some(work) = self.first(queue) else {
            return None;
        };
        let file = work.file();
        self.pass(queue);
        Some(Line::Refused { file, status })
    }

    /// The first work was answered.
    fn pass(&mut self, queue: &WriteQueue)
        ensures { planned self.new queue.now ≡ table.answered (planned self.old queue.now) }
    {
        self.gone = next(self.gone, queue);
        self.head = Head::Due;
    }

    /// What is told where the setup goes down with this status: each work is refused, in order.
    pub fn refusals(&self, alloc: Global, queue: &WriteQueue, status: Status) -> Mem<Items<Line>>
        ensures { IfOk result (λ told. told ≡ spec.refusals status (planned self.now queue.now)) }
    {
        let mut told = Vec::new(alloc);
        refuse_from(&mut told, queue, self.gone, status)?;
        Ok(Items::from_vec(told))
    }

    /// Nothing is to be queued any more. What was answered before is still noted.
    pub fn clear(&mut self, queue: &WriteQueue)
        ensures { planned self.new queue.now ≡ spec.emptied (planned self.old queue.now) }
    {
        self.gone = queue.works.len();
        self.head = Head::Due;
    }
}

/// The place behind this one, which is the end where there is none.
#[tactic(auto, using(crate::proofs::Planning::drop_one_more, crate::proofs::Planning::drop_none_more))]
fn next(gone: usize, queue: &WriteQueue) -> usize
    ensures { drop result queue.now.works ≡ drop 1 (drop gone queue.now.works) }
{
    if gone < queue.works.len() {
        gone + 1
    } else {
        gone
    }
}

/// The works from a place on are refused.
fn refuse_from(told: &mut Vec<Line>, queue: &WriteQueue, from: usize, status: Status) -> Mem<()>
    ensures { IfOk result (λ _. told.new.items ≡ told.old.items ++ map (spec.refused status) (drop from queue.now.works)) }
{
    for i in from..queue.works.len() {
        told.push(refused(&queue.works[i], status))?;
    }
    Ok(())
}

fn refused(work: &Work, status: Status) -> Line
    ensures { result ≡ spec.refused status work.now }
{
    Line::Refused {
        file: work.file(),
        status,
    }
}
