//! The queue.

ghost use Rattle.std.specs.Prelude.{◌≡◌, IfOk, OnOk, OnErr, drop, length};
ghost use Rattle.write_queue.specs.Plan.{planned};
ghost use Rattle.write_queue.specs.Queue as queue;
ghost use Rattle.write_queue.specs.Queue.{Queued};
ghost use Rattle.write_queue.specs.declared.work.Work.{Work};

use crate::plan::QueuePlan;
use crate::seen::Seen;
use crate::work::Work;
use outcome::Mem;
use std::alloc::Global;
use std::collections::VecDeque;
use std::marker::Model;

/// How far the first work is.
#[derive(Clone, Copy)]
pub enum Head {
    /// It is to go out, or nothing is queued.
    Due,

    /// The OPEN of its file awaits its answer.
    Opening,

    /// It awaits its answer.
    Asked,
}

/// The writes and commits of a client at one server. Contracts see the works, how far the first is, and the writes that
/// were answered. What happens to them is planned first ([`WriteQueue::plan`]), and then put in place, which takes no memory.
#[derive(Drop)]
pub struct WriteQueue {
    pub(crate) works: VecDeque<Work>,
    pub(crate) head: Head,
    pub(crate) seen: Vec<Seen>,
}

impl Model for WriteQueue {
    ghost use Rattle.write_queue.specs.Queue.{Queued};

    ghost Value = { Queued };

    ghost view = { λ q. record { works = q.works.items; head = q.head; seen = q.seen.items } };
}

impl WriteQueue {
    /// Nothing is queued.
    pub fn new(alloc: Global) -> WriteQueue
        ensures { result ≡ queue.nothing_queued }
    {
        WriteQueue {
            works: VecDeque::new(alloc),
            head: Head::Due,
            seen: Vec::new(alloc),
        }
    }

    /// Queues a work behind the others. Without memory nothing changes.
    pub fn push(&mut self, work: Work) -> Mem<()>
        ensures ok { OnOk result (self.new ≡ queue.queued work self.old) }
        ensures err { OnErr result (self.new ≡ self.old) }
    {
        self.works.push_back(work)?;
        Ok(())
    }

    /// Takes out the work that was queued last.
    pub fn unpush(&mut self)
        ensures { (work : Work) (before : Queued) → self.old ≡ queue.queued work before → self.new ≡ before }
    {
        self.works.pop_back();
    }

    /// How many works aren't answered.
    pub fn len(&self) -> usize
        ensures { result ≡ length self.now.works }
    {
        self.works.len()
    }

    /// A plan by which nothing changes.
    pub fn plan(&self, alloc: Global) -> Mem<QueuePlan>
        ensures { IfOk result (λ plan. planned plan self.now ≡ self.now) }
    {
        Ok(QueuePlan {
            gone: 0,
            head: self.head,
            seen: Vec::from_slice(alloc, self.seen.as_slice())?,
        })
    }

    /// The queue becomes what was planned for it. It takes no memory.
    pub fn put(&mut self, plan: QueuePlan)
        ensures { self.new ≡ planned plan self.old }
    {
        let QueuePlan { gone, head, seen } = plan;
        drop_first(&mut self.works, gone);
        self.head = head;
        self.seen = seen;
    }
}

fn drop_first(works: &mut VecDeque<Work>, count: usize)
    ensures { works.new.items ≡ drop count works.old.items }
{
    for place in 0..count {
        let _gone = place;
        works.pop_front();
    }
}
