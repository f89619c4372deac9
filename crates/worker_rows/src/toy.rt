//! A machine that asks for records, and lands what comes.

ghost use Rattle.std.specs.Prelude.{◌≡◌, ◌+◌, ◌<◌, ◌≤◌, [], All, IfOk, OnOk, OnErr};
ghost use Rattle.copy_workers.specs.Desk.{IsSmall};
ghost use Rattle.outbox.specs.Counting.{records_to};

use core_desk::{Core, MOST_CALLS};
use nfs_base::JobName;
use outbox::{CallLabel, Label, Note, Outbox, Outgoing, To};
use outcome::Mem;
use std::alloc::Global;
use std::marker::Model;
use streams::{Clock, CountDraws};
use wire_xdr::Octets;

/// No more than this lands at once.
const CHUNK: usize = 65_536;

/// A clock that stands still.
#[derive(Drop)]
pub struct StillClock;

impl Clock for StillClock {
    fn now(&mut self) -> u64 {
        0
    }
}

/// A machine that has so many records left to ask for.
#[derive(Drop)]
pub struct Toy {
    left: u32,
    landed: u64,
    steps: u32,
}

impl Model for Toy {
    ghost use Rattle.std.specs.Prelude.{◌*◌, ◌≤◌};
    ghost use Rattle.worker_rows.specs.Toy.{ToyState};

    ghost Value = { ToyState };

    ghost view = { λ t. record { left = t.left; landed = t.landed; steps = t.steps } };

    ghost invariant = { λ t. t.landed ≤ 65536 * t.steps };
}

impl Toy {
    pub fn new(left: u32) -> Toy
        ensures { result.landed ≡ 0 }
    {
        Toy {
            left,
            landed: 0,
            steps: 0,
        }
    }
}

/// A record that asks the source for one.
fn ask(alloc: Global, worker: u8) -> Mem<Outbox>
    ensures one { IfOk result (λ out. records_to worker out.sent ≤ 1) }
    ensures small { IfOk result (λ out. All IsSmall out.sent) }
    ensures notes { IfOk result (λ out. out.notes ≡ []) }
{
    let mut out = Outbox::new(alloc)?;
    out.sent.push(Outgoing {
        to: To::Source(worker),
        bytes: Octets::from_slice(alloc, b"call 1")?,
        seal: None,
        label: Label::Call(CallLabel::Null),
    })?;
    Ok(out)
}

impl Toy {
    /// A step that does nothing.
    fn rest(&mut self, alloc: Global) -> Mem<Outbox>
        requires { self.old.steps < MOST_CALLS }
        ensures sent { IfOk result (λ out. out.sent ≡ []) }
        ensures notes { IfOk result (λ out. out.notes ≡ []) }
        ensures landed { self.new.landed ≡ self.old.landed }
        ensures counted { OnOk result (self.new.steps ≡ self.old.steps + 1) }
        ensures err { OnErr result (self.new ≡ self.old) }
    {
        let out = Outbox::new(alloc)?;
        self.steps += 1;
        Ok(out)
    }
}

impl Core<CountDraws> for Toy {
    ghost landed = { λ t. t.landed };

    ghost steps = { λ t. t.steps };

    ghost takes_record = { λ _ _ _ _ _ _ _ _. Unit {0} };

    ghost ticks = { λ _ _ _ _. Unit {0} };

    ghost works = { λ _ _ _ _ _ _ _. Unit {0} };

    ghost takes_reply = { λ _ _ _ _ _ _. Unit {0} };

    ghost fails_link = { λ _ _ _ _. Unit {0} };

    fn calls(&self) -> u32 {
        self.steps
    }

    fn landed(&self) -> u64 {
        self.landed
    }

    fn on_record(
        &mut self,
        alloc: Global,
        _conn: u32,
        _record: &[u8],
        _now: u64,
        _draws: &mut CountDraws,
    ) -> Mem<Outbox> {
        self.rest(alloc)
    }

    fn tick(&mut self, alloc: Global, _now: u64) -> Mem<Outbox> {
        self.rest(alloc)
    }

    fn work(
        &mut self,
        alloc: Global,
        worker: u8,
        _now: u64,
        _draws: &mut CountDraws,
    ) -> Mem<Outbox> {
        if self.left == 0 {
            return self.rest(alloc);
        }
        let out = ask(alloc, worker)?;
        self.left -= 1;
        self.steps += 1;
        Ok(out)
    }

    fn on_source_reply(
        &mut self,
        alloc: Global,
        _worker: u8,
        record_: &[u8],
        _now: u64,
    ) -> Mem<Outbox> {
        if record_.len() > CHUNK {
            return self.rest(alloc);
        }
        let mut out = Outbox::new(alloc)?;
        out.notes.push(Note::Landed {
            job: JobName { boot: 1, number: 1 },
            off: 0,
            len: record_.len() as u32,
        });
        self.landed += record_.len() as u64;
        self.steps += 1;
        Ok(out)
    }

    fn link_failed(&mut self, alloc: Global, _worker: u8) -> Mem<Outbox> {
        self.rest(alloc)
    }
}
