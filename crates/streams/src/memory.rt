ghost use Rattle.std.specs.Prelude.{◌≡◌, ◌+◌, ◌≤◌, None, Some, [], min, take, drop, length, ◌++◌};
ghost use Rattle.streams.specs.Source.{TakesWithin, TakesBytes, TakeHasCause};
ghost use Rattle.streams.specs.Sink.{PutsWithin, PutsBytes, PutHasCause};
ghost use Rattle.outcome.specs.Plan.{Plan, planned_faults, after_call};
ghost use Rattle.streams.specs.Memory.{SourceState, SinkState, take_of, PutIs};

use crate::sink::{Put, Sink};
use crate::source::{Source, Take};
use crate::stream::Stream;
use outcome::Planned;
use std::alloc::Global;
use std::marker::Model;

/// A source in memory, which tells its bytes. It fails at planned calls and at no other.
#[derive(Drop)]
pub struct MemSource {
    bytes: Vec<u8>,
    at: usize,
    plan: Planned,
}

impl Model for MemSource {
    ghost use Rattle.std.specs.Prelude.{◌≤◌, drop, length};
    ghost use Rattle.streams.specs.Memory.{SourceState};

    ghost Value = { SourceState };

    ghost view = { λ s. record { left = drop s.at s.bytes.items; whole = s.bytes.items; plan = s.plan } };

    ghost invariant = { λ s. s.at ≤ length s.bytes.items };
}

impl MemSource {
    /// A source of these bytes. `failing` has the numbers of the calls that are to fail, in any
    /// order; the first call is number 1.
    pub fn new(bytes: Vec<u8>, failing: Vec<u64>) -> MemSource
        ensures left { result.left ≡ bytes.items }
        ensures whole { result.whole ≡ bytes.items }
        ensures plan { result.plan ≡ record { calls = 0; failing = failing.items } }
    {
        MemSource {
            bytes,
            at: 0,
            plan: Planned::new(failing),
        }
    }

    /// The bytes that are left.
    pub fn bytes(&self) -> &[u8]
        ensures { result.now ≡ self.now.left }
    {
        &self.bytes.as_slice()[self.at..]
    }

    /// How many calls were made. The count stops at the end of its type.
    pub fn calls(&self) -> u64
        ensures { result ≡ self.now.plan.calls }
    {
        self.plan.calls()
    }
}

impl Stream for MemSource {
    ghost gives = { λ s. record {
      left = Some s.left;
      whole = Some s.whole;
      faults = planned_faults s.plan;
      failing = s.plan.failing;
    } };
}

impl Source for MemSource {
    fn take(&mut self, buf: &mut [u8]) -> Take
        ensures within { TakesWithin result buf.new }
        ensures bytes { TakesBytes (Some self.old.left) (Some self.new.left) result buf.new }
        ensures cause { TakeHasCause (planned_faults self.old.plan) (planned_faults self.new.plan) result }
        ensures failing { self.new.plan.failing ≡ self.old.plan.failing }
        ensures whole { self.new.whole ≡ self.old.whole }
        ensures answer { result ≡ take_of self.old (length buf.old) }
        ensures plan { self.new.plan ≡ after_call self.old.plan }
    {
        if self.plan.fails() {
            return Take::Failed;
        }
        let rest = &self.bytes.as_slice()[self.at..];
        if rest.is_empty() && !buf.is_empty() {
            return Take::End;
        }
        let count = copy_front(buf, rest);
        self.at += count;
        Take::Took(count)
    }
}

// Copies as many bytes as both have to the front of `to`.
fn copy_front(to: &mut [u8], from: &[u8]) -> usize
    ensures count { result ≡ min (length to.old) (length from.now) }
    ensures front { take result to.new ≡ take result from.now }
{
    let count = to.len().min(from.len());
    to[..count].copy_from_slice(&from[..count]);
    count
}

/// A sink in memory, which tells its bytes. It fails at planned calls and where memory is refused.
#[derive(Drop)]
pub struct MemSink {
    bytes: Vec<u8>,
    plan: Planned,
    starved: u64,
}

impl Model for MemSink {
    ghost use Rattle.streams.specs.Memory.{SinkState};

    ghost Value = { SinkState };

    ghost view = { λ s. record { taken = s.bytes.items; plan = s.plan; starved = s.starved } };
}

impl MemSink {
    /// A sink that took nothing yet. `failing` has the numbers of the calls that are to fail, in any
    /// order; the first call is number 1.
    pub fn new(alloc: Global, failing: Vec<u64>) -> MemSink
        ensures taken { result.taken ≡ [] }
        ensures plan { result.plan ≡ record { calls = 0; failing = failing.items } }
        ensures starved { result.starved ≡ 0 }
    {
        MemSink {
            bytes: Vec::new(alloc),
            plan: Planned::new(failing),
            starved: 0,
        }
    }

    /// The bytes that were taken so far.
    pub fn bytes(&self) -> &[u8]
        ensures { result.now ≡ self.now.taken }
    {
        self.bytes.as_slice()
    }

    /// How many calls were made. The count stops at the end of its type.
    pub fn calls(&self) -> u64
        ensures { result ≡ self.now.plan.calls }
    {
        self.plan.calls()
    }

    /// How many calls failed since memory was refused. The count stops at the end of its type.
    pub fn starved(&self) -> u64
        ensures { result ≡ self.now.starved }
    {
        self.starved
    }
}

impl Stream for MemSink {
    ghost takes = { λ s. record {
      taken = Some s.taken;
      pieces = None;
      faults = planned_faults s.plan + s.starved;
      failing = s.plan.failing;
    } };
}

impl Sink for MemSink {
    fn put(&mut self, piece: &[u8]) -> Put
        ensures within { PutsWithin result piece.now }
        ensures bytes { PutsBytes (Some self.old.taken) (Some self.new.taken) result piece.now }
        ensures cause { PutHasCause (planned_faults self.old.plan + self.old.starved)
            (planned_faults self.new.plan + self.new.starved) result }
        ensures failing { self.new.plan.failing ≡ self.old.plan.failing }
        ensures answer { PutIs self.old self.new result piece.now }
    {
        if self.plan.fails() {
            return Put::Failed;
        }
        match self.bytes.extend_from_slice(piece) {
            Ok(()) => Put::Put(piece.len()),
            Err(_) => {
                self.starved = self.starved.saturating_add(1);
                Put::Failed
            }
        }
    }
}
