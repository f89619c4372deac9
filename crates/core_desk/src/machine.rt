ghost use Rattle.std.specs.Prelude.{◌≡◌, ℕ, ◌+◌, ◌<◌, ◌≤◌, List, All, IfOk, OnOk, OnErr};
ghost use Rattle.copy_workers.specs.Desk.{chunk_limit, landed_by, IsSmall};
ghost use Rattle.outbox.specs.Counting.{landed_in, records_to};
ghost use Rattle.outbox.specs.declared.outgoing.Outbox.{Outbox};

use outbox::Outbox;
use outcome::Mem;
use std::alloc::Global;
use streams::Draws;

/// How many steps a machine makes at most.
pub const MOST_CALLS: u32 = 67_108_863;

/// A destination's machine, as a desk calls it. Each call is one step of it, by a relation that it tells; without memory it is
/// as before. Moments are whole seconds, and workers' numbers go from 1 to 8.
pub trait Core<W: Draws> {
    // How many bytes its jobs landed since it was opened, and how many steps it made.
    ghost landed: { Self → ℕ };

    ghost steps: { Self → ℕ };

    // Its steps, each from a state to a state, with what it gives.
    ghost takes_record: { (conn : ℕ) → (message : List ℕ) → (now : ℕ) → W → W → Self → Outbox → Self → Type 0 };

    ghost ticks: { (now : ℕ) → Self → Outbox → Self → Type 0 };

    ghost works: { (worker now : ℕ) → W → W → Self → Outbox → Self → Type 0 };

    ghost takes_reply: { (worker : ℕ) → (message : List ℕ) → (now : ℕ) → Self → Outbox → Self → Type 0 };

    ghost fails_link: { (worker : ℕ) → Self → Outbox → Self → Type 0 };

    /// How many steps were made.
    fn calls(&self) -> u32
        ensures { result ≡ steps self.now };

    /// How many bytes the jobs landed since the machine was opened, those that aren't there any more included.
    fn landed(&self) -> u64
        ensures { result ≡ landed self.now };

    /// Takes a record that comes on a connection.
    fn on_record(
        &mut self,
        alloc: Global,
        conn: u32,
        record_: &[u8],
        now: u64,
        draws: &mut W,
    ) -> Mem<Outbox>
        requires few { steps self.old < MOST_CALLS }
        ensures step { IfOk result (λ out. takes_record conn record_.now now draws.old draws.new self.old out self.new) }
        ensures counted { OnOk result (steps self.new ≡ steps self.old + 1) }
        ensures landed { landed self.new ≡ landed self.old }
        ensures small { IfOk result (λ out. All IsSmall out.sent) }
        ensures err { OnErr result (self.new ≡ self.old) };

    /// A second comes by itself.
    fn tick(&mut self, alloc: Global, now: u64) -> Mem<Outbox>
        requires few { steps self.old < MOST_CALLS }
        ensures step { IfOk result (λ out. ticks now self.old out self.new) }
        ensures counted { OnOk result (steps self.new ≡ steps self.old + 1) }
        ensures landed { landed self.new ≡ landed self.old }
        ensures small { IfOk result (λ out. All IsSmall out.sent) }
        ensures err { OnErr result (self.new ≡ self.old) };

    /// A worker's turn. One record at most goes to the worker's link.
    fn work(&mut self, alloc: Global, worker: u8, now: u64, draws: &mut W) -> Mem<Outbox>
        requires few { steps self.old < MOST_CALLS }
        requires worker { 1 ≤ worker }
        requires workers { worker ≤ 8 }
        ensures step { IfOk result (λ out. works worker now draws.old draws.new self.old out self.new) }
        ensures counted { OnOk result (steps self.new ≡ steps self.old + 1) }
        ensures landed { landed self.new ≡ landed self.old + landed_by result }
        ensures one { IfOk result (λ out. records_to worker out.sent ≤ 1) }
        ensures small { IfOk result (λ out. All IsSmall out.sent) }
        ensures chunk { IfOk result (λ out. landed_in out.notes ≤ chunk_limit) }
        ensures err { OnErr result (self.new ≡ self.old) };

    /// Takes a record that the source sent to a worker.
    fn on_source_reply(
        &mut self,
        alloc: Global,
        worker: u8,
        record_: &[u8],
        now: u64,
    ) -> Mem<Outbox>
        requires few { steps self.old < MOST_CALLS }
        requires worker { 1 ≤ worker }
        requires workers { worker ≤ 8 }
        ensures step { IfOk result (λ out. takes_reply worker record_.now now self.old out self.new) }
        ensures counted { OnOk result (steps self.new ≡ steps self.old + 1) }
        ensures landed { landed self.new ≡ landed self.old + landed_by result }
        ensures one { IfOk result (λ out. records_to worker out.sent ≤ 1) }
        ensures small { IfOk result (λ out. All IsSmall out.sent) }
        ensures chunk { IfOk result (λ out. landed_in out.notes ≤ chunk_limit) }
        ensures err { OnErr result (self.new ≡ self.old) };

    /// A worker's link failed. Nothing goes to it any more.
    fn link_failed(&mut self, alloc: Global, worker: u8) -> Mem<Outbox>
        requires few { steps self.old < MOST_CALLS }
        requires worker { 1 ≤ worker }
        requires workers { worker ≤ 8 }
        ensures step { IfOk result (λ out. fails_link worker self.old out self.new) }
        ensures counted { OnOk result (steps self.new ≡ steps self.old + 1) }
        ensures landed { landed self.new ≡ landed self.old }
        ensures none { IfOk result (λ out. records_to worker out.sent ≡ 0) }
        ensures err { OnErr result (self.new ≡ self.old) };
}
