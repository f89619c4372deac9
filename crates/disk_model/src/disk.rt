ghost use Rattle.std.specs.Prelude.{◌≡◌, ◌↔◌, ℕ, ◌+◌, ◌<◌, ◌≤◌, IsTrue, length};
ghost use Rattle.outcome.specs.Causes.{Rose};
ghost use Rattle.disk_model.specs.declared.fuse.Fuse.{Fuse};
ghost use Rattle.disk_model.specs.declared.fuse.Fuse.TheVariants.{Unset};
ghost use Rattle.disk_model.specs.Disk.{MayLeave, IsSettled, Writes, Syncs};
ghost use Rattle.disk_model.specs.Elapsed.{Timeline, present, contents, crash_moment, burnt, set_to, IsOut, Elapses};

/// The bytes of a block.
pub type Block = [u8; 4096];

/// What a call of a disk answers.
#[derive(Clone, Copy, Debug, PartialEq, Eq)]
pub enum Io {
    Done,
    Failed,
}

/// Blocks of 4,096 bytes, numbered from 0. Whether a disk tells what it holds is a matter of its type.
pub trait Disk {
    // The disk tells what it holds.
    ghost Told: { Type 0 };

    // How many blocks it has.
    ghost size: { Self → ℕ };

    // Its moments since the last crash, where told.
    ghost timeline: { Self → Timeline };

    // How many more writes and syncs pass before the machine stops.
    ghost fuse: { Self → Fuse };

    // How many calls failed. The count stops at the end of its type.
    ghost faults: { Self → ℕ };

    /// How many blocks the disk has. A read of any of them gives 4,096 bytes.
    fn blocks(&self) -> u64
        ensures count { result ≡ size self.now }
        ensures whole { Told → (b : ℕ) → length (contents (timeline self.now) b) ≡ 4096 };

    /// The number of the present moment, where the disk tells.
    fn moment(&self) -> u64
        ensures latest { Told → result ≡ (timeline self.now).latest };

    /// Reads a block.
    fn read(&mut self, at: u64, block: &mut Block) -> Io
        requires { at < size self.old }
        ensures bytes { Told → result ≡ Io.Done → block.new ≡ contents (timeline self.old) at }
        ensures same { Told → timeline self.new ≡ timeline self.old }
        ensures size { size self.new ≡ size self.old }
        ensures fuse { fuse self.new ≡ fuse self.old }
        ensures faults { faults self.old ≤ faults self.new }
        ensures cause { result ≡ Io.Failed → Rose (faults self.old) (faults self.new) };

    /// Writes a block. Until a sync succeeds, a crash may leave any bytes there.
    fn write(&mut self, at: u64, block: &Block) -> Io
        requires { at < size self.old }
        ensures written { Told → Writes at block.now result (present (timeline self.old)) (present (timeline self.new)) }
        ensures time { Told → Elapses (fuse self.old) (fuse self.new) (timeline self.old) (timeline self.new) }
        ensures soon { Told → (timeline self.new).latest ≤ (timeline self.old).latest + 1 }
        ensures size { size self.new ≡ size self.old }
        ensures fuse { fuse self.new ≡ burnt (fuse self.old) }
        ensures faults { faults self.old ≤ faults self.new }
        ensures cause { result ≡ Io.Failed → Rose (faults self.old) (faults self.new) };

    /// Makes what was written safe: after it a crash leaves what a read gives.
    fn sync(&mut self) -> Io
        ensures synced { Told → Syncs result (present (timeline self.old)) (present (timeline self.new)) }
        ensures time { Told → Elapses (fuse self.old) (fuse self.new) (timeline self.old) (timeline self.new) }
        ensures soon { Told → (timeline self.new).latest ≤ (timeline self.old).latest + 1 }
        ensures size { size self.new ≡ size self.old }
        ensures fuse { fuse self.new ≡ burnt (fuse self.old) }
        ensures faults { faults self.old ≤ faults self.new }
        ensures cause { result ≡ Io.Failed → Rose (faults self.old) (faults self.new) };
}

/// A disk whose machine can be made to stop at a chosen write or sync, and crash.
pub trait CrashDisk: Disk {
    /// Lets this many more writes and syncs pass; the one after them stops the machine. Calls are
    /// answered as before until the crash, so a stop is no fault, but the crash will leave what it
    /// might have left at the stop. Reads aren't counted. A machine that has stopped stays stopped.
    fn fuse(&mut self, calls: u64)
        ensures fuse { Self.fuse self.new ≡ set_to (Self.fuse self.old) calls }
        ensures same { Self.Told → Self.timeline self.new ≡ Self.timeline self.old }
        ensures size { Self.size self.new ≡ Self.size self.old }
        ensures faults { Self.faults self.new ≡ Self.faults self.old };

    /// Whether the machine has stopped.
    fn stopped(&self) -> bool
        ensures { IsTrue result ↔ IsOut (Self.fuse self.now) };

    /// Crashes the machine, at the stop where it has stopped and else now, and starts it again with no
    /// fuse. `pick` chooses among what a crash may leave.
    fn crash(&mut self, pick: u8)
        ensures left { Self.Told → MayLeave
            ((Self.timeline self.old).state (crash_moment (Self.fuse self.old) (Self.timeline self.old)))
            (contents (Self.timeline self.new)) }
        ensures settled { Self.Told → IsSettled (present (Self.timeline self.new)) }
        ensures fuse { Self.fuse self.new ≡ Unset }
        ensures size { Self.size self.new ≡ Self.size self.old }
        ensures faults { Self.faults self.new ≡ Self.faults self.old };
}
