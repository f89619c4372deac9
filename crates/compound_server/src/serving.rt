//! The operations that a particular server adds.

ghost use Rattle.std.specs.Prelude.{◌≡◌, ◌+◌, ◌-◌, ◌^◌, ◌<◌, ◌≤◌, ℕ, length, IfOk};
ghost use Rattle.copy_ops.specs.declared.arg.CopyArg.{CopyArg};
ghost use Rattle.file_server.specs.declared.extension.Caller.{Caller};
ghost use Rattle.file_server.specs.Answering.{Ready, Keeps, going_of};
ghost use Rattle.file_server.specs.Machine.{Going};
ghost use Rattle.server_volume.specs.Choices.{Choice};
ghost use Rattle.server_volume.specs.Moments.{Counted};
ghost use Rattle.server_volume.specs.Store.{seat_of};
ghost use Rattle.compound_server.specs.declared.client_end.ClientEnd.{ClientEnd};
ghost use Rattle.compound_server.specs.Serves.{Served, Serves};

use crate::client_end::ClientEnd;
use copy_ops::CopyArg;
use disk_model::Disk;
use file_server::{Caller, Extension, Files, Progress};
use nfs_base::Status;
use outcome::Mem;
use std::alloc::Global;

/// What a particular server adds to what every server does: its own operations, those of a copy. A context carries a
/// `C`, where it carries anything.
pub trait Serving<C>: Extension<Option<C>> + Drop {
    ghost use Rattle.std.specs.Prelude.{◌≡◌, ◌≤◌, ℕ, Option};
    ghost use Rattle.copy_ops.specs.declared.arg.CopyArg.{CopyArg};
    ghost use Rattle.file_server.specs.declared.extension.Ask.{Ask};
    ghost use Rattle.file_server.specs.declared.extension.Ask.TheVariants.{Operation};
    ghost use Rattle.file_server.specs.declared.extension.Caller.{Caller};
    ghost use Rattle.file_server.specs.Machine.{Going};
    ghost use Rattle.server_volume.specs.Choices.{Choice};
    ghost use Rattle.compound_server.specs.declared.client_end.ClientEnd.{ClientEnd};
    ghost use Rattle.compound_server.specs.Serves.{Served};

    /// What an operation wants of memory.
    type Room: Drop;

    // Whether this was taken for an operation of a caller whose context carries that.
    ghost suits: { Self.Room → Option C → CopyArg → Type 0 };

    // How an operation is answered, and what it leaves.
    ghost serves: { Choice → Caller → Option C → CopyArg → Going Self → Served Self };

    // What a client's end leaves, and what a second does.
    ghost leaves: { ℕ → ClientEnd → Self → Self };

    ghost lapses: { ℕ → Self → Self };

    // How many numbers were given out.
    ghost given: { Self → ℕ };

    // How many bytes of copies landed.
    ghost landed: { Self → ℕ };

    /// Takes the memory that an operation wants.
    fn room(&self, alloc: Global, carry: &Option<C>, op: &CopyArg) -> Mem<Self::Room>
        ensures { IfOk result (λ room. suits room carry.now op.now) };

    /// Answers an operation. It takes no memory.
    fn serve<D: Disk>(
        files: &mut Files<D, Self>,
        caller: &Caller,
        carry: &Option<C>,
        op: CopyArg,
        room: Self::Room,
        p: &mut Progress,
    ) -> Status
        requires ready { Ready p.old 1 }
        requires suited { suits room carry.now op }
        requires numbered { given files.old.extra < 2 ^ 32 - 1 }
        ensures serves { D.Told → Serves (λ choice. serves choice caller.now carry.now op (going_of D.size files.old p.old)) p.old.page.bytes (going_of D.size files.new p.new) p.new.page.bytes result.number }
        ensures keeps { Keeps p.old p.new }
        ensures ran { Counted D.Told (seat_of D.size D.fuse D.timeline D.faults files.old.volume) (seat_of D.size D.fuse D.timeline D.faults files.new.volume) p.old.used p.new.used }
        ensures opens { files.new.opens ≡ files.old.opens }
        ensures given { given files.new.extra ≤ given files.old.extra + 1 }
        ensures landed { landed files.new.extra ≡ landed files.old.extra };

    /// A client has ended.
    fn leave(&mut self, client: u64, why: ClientEnd)
        ensures { self.new ≡ leaves client why self.old };

    /// This second has come: what is too old goes.
    fn lapse(&mut self, second: u64)
        ensures { self.new ≡ lapses second self.old };

    // Whether an operation is served at all is told without a change, and alike at all times.
    ghost still: { (x : Self) (caller : Caller) (carry : Option C) (op : ℕ) → (Self.gated x caller carry (Operation op)).0 ≡ x };

    ghost timeless: { (second : ℕ) (x : Self) (caller : Caller) (carry : Option C) (op : ℕ) → (Self.gated (lapses second x) caller carry (Operation op)).1 ≡ (Self.gated x caller carry (Operation op)).1 };

    // Only serving an operation gives numbers out.
    ghost by_gate: { (x : Self) (caller : Caller) (carry : Option C) (ask : Ask) → given (Self.gated x caller carry ask).0 ≤ given x };

    ghost by_leaving: { (client : ℕ) (why : ClientEnd) (x : Self) → given (leaves client why x) ≤ given x };

    ghost by_lapsing: { (second : ℕ) (x : Self) → given (lapses second x) ≤ given x };

    // None of these lands a byte.
    ghost gate_lands_none: { (x : Self) (caller : Caller) (carry : Option C) (ask : Ask) → landed (Self.gated x caller carry ask).0 ≡ landed x };

    ghost leaving_lands_none: { (client : ℕ) (why : ClientEnd) (x : Self) → landed (leaves client why x) ≡ landed x };

    ghost lapsing_lands_none: { (second : ℕ) (x : Self) → landed (lapses second x) ≡ landed x };
}
