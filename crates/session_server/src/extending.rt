//! What a particular server adds to what every server does with contexts.

ghost use Rattle.std.specs.Prelude.{◌≡◌, ◌++◌, ◌≤◌, ℕ, List, [], length, IfOk, IsSome};
ghost use Rattle.gss_ctx.specs.Table.{ContextTable, context_of};
ghost use Rattle.outbox.specs.declared.note.Note.{Note};
ghost use Rattle.session_server.specs.declared.extending.Judgement.{Judgement};

use compound_server::Serving;
use gss_ctx::Contexts;
use gss_mech::Mechanism;
use nfs_base::PrivCause;
use outbox::NoteList;
use outcome::Mem;
use std::alloc::Global;

/// What a server says of a privilege that a CREATE asks for (RFC 7861 section 2.7.1).
#[derive(Drop)]
pub enum Judgement<C> {
    /// It is granted, and the child carries this.
    Granted(C),

    /// It isn't spelled.
    Misspelt,

    /// It is refused.
    Refused(PrivCause),
}

/// A server's extension that grants privileges too, and tells of what it did. A context carries a `C`, where it carries
/// anything.
pub trait Extending<C>: Serving<C> {
    ghost use Rattle.std.specs.Prelude.{◌≡◌, ◌++◌, ◌≤◌, ℕ, List, length};
    ghost use Rattle.gss_ctx.specs.Table.{ContextTable};
    ghost use Rattle.outbox.specs.declared.note.Note.{Note};
    ghost use Rattle.session_server.specs.declared.extending.Judgement.{Judgement};

    /// The mechanism of its contexts.
    type Mech: Mechanism;

    ghost mech_of: { Self → Self.Mech };

    // What is said of a privilege by this name that a CREATE under the context of this number asks for in a second.
    ghost judges: { ℕ → ContextTable C → ℕ → List ℕ → List ℕ → Self → Judgement C };

    // What is to be told of the step that led here, and what is left once that is told.
    ghost tells: { Self → List Note };

    ghost silent: { Self → Self };

    // How many of the bytes that landed came since the last step of which was told.
    ghost untold: { Self → ℕ };

    fn mech(&self) -> &Self::Mech
        ensures { result.now ≡ mech_of self.now };

    /// Judges a privilege. Nothing changes by that.
    fn judge(
        &self,
        alloc: Global,
        contexts: &Contexts<C>,
        number: u32,
        name: &[u8],
        privilege: &[u8],
        second: u64,
    ) -> Mem<Judgement<C>>
        requires there { IsSome (context_of number contexts.now.entries) }
        ensures { IfOk result (λ judgement. judgement ≡ judges second contexts.now number name.now privilege.now self.now) };

    /// Adds what is to be told of the step. It takes no memory.
    fn tell(&mut self, notes: &mut NoteList)
        requires { notes.old ≡ [] }
        ensures notes { notes.new ≡ tells self.old }
        ensures silent { self.new ≡ silent self.old };

    // To tell gives no number out, and lands no byte.
    ghost by_telling: { (x : Self) → Self.given (silent x) ≤ Self.given x };

    ghost telling_lands_none: { (x : Self) → Self.landed (silent x) ≡ Self.landed x };

    // Nothing is left to tell then, and a second adds nothing to that.
    ghost all_told: { (x : Self) → untold (silent x) ≡ 0 };

    ghost lapsing_told: { (second : ℕ) (x : Self) → untold (Self.lapses second x) ≡ untold x };
}
