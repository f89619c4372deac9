ghost use Rattle.std.specs.Prelude.{◌≡◌, ◌⊎◌, ℕ, ◌+◌, ◌<◌, ◌^◌, List, Option, Some, None, IsSome, true};
ghost use Rattle.context_laws.specs.JudgedLaws.{IsOfCreate, IsReadAs};
ghost use Rattle.context_laws.specs.MadeLaws.{IsBegun, IsChild, IsNoChild, IsNotBegun};
ghost use Rattle.gss_ctx.specs.Table.{ContextTable, context_of};
ghost use Rattle.nfs_base.specs.declared.seal.End.{End};
ghost use Rattle.rpc_calls.specs.Answers.{counted};
ghost use Rattle.rpc_calls.specs.Judging.{judged_of};
ghost use Rattle.rpc_calls.specs.Making.{AnswersInit, create_answer, created};
ghost use Rattle.rpc_calls.specs.declared.call.Call.{Call};
ghost use Rattle.rpc_calls.specs.declared.call.Judged.TheVariants as judged;
ghost use Rattle.rpc_calls.specs.declared.call.Program.{Program};
ghost use Rattle.rpc_calls.specs.declared.call.Under.{Under};
ghost use Rattle.rpc_calls.specs.declared.contexts.InitAnswer.{InitAnswer};
ghost use Rattle.rpc_msg.specs.Heads.{call};
ghost use Rattle.wire_model.specs.Spelling.{Context};
ghost use Rattle.wire_spelling.specs.Calls.{begun_by, is_create};
ghost use Rattle.wire_spelling.specs.Replies.{context_in};
ghost use Rattle.wire_xdr.specs.Cursor.{IsBytes};
ghost use Rattle.gss_mech.specs.declared.mechanism.Accepted.{Accepted};

use gss_mech::Mechanism;
use streams::Draws;

/// What a record is judged to be agrees with what it says: a call is read as one; one that says INIT is answered under no
/// context; one that says CREATE makes a child, or gets no result; and the context under which a call is answered is there.
pub fn calls_are_judged<P, M: Mechanism>()
    ensures read { (now : ℕ) (program : Program) (bytes : List ℕ) (table : ContextTable P) (call_ : Call)
        → judged_of M.mic_of now program bytes table ≡ judged.Call call_ → IsReadAs M.mic_of now program bytes table call_ }
    ensures fits { (now : ℕ) (program : Program) (bytes : List ℕ) (table : ContextTable P) (call_ : Call)
        → IsReadAs M.mic_of now program bytes table call_ → IsBytes bytes → call.Fits call_.head }
    ensures init { (now : ℕ) (program : Program) (bytes : List ℕ) (table : ContextTable P) (call_ : Call) (accepts : List ℕ → Option (List ℕ)) (whose : List ℕ → Option End) (by : End)
        → IsReadAs M.mic_of now program bytes table call_ → begun_by accepts whose bytes ≡ Some by → call_.under ≡ None }
    ensures create { (now : ℕ) (program : Program) (bytes : List ℕ) (table : ContextTable P) (call_ : Call)
        → IsReadAs M.mic_of now program bytes table call_ → is_create bytes ≡ true → IsOfCreate call_.what }
    ensures there { (now : ℕ) (program : Program) (bytes : List ℕ) (table : ContextTable P) (call_ : Call) (under : Under)
        → IsReadAs M.mic_of now program bytes table call_ → call_.under ≡ Some under → IsSome (context_of under.number table.entries) }
{}

/// INIT makes a context under none, or none at all; CREATE makes one under the context that asks for it, or none. The number
/// that is told is the next one, and what the answer to a CREATE gives is what was made.
pub fn contexts_are_made<P, M: Mechanism, W: Draws>()
    ensures init { (mech : M) (now xid : ℕ) (first : Option Accepted) (token : List ℕ) (old new : ContextTable P) (before after : W) (told : InitAnswer)
        → AnswersInit M.mic_of (M.accepted mech token) W.gives now xid first old new before after told
        → IsBegun now old new told.made ⊎ IsNotBegun old new told.made }
    ensures create { (now : ℕ) (carry : P) (call_ : Call) (table : ContextTable P)
        → IsChild now (counted now call_ table) call_.under (created M.derived now carry call_ table)
        ⊎ IsNoChild (counted now call_ table) (created M.derived now carry call_ table) }
    ensures given { (table : ContextTable P) (call_ : Call) (under : Under) (made : Option ℕ) (child : Context)
        → call.Fits call_.head → table.boot < 2 ^ 32 → ((n : ℕ) → made ≡ Some n → n < 2 ^ 32)
        → call_.under ≡ Some under → IsSome (context_of under.number table.entries)
        → context_in (create_answer M.mic_of table call_ made).bytes ≡ Some child
        → (n : ℕ) × (made ≡ Some n) × (child ≡ record { boot = table.boot; number = n }) }
{}
