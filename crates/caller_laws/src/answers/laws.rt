ghost use Rattle.std.specs.Prelude.{◌≡◌, ℕ, List, true};
ghost use Rattle.caller_laws.specs.Answers.Awaited.{IsAwaited};
ghost use Rattle.gss_ctx.specs.Seals.{Mic};
ghost use Rattle.gss_ctx.specs.Table.{ContextTable};
ghost use Rattle.mount.specs.State.{Mounted};
ghost use Rattle.mount.specs.Taking.{Means, taken_at};
ghost use Rattle.mount.specs.declared.taking.Told.TheVariants as told;
ghost use Rattle.nfs_compound.specs.declared.reply.Reply.{Reply};
ghost use Rattle.rpc_calls.specs.Judging.{judged_of};
ghost use Rattle.rpc_calls.specs.declared.call.Judged.TheVariants as judged;
ghost use Rattle.rpc_calls.specs.declared.call.Program.{Program};
ghost use Rattle.wire_spelling.specs.Replies.{is_reply};
ghost use Rattle.wire_xdr.specs.Cursor.{IsBytes};

/// An answer that a mount is told is the reply to the call that it awaited at that place, accepted under the call's seal, and what the
/// reply's results spell.
pub fn answers_are_awaited()
    ensures { (means : Means) (place : ℕ) (message : List ℕ) (m : Mounted) (reply : Reply) → IsBytes message
        → (taken_at means place message m).0.told ≡ told.Answer reply → IsAwaited means place message m reply }
{}

/// A record that is a reply is judged one, whichever program calls come to.
pub fn replies_are_judged<P>()
    ensures { (mic : Mic) (now : ℕ) (program : Program) (bytes : List ℕ) (table : ContextTable P) → IsBytes bytes → is_reply bytes ≡ true
        → judged_of mic now program bytes table ≡ judged.Reply }
{}
