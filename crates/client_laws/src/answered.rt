ghost use Rattle.std.specs.Prelude.{◌≡◌, ℕ, List, Some, false};
ghost use Rattle.caller_laws.specs.Good.{Identity};
ghost use Rattle.client_core.specs.Endings.{Ways, desk_at, ways_of};
ghost use Rattle.client_core.specs.State.{ClientState};
ghost use Rattle.client_laws.specs.Answered.{IsAnswerTaken};
ghost use Rattle.client_laws.specs.CallerLaws.{StartsOwn};
ghost use Rattle.client_laws.specs.Turns.{Hears, IsTurn};
ghost use Rattle.client_site.specs.declared.taking.Found.{Found};
ghost use Rattle.client_steps.specs.Replies.{taken};
ghost use Rattle.mount.specs.declared.taking.Told.TheVariants as told;
ghost use Rattle.nfs_base.specs.declared.side.Side.{Side};
ghost use Rattle.nfs_compound.specs.declared.reply.Reply.{Reply};
ghost use Rattle.outbox.specs.declared.outgoing.Outbox.{Outbox};
ghost use Rattle.wire_model.specs.Wire.{Purpose};
ghost use Rattle.wire_xdr.specs.Cursor.{IsBytes};

use caller_laws::answers::{answers_are_awaited, replies_are_judged};
use caller_laws::one_step::sends_are_counted;
use streams::Draws;

/// Where a record tells a client an answer, the wire of its server sees that it takes the reply to the call that its mount awaited
/// there, under that call's seal; and the answer is what the record's results spell.
pub fn answers_are_taken<M, W: Draws>()
    ensures { (who : Identity) (ways : Ways) (boot : ℕ) (purpose : ℕ → Purpose) (side : Side) (message : List ℕ) (now : ℕ)
        (c d : ClientState M) (v w : W) (out : Outbox) (found : Found) (reply : Reply)
        → StartsOwn who ways W.gives → IsTurn ways W.gives (Hears side message now) c v w (d, out) → out.undrawn ≡ false → IsBytes message
        → (taken ways.means message side (desk_at now c)).0 ≡ Some found → found.told ≡ told.Answer reply
        → IsAnswerTaken who boot purpose side (Hears side message now) message c out found.place reply }
{
    sends_are_counted();
    answers_are_awaited();
    replies_are_judged::<u64>();
}
