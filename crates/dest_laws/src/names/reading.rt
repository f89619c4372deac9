//! What a callback says that goes out.

ghost use Rattle.std.specs.Prelude.{◌≡◌, ◌<◌, ◌^◌, ◌&&◌, ℕ, length};
ghost use Rattle.dest_back.specs.Telling.{sealed_callback};
ghost use Rattle.dest_back.specs.declared.compound.Ended.{Ended};
ghost use Rattle.dest_laws.specs.Names.Told.{CanBeTold};
ghost use Rattle.gss_ctx.specs.Calls.{Side};
ghost use Rattle.nfs_base.specs.declared.job.JobName.{JobName};
ghost use Rattle.session_calls.specs.declared.slot_call.SlotUse.{SlotUse};
ghost use Rattle.wire_meaning.specs.Meaning.{ends_stable, is_name, job_named, meaning};
ghost use Rattle.wire_spelling.specs.Slots.{ops_of};
ghost use Rattle.wire_xdr.specs.Cursor.{IsBytes};

use gss_mech::{Mechanism, tokens_agree};
use wire_meaning::questions_are_read;

/// A callback that goes out under the context of a client's back channel reports the copy that it tells of, where it tells that
/// all of it is safe, and else none.
pub fn callbacks_are_read<M: Mechanism>()
    ensures { (side : Side) (xid program : ℕ) (slot : SlotUse) (told : Ended) → length side.handle ≡ 8 → xid < 2 ^ 32
        → length slot.session ≡ 16 → CanBeTold told → IsBytes (sealed_callback M.mic_of side xid program slot told).bytes
        → (name : JobName) → meaning.reports (ops_of (sealed_callback M.mic_of side xid program slot told).bytes) name ≡ (ends_stable told.end && is_name name (job_named told.id)) }
{
    tokens_agree::<M>();
    questions_are_read();
}
