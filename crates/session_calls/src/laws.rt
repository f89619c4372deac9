//! What holds of every call of these ends.

ghost use Rattle.std.specs.Prelude.{◌≤◌};
ghost use Rattle.nfs_compound.specs.VolumeCalls.{volume_calls};
ghost use Rattle.session_calls.specs.declared.slot_call.SlotCall.{SlotCall};
ghost use Rattle.session_calls.specs.declared.slot_call.SlotUse.{SlotUse};
ghost use Rattle.session_calls.specs.declared.sole_call.SoleCall.{SoleCall};
ghost use Rattle.session_calls.specs.Calls.{slot_compound, sole_compound};

/// A server calls its volume at most once for a call of these ends.
pub fn calls_are_simple()
    ensures in_slot { (slot : SlotUse) (call : SlotCall) → volume_calls (slot_compound slot call).ops ≤ 1 }
    ensures alone { (call : SoleCall) → volume_calls (sole_compound call).ops ≤ 1 }
{}
