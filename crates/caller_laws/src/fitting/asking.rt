ghost use Rattle.caller_laws.specs.Fitting.Asking.{AskedIsFit, SlotCallIsFit, SoleCallIsFit};
ghost use Rattle.caller_laws.specs.Fitting.Bounds.{SlotUseFits};
ghost use Rattle.session_calls.specs.Calls.{slot_compound, sole_compound};
ghost use Rattle.session_calls.specs.declared.slot_call.SlotCall.{SlotCall};
ghost use Rattle.session_calls.specs.declared.slot_call.SlotUse.{SlotUse};
ghost use Rattle.session_calls.specs.declared.sole_call.SoleCall.{SoleCall};
ghost use Rattle.session_client.specs.declared.asked.Asked.TheVariants.{Compound};

/// A call whose numbers, names and data are within their bounds has a spelling, of bytes, and that is short enough to be sent.
pub fn calls_are_spelled()
    ensures in_slot { (place : SlotUse) (call : SlotCall) → SlotUseFits place → SlotCallIsFit call → AskedIsFit (Compound (slot_compound place call)) }
    ensures alone { (call : SoleCall) → SoleCallIsFit call → AskedIsFit (Compound (sole_compound call)) }
{}
