ghost use Rattle.std.specs.Prelude.{◌≡◌, ◌∷◌, List, ℕ};
ghost use Rattle.nfs_compound.specs.Compounds.{CbCompoundFits, CompoundFits, cb_compound_bytes, compound_bytes};
ghost use Rattle.nfs_compound.specs.declared.cb_compound.CbCompound.{CbCompound};
ghost use Rattle.nfs_compound.specs.declared.tail.Tail.TheVariants.{Whole};
ghost use Rattle.session_calls.specs.Calls.{sequence_op, slot_compound, slot_ops};
ghost use Rattle.session_calls.specs.declared.slot_call.SlotCall.{SlotCall};
ghost use Rattle.session_calls.specs.declared.slot_call.SlotUse.{SlotUse};
ghost use Rattle.std.specs.Prelude.{length};
ghost use Rattle.wire_meaning.specs.Meaning.{asked_by, cb_ops_read};
ghost use Rattle.nfs_compound.specs.Compounds.{cb_compound_of};
ghost use Rattle.wire_xdr.specs.Cursor.{IsBytes};

/// What is asked in a slot is read back from the bytes that ask it, and so is what a callback tells.
pub fn questions_are_read()
    ensures asked { (slot : SlotUse) (call : SlotCall) → IsBytes (compound_bytes (slot_compound slot call)) → CompoundFits (slot_compound slot call)
        → asked_by (compound_bytes (slot_compound slot call)) ≡ sequence_op slot ∷ slot_ops call }
    ensures told { (c : CbCompound) → IsBytes (cb_compound_bytes c) → c.tail ≡ Whole → c.count ≡ length c.ops → CbCompoundFits c
        → cb_ops_read (cb_compound_of (cb_compound_bytes c)) ≡ c.ops }
{
    nfs_compound::written_compounds_are_read();
}
