//! What a record that names a slot is to a server.

ghost use Rattle.std.specs.Prelude.{◌≡◌, ◌≤◌, ℕ, List, length, Some, Ok};
ghost use Rattle.gss_ctx.specs.Seals.{Mic};
ghost use Rattle.gss_ctx.specs.Table.{AreDistinct, ContextTable};
ghost use Rattle.nfs_base.specs.declared.limits.TheConstants.{TEXT_LIMIT};
ghost use Rattle.nfs_compound.specs.Compounds.{compound_of};
ghost use Rattle.nfs_compound.specs.declared.compound.Compound.{Compound};
ghost use Rattle.rpc_calls.specs.Judging.{judged_of};
ghost use Rattle.rpc_calls.specs.declared.call.Call.{Call};
ghost use Rattle.rpc_calls.specs.declared.call.Judged.TheVariants as judged;
ghost use Rattle.rpc_calls.specs.declared.call.TheConstants.Program as programs;
ghost use Rattle.rpc_calls.specs.declared.call.What.TheVariants as whats;
ghost use Rattle.rpc_msg.specs.Heads as heads;
ghost use Rattle.wire_model.specs.Spelling.{SlotName};
ghost use Rattle.wire_spelling.specs.Slots.{ops_of, slot_of};
ghost use Rattle.wire_xdr.specs.Cursor.{IsBytes};
ghost use Rattle.slot_calls.specs.Asked.{IsAsked, IsOpen};

/// A server and a wire see the same COMPOUND in a record. One that a context admits has the arguments and the slot that a
/// wire sees in it (RFC 2203 section 5.3.3); and a call in which a wire sees a slot is a COMPOUND to the server, or is
/// answered without a seal or not at all. The head of each call has a spelling, and the tag of a COMPOUND that is read is short.
pub fn slot_calls_are_compounds<P>()
    ensures asked { (mic : Mic) (now : ℕ) (bytes : List ℕ) (table : ContextTable P) (call : Call) (args : List ℕ) → AreDistinct table.entries
        → judged_of mic now programs.NFS bytes table ≡ judged.Call call → call.what ≡ whats.Compound args → IsAsked table bytes call args }
    ensures fits { (mic : Mic) (now : ℕ) (bytes : List ℕ) (table : ContextTable P) (call : Call) → IsBytes bytes
        → judged_of mic now programs.NFS bytes table ≡ judged.Call call → heads.call.Fits call.head }
    ensures tag { (bytes : List ℕ) (c : Compound) → IsBytes bytes → compound_of (ops_of bytes) ≡ Ok c → length c.tag ≤ TEXT_LIMIT }
    ensures named { (mic : Mic) (now : ℕ) (bytes : List ℕ) (table : ContextTable P) (call : Call) (name : SlotName)
        → judged_of mic now programs.NFS bytes table ≡ judged.Call call → slot_of bytes ≡ Some name → IsOpen call.what }
{}
