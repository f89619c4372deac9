//! What is read as a compound is what the bytes spell, and what is written is read again.

ghost use Rattle.std.specs.Prelude.{◌≡◌, ℕ, List, length, false, Ok};
ghost use Rattle.std.specs.List.{AllByRecursion};
ghost use Rattle.wire_xdr.specs.Cursor.{IsBytes};
ghost use Rattle.nfs_compound.specs.declared.tail.Tail.TheVariants.{Whole};
ghost use Rattle.nfs_compound.specs.declared.compound.Compound.{Compound};
ghost use Rattle.nfs_compound.specs.declared.cb_compound.CbCompound.{CbCompound};
ghost use Rattle.nfs_compound.specs.Ops.{op_is_cut};
ghost use Rattle.nfs_compound.specs.Compounds.{compound_of, compound_bytes, CompoundFits, IsCompound, cb_compound_of, cb_compound_bytes, CbCompoundFits, IsCbCompound};

/// Bytes are read as a compound exactly where they are its spelling, up to the tail.
pub fn compounds_are_spelled()
    ensures found { (bytes : List ℕ) (c : Compound) → IsBytes bytes → compound_of bytes ≡ Ok c → IsCompound c bytes }
    ensures read { (bytes : List ℕ) (c : Compound) → IsBytes bytes → IsCompound c bytes → compound_of bytes ≡ Ok c }
    ensures cb_found { (bytes : List ℕ) (c : CbCompound) → IsBytes bytes → cb_compound_of bytes ≡ Ok c → IsCbCompound c bytes }
    ensures cb_read { (bytes : List ℕ) (c : CbCompound) → IsBytes bytes → IsCbCompound c bytes → cb_compound_of bytes ≡ Ok c }
{}

/// What is written for a whole compound is read as that compound, where none of its operations is cut.
pub fn written_compounds_are_read()
    ensures compound { (c : Compound) → IsBytes (compound_bytes c) → c.tail ≡ Whole → c.count ≡ length c.ops → CompoundFits c
        → AllByRecursion (λ op. op_is_cut op ≡ false) c.ops → compound_of (compound_bytes c) ≡ Ok c }
    ensures cb_compound { (c : CbCompound) → IsBytes (cb_compound_bytes c) → c.tail ≡ Whole → c.count ≡ length c.ops → CbCompoundFits c
        → cb_compound_of (cb_compound_bytes c) ≡ Ok c }
{}
