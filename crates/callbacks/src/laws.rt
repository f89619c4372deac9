//! What holds of every answer.

ghost use Rattle.std.specs.Prelude.{ℕ, List, Option};
ghost use Rattle.client_copies.specs.Table.{Copies};
ghost use Rattle.nfs_compound.specs.Compounds.{IsCbCompound};
ghost use Rattle.nfs_compound.specs.declared.cb_compound.CbCompound.{CbCompound};
ghost use Rattle.callbacks.specs.Callbacks.{evaluated};
ghost use Rattle.callbacks.specs.Writing.{CanBeWritten};

/// Whatever CB_COMPOUND was read, the reply to it has a spelling, and a short one.
pub fn answers_can_be_written()
    ensures { (bytes : List ℕ) (session : Option (List ℕ)) (c : CbCompound) (t : Copies) → IsCbCompound c bytes → CanBeWritten c (evaluated session c t) }
{}
