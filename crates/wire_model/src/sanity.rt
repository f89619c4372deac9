ghost use Rattle.std.specs.Prelude.{◌≡◌, ℕ, suc, true, false, Some, List, [], ◌∷◌};
ghost use Rattle.copy_model.specs.Marks.{is_committed};
ghost use Rattle.nfs_base.specs.declared.job.JobName.{JobName};
ghost use Rattle.nfs_base.specs.declared.seal.End.TheVariants.{Source, Dest, Client};
ghost use Rattle.nfs_base.specs.declared.seal.Seal.{Seal};
ghost use Rattle.wire_model.specs.Spelling.{Spelling};
ghost use Rattle.wire_model.specs.Wire.{Sends, Slotted};
ghost use Rattle.wire_model.specs.ServerLaws.{ServerLaws};
ghost use Rattle.wire_model.specs.CallerLaws.{Takes, CallerLaws};
ghost use Rattle.wire_model.specs.Check.{IsRight};
ghost use Rattle.wire_model.specs.Told.{IsLawfulWire, WasTold};
ghost use Rattle.wire_model.specs.Meaning.{Meaning};
ghost use Rattle.wire_model.specs.System.{System};
ghost use Rattle.wire_model.specs.CopyLaws.{CopiesLaws};
ghost use Rattle.wire_model.specs.NameLaws.{NameLaws};
ghost use Rattle.wire_model.specs.Lawful.{IsLawfulSystem, IsTruthful};
ghost use Rattle.wire_model.specs.IdleSystem.{no_meaning, idle_system};
ghost use Rattle.wire_model.specs.Examples.{spelling, wire, seal_of, call, kept_answer, acts_of, with_context, with_answer, mounted, executes_again, makes_again, calls_other, other_awaited, crossed};

/// A small wire obeys the laws. The destination takes an answer that the source kept, and the theorem finds the
/// step that told it: the one that executed the call when it was first sent.
pub fn kept_answer_example()
    ensures lawful { IsLawfulWire spelling wire }
    ensures takes { Takes spelling (wire.caller Dest 6) (wire.acts Dest 6) (seal_of 2) (Slotted (seal_of 2) call) kept_answer }
    ensures told { WasTold wire 6 Dest call (9 ∷ []) }
    ensures step { (results : List ℕ) (t : WasTold wire 6 Dest call results) → t.step ≡ 3 }
{
    crate::lawful_wires();
}

/// The laws of a whole system can be met: one in which nothing happens obeys them all.
pub fn idle_example()
    ensures lawful { IsLawfulSystem spelling no_meaning idle_system }
    ensures truthful { IsTruthful spelling no_meaning idle_system }
{}

/// Steps that depart from that wire in one way each, and break the law that is for it.
pub fn refused_steps()
    // A retry is executed again.
    ensures executed_again { ServerLaws spelling Source with_answer with_answer executes_again → ⊥ }
    // The context of one mount is given to a second.
    ensures made_again { ServerLaws spelling Source with_context with_context makes_again → ⊥ }
    ensures number_used_twice { CallerLaws spelling Source Dest mounted other_awaited calls_other → ⊥ }
    // A reply is taken that answers another call.
    ensures crossed { IsRight spelling (acts_of crossed) (λ e k. 1) 6 Dest → ⊥ }
    // A copy is reported as stable before its commit.
    ensures early_report { (spell : Spelling) (meaning : Meaning) (s : System) (k : ℕ) (bytes : List ℕ) (seal : Seal) (job : JobName)
        → Sends (s.acts Dest k) bytes (Some seal) → seal.owner ≡ Client → spell.is_callback bytes ≡ true
        → meaning.reports (spell.ops_of bytes) job ≡ true
        → ((j : ℕ) → s.name (suc k) j ≡ job → is_committed (s.job (suc k) j).entries ≡ false)
        → NameLaws spell meaning s k → CopiesLaws spell meaning s k → ⊥ }
{}
