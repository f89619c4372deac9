ghost use Rattle.std.specs.Prelude.{ℕ, List};
ghost use Rattle.nfs_base.specs.declared.seal.End.{End};
ghost use Rattle.wire_model.specs.Check.{IsRight};
ghost use Rattle.wire_model.specs.Spelling.{Spelling};
ghost use Rattle.wire_model.specs.Wire.{Acts};
ghost use Rattle.wire_machine.specs.World.{Posted};
ghost use Rattle.run_checks.specs.Listed.{Passes, WereSent};

/// Where all records of a list were sent as they are listed before a step, and what an end accepts under a seal in the step
/// passes the check over the list, the end is right.
pub fn records_tell()
    ensures right { (spell : Spelling) (acts : End → ℕ → Acts) (boot : End → ℕ → ℕ) (k : ℕ) (e : End) (log : List Posted)
        → WereSent acts boot k log → Passes spell acts boot k e log → IsRight spell acts boot k e }
{}
