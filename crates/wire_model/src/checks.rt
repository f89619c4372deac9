ghost use Rattle.std.specs.Prelude.{ℕ};
ghost use Rattle.nfs_base.specs.declared.seal.End.{End};
ghost use Rattle.wire_model.specs.Spelling.{Spelling};
ghost use Rattle.wire_model.specs.Wire.{Acts, Sends};
ghost use Rattle.wire_model.specs.Check.{IsUnmistaken};
ghost use Rattle.wire_model.specs.Log.{Logged, log, IsAmong, PassesCheck};

/// A run whose steps pass the check made over the numbered list of records is not mistaken.
pub fn checked_runs()
    ensures unmistaken { (spell : Spelling) (acts : End → ℕ → Acts) (boot : End → ℕ → ℕ)
        → ((k : ℕ) (e : End) → PassesCheck spell acts boot k e) → IsUnmistaken spell acts boot }
    // The list has only records that were sent.
    ensures listed { (acts : End → ℕ → Acts) (boot : End → ℕ → ℕ) (k : ℕ) (r : Logged) → IsAmong r (log acts boot k)
        → Sends (acts r.by r.step) r.bytes r.seal }
{}
