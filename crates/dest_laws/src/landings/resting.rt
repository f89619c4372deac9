ghost use Rattle.std.specs.Prelude.{◌≡◌, ℕ, suc};
ghost use Rattle.copy_model.specs.Effect.{Rests};
ghost use Rattle.dest_laws.specs.View.Dues.{HoldsWell, LandsWell};
ghost use Rattle.wire_model.specs.Copies.{Plain};
ghost use Rattle.wire_model.specs.Meaning.{Meaning};
ghost use Rattle.wire_model.specs.Spelling.{Spelling};
ghost use Rattle.wire_model.specs.System.{System};

/// In a moment in which a destination does nothing, nothing is due.
pub fn rests_owe_nothing()
    ensures lands { (spell : Spelling) (meaning : Meaning) (s : System) (k : ℕ) → ((j : ℕ) → s.job (suc k) j ≡ s.job k j) → LandsWell spell meaning s k }
    ensures holds { (spell : Spelling) (meaning : Meaning) (s : System) (k : ℕ) → ((worker : ℕ) → s.holds (suc k) worker ≡ s.holds k worker)
        → s.deed k ≡ Plain Rests → HoldsWell spell meaning s k }
{}
