//! The names of copies.

ghost use Rattle.std.specs.Prelude.{◌≡◌, ◌<◌, ℕ, suc, List, Option};
ghost use Rattle.dest_core.specs.Stepping.{DestState, DestStep, copier_in};
ghost use Rattle.dest_laws.specs.Deeds.{ByDeeds};
ghost use Rattle.dest_laws.specs.View.Steps.{ShowsStep};
ghost use Rattle.wire_lines.specs.declared.letters.Speaker.{Speaker};
ghost use Rattle.wire_model.specs.Meaning.{Meaning};
ghost use Rattle.wire_model.specs.Spelling.{Spelling};
ghost use Rattle.wire_model.specs.System.{System};
ghost use Rattle.wire_model.specs.Wire.{Executed};

use crate::histories::entries_grow_by_deeds;

/// In each step of a destination, whose jobs go on by deeds, a copy keeps its name, and no two have one (RFC 8881 section 8.2).
pub fn names_stay<M>()
    ensures stays { (spell : Spelling) (meaning : Meaning) (s : System) (k : ℕ) (took : Option (List ℕ)) (speaker : Speaker) (executed : Option Executed) (d : DestState M) (t : DestStep M)
        → ShowsStep spell meaning s k took speaker executed d t → ByDeeds (copier_in d).copies.book (copier_in t.host).copies.book
        → (j : ℕ) → s.name (suc k) j ≡ s.name k j }
    ensures one { (spell : Spelling) (meaning : Meaning) (s : System) (k : ℕ) (took : Option (List ℕ)) (speaker : Speaker) (executed : Option Executed) (d : DestState M) (t : DestStep M)
        → ShowsStep spell meaning s k took speaker executed d t → (j l : ℕ) → j < l → s.name (suc k) j ≡ s.name (suc k) l → ⊥ }
{
    entries_grow_by_deeds();
}
