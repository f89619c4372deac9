//! What a destination shows in an opening, behind the copies of its openings before.

ghost use Rattle.std.specs.Prelude.{ℕ};
ghost use Rattle.nfs_base.specs.declared.seal.End.{End};
ghost use Rattle.opening_laws.specs.Behind.{GoesBehind, caller_behind};
ghost use Rattle.wire_model.specs.CallerLaws.{CallerLaws};
ghost use Rattle.wire_model.specs.CopyLaws.{CopiesLaws};
ghost use Rattle.wire_model.specs.Meaning.{Meaning};
ghost use Rattle.wire_model.specs.NameLaws.{NameLaws};
ghost use Rattle.wire_model.specs.Spelling.{Spelling};
ghost use Rattle.wire_model.specs.System.{System};
ghost use Rattle.wire_model.specs.Wire.{Acts, Caller};

/// A caller that obeys its laws in a step obeys them too where its calls for copies are counted behind others.
pub fn callers_stand_behind()
    ensures { (spell : Spelling) (owner own : End) (base : ℕ) (v w : Caller) (a : Acts) → CallerLaws spell owner own v w a
        → CallerLaws spell owner own (caller_behind base v) (caller_behind base w) a }
{}

/// Copies that obey their laws in a step of an opening obey them too behind those of the openings before, which are lost.
pub fn copies_stand_behind()
    ensures { (spell : Spelling) (meaning : Meaning) (base : ℕ) (own : System) (i : ℕ) (s : System) (k : ℕ) → GoesBehind base own i s k
        → CopiesLaws spell meaning own i → CopiesLaws spell meaning s k }
{}

/// So do their names, where those of the openings before are others.
pub fn names_stand_behind()
    ensures { (spell : Spelling) (meaning : Meaning) (base : ℕ) (own : System) (i : ℕ) (s : System) (k : ℕ) → GoesBehind base own i s k
        → NameLaws spell meaning own i → NameLaws spell meaning s k }
{}
