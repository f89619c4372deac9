//! A step in which a machine is opened anew.

ghost use Rattle.std.specs.Prelude.{◌≡◌, ◌<◌, ℕ, [], None};
ghost use Rattle.nfs_base.specs.declared.seal.End.{End};
ghost use Rattle.nfs_base.specs.declared.seal.End.TheVariants.{Dest};
ghost use Rattle.opening_laws.specs.Anew.{KeepsNames, LosesAll};
ghost use Rattle.wire_model.specs.CallerLaws.{CallerLaws, CallerStart};
ghost use Rattle.wire_model.specs.CopyLaws.{CopiesLaws};
ghost use Rattle.wire_model.specs.Meaning.{Meaning};
ghost use Rattle.wire_model.specs.NameLaws.{NameLaws};
ghost use Rattle.wire_model.specs.ServerLaws.{ServerLaws, ServerStart};
ghost use Rattle.wire_model.specs.Spelling.{Spelling};
ghost use Rattle.wire_model.specs.System.{System};
ghost use Rattle.wire_model.specs.Wire.{Acts, Caller, Server};

/// A server that is opened anew in a step, with a higher opening, no context and no reply that is kept, obeys the laws of a server
/// in it, whatever it took, if it sent nothing.
pub fn servers_open_anew()
    ensures { (spell : Spelling) (owner : End) (v w : Server) (a : Acts) → v.boot < w.boot → ServerStart w → a.out ≡ []
        → ServerLaws spell owner v w a }
{}

/// A caller that is opened anew in a step, with a higher opening, no context, no mount and nothing that is awaited, obeys the laws
/// of a caller in it, whatever it took, if it sent nothing.
pub fn callers_open_anew()
    ensures { (spell : Spelling) (owner own : End) (v w : Caller) (a : Acts) → v.boot < w.boot → CallerStart w → a.out ≡ []
        → CallerLaws spell owner own v w a }
{}

/// A step in which the destination crashes, and all of its copies are lost, obeys the laws of copies.
pub fn crashes_lose_all_copies()
    ensures { (spell : Spelling) (meaning : Meaning) (s : System) (k : ℕ) → LosesAll s k → CopiesLaws spell meaning s k }
{}

/// A step in which it crashes, told nothing and sent nothing, obeys the laws of names.
pub fn crashes_keep_names()
    ensures { (spell : Spelling) (meaning : Meaning) (s : System) (k : ℕ) → KeepsNames s k → (s.acts Dest k).executed ≡ None
        → (s.acts Dest k).out ≡ [] → NameLaws spell meaning s k }
{}
