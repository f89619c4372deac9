ghost use Rattle.copy_model.specs.Promise.{IsKept, IsStopped};
ghost use Rattle.wire_model.specs.Spelling.{Spelling};
ghost use Rattle.wire_model.specs.Meaning.{Meaning};
ghost use Rattle.wire_model.specs.System.{System, history};
ghost use Rattle.wire_model.specs.WordKept.{IsWordKept};
ghost use Rattle.wire_model.specs.Lawful.{IsLawfulSystem, IsTruthful};

/// A system whose machines obey their laws keeps its copies and stops them, whatever is lost, repeated or
/// reordered on the wire, and whenever its servers crash; and the client keeps its word.
pub fn lawful_systems()
    ensures kept { (spell : Spelling) (meaning : Meaning) (s : System) → IsLawfulSystem spell meaning s → IsKept (history s) }
    ensures stopped { (spell : Spelling) (meaning : Meaning) (s : System) → IsLawfulSystem spell meaning s → IsStopped (history s) }
    // Each `stable` and `exact` that the client says of a copy is so.
    ensures word { (spell : Spelling) (meaning : Meaning) (s : System) → IsLawfulSystem spell meaning s → IsTruthful spell meaning s
        → IsWordKept meaning s }
{
    copy_model::volume_effects();
    copy_model::alike_volumes();
    copy_model::change_names_contents();
    copy_model::logs_grow();
    copy_model::log_marks();
    copy_model::lawful_runs();
}
