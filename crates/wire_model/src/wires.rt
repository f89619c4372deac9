ghost use Rattle.wire_model.specs.Spelling.{Spelling};
ghost use Rattle.wire_model.specs.Wire.{Wire};
ghost use Rattle.wire_model.specs.Told.{IsLawfulWire, AreAnswersTold, IsExecutedOnce, AreCallsSimple};

/// On a wire whose ends obey their laws each answer of a slot that a caller takes was told by the server, for
/// a call that was sent before; no number runs twice; and what is executed calls a volume once at most.
pub fn lawful_wires()
    ensures told { (spell : Spelling) (w : Wire) → IsLawfulWire spell w → AreAnswersTold spell w }
    ensures once { (spell : Spelling) (w : Wire) → IsLawfulWire spell w → IsExecutedOnce spell w }
    ensures simple { (spell : Spelling) (w : Wire) → IsLawfulWire spell w → AreCallsSimple spell w }
{}
