ghost use Rattle.std.specs.Prelude.{◌≡◌, ◌<◌, ◌^◌, ℕ, suc, List, Option};
ghost use Rattle.copy_model.specs.Effect.{Rests};
ghost use Rattle.dest_core.specs.Stepping.{DestState, DestStep, IsReply, IsWork, failure_step, tick_step};
ghost use Rattle.dest_laws.specs.Landings.Orderly.{LandsAndHolds};
ghost use Rattle.dest_laws.specs.View.Steps.{Shows, ShowsStep};
ghost use Rattle.dest_steps.specs.Copier.{Codes};
ghost use Rattle.wire_lines.specs.declared.letters.Speaker.{Speaker};
ghost use Rattle.wire_model.specs.Copies.{Plain};
ghost use Rattle.wire_model.specs.CopyLaws.{VolumeLaws};
ghost use Rattle.wire_model.specs.Meaning.{Meaning};
ghost use Rattle.wire_model.specs.Spelling.{Spelling};
ghost use Rattle.wire_model.specs.System.{System, dest_effect};
ghost use Rattle.wire_model.specs.Wire.{Executed};

use streams::Draws;

/// Besides records on connections, each step of a destination changes its volume by one effect that is allowed, which is that of what the
/// step is seen to do; a moment in which it rests changes nothing.
pub fn volumes_go_on<M, W: Draws>()
    // A worker's turn, and a record of the source. What a step is to the volume is said by [`landings_are_due`].
    ensures work { (spell : Spelling) (meaning : Meaning) (s : System) (k : ℕ) (took : Option (List ℕ)) (speaker : Speaker) (executed : Option Executed)
        (started : List ℕ → List ℕ → Option (List ℕ)) (codes : Codes) (place now : ℕ) (d : DestState M) (before after : W) (t : DestStep M)
        → ShowsStep spell meaning s k took speaker executed d t → IsWork W.gives started codes place now d before after t
        → LandsAndHolds spell meaning s k t → d.state.machine.store.volume.writes < 2 ^ 32
        → VolumeLaws (s.dest k) (s.dest (suc k)) (dest_effect s k) }
    ensures reply { (spell : Spelling) (meaning : Meaning) (s : System) (k : ℕ) (took : Option (List ℕ)) (speaker : Speaker) (executed : Option Executed)
        (codes : Codes) (finish : List ℕ → List ℕ → Option (List ℕ)) (place : ℕ) (message : List ℕ) (now : ℕ) (d : DestState M) (t : DestStep M)
        → ShowsStep spell meaning s k took speaker executed d t → IsReply codes finish place message now d t
        → LandsAndHolds spell meaning s k t → d.state.machine.store.volume.writes < 2 ^ 32
        → VolumeLaws (s.dest k) (s.dest (suc k)) (dest_effect s k) }
    // A link that failed, a second that comes by itself, and a moment in which nothing happens.
    ensures failure { (spell : Spelling) (meaning : Meaning) (s : System) (k : ℕ) (took : Option (List ℕ)) (speaker : Speaker) (executed : Option Executed)
        (codes : Codes) (place : ℕ) (d : DestState M) → ShowsStep spell meaning s k took speaker executed d (failure_step codes place d)
        → VolumeLaws (s.dest k) (s.dest (suc k)) (dest_effect s k) }
    ensures tick { (spell : Spelling) (meaning : Meaning) (s : System) (k : ℕ) (took : Option (List ℕ)) (speaker : Speaker) (executed : Option Executed)
        (codes : Codes) (now : ℕ) (d : DestState M) → ShowsStep spell meaning s k took speaker executed d (tick_step codes now d)
        → VolumeLaws (s.dest k) (s.dest (suc k)) (dest_effect s k) }
    ensures rest { (s : System) (k : ℕ) (d : DestState M) → Shows s k d → Shows s (suc k) d → s.deed k ≡ Plain Rests
        → VolumeLaws (s.dest k) (s.dest (suc k)) (dest_effect s k) }
{}
