//! All that a destination owes for names and reports (`wire_model`'s `NameLaws`).

ghost use Rattle.std.specs.Prelude.{◌≡◌, ℕ, List, [], None, Option, Some, true};
ghost use Rattle.caller_laws.specs.Good.{Identity, IsGood};
ghost use Rattle.dest_core.specs.Stepping.{DestState, DestStep, IsRecord, IsReply, IsWork, failure_step, tick_step};
ghost use Rattle.dest_laws.specs.Names.Holding.{IsFair, IsFairRecord, IsToldRight};
ghost use Rattle.dest_laws.specs.Names.Posts.{AreNotClients};
ghost use Rattle.dest_laws.specs.View.Steps.{ShowsStep};
ghost use Rattle.mount.specs.State.{Mounted};
ghost use Rattle.nfs_base.specs.declared.seal.End.{End};
ghost use Rattle.nfs_base.specs.declared.seal.End.TheVariants.{Source};
ghost use Rattle.server_laws.specs.Acts.{acts_of};
ghost use Rattle.wire_lines.specs.declared.letters.Speaker.{Speaker};
ghost use Rattle.wire_meaning.specs.Meaning.{meaning};
ghost use Rattle.wire_model.specs.Copies.{is_safe};
ghost use Rattle.wire_model.specs.NameLaws.{NameLaws};
ghost use Rattle.wire_model.specs.System.{System};
ghost use Rattle.wire_spelling.specs.Spelling.{spelling};
ghost use Rattle.wire_xdr.specs.Cursor.{IsBytes};

use crate::names::answering::answers_are_right;
use crate::names::holding::reports_stay_right;
use crate::names::naming::names_stay;
use crate::own::steps_go_by_deeds;
use gss_mech::Mechanism;
use streams::Draws;

/// In every step a destination obeys the laws of names and reports, as long as what it holds of its reports is right, which it then
/// stays; and what is marked stable is safe. No context of a good mount of the source is the client's.
pub fn names_are_lawful<M: Mechanism, W: Draws>()
    ensures record_ { (accepts : List ℕ → Option (List ℕ)) (whose : List ℕ → Option End) (s : System) (k : ℕ) (speaker : Speaker) (mech : M) (conn : ℕ)
        (message : List ℕ) (now : ℕ) (d : DestState M) (before after : W) (t : DestStep M)
        → IsRecord (record { mic = M.mic_of; derived = M.derived }) (M.accepted mech) W.gives conn message now d before after t
        → ShowsStep (spelling accepts whose) meaning s k (Some message) speaker (acts_of (record { mic = M.mic_of; derived = M.derived }) message now d t).executed d t
        → IsFairRecord message d t → IsToldRight s k d → NameLaws (spelling accepts whose) meaning s k }
    ensures work { (accepts : List ℕ → Option (List ℕ)) (whose : List ℕ → Option End) (s : System) (k : ℕ) (speaker : Speaker) (started : List ℕ → List ℕ → Option (List ℕ))
        (place now : ℕ) (d : DestState M) (before after : W) (t : DestStep M) → IsWork W.gives started (record { mic = M.mic_of; derived = M.derived }) place now d before after t
        → ShowsStep (spelling accepts whose) meaning s k None speaker None d t → IsFair d t → IsToldRight s k d → NameLaws (spelling accepts whose) meaning s k }
    ensures reply { (accepts : List ℕ → Option (List ℕ)) (whose : List ℕ → Option End) (s : System) (k : ℕ) (speaker : Speaker) (finish : List ℕ → List ℕ → Option (List ℕ))
        (place : ℕ) (message : List ℕ) (now : ℕ) (d : DestState M) (t : DestStep M) → IsReply (record { mic = M.mic_of; derived = M.derived }) finish place message now d t → IsBytes message
        → ShowsStep (spelling accepts whose) meaning s k (Some message) speaker None d t → IsFair d t → IsToldRight s k d → NameLaws (spelling accepts whose) meaning s k }
    ensures failure { (accepts : List ℕ → Option (List ℕ)) (whose : List ℕ → Option End) (s : System) (k : ℕ) (speaker : Speaker) (place : ℕ) (d : DestState M)
        → ShowsStep (spelling accepts whose) meaning s k None speaker None d (failure_step (record { mic = M.mic_of; derived = M.derived }) place d)
        → IsFair d (failure_step (record { mic = M.mic_of; derived = M.derived }) place d) → IsToldRight s k d → NameLaws (spelling accepts whose) meaning s k }
    ensures tick { (accepts : List ℕ → Option (List ℕ)) (whose : List ℕ → Option End) (s : System) (k : ℕ) (speaker : Speaker) (now : ℕ) (d : DestState M)
        → ShowsStep (spelling accepts whose) meaning s k None speaker None d (tick_step (record { mic = M.mic_of; derived = M.derived }) now d)
        → IsFair d (tick_step (record { mic = M.mic_of; derived = M.derived }) now d) → IsToldRight s k d → NameLaws (spelling accepts whose) meaning s k }
    ensures rest { (accepts : List ℕ → Option (List ℕ)) (whose : List ℕ → Option End) (s : System) (k : ℕ) (took : Option (List ℕ)) (speaker : Speaker) (d : DestState M) (t : DestStep M)
        → ShowsStep (spelling accepts whose) meaning s k took speaker None d t → t.host ≡ d → t.out.sent ≡ [] → IsToldRight s k d
        → NameLaws (spelling accepts whose) meaning s k }
    ensures own { (who : Identity) (m : Mounted) → IsGood who m → m.server ≡ Source → AreNotClients m.contexts }
    ensures stable { (s : System) (k : ℕ) (d : DestState M) → IsToldRight s k d → (j : ℕ) → (s.job k j).stable ≡ true → is_safe (s.job k j) ≡ true }
{
    answers_are_right::<M, W>();
    reports_stay_right::<M, W>();
    names_stay::<M>();
    steps_go_by_deeds::<M, W>();
}
