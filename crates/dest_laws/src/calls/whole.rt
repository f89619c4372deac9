ghost use Rattle.std.specs.Prelude.{◌≡◌, ℕ, List, suc, Option, Some};
ghost use Rattle.caller_laws.specs.Fitting.Fitting.{MountIsFit};
ghost use Rattle.caller_laws.specs.Fitting.Moving.{GivesBytes};
ghost use Rattle.caller_laws.specs.Good.{Identity};
ghost use Rattle.caller_laws.specs.OneStep.Runs.{AreSpelled};
ghost use Rattle.caller_laws.specs.Tokens.{known_by};
ghost use Rattle.copy_privs.specs.declared.peer.Peer.{Peer};
ghost use Rattle.dest_core.specs.Core.{no_copier};
ghost use Rattle.dest_core.specs.Stepping.{DestState, DestStep, IsRecord, IsReply, IsWork, copier_in, tick_step};
ghost use Rattle.dest_laws.specs.Calls.Fits.{SendsAreFit};
ghost use Rattle.dest_laws.specs.Calls.Settled.{IsSettledAs};
ghost use Rattle.dest_laws.specs.Calls.Steps.{IsSeen, StartsOwn, mount_of};
ghost use Rattle.dest_laws.specs.Deeds.{ByDeeds};
ghost use Rattle.dest_laws.specs.Own.Going.{jobs_in};
ghost use Rattle.dest_laws.specs.View.Steps.{ShowsStep, part_by};
ghost use Rattle.dest_laws.specs.View.View.{caller_in};
ghost use Rattle.dest_steps.specs.Copier.{Codes};
ghost use Rattle.gss_mech.specs.Tokens.{IsNonce};
ghost use Rattle.nfs_base.specs.declared.seal.End.{End};
ghost use Rattle.nfs_base.specs.declared.seal.End.TheVariants.{Dest, Source};
ghost use Rattle.streams.specs.declared.draws.Drawn.TheVariants.{Got};
ghost use Rattle.wire_lines.specs.declared.letters.Speaker.{Speaker};
ghost use Rattle.wire_machine.specs.History.{part_acts};
ghost use Rattle.wire_model.specs.CallerLaws.{CallerLaws};
ghost use Rattle.wire_model.specs.Meaning.{Meaning};
ghost use Rattle.wire_model.specs.System.{System};
ghost use Rattle.wire_model.specs.Wire.{Acts, Executed};
ghost use Rattle.wire_spelling.specs.Spelling.{spelling};

use crate::calls::following::SeatsAlong;
use caller_laws::fitting::{mounts_stay_fit, what_is_asked_is_spelled};
use caller_laws::one_step::whole_steps_are_lawful;
use caller_laws::{mounts_begin_lawful, tokens_are_their_senders};
use dest_core::Destination;
use dest_jobs::Carried;
use gss_mech::Mechanism;
use own_laws::own_parts_go_on;
use reply_laws::servers_send_replies;
use streams::Draws;

/// A step that is seen so obeys the laws that a destination owes the wire of its source, where what it asks can be spelled; and
/// where its jobs go on by deeds it stays as it should be.
pub fn seen_steps_are_lawful<M: Mechanism>()
    ensures laws { (mech : M) (principal : List ℕ) (who : Identity) (s t : DestState M) (shown : Acts)
        (seen : IsSeen who (record { mic = M.mic_of; derived = M.derived; finished = M.finished mech principal }) s t shown)
        → AreSpelled (record { mic = M.mic_of; derived = M.derived; finished = M.finished mech principal }) seen.step.steps (mount_of s)
        → IsSettledAs who (copier_in s)
        → CallerLaws (spelling who.accepts who.whose) Source who.own (caller_in s) (caller_in t) shown }
    ensures settled { (mech : M) (principal : List ℕ) (who : Identity) (s t : DestState M) (shown : Acts)
        (seen : IsSeen who (record { mic = M.mic_of; derived = M.derived; finished = M.finished mech principal }) s t shown)
        → AreSpelled (record { mic = M.mic_of; derived = M.derived; finished = M.finished mech principal }) seen.step.steps (mount_of s)
        → IsSettledAs who (copier_in s) → ByDeeds (jobs_in s) (jobs_in t) → IsSettledAs who (copier_in t) }
    // In the words of a system that shows it.
    ensures shown { (mech : M) (principal : List ℕ) (who : Identity) (meaning : Meaning) (y : System) (k : ℕ) (took : Option (List ℕ)) (speaker : Speaker)
        (executed : Option Executed) (d : DestState M) (t : DestStep M) → ShowsStep (spelling who.accepts who.whose) meaning y k took speaker executed d t
        → (seen : IsSeen who (record { mic = M.mic_of; derived = M.derived; finished = M.finished mech principal }) d t.host
        (part_acts (part_by took speaker t) executed))
        → AreSpelled (record { mic = M.mic_of; derived = M.derived; finished = M.finished mech principal }) seen.step.steps (mount_of d)
        → IsSettledAs who (copier_in d) → who.own ≡ Dest
        → CallerLaws (spelling who.accepts who.whose) Source Dest (y.caller Source Dest k) (y.caller Source Dest (suc k)) (y.acts Dest k) }
{
    whole_steps_are_lawful::<M>();
}

/// What a fit mount asks in a step that keeps to the bounds can be spelled, and the mount stays fit (`caller_laws::fitting`).
pub fn fit_steps_are_spelled<M: Mechanism>()
    ensures { (mech : M) (principal : List ℕ) (who : Identity) (s t : DestState M) (shown : Acts)
        (seen : IsSeen who (record { mic = M.mic_of; derived = M.derived; finished = M.finished mech principal }) s t shown)
        → GivesBytes M.mic_of → MountIsFit (mount_of s) → SendsAreFit seen.step.steps
        → AreSpelled (record { mic = M.mic_of; derived = M.derived; finished = M.finished mech principal }) seen.step.steps (mount_of s)
        × MountIsFit (mount_of t) }
{
    mounts_stay_fit();
    what_is_asked_is_spelled();
}

/// A destination that was just opened is as it should be.
pub fn destinations_begin_settled()
    ensures { (who : Identity) (boot capacity : ℕ) (source : Peer) (principal : List ℕ) → IsSettledAs who (no_copier boot capacity source principal) }
{
    mounts_begin_lawful();
}

/// The contexts of a destination stay its own.
pub fn contexts_stay_own<M: Mechanism, W: Draws>()
    ensures record_ { (mech : M) (conn : ℕ) (message : List ℕ) (now : ℕ) (s : DestState M) (before after : W) (t : DestStep M)
        → IsRecord (record { mic = M.mic_of; derived = M.derived }) (M.accepted mech) W.gives conn message now s before after t
        → t.host.contexts.owner ≡ s.contexts.owner }
    ensures work { (started : List ℕ → List ℕ → Option (List ℕ)) (codes : Codes) (place now : ℕ) (s : DestState M) (before after : W) (t : DestStep M)
        → IsWork W.gives started codes place now s before after t → t.host.contexts.owner ≡ s.contexts.owner }
    ensures reply { (codes : Codes) (finish : List ℕ → List ℕ → Option (List ℕ)) (place : ℕ) (message : List ℕ) (now : ℕ) (s : DestState M) (t : DestStep M)
        → IsReply codes finish place message now s t → t.host.contexts.owner ≡ s.contexts.owner }
    ensures tick { (codes : Codes) (now : ℕ) (s : DestState M) → (tick_step codes now s).host.contexts.owner ≡ s.contexts.owner }
{
    servers_send_replies::<Destination<M>, Carried, W>();
}

/// A destination goes by one principal.
pub fn principals_stay<M: Mechanism, W: Draws>()
    ensures record_ { (mech : M) (conn : ℕ) (message : List ℕ) (now : ℕ) (s : DestState M) (before after : W) (t : DestStep M)
        → IsRecord (record { mic = M.mic_of; derived = M.derived }) (M.accepted mech) W.gives conn message now s before after t
        → (copier_in t.host).principal ≡ (copier_in s).principal }
    ensures work { (started : List ℕ → List ℕ → Option (List ℕ)) (codes : Codes) (place now : ℕ) (s : DestState M) (before after : W) (t : DestStep M)
        → IsWork W.gives started codes place now s before after t → (copier_in t.host).principal ≡ (copier_in s).principal }
    ensures reply { (codes : Codes) (finish : List ℕ → List ℕ → Option (List ℕ)) (place : ℕ) (message : List ℕ) (now : ℕ) (s : DestState M) (t : DestStep M)
        → IsReply codes finish place message now s t → (copier_in t.host).principal ≡ (copier_in s).principal }
    ensures tick { (codes : Codes) (now : ℕ) (s : DestState M) → (copier_in (tick_step codes now s).host).principal ≡ (copier_in s).principal }
{
    own_parts_go_on::<SeatsAlong, Destination<M>, Carried, W>();
}

/// It goes by one mechanism.
pub fn mechanisms_stay<M: Mechanism, W: Draws>()
    ensures record_ { (mech : M) (conn : ℕ) (message : List ℕ) (now : ℕ) (s : DestState M) (before after : W) (t : DestStep M)
        → IsRecord (record { mic = M.mic_of; derived = M.derived }) (M.accepted mech) W.gives conn message now s before after t
        → t.host.state.machine.extra.mech ≡ s.state.machine.extra.mech }
    ensures work { (started : List ℕ → List ℕ → Option (List ℕ)) (codes : Codes) (place now : ℕ) (s : DestState M) (before after : W) (t : DestStep M)
        → IsWork W.gives started codes place now s before after t → t.host.state.machine.extra.mech ≡ s.state.machine.extra.mech }
    ensures reply { (codes : Codes) (finish : List ℕ → List ℕ → Option (List ℕ)) (place : ℕ) (message : List ℕ) (now : ℕ) (s : DestState M) (t : DestStep M)
        → IsReply codes finish place message now s t → t.host.state.machine.extra.mech ≡ s.state.machine.extra.mech }
    ensures tick { (codes : Codes) (now : ℕ) (s : DestState M) → (tick_step codes now s).host.state.machine.extra.mech ≡ s.state.machine.extra.mech }
{
    own_parts_go_on::<SeatsAlong, Destination<M>, Carried, W>();
}

/// The tokens that its principal starts are its own, to every server of its mechanism, where what is drawn are nonces (RFC 2203
/// section 5.2.2).
pub fn started_tokens_are_own<M: Mechanism, W: Draws>()
    ensures { (mech : M) (principal other : List ℕ) (whose : List ℕ → Option End) (own : End)
        → ((v w : W) (nonce : List ℕ) → W.gives v (Got nonce) w → IsNonce nonce) → IsNonce other → whose principal ≡ Some own
        → StartsOwn (known_by (M.accepted mech) other whose own) (M.started mech principal) W.gives }
{
    tokens_are_their_senders::<M>();
}
