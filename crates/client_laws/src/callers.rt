ghost use Rattle.std.specs.Prelude.{◌≡◌, ◌<◌, ℕ, List, Option, Some};
ghost use Rattle.caller_laws.specs.Good.{Identity, IsGood};
ghost use Rattle.caller_laws.specs.OneStep.Runs.{AreSpelled, MountStep};
ghost use Rattle.caller_laws.specs.Tokens.{known_by};
ghost use Rattle.caller_laws.specs.View.{Above, caller_of};
ghost use Rattle.client_core.specs.Endings.{Ways};
ghost use Rattle.client_core.specs.State.{ClientState, new_client};
ghost use Rattle.client_core.specs.Telling.{mount_at};
ghost use Rattle.client_laws.specs.CallerLaws.{AllObey, IsMountRun, PurposesFit, StartsOwn, above_at};
ghost use Rattle.client_laws.specs.MountTurns.{IsMountTurn};
ghost use Rattle.client_laws.specs.Turns.{IsTurn, MayTurn, Turn};
ghost use Rattle.client_steps.specs.declared.setting.Setting.{Setting};
ghost use Rattle.gss_mech.specs.Tokens.{IsNonce};
ghost use Rattle.mount.specs.State.{Mounted};
ghost use Rattle.nfs_base.specs.declared.seal.End.{End};
ghost use Rattle.nfs_base.specs.declared.side.Side.{Side};
ghost use Rattle.outbox.specs.declared.outgoing.Outbox.{Outbox};
ghost use Rattle.streams.specs.declared.draws.Drawn.TheVariants.{Got};
ghost use Rattle.wire_model.specs.CallerLaws.{CallerStart};
ghost use Rattle.wire_model.specs.Wire.{Purpose};

use caller_laws::one_step::sends_are_counted;
use caller_laws::{mounts_begin_lawful, steps_are_lawful, tokens_are_their_senders};
use gss_mech::Mechanism;
use streams::Draws;

/// What a client does at the source in a step, and at the destination, is a run of its mount's steps there, each of which it may
/// take: so by [`mount_runs_are_lawful`] it owes each server what every caller owes. COPY goes out only once the first change
/// attribute is known, and the last GETATTR only once the copy was said to be stable; each call asks by what is known of its copy.
/// This holds while there is an xid left.
pub fn turns_are_mount_runs<M, W: Draws>()
    ensures { (ways : Ways) (who : Identity) (boot : ℕ) (side : Side) (purpose : ℕ → Purpose) (turn : Turn)
        (c d : ClientState M) (v w : W) (out : Outbox)
        → StartsOwn who ways W.gives → MayTurn turn c → IsTurn ways W.gives turn c v w (d, out) → d.calls < 4294967295
        → IsMountTurn who ways boot side purpose turn c d out }
{
    sends_are_counted();
}

/// The tokens that a client starts are its own, to every server of its mechanism, where what is drawn are nonces (RFC 2203 section
/// 5.2.2).
pub fn started_tokens_are_own<M: Mechanism, W: Draws>()
    ensures { (mech : M) (principal other : List ℕ) (whose : List ℕ → Option End) (own : End) (ways : Ways)
        → ((nonce : List ℕ) → ways.started nonce ≡ M.started mech principal nonce)
        → ((v w : W) (nonce : List ℕ) → W.gives v (Got nonce) w → IsNonce nonce) → IsNonce other → whose principal ≡ Some own
        → StartsOwn (known_by (M.accepted mech) other whose own) ways W.gives }
{
    tokens_are_their_senders::<M>();
}

/// At the beginning each mount is as it should be, and has and awaits nothing.
pub fn clients_begin_lawful<M>()
    ensures good { (who : Identity) (side : Side) (s : Setting M) → IsGood who (mount_at side (new_client s)) }
    ensures start { (boot : ℕ) (purpose : ℕ → Purpose) (side : Side) (s : Setting M)
        → CallerStart (caller_of (above_at boot purpose (new_client s)) (mount_at side (new_client s))) }
    ensures fits { (purpose : ℕ → Purpose) (side : Side) (s : Setting M) → PurposesFit side purpose (new_client s).copies }
{
    mounts_begin_lawful();
}

/// Of such a run each step obeys the laws of its server's wire, where what is asked can be spelled, and it leaves the mount as it
/// should be.
pub fn mount_runs_are_lawful<M: Mechanism>()
    ensures laws { (mech : M) (principal : List ℕ) (who : Identity) (steps : List MountStep) (a b : Above) (m n : Mounted)
        → IsMountRun who (record { mic = M.mic_of; derived = M.derived; finished = M.finished mech principal }) steps a m b n
        → AreSpelled (record { mic = M.mic_of; derived = M.derived; finished = M.finished mech principal }) steps m
        → IsGood who m → AllObey who (record { mic = M.mic_of; derived = M.derived; finished = M.finished mech principal }) steps a m }
    ensures good { (mech : M) (principal : List ℕ) (who : Identity) (steps : List MountStep) (a b : Above) (m n : Mounted)
        → IsMountRun who (record { mic = M.mic_of; derived = M.derived; finished = M.finished mech principal }) steps a m b n
        → AreSpelled (record { mic = M.mic_of; derived = M.derived; finished = M.finished mech principal }) steps m
        → IsGood who m → IsGood who n }
{
    steps_are_lawful::<M>();
}
