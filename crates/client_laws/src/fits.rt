ghost use Rattle.std.specs.Prelude.{◌<◌, ℕ};
ghost use Rattle.caller_laws.specs.Good.{Identity};
ghost use Rattle.client_core.specs.Endings.{Ways, ways_of};
ghost use Rattle.client_core.specs.State.{ClientState};
ghost use Rattle.client_laws.specs.Bounds.Known.{ClientIsFit};
ghost use Rattle.client_laws.specs.Bounds.Ways.{WaysAreFit};
ghost use Rattle.client_laws.specs.CallerLaws.{StartsOwn};
ghost use Rattle.client_laws.specs.Fits.{TurnIsFit};
ghost use Rattle.client_laws.specs.Turns.{IsTurn, MayTurn, Turn};
ghost use Rattle.client_laws.specs.WholeTurns.{IsGoodTurn, IsSettled, IsSpelledTurn, Purposes};
ghost use Rattle.client_steps.specs.declared.setting.Setting.{Setting};
ghost use Rattle.outbox.specs.declared.outgoing.Outbox.{Outbox};

use crate::whole::{clients_stay_settled, turns_are_lawful};
use caller_laws::one_step::sends_are_counted;
use gss_mech::Mechanism;
use streams::Draws;

/// From a client that is fit, what a turn asks can be spelled at both servers, where what it is told to do is within bounds and what
/// comes is bytes; so [`turns_are_lawful`](crate::turns_are_lawful) holds of it. This holds while there is an xid left.
pub fn turns_are_spelled<M, W: Draws>()
    ensures { (ways : Ways) (who : Identity) (boot : ℕ) (purposes : Purposes) (turn : Turn) (c d : ClientState M) (v w : W) (out : Outbox)
        → StartsOwn who ways W.gives → MayTurn turn c → WaysAreFit ways W.gives → ClientIsFit c → TurnIsFit turn
        → IsTurn ways W.gives turn c v w (d, out) → d.calls < 4294967295 → IsSpelledTurn who ways boot purposes turn c d out }
{
    sends_are_counted();
}

/// And the turn leaves a client that is fit.
pub fn turns_leave_clients_fit<M, W: Draws>()
    ensures { (ways : Ways) (turn : Turn) (c d : ClientState M) (v w : W) (out : Outbox)
        → WaysAreFit ways W.gives → ClientIsFit c → TurnIsFit turn → IsTurn ways W.gives turn c v w (d, out) → ClientIsFit d }
{}

/// So each turn of a client that is settled and fit obeys the laws of both wires, and leaves one that is.
pub fn fit_turns_are_lawful<M: Mechanism, W: Draws>()
    ensures { (s : Setting M) (who : Identity) (boot : ℕ) (purposes : Purposes) (turn : Turn) (c d : ClientState M) (v w : W) (out : Outbox)
        → StartsOwn who (ways_of M.mic_of M.derived M.finished M.started M.accepted s) W.gives → MayTurn turn c
        → WaysAreFit (ways_of M.mic_of M.derived M.finished M.started M.accepted s) W.gives → TurnIsFit turn → IsSettled who c → ClientIsFit c
        → IsTurn (ways_of M.mic_of M.derived M.finished M.started M.accepted s) W.gives turn c v w (d, out) → d.calls < 4294967295
        → IsGoodTurn who (ways_of M.mic_of M.derived M.finished M.started M.accepted s) boot purposes turn c d out }
{
    turns_are_spelled::<M, W>();
    turns_leave_clients_fit::<M, W>();
    turns_are_lawful::<M>();
    clients_stay_settled::<M, W>();
}
