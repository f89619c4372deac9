ghost use Rattle.std.specs.Prelude.{◌≡◌, ℕ, List, Some};
ghost use Rattle.caller_laws.specs.Good.{Identity};
ghost use Rattle.client_core.specs.Endings.{Ways, ways_of};
ghost use Rattle.client_core.specs.State.{ClientState, new_client};
ghost use Rattle.client_laws.specs.MountTurns.{TakesBytes};
ghost use Rattle.client_laws.specs.Speaking.Places.{IsPlacedClient};
ghost use Rattle.client_laws.specs.Turns.{IsTurn, MayTurn, Turn};
ghost use Rattle.client_laws.specs.WholeTurns.{IsSettled};
ghost use Rattle.client_steps.specs.declared.setting.Setting.{Setting};
ghost use Rattle.outbox.specs.declared.outgoing.Outbox.{Outbox};

use caller_laws::one_step::sends_are_counted;
use caller_laws::steps_are_lawful;
use gss_mech::Mechanism;
use streams::Draws;

/// What a client awaits at each place, at the beginning and behind each turn.
pub fn places_stay<M: Mechanism, W: Draws>()
    ensures begin { (s : Setting M) → IsPlacedClient (new_client s) }
    ensures stay { (s : Setting M) (who : Identity) (turn : Turn) (c d : ClientState M) (v w : W) (out : Outbox)
        → IsSettled who c → MayTurn turn c → TakesBytes turn
        → IsTurn (ways_of M.mic_of M.derived M.finished M.started M.accepted s) W.gives turn c v w (d, out)
        → IsPlacedClient c → IsPlacedClient d }
{
    sends_are_counted();
    steps_are_lawful::<M>();
}
