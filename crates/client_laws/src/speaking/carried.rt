ghost use Rattle.std.specs.Prelude.{◌≡◌, ◌<◌, ℕ, List};
ghost use Rattle.caller_laws.specs.Good.{Identity};
ghost use Rattle.client_core.specs.Endings.{Ways, ways_of};
ghost use Rattle.client_core.specs.State.{ClientState, new_client};
ghost use Rattle.client_laws.specs.MountTurns.{TakesBytes};
ghost use Rattle.client_laws.specs.Speaking.Carried.{IsCarried, SendsBytes};
ghost use Rattle.client_laws.specs.Turns.{IsTurn, MayTurn, Turn};
ghost use Rattle.client_laws.specs.WholeTurns.{IsSpelledAtBoth, IsTurnAtBoth, Purposes, acts_of};
ghost use Rattle.client_steps.specs.declared.setting.Setting.{Setting};
ghost use Rattle.outbox.specs.declared.outgoing.Outbox.{Outbox};

use crate::speaking::places::places_stay;
use crate::{
    clients_begin_lawful, clients_stay_settled, copies_begin_by_command, copies_change_by_causes,
    turns_are_lawful,
};
use caller_laws::one_step::sends_are_counted;
use caller_laws::steps_are_lawful;
use gss_mech::Mechanism;
use streams::Draws;

/// What holds of a client between turns: among it, that each call in a slot is awaited under the root that is mounted, and asks
/// by what is known of the copy of its place.
pub fn clients_carry_on<M: Mechanism, W: Draws>()
    ensures begin { (s : Setting M) (who : Identity) (boot : ℕ) (purposes : Purposes) → IsCarried who boot purposes (new_client s) }
    ensures stay { (s : Setting M) (who : Identity) (boot : ℕ) (purposes : Purposes) (turn : Turn) (c d : ClientState M) (v w : W) (out : Outbox)
        (t : IsTurnAtBoth who (ways_of M.mic_of M.derived M.finished M.started M.accepted s) boot purposes turn c d out)
        → MayTurn turn c → TakesBytes turn
        → IsTurn (ways_of M.mic_of M.derived M.finished M.started M.accepted s) W.gives turn c v w (d, out)
        → IsSpelledAtBoth who (ways_of M.mic_of M.derived M.finished M.started M.accepted s) boot purposes turn c d out t
        → SendsBytes (acts_of turn out)
        → IsCarried who boot purposes c → IsCarried who boot (λ side. (t side).after) d }
{
    places_stay::<M, W>();
    steps_are_lawful::<M>();
    sends_are_counted();
    clients_begin_lawful::<M>();
    clients_stay_settled::<M, W>();
    turns_are_lawful::<M>();
    copies_change_by_causes::<M, W>();
    copies_begin_by_command::<M, W>();
}
