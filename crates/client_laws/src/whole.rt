ghost use Rattle.std.specs.Prelude.{◌≡◌, ℕ, List};
ghost use Rattle.caller_laws.specs.Good.{Identity};
ghost use Rattle.client_core.specs.Endings.{Ways, ways_of};
ghost use Rattle.client_core.specs.State.{ClientState, new_client};
ghost use Rattle.client_laws.specs.MountTurns.{TakesBytes};
ghost use Rattle.client_laws.specs.Turns.{IsTurn, Turn};
ghost use Rattle.client_laws.specs.WholeTurns.{IsLawfulTurn, IsSettled, IsSpelledAtBoth, IsTurnAtBoth, Purposes};
ghost use Rattle.client_steps.specs.declared.setting.Setting.{Setting};
ghost use Rattle.nfs_base.specs.declared.side.Side.{Side};
ghost use Rattle.outbox.specs.declared.outgoing.Outbox.{Outbox};

use caller_laws::one_step::{calls_have_their_xids, runs_are_lawful, servers_stay};
use caller_laws::{mounts_begin_lawful, steps_are_lawful};
use gss_mech::{Mechanism, tokens_agree};
use streams::Draws;

/// In each turn the client owes each of its servers what every caller owes, in all that it took and sent: the calls to the other
/// server and the answers to callbacks are among it. `turns_are_mount_runs` says that every turn is one at both servers.
pub fn turns_are_lawful<M: Mechanism>()
    ensures { (s : Setting M) (who : Identity) (boot : ℕ) (purposes : Purposes) (turn : Turn) (c d : ClientState M) (out : Outbox)
        (t : IsTurnAtBoth who (ways_of M.mic_of M.derived M.finished M.started M.accepted s) boot purposes turn c d out)
        → IsSettled who c → TakesBytes turn
        → IsSpelledAtBoth who (ways_of M.mic_of M.derived M.finished M.started M.accepted s) boot purposes turn c d out t
        → (side : Side) → IsLawfulTurn who (ways_of M.mic_of M.derived M.finished M.started M.accepted s) boot purposes turn c d out t side }
{
    steps_are_lawful::<M>();
    servers_stay();
    calls_have_their_xids::<M>();
    runs_are_lawful::<M>();
    tokens_agree::<M>();
}

/// What holds between turns, at the beginning and behind each.
pub fn clients_stay_settled<M: Mechanism, W: Draws>()
    ensures begin { (who : Identity) (s : Setting M) → IsSettled who (new_client s) }
    ensures stay { (s : Setting M) (who : Identity) (boot : ℕ) (purposes : Purposes) (turn : Turn) (c d : ClientState M) (v w : W) (out : Outbox)
        (t : IsTurnAtBoth who (ways_of M.mic_of M.derived M.finished M.started M.accepted s) boot purposes turn c d out)
        → IsTurn (ways_of M.mic_of M.derived M.finished M.started M.accepted s) W.gives turn c v w (d, out)
        → IsSettled who c → TakesBytes turn
        → IsSpelledAtBoth who (ways_of M.mic_of M.derived M.finished M.started M.accepted s) boot purposes turn c d out t
        → IsSettled who d }
{
    mounts_begin_lawful();
    steps_are_lawful::<M>();
    servers_stay();
    calls_have_their_xids::<M>();
    runs_are_lawful::<M>();
    tokens_agree::<M>();
}
