ghost use Rattle.std.specs.Prelude.{◌≡◌, ℕ, List, []};
ghost use Rattle.caller_laws.specs.Good.{Identity};
ghost use Rattle.client_core.specs.Endings.{ways_of};
ghost use Rattle.client_core.specs.State.{new_client};
ghost use Rattle.client_laws.specs.Bounds.Known.{SettingIsFit};
ghost use Rattle.client_laws.specs.Bounds.Ways.{WaysAreFit};
ghost use Rattle.client_laws.specs.CallerLaws.{StartsOwn};
ghost use Rattle.client_laws.specs.WholeTurns.{Purposes};
ghost use Rattle.client_site.specs.Sites.{end_of};
ghost use Rattle.client_steps.specs.declared.setting.Setting.{Setting};
ghost use Rattle.nfs_base.specs.declared.seal.End.{End};
ghost use Rattle.nfs_base.specs.declared.side.Side.{Side};
ghost use Rattle.run_checks.specs.Listed.{reading_of};
ghost use Rattle.run_ends.specs.Ends.{RunStep, RunWorld, count_gives, run_machines, words_of};
ghost use Rattle.run_promise.specs.Client.Along.{AreUnmistaken, ClientObeys, GoesAlong, MayGo, system_by};
ghost use Rattle.run_promise.specs.System.System.{ClientView};
ghost use Rattle.wire_machine.specs.Runs as runs;
ghost use Rattle.wire_machine.specs.Runs.{Numbered, Runs};
ghost use Rattle.wire_machine.specs.Steps.{AreSteps};
ghost use Rattle.wire_model.specs.CallerLaws.{CallerStart};
ghost use Rattle.wire_model.specs.Meaning.{Meaning};
ghost use Rattle.wire_model.specs.Spelling.{Spelling};
ghost use Rattle.wire_model.specs.System.{wire_of};
ghost use Rattle.wire_spelling.specs.Spelling.{spelling};

use caller_laws::one_step::runs_are_lawful;
use client_laws::bounds::clients_begin_fit;
use client_laws::{
    clients_begin_lawful, clients_stay_settled, each_step_counts_one, turns_are_lawful,
    turns_are_spelled, turns_leave_clients_fit,
};
use gss_mech::Mechanism;
use streams::CountDraws;

/// From its beginning the client goes along a run by turns at both servers, whose calls can be spelled, and by rests; between them it
/// is settled and fit. It rests on tokens that are the client's own, a mechanism and places that are fit, and acts that may be made.
pub fn clients_go_by_turns<M: Mechanism>()
    ensures { (spell : Spelling) (meaning : Meaning) (who : Identity) (s : Setting M) (first : RunWorld M) (steps : List (RunStep M))
        → first.client ≡ new_client s → AreSteps (run_machines M.mic_of M.derived M.started M.accepted M.finished) first steps
        → StartsOwn who (ways_of M.mic_of M.derived M.finished M.started M.accepted s) count_gives
        → WaysAreFit (ways_of M.mic_of M.derived M.finished M.started M.accepted s) count_gives → SettingIsFit s
        → MayGo (words_of M.mic_of M.derived M.started M.accepted M.finished count_gives) spell meaning first steps
        → GoesAlong (words_of M.mic_of M.derived M.started M.accepted M.finished count_gives) spell meaning first steps who }
{
    turns_are_spelled::<M, CountDraws>();
    turns_leave_clients_fit::<M, CountDraws>();
    each_step_counts_one::<M, CountDraws>();
    clients_stay_settled::<M, CountDraws>();
    clients_begin_fit::<M>();
}

/// So in the run's system the client has and awaits nothing at first, and obeys the laws of a caller of each server in each step.
pub fn clients_are_lawful<M: Mechanism>()
    ensures start { (spell : Spelling) (meaning : Meaning) (seen : ClientView M) (s : Setting M) (first : RunWorld M) (steps : List (RunStep M))
        (purposes : ℕ → Purposes) (side : Side) → first.client ≡ new_client s
        → CallerStart ((system_by (words_of M.mic_of M.derived M.started M.accepted M.finished count_gives) spell meaning seen first steps purposes).caller (end_of side) End.Client 0) }
    ensures laws { (meaning : Meaning) (seen : ClientView M) (who : Identity) (first : RunWorld M) (steps : List (RunStep M))
        (along : GoesAlong (words_of M.mic_of M.derived M.started M.accepted M.finished count_gives) (spelling who.accepts who.whose) meaning first steps who)
        (side : Side) (k : ℕ)
        → ClientObeys (spelling who.accepts who.whose) who.own
        (system_by (words_of M.mic_of M.derived M.started M.accepted M.finished count_gives) (spelling who.accepts who.whose) meaning seen first steps along.purposes)
        (end_of side) k }
{
    clients_begin_lawful::<M>();
    turns_are_lawful::<M>();
    runs_are_lawful::<M>();
}

/// In the system of a schedule's run no end is mistaken in any step, on the wire of any server.
pub fn wires_are_unmistaken<M: Mechanism>()
    ensures { (spell : Spelling) (meaning : Meaning) (seen : ClientView M) (first : RunWorld M) (steps : List (RunStep M)) (purposes : ℕ → Purposes)
        (owner : End) (events : List Numbered) (end : runs.End) → first.log ≡ [] → first.steps ≡ 0
        → Runs (run_machines M.mic_of M.derived M.started M.accepted M.finished) (reading_of spell) first events steps end
        → AreUnmistaken spell (wire_of (system_by (words_of M.mic_of M.derived M.started M.accepted M.finished count_gives) spell meaning seen first steps purposes) owner) }
{}
