ghost use Rattle.std.specs.Prelude.{◌≤◌, ℕ, List, Option};
ghost use Rattle.client_laws.specs.WholeTurns.{Purposes};
ghost use Rattle.nfs_base.specs.declared.limits.TheConstants.{MOST_BLOCKS};
ghost use Rattle.nfs_base.specs.declared.seal.End.{End};
ghost use Rattle.nfs_base.specs.declared.side.Side.TheVariants as sides;
ghost use Rattle.run_ends.specs.Ends.{RunStep, RunWorld, run_machines};
ghost use Rattle.run_ends.specs.First.{IsFirst, shape_of};
ghost use Rattle.run_promise.specs.Serving.Lawful.{IsLawfulDest, IsLawfulSource, IsSilentCaller};
ghost use Rattle.run_promise.specs.Serving.Stopping.{CrashesLawfully};
ghost use Rattle.run_promise.specs.System.System.{ClientView, system_of};
ghost use Rattle.wire_machine.specs.Runs.{Numbered};
ghost use Rattle.wire_machine.specs.Steps.{AreSteps};
ghost use Rattle.wire_meaning.specs.Meaning.{meaning};
ghost use Rattle.wire_spelling.specs.Spelling.{spelling};

use dest_core::Destination;
use gss_mech::Mechanism;
use source_core::{Carried, Source};
use streams::CountDraws;

/// The source of every run obeys the laws of a server in each step, its volume goes on as it was formatted by what its steps do, and
/// what it tells is right of its volume. Where it stops it tells nothing, and what the step does is a crash.
pub fn sources_are_lawful<M: Mechanism>()
    ensures { (mech : M) (events : List Numbered) (first : RunWorld M) (steps : List (RunStep M)) (accepts : List ℕ → Option (List ℕ)) (whose : List ℕ → Option End)
        (seen : ClientView M) (purposes : ℕ → Purposes) → IsFirst mech events first → (shape_of sides.Source events).blocks ≤ MOST_BLOCKS
        → AreSteps (run_machines M.mic_of M.derived M.started M.accepted M.finished) first steps
        → IsLawfulSource (spelling accepts whose) meaning (system_of (run_machines M.mic_of M.derived M.started M.accepted M.finished) (record { mic = M.mic_of; derived = M.derived }) (spelling accepts whose) meaning seen first steps purposes) }
{
    server_laws::steps_are_lawful::<Source<M>, Carried, CountDraws>();
    server_laws::rests_are_lawful::<Source<M>, Carried>();
    server_laws::slots_are_kept::<Source<M>, Carried, CountDraws>();
    server_laws::slots_rest::<Source<M>, Carried>();
    server_laws::contexts_stay::<Source<M>, Carried, CountDraws>();
    server_laws::contexts_rest::<Source<M>, Carried>();
    source_told::own_operations_call_none::<M>();
    source_told::source_steps_are_right::<M, CountDraws>();
    tell_laws::volumes_stay_fitting();
    tell_laws::steps_call_once::<Source<M>, Carried, CountDraws>();
    commit_laws::steps_change_by_calls::<Source<M>, Carried, CountDraws>();
    opening_laws::servers_open_anew();
    volume_stops::one_stop_is_one_crash();
}

/// A source that is lawful sends replies alone; so it obeys the laws of a caller of the destination, which it never calls.
pub fn sources_call_nobody<M: Mechanism>()
    ensures { (first : RunWorld M) (steps : List (RunStep M)) (accepts : List ℕ → Option (List ℕ)) (whose : List ℕ → Option End) (seen : ClientView M) (purposes : ℕ → Purposes)
        → IsLawfulSource (spelling accepts whose) meaning (system_of (run_machines M.mic_of M.derived M.started M.accepted M.finished) (record { mic = M.mic_of; derived = M.derived }) (spelling accepts whose) meaning seen first steps purposes)
        → IsSilentCaller (spelling accepts whose) (system_of (run_machines M.mic_of M.derived M.started M.accepted M.finished) (record { mic = M.mic_of; derived = M.derived }) (spelling accepts whose) meaning seen first steps purposes) }
{}

/// The destination of every run obeys the laws of a server in each step, also where it stops. In each step in which it stops, its volume
/// goes on by a crash, which is allowed, as the system shows it, where the destination takes only what calls a volume once at most.
pub fn destinations_are_lawful_servers<M: Mechanism>()
    ensures laws { (mech : M) (events : List Numbered) (first : RunWorld M) (steps : List (RunStep M)) (accepts : List ℕ → Option (List ℕ)) (whose : List ℕ → Option End)
        (seen : ClientView M) (purposes : ℕ → Purposes) → IsFirst mech events first
        → AreSteps (run_machines M.mic_of M.derived M.started M.accepted M.finished) first steps
        → IsLawfulDest (spelling accepts whose) (system_of (run_machines M.mic_of M.derived M.started M.accepted M.finished) (record { mic = M.mic_of; derived = M.derived }) (spelling accepts whose) meaning seen first steps purposes) }
    ensures crashes { (mech : M) (events : List Numbered) (first : RunWorld M) (steps : List (RunStep M)) (accepts : List ℕ → Option (List ℕ)) (whose : List ℕ → Option End)
        (seen : ClientView M) (purposes : ℕ → Purposes) → IsFirst mech events first
        → AreSteps (run_machines M.mic_of M.derived M.started M.accepted M.finished) first steps
        → CrashesLawfully (run_machines M.mic_of M.derived M.started M.accepted M.finished) (record { mic = M.mic_of; derived = M.derived }) (spelling accepts whose) meaning seen first steps purposes }
{
    server_laws::steps_are_lawful::<Destination<M>, dest_jobs::Carried, CountDraws>();
    server_laws::rests_are_lawful::<Destination<M>, dest_jobs::Carried>();
    server_laws::slots_are_kept::<Destination<M>, dest_jobs::Carried, CountDraws>();
    server_laws::slots_rest::<Destination<M>, dest_jobs::Carried>();
    server_laws::contexts_stay::<Destination<M>, dest_jobs::Carried, CountDraws>();
    dest_laws::calls::heard_records_are_not_answered::<M>();
    server_laws::contexts_rest::<Destination<M>, dest_jobs::Carried>();
    tell_laws::volumes_stay_fitting();
    tell_laws::steps_call_once::<Destination<M>, dest_jobs::Carried, CountDraws>();
    commit_laws::steps_change_by_calls::<Destination<M>, dest_jobs::Carried, CountDraws>();
    dest_laws::landings::workers_call_once::<M, CountDraws>();
    opening_laws::servers_open_anew();
    volume_stops::one_stop_is_one_crash();
}
