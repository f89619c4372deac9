ghost use Rattle.std.specs.Prelude.{ℕ, List, Option, suc};
ghost use Rattle.client_laws.specs.WholeTurns.{Purposes};
ghost use Rattle.dest_laws.specs.View.Dues.{AreSafe};
ghost use Rattle.nfs_base.specs.declared.seal.End.{End};
ghost use Rattle.nfs_base.specs.declared.seal.End.TheVariants.{Dest};
ghost use Rattle.nfs_base.specs.declared.side.Side.TheVariants as sides;
ghost use Rattle.run_ends.specs.Ends.{RunStep, RunWorld, run_machines};
ghost use Rattle.run_promise.specs.Dest.Begun.{IsBegun};
ghost use Rattle.run_promise.specs.Dest.Mounts.{AreFewJobs, AreNotClients, AreSpelled};
ghost use Rattle.run_promise.specs.System.System.{ClientView, opening_of};
ghost use Rattle.wire_machine.specs.Steps.{AreSteps, NeverStops};
ghost use Rattle.wire_meaning.specs.Meaning.{meaning};
ghost use Rattle.wire_model.specs.CopyLaws.{VolumeLaws};
ghost use Rattle.wire_model.specs.NameLaws.{NameLaws};
ghost use Rattle.wire_model.specs.System.{dest_effect};
ghost use Rattle.wire_model.specs.Told.{TakesSimple};
ghost use Rattle.wire_spelling.specs.Spelling.{spelling};

use dest_core::Destination;
use dest_jobs::Carried;
use gss_mech::Mechanism;
use streams::CountDraws;

/// In each step of an opening the volume of the destination goes on by one effect that is allowed, as the system shows it, where the
/// destination takes only what calls a volume once at most.
pub fn volumes_are_lawful<M: Mechanism>()
    ensures { (mech : M) (first : RunWorld M) (steps : List (RunStep M)) (accepts : List ℕ → Option (List ℕ)) (whose : List ℕ → Option End)
        (seen : ClientView M) (purposes : ℕ → Purposes) → IsBegun mech first.dest
        → AreSteps (run_machines M.mic_of M.derived M.started M.accepted M.finished) first steps → NeverStops sides.Dest first steps
        → AreSpelled (run_machines M.mic_of M.derived M.started M.accepted M.finished) (record { mic = M.mic_of; derived = M.derived }) (spelling accepts whose) meaning first steps
        → (k : ℕ)
        → TakesSimple (spelling accepts whose) Dest ((opening_of (run_machines M.mic_of M.derived M.started M.accepted M.finished) (record { mic = M.mic_of; derived = M.derived }) (spelling accepts whose) meaning seen first steps purposes).acts Dest k)
        → VolumeLaws ((opening_of (run_machines M.mic_of M.derived M.started M.accepted M.finished) (record { mic = M.mic_of; derived = M.derived }) (spelling accepts whose) meaning seen first steps purposes).dest k)
        ((opening_of (run_machines M.mic_of M.derived M.started M.accepted M.finished) (record { mic = M.mic_of; derived = M.derived }) (spelling accepts whose) meaning seen first steps purposes).dest (suc k))
        (dest_effect (opening_of (run_machines M.mic_of M.derived M.started M.accepted M.finished) (record { mic = M.mic_of; derived = M.derived }) (spelling accepts whose) meaning seen first steps purposes) k) }
{
    crate::dest::copies::destinations_are_shown::<M>();
    server_laws::steps_are_lawful::<Destination<M>, Carried, CountDraws>();
    server_laws::contexts_stay::<Destination<M>, Carried, CountDraws>();
    server_laws::contexts_rest::<Destination<M>, Carried>();
    tell_laws::servers_change_volumes_lawfully::<Destination<M>, Carried, CountDraws>();
    dest_laws::landings::workers_ask_by_plans::<M, CountDraws>();
    dest_laws::landings::landings_are_due::<M, CountDraws>();
    dest_laws::landings::volumes_go_on::<M, CountDraws>();
}

/// In an opening the numbers of the destination's jobs have four bytes: a step gives out no more than a COMPOUND may have operations, and
/// few steps are made.
pub fn jobs_are_few<M: Mechanism>()
    ensures { (mech : M) (first : RunWorld M) (steps : List (RunStep M)) (accepts : List ℕ → Option (List ℕ)) (whose : List ℕ → Option End)
        → IsBegun mech first.dest
        → AreSteps (run_machines M.mic_of M.derived M.started M.accepted M.finished) first steps → NeverStops sides.Dest first steps
        → AreFewJobs (run_machines M.mic_of M.derived M.started M.accepted M.finished) (record { mic = M.mic_of; derived = M.derived }) (spelling accepts whose) meaning first steps }
{
    crate::dest::copies::destinations_are_shown::<M>();
    server_laws::steps_are_lawful::<Destination<M>, Carried, CountDraws>();
    server_laws::contexts_stay::<Destination<M>, Carried, CountDraws>();
    server_laws::contexts_rest::<Destination<M>, Carried>();
    server_laws::steps_carry_compounds_out::<Destination<M>, Carried, CountDraws>();
    tell_laws::servers_change_volumes_lawfully::<Destination<M>, Carried, CountDraws>();
    own_laws::own_parts_give_few::<Destination<M>, Carried, CountDraws>();
    dest_laws::own::steps_give_one_entry::<M, CountDraws>();
}

/// In each step of an opening the destination obeys the laws of names and reports, and at each moment what is reported as stable is
/// safe.
pub fn names_are_lawful<M: Mechanism>()
    ensures laws { (mech : M) (first : RunWorld M) (steps : List (RunStep M)) (accepts : List ℕ → Option (List ℕ)) (whose : List ℕ → Option End)
        (seen : ClientView M) (purposes : ℕ → Purposes) → IsBegun mech first.dest
        → AreSteps (run_machines M.mic_of M.derived M.started M.accepted M.finished) first steps → NeverStops sides.Dest first steps
        → AreNotClients (run_machines M.mic_of M.derived M.started M.accepted M.finished) (record { mic = M.mic_of; derived = M.derived }) (spelling accepts whose) meaning first steps
        → (k : ℕ)
        → NameLaws (spelling accepts whose) meaning (opening_of (run_machines M.mic_of M.derived M.started M.accepted M.finished) (record { mic = M.mic_of; derived = M.derived }) (spelling accepts whose) meaning seen first steps purposes) k }
    ensures safe { (mech : M) (first : RunWorld M) (steps : List (RunStep M)) (accepts : List ℕ → Option (List ℕ)) (whose : List ℕ → Option End)
        (seen : ClientView M) (purposes : ℕ → Purposes) → IsBegun mech first.dest
        → AreSteps (run_machines M.mic_of M.derived M.started M.accepted M.finished) first steps → NeverStops sides.Dest first steps
        → AreNotClients (run_machines M.mic_of M.derived M.started M.accepted M.finished) (record { mic = M.mic_of; derived = M.derived }) (spelling accepts whose) meaning first steps
        → (k : ℕ)
        → AreSafe (opening_of (run_machines M.mic_of M.derived M.started M.accepted M.finished) (record { mic = M.mic_of; derived = M.derived }) (spelling accepts whose) meaning seen first steps purposes) k }
{
    jobs_are_few::<M>();
    crate::dest::copies::destinations_are_shown::<M>();
    dest_laws::calls::openings_stay::<M, CountDraws>();
    server_laws::steps_are_lawful::<Destination<M>, Carried, CountDraws>();
    server_laws::contexts_stay::<Destination<M>, Carried, CountDraws>();
    server_laws::contexts_rest::<Destination<M>, Carried>();
    tell_laws::servers_change_volumes_lawfully::<Destination<M>, Carried, CountDraws>();
    dest_laws::names::answers_are_right::<M, CountDraws>();
    dest_laws::names::reports_stay_right::<M, CountDraws>();
    dest_laws::names::reports_begin_right::<M>();
    dest_laws::names::names_are_lawful::<M, CountDraws>();
}
