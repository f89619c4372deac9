ghost use Rattle.std.specs.Prelude.{ℕ, List, Option};
ghost use Rattle.caller_laws.specs.Fitting.Moving.{GivesBytes};
ghost use Rattle.client_laws.specs.WholeTurns.{Purposes};
ghost use Rattle.dest_laws.specs.Calls.Steps.{StartsOwn};
ghost use Rattle.nfs_base.specs.declared.seal.End.{End};
ghost use Rattle.nfs_base.specs.declared.seal.End.TheVariants.{Dest};
ghost use Rattle.nfs_base.specs.declared.side.Side.TheVariants as sides;
ghost use Rattle.run_ends.specs.Ends.{RunStep, RunWorld, count_gives, run_machines, words_of};
ghost use Rattle.run_ends.specs.Setting.{dest_name};
ghost use Rattle.run_promise.specs.Dest.Begun.{IsBegun};
ghost use Rattle.run_promise.specs.Dest.Kept.{GoesAsCaller, IsLawfulCaller, RunIsSeen, TokensAreBytes};
ghost use Rattle.run_promise.specs.System.System.{ClientView, opening_of};
ghost use Rattle.wire_machine.specs.Steps.{AreSteps, NeverStops};
ghost use Rattle.wire_meaning.specs.Meaning.{meaning};
ghost use Rattle.wire_spelling.specs.Spelling.{spelling};

use caller_laws::fitting::{counted_draws_are_nonces, mounts_stay_fit};
use caller_laws::mounts_begin_lawful;
use dest_laws::calls::{
    contexts_stay_own, destinations_begin_settled, fit_steps_are_spelled, mechanisms_stay,
    principals_stay, records_are_seen, replies_are_seen, rests_are_seen, seen_steps_are_lawful,
    ticks_are_seen, workers_turns_are_seen,
};
use dest_laws::own::steps_go_by_deeds;
use gss_mech::Mechanism;
use streams::CountDraws;

/// In each step, where the destination never stops, it is seen as it should be: what it does at the source is a run of its mount's
/// steps, and the rest is nothing to the source.
pub fn runs_are_seen<M: Mechanism>()
    ensures { (mech : M) (first : RunWorld M) (steps : List (RunStep M)) (accepts : List ℕ → Option (List ℕ)) (whose : List ℕ → Option End)
        → StartsOwn (record { accepts = accepts; whose = whose; own = Dest }) (M.started mech dest_name) count_gives
        → AreSteps (run_machines M.mic_of M.derived M.started M.accepted M.finished) first steps → NeverStops sides.Dest first steps
        → RunIsSeen (words_of M.mic_of M.derived M.started M.accepted M.finished count_gives) mech (spelling accepts whose) meaning first steps
        (record { accepts = accepts; whose = whose; own = Dest }) }
{
    workers_turns_are_seen::<M, CountDraws>();
    replies_are_seen::<M, CountDraws>();
    ticks_are_seen::<M, CountDraws>();
    records_are_seen::<M, CountDraws>();
    rests_are_seen::<M>();
    steps_go_by_deeds::<M, CountDraws>();
    contexts_stay_own::<M, CountDraws>();
    principals_stay::<M, CountDraws>();
    mechanisms_stay::<M, CountDraws>();
}

/// From its opening on the destination is as it should be at each moment, and what it asks can be spelled. It rests on tokens that
/// are its own and bytes, and on codes that are bytes.
pub fn destinations_go_as_callers<M: Mechanism>()
    ensures { (mech : M) (first : RunWorld M) (steps : List (RunStep M)) (accepts : List ℕ → Option (List ℕ)) (whose : List ℕ → Option End)
        → IsBegun mech first.dest → AreSteps (run_machines M.mic_of M.derived M.started M.accepted M.finished) first steps → NeverStops sides.Dest first steps
        → StartsOwn (record { accepts = accepts; whose = whose; own = Dest }) (M.started mech dest_name) count_gives
        → GivesBytes M.mic_of → TokensAreBytes (M.started mech dest_name)
        → GoesAsCaller (words_of M.mic_of M.derived M.started M.accepted M.finished count_gives) mech (spelling accepts whose) meaning first steps
        (record { accepts = accepts; whose = whose; own = Dest }) }
{
    runs_are_seen::<M>();
    destinations_begin_settled();
    seen_steps_are_lawful::<M>();
    fit_steps_are_spelled::<M>();
    mounts_stay_fit();
    counted_draws_are_nonces();
}

/// So in the system of its opening it has no context and awaits nothing at first, and obeys the laws of a caller of the source in
/// each step.
pub fn destinations_are_lawful_callers<M: Mechanism>()
    ensures { (mech : M) (first : RunWorld M) (steps : List (RunStep M)) (accepts : List ℕ → Option (List ℕ)) (whose : List ℕ → Option End)
        (view : ClientView M) (purposes : ℕ → Purposes) → IsBegun mech first.dest
        → GoesAsCaller (words_of M.mic_of M.derived M.started M.accepted M.finished count_gives) mech (spelling accepts whose) meaning first steps
        (record { accepts = accepts; whose = whose; own = Dest })
        → IsLawfulCaller (spelling accepts whose)
        (opening_of (run_machines M.mic_of M.derived M.started M.accepted M.finished) (record { mic = M.mic_of; derived = M.derived }) (spelling accepts whose) meaning view first steps purposes) }
{
    mounts_begin_lawful();
    seen_steps_are_lawful::<M>();
}
