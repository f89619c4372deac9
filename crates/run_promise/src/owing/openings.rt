//! The openings of a run's destination.

ghost use Rattle.std.specs.Prelude.{ℕ, List, Option};
ghost use Rattle.caller_laws.specs.Fitting.Moving.{GivesBytes};
ghost use Rattle.client_laws.specs.WholeTurns.{Purposes};
ghost use Rattle.dest_laws.specs.Calls.Steps.{StartsOwn};
ghost use Rattle.dest_laws.specs.View.Dues.{AreSafe};
ghost use Rattle.nfs_base.specs.declared.seal.End.{End};
ghost use Rattle.nfs_base.specs.declared.seal.End.TheVariants.{Dest};
ghost use Rattle.nfs_base.specs.declared.side.Side.TheVariants as sides;
ghost use Rattle.run_ends.specs.Ends.{RunStep, RunWorld, count_gives, run_machines};
ghost use Rattle.run_ends.specs.Setting.{dest_name};
ghost use Rattle.run_promise.specs.Dest.Begun.{IsBegun};
ghost use Rattle.run_promise.specs.Dest.Kept.{TokensAreBytes};
ghost use Rattle.run_promise.specs.Opening.Openings.{opened_at};
ghost use Rattle.run_promise.specs.Opening.Systems.{StepsKeepOpenings};
ghost use Rattle.run_promise.specs.Owing.Owing.{OwesAll};
ghost use Rattle.run_promise.specs.System.System.{ClientView, opening_of, telling};
ghost use Rattle.wire_machine.specs.Steps.{AreSteps, NeverStops};
ghost use Rattle.wire_meaning.specs.Meaning.{meaning};
ghost use Rattle.wire_model.specs.Meaning.{Meaning};
ghost use Rattle.wire_model.specs.Spelling.{Spelling};
ghost use Rattle.wire_spelling.specs.Spelling.{spelling};

use gss_mech::Mechanism;
use streams::CountDraws;

/// A step in which the destination doesn't stop leaves its opening and its mechanism.
pub fn steps_keep_openings<M: Mechanism>()
    ensures { StepsKeepOpenings (run_machines M.mic_of M.derived M.started M.accepted M.finished) }
{
    dest_laws::calls::openings_stay::<M, CountDraws>();
    dest_laws::calls::mechanisms_stay::<M, CountDraws>();
    dest_laws::own::steps_go_by_deeds::<M, CountDraws>();
    dest_laws::histories::entries_grow_by_deeds();
}

/// So at the beginning of each opening of a run it was just opened, with one mechanism, where it was at the first moment.
pub fn openings_are_begun<M: Mechanism>()
    ensures { (mech : M) (spell : Spelling) (meaning : Meaning) (first : RunWorld M) (steps : List (RunStep M)) → IsBegun mech first.dest
        → AreSteps (run_machines M.mic_of M.derived M.started M.accepted M.finished) first steps → (k : ℕ)
        → IsBegun mech (opened_at (run_machines M.mic_of M.derived M.started M.accepted M.finished) (telling (record { mic = M.mic_of; derived = M.derived })) spell meaning first steps k).dest }
{
    steps_keep_openings::<M>();
    crate::opening::openings_begin::<M>();
    crate::dest::destinations_begin_anew::<M>();
}

/// In a run in which it never stops, it owes all by its own copies, and what is reported of them as stable is safe. It rests on tokens
/// that are its own and bytes, and on codes that are bytes.
pub fn openings_owe_all<M: Mechanism>()
    ensures all { (mech : M) (first : RunWorld M) (steps : List (RunStep M)) (accepts : List ℕ → Option (List ℕ)) (whose : List ℕ → Option End)
        (seen : ClientView M) (purposes : ℕ → Purposes) → IsBegun mech first.dest
        → AreSteps (run_machines M.mic_of M.derived M.started M.accepted M.finished) first steps → NeverStops sides.Dest first steps
        → StartsOwn (record { accepts = accepts; whose = whose; own = Dest }) (M.started mech dest_name) count_gives
        → GivesBytes M.mic_of → TokensAreBytes (M.started mech dest_name)
        → OwesAll (spelling accepts whose) meaning (opening_of (run_machines M.mic_of M.derived M.started M.accepted M.finished) (record { mic = M.mic_of; derived = M.derived }) (spelling accepts whose) meaning seen first steps purposes) }
    ensures safe { (mech : M) (first : RunWorld M) (steps : List (RunStep M)) (accepts : List ℕ → Option (List ℕ)) (whose : List ℕ → Option End)
        (seen : ClientView M) (purposes : ℕ → Purposes) → IsBegun mech first.dest
        → AreSteps (run_machines M.mic_of M.derived M.started M.accepted M.finished) first steps → NeverStops sides.Dest first steps
        → StartsOwn (record { accepts = accepts; whose = whose; own = Dest }) (M.started mech dest_name) count_gives
        → GivesBytes M.mic_of → TokensAreBytes (M.started mech dest_name) → (k : ℕ)
        → AreSafe (opening_of (run_machines M.mic_of M.derived M.started M.accepted M.finished) (record { mic = M.mic_of; derived = M.derived }) (spelling accepts whose) meaning seen first steps purposes) k }
{
    crate::dest::destinations_go_as_callers::<M>();
    crate::dest::destinations_are_lawful_callers::<M>();
    crate::dest::destinations_are_shown::<M>();
    crate::dest::volumes_are_lawful::<M>();
    crate::dest::copies_are_lawful::<M>();
    crate::dest::names_are_lawful::<M>();
    dest_laws::landings::what_is_awaited_is_spelled();
    dest_laws::names::names_are_lawful::<M, CountDraws>();
}
