ghost use Rattle.std.specs.Prelude.{◌≡◌, ◌⊎◌, ℕ, suc, List, length, None, Some, slice_get};
ghost use Rattle.client_laws.specs.WholeTurns.{Purposes};
ghost use Rattle.dest_laws.specs.Copies.Rooms.{ReachesLast};
ghost use Rattle.dest_laws.specs.Sound.Kept.{IsKept};
ghost use Rattle.dest_laws.specs.View.Dues.{AreSafe, HoldsWell, LandsWell};
ghost use Rattle.dest_laws.specs.View.Steps.{ShowsStep, table_in};
ghost use Rattle.nfs_base.specs.declared.seal.End.TheVariants.{Dest};
ghost use Rattle.nfs_base.specs.declared.side.Side.TheVariants as sides;
ghost use Rattle.run_ends.specs.Ends.{RunStep, RunWorld, count_gives, run_machines, words_of};
ghost use Rattle.run_promise.specs.Dest.Acts.{DestDid};
ghost use Rattle.run_promise.specs.Dest.Begun.{IsBegun};
ghost use Rattle.run_promise.specs.Dest.Moments.{ShowsAs, host_at, part_at, step_at};
ghost use Rattle.run_promise.specs.System.System.{ClientView, opening_of, telling};
ghost use Rattle.wire_lines.specs.declared.letters.Speaker.TheVariants.{Worker};
ghost use Rattle.wire_machine.specs.History.{acts_at, at_moment};
ghost use Rattle.wire_machine.specs.Steps.{AreSteps, NeverStops};
ghost use Rattle.wire_model.specs.CopyLaws.{CopiesLaws, CopiesStart};
ghost use Rattle.wire_model.specs.Meaning.{Meaning};
ghost use Rattle.wire_model.specs.Spelling.{Spelling};

use gss_mech::Mechanism;
use streams::CountDraws;

/// At every moment of an opening its system shows the destination, and in every step what that did; from the last moment on it rests.
/// At the first moment there is no copy. At every moment its jobs are sound, and belong to the opening of its volume.
pub fn destinations_are_shown<M: Mechanism>()
    ensures run { (mech : M) (first : RunWorld M) (steps : List (RunStep M)) (spell : Spelling) (meaning : Meaning) (seen : ClientView M)
        (purposes : ℕ → Purposes) → IsBegun mech first.dest → AreSteps (run_machines M.mic_of M.derived M.started M.accepted M.finished) first steps
        → NeverStops sides.Dest first steps
        → ShowsAs (run_machines M.mic_of M.derived M.started M.accepted M.finished) (record { mic = M.mic_of; derived = M.derived }) spell meaning first steps
        (opening_of (run_machines M.mic_of M.derived M.started M.accepted M.finished) (record { mic = M.mic_of; derived = M.derived }) spell meaning seen first steps purposes) }
    // So at each moment, with what it took, who tells of that, and what it executed.
    ensures step { (mech : M) (first : RunWorld M) (steps : List (RunStep M)) (spell : Spelling) (meaning : Meaning) (seen : ClientView M)
        (purposes : ℕ → Purposes) → IsBegun mech first.dest → AreSteps (run_machines M.mic_of M.derived M.started M.accepted M.finished) first steps
        → NeverStops sides.Dest first steps → (k : ℕ)
        → ShowsStep spell meaning (opening_of (run_machines M.mic_of M.derived M.started M.accepted M.finished) (record { mic = M.mic_of; derived = M.derived }) spell meaning seen first steps purposes) k
        (part_at (run_machines M.mic_of M.derived M.started M.accepted M.finished) (record { mic = M.mic_of; derived = M.derived }) spell meaning first steps k).took
        (part_at (run_machines M.mic_of M.derived M.started M.accepted M.finished) (record { mic = M.mic_of; derived = M.derived }) spell meaning first steps k).speaker
        (acts_at (run_machines M.mic_of M.derived M.started M.accepted M.finished) (telling (record { mic = M.mic_of; derived = M.derived })) spell meaning first steps Dest k).executed
        (host_at (run_machines M.mic_of M.derived M.started M.accepted M.finished) (record { mic = M.mic_of; derived = M.derived }) spell meaning first steps k)
        (step_at (run_machines M.mic_of M.derived M.started M.accepted M.finished) (record { mic = M.mic_of; derived = M.derived }) spell meaning first steps k) }
    // What each step is to it; and that it executes nothing where it takes nothing, or one of its workers takes it.
    ensures did { (mech : M) (first : RunWorld M) (steps : List (RunStep M)) (spell : Spelling) (meaning : Meaning) → IsBegun mech first.dest
        → AreSteps (run_machines M.mic_of M.derived M.started M.accepted M.finished) first steps
        → NeverStops sides.Dest first steps → (k : ℕ) (s : RunStep M) → slice_get steps k ≡ Some s
        → DestDid (words_of M.mic_of M.derived M.started M.accepted M.finished count_gives) (at_moment (run_machines M.mic_of M.derived M.started M.accepted M.finished) (telling (record { mic = M.mic_of; derived = M.derived })) spell meaning first steps k).world s.parts s.after }
    ensures quiet { (first : RunWorld M) (steps : List (RunStep M)) (spell : Spelling) (meaning : Meaning) (k : ℕ)
        → ((part_at (run_machines M.mic_of M.derived M.started M.accepted M.finished) (record { mic = M.mic_of; derived = M.derived }) spell meaning first steps k).took ≡ None)
        ⊎ ((part_at (run_machines M.mic_of M.derived M.started M.accepted M.finished) (record { mic = M.mic_of; derived = M.derived }) spell meaning first steps k).speaker ≡ Worker)
        → (acts_at (run_machines M.mic_of M.derived M.started M.accepted M.finished) (telling (record { mic = M.mic_of; derived = M.derived })) spell meaning first steps Dest k).executed ≡ None }
    ensures start { (mech : M) (first : RunWorld M) (steps : List (RunStep M)) (spell : Spelling) (meaning : Meaning) (seen : ClientView M)
        (purposes : ℕ → Purposes) → IsBegun mech first.dest
        → CopiesStart (opening_of (run_machines M.mic_of M.derived M.started M.accepted M.finished) (record { mic = M.mic_of; derived = M.derived }) spell meaning seen first steps purposes) }
    ensures last { (first : RunWorld M) (steps : List (RunStep M)) (spell : Spelling) (meaning : Meaning) (seen : ClientView M) (purposes : ℕ → Purposes)
        → ReachesLast (opening_of (run_machines M.mic_of M.derived M.started M.accepted M.finished) (record { mic = M.mic_of; derived = M.derived }) spell meaning seen first steps purposes)
        (length steps) }
    ensures kept { (mech : M) (first : RunWorld M) (steps : List (RunStep M)) (spell : Spelling) (meaning : Meaning) → IsBegun mech first.dest
        → AreSteps (run_machines M.mic_of M.derived M.started M.accepted M.finished) first steps → NeverStops sides.Dest first steps → (k : ℕ)
        → IsKept (table_in (host_at (run_machines M.mic_of M.derived M.started M.accepted M.finished) (record { mic = M.mic_of; derived = M.derived }) spell meaning first steps k)) }
    ensures opening { (mech : M) (first : RunWorld M) (steps : List (RunStep M)) (spell : Spelling) (meaning : Meaning) → IsBegun mech first.dest
        → AreSteps (run_machines M.mic_of M.derived M.started M.accepted M.finished) first steps → NeverStops sides.Dest first steps → (k : ℕ)
        → (table_in (host_at (run_machines M.mic_of M.derived M.started M.accepted M.finished) (record { mic = M.mic_of; derived = M.derived }) spell meaning first steps k)).boot
        ≡ (host_at (run_machines M.mic_of M.derived M.started M.accepted M.finished) (record { mic = M.mic_of; derived = M.derived }) spell meaning first steps k).state.machine.store.volume.boot }
{
    dest_laws::calls::openings_stay::<M, CountDraws>();
    dest_laws::view::opened_destinations_show_nothing::<M>();
    dest_laws::copies::steps_have_stories::<M, CountDraws>();
    dest_laws::sound::tables_stay_sound::<M, CountDraws>();
    dest_laws::histories::entries_grow_by_deeds();
    dest_laws::histories::histories_stay_linked();
    crate::system::histories_are_folds();
    crate::system::histories_show_jobs();
}

/// So the copies of an opening obey their laws at every moment, where what comes from the source is due, what is held was at hand, and what
/// is reported as stable is safe.
pub fn shown_copies_are_lawful<M: Mechanism>()
    ensures { (mech : M) (first : RunWorld M) (steps : List (RunStep M)) (spell : Spelling) (meaning : Meaning) (seen : ClientView M)
        (purposes : ℕ → Purposes) → IsBegun mech first.dest → AreSteps (run_machines M.mic_of M.derived M.started M.accepted M.finished) first steps
        → NeverStops sides.Dest first steps
        → ((k : ℕ) → LandsWell spell meaning (opening_of (run_machines M.mic_of M.derived M.started M.accepted M.finished) (record { mic = M.mic_of; derived = M.derived }) spell meaning seen first steps purposes) k)
        → ((k : ℕ) → HoldsWell spell meaning (opening_of (run_machines M.mic_of M.derived M.started M.accepted M.finished) (record { mic = M.mic_of; derived = M.derived }) spell meaning seen first steps purposes) k)
        → ((k : ℕ) → AreSafe (opening_of (run_machines M.mic_of M.derived M.started M.accepted M.finished) (record { mic = M.mic_of; derived = M.derived }) spell meaning seen first steps purposes) (suc k))
        → (k : ℕ) → CopiesLaws spell meaning (opening_of (run_machines M.mic_of M.derived M.started M.accepted M.finished) (record { mic = M.mic_of; derived = M.derived }) spell meaning seen first steps purposes) k }
{
    destinations_are_shown::<M>();
    dest_laws::copies::runs_keep_copies::<M>();
}
