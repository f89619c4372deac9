//! Laws of a destination's copies.

ghost use Rattle.std.specs.Prelude.{◌≡◌, ◌<◌, ℕ, suc, true, List, Option};
ghost use Rattle.dest_core.specs.Stepping.{DestState, DestStep, IsRecord, IsReply, IsWork, failure_step, tick_step};
ghost use Rattle.dest_laws.specs.Copies.Rooms.{AllFit, ReachesLast, RoomsNarrow};
ghost use Rattle.dest_laws.specs.Copies.Runs.{ShowsRun};
ghost use Rattle.dest_laws.specs.Copies.Story.{Story};
ghost use Rattle.dest_laws.specs.Histories.Linked.{name_at};
ghost use Rattle.dest_laws.specs.Own.Going.{jobs_in};
ghost use Rattle.dest_laws.specs.View.Dues.{AreSafe, HoldsWell, LandsWell, ReachesWithin};
ghost use Rattle.dest_laws.specs.View.Steps.{ShowsStep, table_in};
ghost use Rattle.dest_laws.specs.View.View.{made_in};
ghost use Rattle.dest_steps.specs.Copier.{Codes};
ghost use Rattle.job_book.specs.Book.{IsSound};
ghost use Rattle.nfs_base.specs.declared.seal.End.TheVariants.{Dest};
ghost use Rattle.server_volume.specs.declared.used.Used.{Used};
ghost use Rattle.wire_lines.specs.declared.letters.Speaker.{Speaker};
ghost use Rattle.wire_machine.specs.History.{is_reported};
ghost use Rattle.wire_model.specs.Copies.{is_safe};
ghost use Rattle.wire_model.specs.CopyLaws.{CopiesLaws};
ghost use Rattle.wire_model.specs.Meaning.{Meaning};
ghost use Rattle.wire_model.specs.Spelling.{Spelling};
ghost use Rattle.wire_model.specs.System.{System};
ghost use Rattle.wire_model.specs.Wire.{Executed};

use crate::histories::{entries_grow_by_deeds, histories_stay_linked};
use crate::own::{records_take_and_end, steps_give_one_entry};
use gss_mech::Mechanism;
use streams::Draws;

/// In each step of a destination copies are taken and jobs end, or one entry at most is given: a length that the source gave, the
/// landing of a chunk, a stop, or that the job's file was committed by what the step did to the volume.
pub fn steps_have_stories<M: Mechanism, W: Draws>()
    ensures record_ { (mech : M) (conn : ℕ) (message : List ℕ) (now : ℕ) (s : DestState M) (before after : W) (t : DestStep M)
        → IsRecord (record { mic = M.mic_of; derived = M.derived }) (M.accepted mech) W.gives conn message now s before after t
        → Story (jobs_in s) (jobs_in t.host) t.out.used }
    ensures work { (started : List ℕ → List ℕ → Option (List ℕ)) (codes : Codes) (place now : ℕ) (s : DestState M) (before after : W) (t : DestStep M)
        → IsWork W.gives started codes place now s before after t → Story (jobs_in s) (jobs_in t.host) t.out.used }
    ensures reply { (codes : Codes) (finish : List ℕ → List ℕ → Option (List ℕ)) (place : ℕ) (message : List ℕ) (now : ℕ) (s : DestState M) (t : DestStep M)
        → IsReply codes finish place message now s t → Story (jobs_in s) (jobs_in t.host) t.out.used }
    ensures failure { (codes : Codes) (place : ℕ) (s : DestState M)
        → Story (jobs_in s) (jobs_in (failure_step codes place s).host) (failure_step codes place s).out.used }
    ensures tick { (codes : Codes) (now : ℕ) (s : DestState M) → Story (jobs_in s) (jobs_in (tick_step codes now s).host) (tick_step codes now s).out.used }
    ensures rest { (s : DestState M) (used : List Used) → Story (jobs_in s) (jobs_in s) used }
{
    records_take_and_end::<M, W>();
    steps_give_one_entry::<M, W>();
}

/// So the copies of a system that shows the step of a destination obey their laws, where what comes from the source is due, what
/// is reported as stable is safe, what is held was at hand, and each copy reaches no further than it may come to need.
pub fn copies_go_on<M>()
    ensures { (spell : Spelling) (meaning : Meaning) (s : System) (k : ℕ) (took : Option (List ℕ)) (speaker : Speaker) (executed : Option Executed)
        (d : DestState M) (t : DestStep M) → ShowsStep spell meaning s k took speaker executed d t → Story (jobs_in d) (jobs_in t.host) t.out.used
        → IsSound (table_in d) → IsSound (table_in t.host) → LandsWell spell meaning s k → AreSafe s (suc k)
        → ReachesWithin s (suc k) (table_in t.host).capacity → HoldsWell spell meaning s k → CopiesLaws spell meaning s k }
{
    entries_grow_by_deeds();
    histories_stay_linked();
}

/// What is safe stays so: it is enough that what is reported in the step is safe after it.
pub fn safe_copies_stay<M>()
    ensures { (spell : Spelling) (meaning : Meaning) (s : System) (k : ℕ) (took : Option (List ℕ)) (speaker : Speaker) (executed : Option Executed)
        (d : DestState M) (t : DestStep M) → ShowsStep spell meaning s k took speaker executed d t → Story (jobs_in d) (jobs_in t.host) t.out.used
        → AreSafe s k → ((j : ℕ) → j < made_in t.host → is_reported spell meaning (s.acts Dest k) (name_at (table_in t.host).boot j) ≡ true
        → is_safe (s.job (suc k) j) ≡ true) → AreSafe s (suc k) }
{
    entries_grow_by_deeds();
    histories_stay_linked();
}

/// In such a step no copy's length falls, and what it may come to need never rises and stays above its length.
pub fn rooms_narrow<M>()
    ensures { (spell : Spelling) (meaning : Meaning) (s : System) (k : ℕ) (took : Option (List ℕ)) (speaker : Speaker) (executed : Option Executed)
        (d : DestState M) (t : DestStep M) → ShowsStep spell meaning s k took speaker executed d t → Story (jobs_in d) (jobs_in t.host) t.out.used
        → IsSound (table_in d) → IsSound (table_in t.host) → AllFit s k (table_in d).capacity → RoomsNarrow s k (table_in d).capacity }
{
    entries_grow_by_deeds();
    histories_stay_linked();
}

/// Where that holds of each step, the length that a copy has in the end lies between what it has at any moment and what it may
/// come to need there. At the first moment there is no copy, and so nothing to prove.
pub fn last_lengths_are_reached()
    ensures within { (s : System) (capacity last : ℕ) → ((k : ℕ) → RoomsNarrow s k capacity) → AllFit s 0 capacity → ReachesLast s last
        → (k : ℕ) → ReachesWithin s k capacity }
    ensures begin { (s : System) (capacity : ℕ) → s.made 0 ≡ 0 → AllFit s 0 capacity }
{}

/// So a system that shows a destination at every moment, from one without a copy on, obeys the laws of copies at each, where what
/// lands and is held and reported obeys its own, and each copy takes as much room as its length is in the end.
pub fn runs_keep_copies<M>()
    ensures { (spell : Spelling) (meaning : Meaning) (s : System) (host : ℕ → DestState M) (step : ℕ → DestStep M) (last : ℕ)
        → ShowsRun spell meaning s host step → s.made 0 ≡ 0 → ReachesLast s last → ((k : ℕ) → LandsWell spell meaning s k)
        → ((k : ℕ) → HoldsWell spell meaning s k) → ((k : ℕ) → AreSafe s (suc k)) → (k : ℕ) → CopiesLaws spell meaning s k }
{
    entries_grow_by_deeds();
    copies_go_on::<M>();
    rooms_narrow::<M>();
    last_lengths_are_reached();
}
