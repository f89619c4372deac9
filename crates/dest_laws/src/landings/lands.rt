ghost use Rattle.std.specs.Prelude.{◌≡◌, ℕ, Bool, false, true, List, Option, Some};
ghost use Rattle.dest_core.specs.Stepping.{DestState, DestStep, IsRecord, IsReply, IsWork, copier_in, failure_step, tick_step};
ghost use Rattle.dest_laws.specs.Landings.Orderly.{IsOrderly, LandsAndHolds};
ghost use Rattle.dest_laws.specs.Landings.Posted.{AreSpelled};
ghost use Rattle.dest_laws.specs.Own.Going.{jobs_in};
ghost use Rattle.dest_laws.specs.View.Steps.{ShowsStep, part_by};
ghost use Rattle.dest_steps.specs.Copier.{Codes};
ghost use Rattle.job_book.specs.Book.{IsSound};
ghost use Rattle.nfs_base.specs.declared.seal.End.{End};
ghost use Rattle.wire_lines.specs.declared.letters.Speaker.{Speaker};
ghost use Rattle.wire_machine.specs.History.{is_call};
ghost use Rattle.wire_meaning.specs.Meaning.{meaning};
ghost use Rattle.wire_model.specs.Meaning.{Meaning};
ghost use Rattle.wire_model.specs.Spelling.{Spelling};
ghost use Rattle.wire_model.specs.System.{System};
ghost use Rattle.wire_model.specs.Wire.{Executed};
ghost use Rattle.wire_spelling.specs.Spelling.{spelling};
ghost use Rattle.wire_xdr.specs.Cursor.{IsBytes};

use crate::histories::{entries_grow_by_deeds, histories_stay_linked};
use crate::landings::following::KeepsWork;
use crate::own::records_take_and_end;
use crate::steps_give_one_entry;
use caller_laws::answers::answers_are_awaited;
use dest_core::Destination;
use dest_jobs::Carried;
use gss_mech::Mechanism;
use mount::what_goes_out_is_counted;
use own_laws::own_parts_go_on;
use streams::Draws;
use wire_meaning::questions_are_read;

/// In every step of a destination a length that is entered was told by the answer to the GETATTR for its job, and a landing is that of
/// a chunk that was written whole, within the length of a job that may land; such a chunk a worker held, or it is the data of the
/// answer that the step takes, to the READ for its place of the source; and so is what a worker comes to hold (RFC 7862 section 15.2).
/// What the step is to the volume, by the plans of its copies, is the effect of the call that it made.
pub fn landings_are_due<M: Mechanism, W: Draws>()
    // A record on a connection.
    ensures record_ { (spell : Spelling) (meaning : Meaning) (s : System) (k : ℕ) (took : Option (List ℕ)) (speaker : Speaker) (executed : Option Executed)
        (mech : M) (conn : ℕ) (message : List ℕ) (now : ℕ) (d : DestState M) (before after : W) (t : DestStep M)
        → ShowsStep spell meaning s k took speaker executed d t → is_call (part_by took speaker t) ≡ true
        → IsRecord (record { mic = M.mic_of; derived = M.derived }) (M.accepted mech) W.gives conn message now d before after t
        → LandsAndHolds spell meaning s k t }
    // A worker's turn.
    ensures work { (spell : Spelling) (meaning : Meaning) (s : System) (k : ℕ) (took : Option (List ℕ)) (speaker : Speaker) (executed : Option Executed)
        (started : List ℕ → List ℕ → Option (List ℕ)) (codes : Codes) (place now : ℕ) (d : DestState M) (before after : W) (t : DestStep M)
        → ShowsStep spell meaning s k took speaker executed d t → is_call (part_by took speaker t) ≡ false
        → IsWork W.gives started codes place now d before after t → IsSound (jobs_in d).table → IsOrderly d
        → LandsAndHolds spell meaning s k t }
    // A record of the source.
    ensures reply { (accepts : List ℕ → Option (List ℕ)) (whose : List ℕ → Option End) (s : System) (k : ℕ) (speaker : Speaker) (executed : Option Executed)
        (codes : Codes) (finish : List ℕ → List ℕ → Option (List ℕ)) (place : ℕ) (message : List ℕ) (now : ℕ) (d : DestState M) (t : DestStep M)
        → ShowsStep (spelling accepts whose) meaning s k (Some message) speaker executed d t → is_call (part_by (Some message) speaker t) ≡ false
        → IsReply codes finish place message now d t → IsBytes message → IsSound (jobs_in d).table → IsOrderly d
        → AreSpelled (copier_in d).work.mount → LandsAndHolds (spelling accepts whose) meaning s k t }
    // A link that failed, and a second that comes by itself.
    ensures failure { (spell : Spelling) (meaning : Meaning) (s : System) (k : ℕ) (took : Option (List ℕ)) (speaker : Speaker) (executed : Option Executed)
        (codes : Codes) (place : ℕ) (d : DestState M)
        → ShowsStep spell meaning s k took speaker executed d (failure_step codes place d) → LandsAndHolds spell meaning s k (failure_step codes place d) }
    ensures tick { (spell : Spelling) (meaning : Meaning) (s : System) (k : ℕ) (took : Option (List ℕ)) (speaker : Speaker) (executed : Option Executed)
        (codes : Codes) (now : ℕ) (d : DestState M)
        → ShowsStep spell meaning s k took speaker executed d (tick_step codes now d) → LandsAndHolds spell meaning s k (tick_step codes now d) }
{
    entries_grow_by_deeds();
    histories_stay_linked();
    steps_give_one_entry();
    records_take_and_end::<M, W>();
    what_goes_out_is_counted();
    own_parts_go_on::<KeepsWork, Destination<M>, Carried, W>();
    questions_are_read();
    answers_are_awaited();
}
