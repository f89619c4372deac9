//! What a destination answers of its copies.

ghost use Rattle.std.specs.Prelude.{ℕ, suc, List, Option, Some};
ghost use Rattle.dest_core.specs.Stepping.{DestState, DestStep, IsRecord};
ghost use Rattle.dest_laws.specs.Names.Holding.{CopiesRight, IsFairRecord, IsToldRight, ReportsRight, StatusRight};
ghost use Rattle.dest_laws.specs.View.Steps.{ShowsStep};
ghost use Rattle.nfs_base.specs.declared.seal.End.{End};
ghost use Rattle.server_laws.specs.Acts.{acts_of};
ghost use Rattle.wire_lines.specs.declared.letters.Speaker.{Speaker};
ghost use Rattle.wire_meaning.specs.Meaning.{meaning};
ghost use Rattle.wire_model.specs.System.{System};
ghost use Rattle.wire_spelling.specs.Spelling.{spelling};

use crate::histories::{entries_grow_by_deeds, histories_stay_linked};
use crate::names::reading::callbacks_are_read;
use crate::names::records::records_tell_nothing;
use crate::own::{records_take_and_end, steps_go_by_deeds};
use dest_core::Destination;
use dest_jobs::Carried;
use gss_mech::Mechanism;
use nfs_compound::compounds_are_spelled;
use server_laws::steps_carry_compounds_out;
use streams::Draws;
use tell_laws::results_are_read_back;

/// Where a record comes on a connection, what a destination holds of its reports stays right. A COPY that gives a name accepts the
/// copy that was asked for, under that name, and an answer to OFFLOAD_STATUS that a copy is complete is one of a copy that is reported
/// as stable (RFC 7862 sections 15.2 and 15.9).
pub fn answers_are_right<M: Mechanism, W: Draws>()
    ensures { (accepts : List ℕ → Option (List ℕ)) (whose : List ℕ → Option End) (s : System) (k : ℕ) (speaker : Speaker) (mech : M) (conn : ℕ)
        (message : List ℕ) (now : ℕ) (d : DestState M) (before after : W) (t : DestStep M)
        → IsRecord (record { mic = M.mic_of; derived = M.derived }) (M.accepted mech) W.gives conn message now d before after t
        → ShowsStep (spelling accepts whose) meaning s k (Some message) speaker (acts_of (record { mic = M.mic_of; derived = M.derived }) message now d t).executed d t
        → IsFairRecord message d t → IsToldRight s k d
        → IsToldRight s (suc k) t.host × ReportsRight (spelling accepts whose) meaning s k × CopiesRight meaning s k × StatusRight meaning s k }
{
    callbacks_are_read::<M>();
    entries_grow_by_deeds();
    histories_stay_linked();
    steps_go_by_deeds::<M, W>();
    records_take_and_end::<M, W>();
    records_tell_nothing::<M, W>();
    compounds_are_spelled();
    results_are_read_back();
    steps_carry_compounds_out::<Destination<M>, Carried, W>();
}
