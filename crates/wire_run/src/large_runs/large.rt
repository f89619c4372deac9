ghost use Rattle.std.specs.Prelude.{◌≡◌, ◌<◌, ◌^◌, ◌∷◌, [], None, length, IfOk, IsTrue};
ghost use Rattle.large_copy.specs.Large.{large_events};
ghost use Rattle.run_ends.specs.Ends.{run_machines};
ghost use Rattle.wire_log.specs.Keeping.{reading};
ghost use Rattle.wire_run.specs.LargeRuns.Large.{RunsLarge};
ghost use Rattle.wire_run.specs.LargeRuns.Tallying.{HasGrown, HasRoom, IsServed, Tallies};
ghost use Rattle.wire_run.specs.Running.{at_rest, mech_of, HasDisks};
ghost use Rattle.wire_schedule.specs.Admission.{admits, at_start};
ghost use Rattle.wire_schedule.specs.Expansion.{after_all, are_admitted};
ghost use Rattle.wire_tally.specs.Tally.{no_tally, tallied};

use crate::{Ran, Stepped, System, events_follow_events, events_make_runs};
use disk_model::CrashDisk;
use gss_mech::Mechanism;
use large_copy::{LargeCopy, large_schedules_are_admitted};
use outcome::Mem;
use std::alloc::Global;
use wire_schedule::Event;
use wire_tally::{
    Tally, end_lines_count_nothing, lines_are_whole, tallies_grow_by_bytes, whole_texts_add_up,
};

/// How a large copy ran, and what its transcript says of the copies in it.
#[derive(Clone, Copy, PartialEq, Eq)]
pub struct Large {
    /// How the run ended. All its events are of one line, the first.
    pub ran: Ran,

    /// What the lines of its transcript come to.
    pub tally: Tally,
}

/// Carries out the schedule of a large copy, event by event, each made when it is due. The lines of its transcript are counted
/// and not kept.
pub fn run_large<D: CrashDisk + Drop, M: Mechanism + Copy>(
    system: &mut System<D, M>,
    alloc: Global,
    plan: LargeCopy,
) -> Mem<Large>
    requires rest { system.old ≡ at_rest (mech_of system.old) system.old.source system.old.dest }
    requires disks { HasDisks system.old }
    ensures ran { IfOk result (λ large. RunsLarge D.Told (run_machines M.mic_of M.derived M.started M.accepted M.finished) reading D.faults D.size (mech_of system.old) plan system.old system.new large) }
    ensures there { IfOk result (λ large. HasDisks system.new) }
    ensures context { IfOk result (λ large. large.ran ≡ Ran.Whole → system.new.context ≡ after_all at_start (large_events plan)) }
{
    events_make_runs::<D, M>();
    events_follow_events::<D, M>();
    whole_texts_add_up();
    end_lines_count_nothing();
    let mut tally = Tally::new();
    let ended = tally_events(system, alloc, plan, &mut tally)?;
    match ended {
        Some(ran) => Ok(Large { ran, tally }),
        None => Ok(Large {
            ran: Ran::Whole,
            tally,
        }),
    }
}

/// All events. None where the run goes on to its last line.
fn tally_events<D: CrashDisk + Drop, M: Mechanism + Copy>(
    system: &mut System<D, M>,
    alloc: Global,
    plan: LargeCopy,
    tally: &mut Tally,
) -> Mem<Option<Ran>>
    requires rest { system.old ≡ at_rest (mech_of system.old) system.old.source system.old.dest }
    requires disks { HasDisks system.old }
    requires empty { tally.old ≡ no_tally }
    ensures tallies { IfOk result (Tallies D.Told (run_machines M.mic_of M.derived M.started M.accepted M.finished) reading D.faults D.size (large_events plan) system.old system.new tally.old tally.new) }
    ensures admitted { IsTrue (are_admitted at_start (large_events plan)) }
{
    large_schedules_are_admitted();
    events_follow_events::<D, M>();
    whole_texts_add_up();
    lines_are_whole();
    let _mebibytes = plan.mebibytes();
    for place in 0..plan.len() {
        let event = plan.event(alloc, place)?;
        if let Some(ran) = tally_event(system, alloc, &event, tally)? {
            return Ok(Some(ran));
        }
    }
    Ok(None)
}

/// One event. None where the run goes on.
fn tally_event<D: CrashDisk + Drop, M: Mechanism + Copy>(
    system: &mut System<D, M>,
    alloc: Global,
    event: &Event,
    tally: &mut Tally,
) -> Mem<Option<Ran>>
    requires admitted { IsTrue (admits system.old.context event.now) }
    requires disks { HasDisks system.old }
    requires served { IsServed system.old }
    requires room { HasRoom tally.old }
    ensures tallies { IfOk result (Tallies D.Told (run_machines M.mic_of M.derived M.started M.accepted M.finished) reading D.faults D.size (event.now ∷ []) system.old system.new tally.old tally.new) }
    ensures served { IfOk result (λ ran. ran ≡ None → IsServed system.new) }
    ensures grown { HasGrown tally.old tally.new }
{
    events_follow_events::<D, M>();
    lines_are_whole();
    let became = system.step(alloc, event)?;
    match became {
        Stepped::Went { text } => {
            count(tally, text.as_bytes());
            Ok(None)
        }
        Stepped::OverLimit { text } => {
            count(tally, text.as_bytes());
            Ok(Some(Ran::OverLimit { line: 1 }))
        }
        Stepped::Mistaken { text, mistake } => {
            count(tally, text.as_bytes());
            Ok(Some(Ran::Mistaken(mistake)))
        }
        Stepped::Unmade(cause) => Ok(Some(Ran::Unmade(cause))),
        Stepped::Lost { cause, .. } => Ok(Some(Ran::Lost(cause))),
    }
}

/// Counts the lines of a text.
fn count(tally: &mut Tally, text: &[u8])
    requires { HasRoom tally.old }
    ensures tally { tally.new ≡ tallied text.now tally.old }
    ensures grown { HasGrown tally.old tally.new }
{
    tallies_grow_by_bytes();
    let _len = text.len();
    tally.add(text);
}
