ghost use Rattle.std.specs.Prelude.{◌≡◌, ◌≤◌, ℕ, List, Option, true, is_some, IfOk};
ghost use Rattle.nfscopy.specs.GenEnds.{gen_events, GenCarriesOut, GenEnds};
ghost use Rattle.nfscopy.specs.Outside.{outside};
ghost use Rattle.nfscopy.specs.RunEnds.{run_words, RunsKeep};
ghost use Rattle.nfscopy.specs.Summing.{owing_for, OwedPut, Owes, Sums};
ghost use Rattle.run_ends.specs.Ends.{run_machines};
ghost use Rattle.volume_format.specs.DiskWords.{disk_words};
ghost use Rattle.wire_log.specs.Keeping.{reading};
ghost use Rattle.wire_run.specs.Running.{at_rest, mech_of, HasDisks};

use crate::notice::{mistaken_line, too_much};
use crate::summary::Summary;
use command_line::GenEnd;
use disk_model::CrashDisk;
use gss_mech::Mechanism;
use large_copy::{
    LargeCopy, large_copies_have_files, large_schedules_have_texts, large_schedules_name_disks,
    large_schedules_stop_nobody,
};
use outcome::{Mem, NoMemory};
use run_promise::client::schedules_are_accepted;
use run_promise::runs_keep_the_promise;
use std::alloc::Global;
use streams::{Sink, put_all};
use volume_format::{not_volume_line, small_line};
use wire_machine::Mistake;
use wire_run::large_runs::{Large, files_are_alike, run_large};
use wire_run::{Disks, Ran, System, Unmade};

/// What a large copy came to.
#[derive(Clone, Copy, PartialEq, Eq)]
pub(crate) enum Summed {
    /// Its run is whole.
    Whole(Summary),

    /// The records of the run have too many bytes.
    OverLimit,

    /// A record was taken by mistake.
    Mistaken(Mistake),

    /// A server's volume could not be made.
    Unmade(Unmade),
}

/// What is put last, and the end that it goes with.
#[derive(Drop)]
pub(crate) struct Owed {
    text: String,
    end: GenEnd,
}

/// Carries out the schedule of a large copy over the two disks, and puts its summary.
pub(crate) fn generate<K: Sink, D: CrashDisk + Drop, M: Mechanism>(
    alloc: Global,
    plan: LargeCopy,
    output: &mut K,
    disks: &mut Disks<D>,
    mech: &M,
) -> GenEnd
    requires source { is_some disks.old.source ≡ true }
    requires dest { is_some disks.old.dest ≡ true }
    ensures ends { (left : Option (List ℕ)) (reads : ℕ) → GenEnds (disk_words D.Told D.faults D.size D.timeline) (run_words mech.entry M.mic_of M.derived (λ m. M.started m.now) (λ m. M.accepted m.now) (λ m. M.finished m.now)) plan
        (outside left (K.takes output.old).taken reads (K.takes output.old).faults disks.old.source disks.old.dest)
        (outside left (K.takes output.new).taken reads (K.takes output.new).faults disks.new.source disks.new.dest)
        result }
    ensures kept { RunsKeep (run_words mech.entry M.mic_of M.derived (λ m. M.started m.now) (λ m. M.accepted m.now) (λ m. M.finished m.now)) (gen_events plan) }
    ensures later { (K.takes output.old).faults ≤ (K.takes output.new).faults }
{
    runs_keep_the_promise::<&M>();
    schedules_are_accepted();
    large_schedules_have_texts();
    large_schedules_name_disks();
    large_schedules_stop_nobody();
    let _mebibytes = plan.mebibytes();
    let handed = Disks {
        source: disks.source.take(),
        dest: disks.dest.take(),
    };
    let Ok(mut system) = System::new(alloc, handed, mech) else {
        return GenEnd::NoMemory;
    };
    let summed = sum_up(&mut system, alloc, plan);
    *disks = system.hand_back();
    match summed {
        Ok(summed) => put_owed(alloc, summed, output),
        Err(NoMemory) => GenEnd::NoMemory,
    }
}

/// Runs the schedule, and looks at both files behind a whole run.
fn sum_up<D: CrashDisk + Drop, M: Mechanism + Copy>(
    system: &mut System<D, M>,
    alloc: Global,
    plan: LargeCopy,
) -> Mem<Summed>
    requires rest { system.old ≡ at_rest (mech_of system.old) system.old.source system.old.dest }
    requires disks { HasDisks system.old }
    ensures sums { IfOk result (Sums D.Told (run_machines M.mic_of M.derived M.started M.accepted M.finished) reading D.faults D.size (mech_of system.old) plan system.old system.new) }
    ensures there { IfOk result (λ summed. HasDisks system.new) }
{
    large_copies_have_files();
    large_schedules_stop_nobody();
    let Large { ran, tally } = run_large(system, alloc, plan)?;
    match ran {
        Ran::Whole => {
            let records = system.records();
            let alike = files_are_alike(system, alloc)?;
            Ok(Summed::Whole(Summary {
                plan,
                records,
                tally,
                alike,
            }))
        }
        Ran::OverLimit { .. } => Ok(Summed::OverLimit),
        Ran::Mistaken(mistake) => Ok(Summed::Mistaken(mistake)),
        Ran::Unmade(cause) => Ok(Summed::Unmade(cause)),
        Ran::Lost(_) => unreachable!(),
        Ran::WriteFault => unreachable!(),
    }
}

/// Puts the summary, or the line that is owed in its place.
fn put_owed<K: Sink>(alloc: Global, summed: Summed, output: &mut K) -> GenEnd
    ensures puts { OwedPut (K.takes output.old).taken (K.takes output.new).taken (K.takes output.old).faults (K.takes output.new).faults (owing_for summed) result }
    ensures later { (K.takes output.old).faults ≤ (K.takes output.new).faults }
{
    match owed_for(alloc, summed) {
        Ok(None) => GenEnd::DiskFault,
        Ok(Some(Owed { text, end })) => match put_all(output, text.as_bytes()) {
            Ok(()) => end,
            Err(_) => GenEnd::WriteFault,
        },
        Err(NoMemory) => GenEnd::NoMemory,
    }
}

/// What is owed. None where a disk failed while its volume was made.
fn owed_for(alloc: Global, summed: Summed) -> Mem<Option<Owed>>
    ensures { IfOk result (Owes (owing_for summed)) }
{
    let (text, end) = match summed {
        Summed::Whole(summary) => (summary.text(alloc)?, GenEnd::Done),
        Summed::OverLimit => (too_much(alloc)?, GenEnd::OverLimit),
        Summed::Mistaken(mistake) => (mistaken_line(alloc, mistake)?, GenEnd::Mistaken),
        Summed::Unmade(Unmade::DiskFailed) => return Ok(None),
        Summed::Unmade(Unmade::TooSmall { need, have }) => {
            (small_line(alloc, need, have)?, GenEnd::NoVolume)
        }
        Summed::Unmade(Unmade::NotVolume { block, at }) => {
            (not_volume_line(alloc, block, at)?, GenEnd::NoVolume)
        }
    };
    Ok(Some(Owed { text, end }))
}
