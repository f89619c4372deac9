ghost use Rattle.std.specs.Io.KnownBytes.{IsAtEnd};
ghost use Rattle.std.specs.Prelude.{◌≡◌, ◌≤◌, ℕ, List, Option, Some, Ok, option_map, true, is_some};
ghost use Rattle.nfscopy.specs.Ends.{UsageEnds};
ghost use Rattle.nfscopy.specs.Input.{asked, parsed};
ghost use Rattle.nfscopy.specs.Notice.{bad_line_text};
ghost use Rattle.nfscopy.specs.Outside.{outside};
ghost use Rattle.nfscopy.specs.Puts.{EndPut, LastPut, LinePut, UnmadePut};
ghost use Rattle.nfscopy.specs.RunEnds.{run_words, CarriesOut, KeepsIf, RunEnds};
ghost use Rattle.volume_format.specs.DiskWords.{disk_words};
ghost use Rattle.wire_machine.specs.Runs.{events_in};
ghost use Rattle.wire_schedule.specs.ScheduleText.{schedule_of};

use crate::notice::{bad_line, mistaken_line, too_much_line, usage_line};
use command_line::{RunEnd, UsageEnd};
use disk_model::CrashDisk;
use gss_mech::Mechanism;
use nfs_base::INPUT_LIMIT;
use outcome::NoMemory;
use run_promise::client::schedules_are_accepted;
use run_promise::runs_keep_the_promise;
use std::alloc::Global;
use streams::{Sink, Source, Whole, put_all, read_whole};
use volume_format::{not_volume_line, small_line};
use wire_run::{Disks, Ran, System, Unmade};
use wire_schedule::{BadLine, Schedule};

/// Puts the line `usage`.
pub(crate) fn usage<K: Sink>(output: &mut K) -> UsageEnd
    ensures puts { UsageEnds (K.takes output.old).taken (K.takes output.new).taken (K.takes output.old).faults (K.takes output.new).faults result }
    ensures later { (K.takes output.old).faults ≤ (K.takes output.new).faults }
{
    match put_all(output, usage_line()) {
        Ok(()) => UsageEnd::Put,
        Err(_) => UsageEnd::WriteFault,
    }
}

/// Reads a schedule, carries it out over the two disks and puts its transcript. Codes are those of the mechanism.
pub(crate) fn run<S: Source, K: Sink, D: CrashDisk + Drop, M: Mechanism>(
    alloc: Global,
    input: &mut S,
    output: &mut K,
    disks: &mut Disks<D>,
    mech: &M,
) -> RunEnd
    requires source { is_some disks.old.source ≡ true }
    requires dest { is_some disks.old.dest ≡ true }
    ensures ends { RunEnds (disk_words D.Told D.faults D.size D.timeline) (run_words mech.entry M.mic_of M.derived (λ m. M.started m.now) (λ m. M.accepted m.now) (λ m. M.finished m.now))
        (outside (S.gives input.old).left (K.takes output.old).taken (S.gives input.old).faults (K.takes output.old).faults disks.old.source disks.old.dest)
        (outside (S.gives input.new).left (K.takes output.new).taken (S.gives input.new).faults (K.takes output.new).faults disks.new.source disks.new.dest)
        result }
    ensures kept { KeepsIf (run_words mech.entry M.mic_of M.derived (λ m. M.started m.now) (λ m. M.accepted m.now) (λ m. M.finished m.now)) (option_map asked (S.gives input.old).left) }
    ensures reads_later { (S.gives input.old).faults ≤ (S.gives input.new).faults }
    ensures writes_later { (K.takes output.old).faults ≤ (K.takes output.new).faults }
{
    runs_keep_the_promise::<&M>();
    schedules_are_accepted();
    match read_whole(alloc, input, INPUT_LIMIT as usize) {
        Ok(Whole::Text(text)) => run_text(alloc, &text, output, disks, mech),
        Ok(Whole::TooMuch) => put_last(output, too_much_line(), RunEnd::Refused),
        Ok(Whole::Failed) => RunEnd::ReadFault,
        Err(NoMemory) => RunEnd::NoMemory,
    }
}

/// Carries out the schedule of a text, and puts its transcript.
fn run_text<K: Sink, D: CrashDisk + Drop, M: Mechanism>(
    alloc: Global,
    text: &[u8],
    output: &mut K,
    disks: &mut Disks<D>,
    mech: &M,
) -> RunEnd
    requires source { is_some disks.old.source ≡ true }
    requires dest { is_some disks.old.dest ≡ true }
    ensures ends { (left now_left : Option (List ℕ)) (reads now_reads : ℕ) → IsAtEnd now_left → CarriesOut (disk_words D.Told D.faults D.size D.timeline) (run_words mech.entry M.mic_of M.derived (λ m. M.started m.now) (λ m. M.accepted m.now) (λ m. M.finished m.now))
        (outside left (K.takes output.old).taken reads (K.takes output.old).faults disks.old.source disks.old.dest)
        (outside now_left (K.takes output.new).taken now_reads (K.takes output.new).faults disks.new.source disks.new.dest)
        (Some (parsed (schedule_of text.now))) result }
    ensures later { (K.takes output.old).faults ≤ (K.takes output.new).faults }
{
    match Schedule::parse(alloc, text) {
        Ok(Ok(schedule)) => run_schedule(alloc, &schedule, output, disks, mech),
        Ok(Err(bad)) => put_bad(alloc, bad, output, RunEnd::Refused),
        Err(NoMemory) => RunEnd::NoMemory,
    }
}

/// Carries out a schedule, and puts its transcript. The disks are handed back, but for want of memory.
fn run_schedule<K: Sink, D: CrashDisk + Drop, M: Mechanism>(
    alloc: Global,
    schedule: &Schedule,
    output: &mut K,
    disks: &mut Disks<D>,
    mech: &M,
) -> RunEnd
    requires source { is_some disks.old.source ≡ true }
    requires dest { is_some disks.old.dest ≡ true }
    ensures ends { (left now_left : Option (List ℕ)) (reads now_reads : ℕ) → IsAtEnd now_left → CarriesOut (disk_words D.Told D.faults D.size D.timeline) (run_words mech.entry M.mic_of M.derived (λ m. M.started m.now) (λ m. M.accepted m.now) (λ m. M.finished m.now))
        (outside left (K.takes output.old).taken reads (K.takes output.old).faults disks.old.source disks.old.dest)
        (outside now_left (K.takes output.new).taken now_reads (K.takes output.new).faults disks.new.source disks.new.dest)
        (Some (Ok (events_in schedule.now))) result }
    ensures later { (K.takes output.old).faults ≤ (K.takes output.new).faults }
{
    let handed = Disks {
        source: disks.source.take(),
        dest: disks.dest.take(),
    };
    let Ok(mut system) = System::new(alloc, handed, mech) else {
        return RunEnd::NoMemory;
    };
    let ran = system.run(alloc, schedule, output);
    *disks = system.hand_back();
    match ran {
        Ok(ran) => put_end(alloc, ran, output),
        Err(NoMemory) => RunEnd::NoMemory,
    }
}

/// Puts the last line of a run that didn't put it yet.
fn put_end<K: Sink>(alloc: Global, ran: Ran, output: &mut K) -> RunEnd
    ensures puts { EndPut (K.takes output.old).taken (K.takes output.new).taken (K.takes output.old).faults (K.takes output.new).faults ran result }
    ensures later { (K.takes output.old).faults ≤ (K.takes output.new).faults }
{
    match ran {
        Ran::Whole => RunEnd::Done,
        Ran::OverLimit { line } => put_bad(alloc, BadLine { line }, output, RunEnd::OverLimit),
        Ran::WriteFault => RunEnd::WriteFault,
        Ran::Unmade(cause) | Ran::Lost(cause) => put_unmade(alloc, cause, output),
        Ran::Mistaken(mistake) => match mistaken_line(alloc, mistake) {
            Ok(line) => put_last(output, line.as_bytes(), RunEnd::Mistaken),
            Err(NoMemory) => RunEnd::NoMemory,
        },
    }
}

/// Puts the line of a schedule's that is bad.
fn put_bad<K: Sink>(alloc: Global, bad: BadLine, output: &mut K, end: RunEnd) -> RunEnd
    ensures puts { LinePut (K.takes output.old).taken (K.takes output.new).taken (K.takes output.old).faults (K.takes output.new).faults (bad_line_text bad.line) end result }
    ensures later { (K.takes output.old).faults ≤ (K.takes output.new).faults }
{
    match bad_line(alloc, bad) {
        Ok(line) => put_last(output, line.as_bytes(), end),
        Err(NoMemory) => RunEnd::NoMemory,
    }
}

/// Puts why a server's volume could not be made, where that isn't a fault of its disk.
fn put_unmade<K: Sink>(alloc: Global, cause: Unmade, output: &mut K) -> RunEnd
    ensures puts { UnmadePut (K.takes output.old).taken (K.takes output.new).taken (K.takes output.old).faults (K.takes output.new).faults cause result }
    ensures later { (K.takes output.old).faults ≤ (K.takes output.new).faults }
{
    match cause {
        Unmade::DiskFailed => RunEnd::DiskFault,
        Unmade::TooSmall { need, have } => match small_line(alloc, need, have) {
            Ok(line) => put_last(output, line.as_bytes(), RunEnd::NoVolume),
            Err(NoMemory) => RunEnd::NoMemory,
        },
        Unmade::NotVolume { block, at } => match not_volume_line(alloc, block, at) {
            Ok(line) => put_last(output, line.as_bytes(), RunEnd::NoVolume),
            Err(NoMemory) => RunEnd::NoMemory,
        },
    }
}

/// Puts the last line of a run that ends so.
fn put_last<K: Sink>(output: &mut K, line: &[u8], end: RunEnd) -> RunEnd
    ensures puts { LastPut (K.takes output.old).taken (K.takes output.new).taken (K.takes output.old).faults (K.takes output.new).faults line.now end result }
    ensures later { (K.takes output.old).faults ≤ (K.takes output.new).faults }
{
    match put_all(output, line) {
        Ok(()) => end,
        Err(_) => RunEnd::WriteFault,
    }
}
