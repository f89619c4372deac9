//! The commands that wait for nobody: each returns, whatever it is given, and answers its exit status.

ghost use Rattle.std.specs.Prelude.{◌≡◌, ◌≤◌, ℕ, List, Option, option_map, true, is_some};
ghost use Rattle.nfscopy.specs.Ends.{FormatEnds};
ghost use Rattle.command_line.specs.ExitStatus.{EndsAs, format_status, gen_status, run_status, show_status};
ghost use Rattle.nfscopy.specs.GenEnds.{gen_events, GenEnds};
ghost use Rattle.nfscopy.specs.Input.{asked};
ghost use Rattle.nfscopy.specs.Outside.{outside, without_disks};
ghost use Rattle.nfscopy.specs.RunEnds.{run_words, KeepsIf, RunEnds, RunsKeep};
ghost use Rattle.nfscopy.specs.ShowEnds.{ShowEnds};
ghost use Rattle.volume_format.specs.DiskWords.{disk_words};

use crate::generate::generate;
use crate::run::run;
use crate::show::show;
use command_line::format_code;
use disk_model::{CrashDisk, Disk};
use gss_mech::Mechanism;
use large_copy::LargeCopy;
use std::alloc::Global;
use streams::{Sink, Source};
use volume_format::{NewVolume, format};
use wire_run::Disks;

/// `run`: reads a schedule, carries it out over the two disks and puts its transcript.
pub fn do_run<S: Source, K: Sink, D: CrashDisk + Drop, M: Mechanism>(
    alloc: Global,
    input: &mut S,
    output: &mut K,
    disks: &mut Disks<D>,
    mech: &M,
) -> u8
    requires source { is_some disks.old.source ≡ true }
    requires dest { is_some disks.old.dest ≡ true }
    ensures ends { EndsAs run_status (RunEnds (disk_words D.Told D.faults D.size D.timeline) (run_words mech.entry M.mic_of M.derived (λ m. M.started m.now) (λ m. M.accepted m.now) (λ m. M.finished m.now))
        (outside (S.gives input.old).left (K.takes output.old).taken (S.gives input.old).faults (K.takes output.old).faults disks.old.source disks.old.dest)
        (outside (S.gives input.new).left (K.takes output.new).taken (S.gives input.new).faults (K.takes output.new).faults disks.new.source disks.new.dest)) result }
    ensures kept { KeepsIf (run_words mech.entry M.mic_of M.derived (λ m. M.started m.now) (λ m. M.accepted m.now) (λ m. M.finished m.now)) (option_map asked (S.gives input.old).left) }
    ensures reads_later { (S.gives input.old).faults ≤ (S.gives input.new).faults }
    ensures writes_later { (K.takes output.old).faults ≤ (K.takes output.new).faults }
{
    run(alloc, input, output, disks, mech).code()
}

/// `gen N`: carries out the schedule of a large copy over the two disks, and puts its summary.
pub fn do_gen<K: Sink, D: CrashDisk + Drop, M: Mechanism>(
    alloc: Global,
    plan: LargeCopy,
    output: &mut K,
    disks: &mut Disks<D>,
    mech: &M,
) -> u8
    requires source { is_some disks.old.source ≡ true }
    requires dest { is_some disks.old.dest ≡ true }
    ensures ends { (left : Option (List ℕ)) (reads : ℕ) → EndsAs gen_status (GenEnds (disk_words D.Told D.faults D.size D.timeline) (run_words mech.entry M.mic_of M.derived (λ m. M.started m.now) (λ m. M.accepted m.now) (λ m. M.finished m.now)) plan
        (outside left (K.takes output.old).taken reads (K.takes output.old).faults disks.old.source disks.old.dest)
        (outside left (K.takes output.new).taken reads (K.takes output.new).faults disks.new.source disks.new.dest)) result }
    ensures kept { RunsKeep (run_words mech.entry M.mic_of M.derived (λ m. M.started m.now) (λ m. M.accepted m.now) (λ m. M.finished m.now)) (gen_events plan) }
    ensures later { (K.takes output.old).faults ≤ (K.takes output.new).faults }
{
    generate(alloc, plan, output, disks, mech).code()
}

/// `show`: puts the lines of a stream of records.
pub fn do_show<S: Source, K: Sink>(alloc: Global, input: &mut S, output: &mut K) -> u8
    ensures ends { EndsAs show_status (ShowEnds
        (without_disks (S.gives input.old).left (K.takes output.old).taken (S.gives input.old).faults (K.takes output.old).faults)
        (without_disks (S.gives input.new).left (K.takes output.new).taken (S.gives input.new).faults (K.takes output.new).faults)) result }
    ensures reads_later { (S.gives input.old).faults ≤ (S.gives input.new).faults }
    ensures writes_later { (K.takes output.old).faults ≤ (K.takes output.new).faults }
{
    show(alloc, input, output).code()
}

/// `format`: makes an empty volume on the disk that stands in the source's place, and puts a line.
pub fn do_format<K: Sink, D: Disk + Drop>(
    alloc: Global,
    new: NewVolume,
    output: &mut K,
    disks: &mut Disks<D>,
) -> u8
    requires source { is_some disks.old.source ≡ true }
    ensures ends { (left : Option (List ℕ)) (reads : ℕ) → EndsAs format_status (FormatEnds (disk_words D.Told D.faults D.size D.timeline) new
        (outside left (K.takes output.old).taken reads (K.takes output.old).faults disks.old.source disks.old.dest)
        (outside left (K.takes output.new).taken reads (K.takes output.new).faults disks.new.source disks.new.dest)) result }
    ensures dest { disks.new.dest ≡ disks.old.dest }
    ensures later { (K.takes output.old).faults ≤ (K.takes output.new).faults }
{
    format_code(format(alloc, new, output, &mut disks.source))
}
