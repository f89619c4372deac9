//! The three machines of a run, and its events.

ghost use Rattle.std.specs.Prelude.{◌≡◌};
ghost use Rattle.wire_run.specs.Stage.{is_shown};

use crate::ends::{DestEnd, Disks, SourceEnd};
use crate::fresh::Unmade;
use crate::stage::{Lost, Stage, Stop, Stops};
use client_core::Client;
use disk_model::{CrashDisk, Disk};
use gss_mech::Mechanism;
use nfs_base::Side;
use outcome::Mem;
use run_ends::{dest_place, source_place, user};
use std::alloc::Global;
use std::marker::Model;
use std::mem;
use streams::CountDraws;
use wire_log::Log;
use wire_machine::{Choice, Mistake};
use wire_schedule::{Context, Event};

/// What became of one event, want of memory aside. The text has the lines of the small steps that were done.
#[derive(Drop)]
pub enum Stepped {
    /// It was carried out.
    Went { text: String },

    /// The records have too many bytes; the run is over.
    OverLimit { text: String },

    /// A record was taken by mistake; the run is over.
    Mistaken { text: String, mistake: Mistake },

    /// The server's volume could not be made; the run is over.
    Unmade(Unmade),

    /// A server that stopped could not be opened anew. It isn't there any more, and its disk is on its own; the run is over.
    Lost { side: Side, cause: Unmade },
}

/// What became of a read of bytes that are to be shown.
#[derive(Clone, Copy, PartialEq, Eq)]
pub(crate) enum Peeked {
    Shown,

    /// The volume is broken.
    Refused,

    /// The disk failed.
    Failed,
}

fn was_shown(read: Peeked) -> bool
    ensures { result ≡ is_shown read }
{
    match read {
        Peeked::Shown => true,
        Peeked::Refused | Peeked::Failed => false,
    }
}

/// A client, a source and a destination, the clock, the draws, and all records.
///
/// Contracts see a `Running`: what the events so far leave open, the disks and the two servers, the client, the draws, the
/// clock, all records, and what the disks did.
#[derive(Drop)]
pub struct System<D: Disk, M> {
    mech: M,
    context: Context,
    stage: Stage<D, M>,
}

impl<D: Disk, M> Model for System<D, M> {
    ghost use Rattle.wire_run.specs.Running.{Running};
    ghost use Rattle.wire_run.specs.System.{running_of, IsSound};

    ghost Value = { Running D M };

    ghost view = { λ s. running_of D.size s.context s.stage };

    ghost invariant = { λ s. IsSound D.Told D.size D.fuse s.context s.mech s.stage };
}

impl<D: CrashDisk + Drop, M: Mechanism + Copy> System<D, M> {
    ghost use Rattle.nfs_base.specs.declared.side.Side.{Side};
    ghost use Rattle.std.specs.Prelude.{◌≡◌, ◌≤◌, ◌<◌, ◌↔◌, true, false, length, None, Some, IfOk, IsTrue, MatchOption};
    ghost use Rattle.wire_log.specs.Keeping.{reading};
    ghost use Rattle.wire_log.specs.Keeping as keeping;
    ghost use Rattle.wire_machine.specs.World.{posted_at};
    ghost use Rattle.run_ends.specs.Ends.{run_machines};
    ghost use Rattle.wire_run.specs.Running.{at_rest, context_after, disk_of, is_there, mech_of, ArmsRight, HasDisks, Later, StepIs};
    ghost use Rattle.wire_run.specs.System.{is_broken, lost_in, shown_at, with_disk, HasFile, Holds, IsShown, IsSingle, IsSized, IsUnread};
    ghost use Rattle.run_ends.specs.declared.setting.TheConstants.{SOURCE_TAG, DEST_TAG};
    ghost use Rattle.wire_schedule.specs.Admission.{admits};

    /// Before the first event: no server is there.
    pub fn new(alloc: Global, disks: Disks<D>, mech: M) -> Mem<System<D, M>>
        ensures { IfOk result (λ system. system ≡ at_rest mech disks.source disks.dest) }
    {
        let client = Client::new(
            alloc,
            mech,
            user(alloc)?,
            source_place(alloc)?,
            dest_place(alloc)?,
        )?;
        Ok(System {
            mech,
            context: Context::start(),
            stage: Stage {
                source: SourceEnd::new(disks.source),
                dest: DestEnd::new(disks.dest),
                client,
                draws: CountDraws::new(),
                clock: 0,
                log: Log::new(alloc),
                choices: Vec::new(alloc),
                flowed: 0,
                stops: Stops {
                    source: Stop::none(),
                    dest: Stop::none(),
                },
            },
        })
    }

    /// Gives the disks back.
    pub fn hand_back(self) -> Disks<D>
        ensures source { result.source ≡ self.source }
        ensures dest { result.dest ≡ self.dest }
        ensures source_holds { D.Told → Holds D.timeline D.size SOURCE_TAG (shown_at self.source_state self.dest_state Side.Source) result.source }
        ensures dest_holds { D.Told → Holds D.timeline D.size DEST_TAG (shown_at self.source_state self.dest_state Side.Dest) result.dest }
    {
        let System { stage, .. } = self;
        let Stage { source, dest, .. } = stage;
        Disks {
            source: source.hand_back(),
            dest: dest.hand_back(),
        }
    }

    /// What the disks did in each small step so far.
    pub fn choices(&self) -> &[Choice]
        ensures { result.now ≡ self.now.choices }
    {
        self.stage.choices.as_slice()
    }

    /// A record that was sent, by its number. None exactly where fewer were sent.
    pub fn record(&self, number: u64) -> Option<&[u8]>
        ensures { MatchOption result (posted_at number self.now.log ≡ None) (λ bytes. keeping.bytes_at self.now.log number ≡ Some bytes.now) }
    {
        self.stage.log.record(number)
    }

    /// How many records were sent.
    pub fn records(&self) -> u64
        ensures { result ≡ length self.now.log }
    {
        self.stage.log.count()
    }

    /// How many bytes a file has now; where its disk tells what it holds, that is so.
    pub fn size(&self, side: Side, file: u32) -> u64
        requires file { HasFile self.now.context side file }
        requires disks { HasDisks self.now }
        ensures { D.Told → IsSized self.now side file result }
    {
        self.stage.size(side, file)
    }

    /// Fills `out` with a file's bytes from `off` on, and with zeros past its end. Where the disk tells what it holds, and true
    /// comes back, they are the bytes as they are now; and but for that disk all is as it was, as it is no step. Of any disk: false
    /// where the volume is broken, and else only where its disk failed, whose count of faults then rose, or where a disk that doesn't
    /// tell what it holds left the file out; both disks are as large as before, and their counts of faults never fall.
    pub fn peek(&mut self, side: Side, file: u32, off: u64, out: &mut [u8]) -> bool
        requires file { HasFile self.old.context side file }
        requires disks { HasDisks self.old }
        ensures bytes { D.Told → IsTrue result → IsShown self.old side file off out.new (length out.old) }
        ensures unread { result ≡ false → IsUnread D.Told D.faults self.old self.new side file }
        ensures broken { is_broken self.old side ≡ true → result ≡ false }
        ensures still { D.Told → self.new ≡ with_disk side (disk_of self.new side) self.old }
        ensures context { self.new.context ≡ self.old.context }
        ensures later { (at : Side) → Later D.faults D.size 0 (disk_of self.old at) (disk_of self.new at) }
        ensures disks { HasDisks self.new }
    {
        was_shown(self.stage.read(side, file, off, out))
    }

    /// Carries out one event, small step by small step, and gives the text of their lines. Where a volume can't be made, a
    /// record is taken by mistake or the records have too many bytes, the run is over, and so it is after want of memory.
    pub fn step(&mut self, alloc: Global, event: &Event) -> Mem<Stepped>
        requires admitted { IsTrue (admits self.old.context event.now) }
        requires disks { HasDisks self.old }
        ensures is { IfOk result (StepIs D.Told (run_machines M.mic_of M.derived M.started M.accepted M.finished) reading D.faults D.size (mech_of self.old) self.old self.new event.now) }
        ensures context { IfOk result (λ stepped. self.new.context ≡ context_after self.old.context event.now stepped) }
        ensures arms { ArmsRight self.old self.new event.now }
        ensures disks { IfOk result (λ stepped. HasDisks self.new) }
    {
        match event {
            Event::Volume {
                side,
                files,
                blocks,
            } => self.make(alloc, *side, *files, *blocks),
            Event::Flow => self.flow(alloc),
            _ => self.once(alloc, event),
        }
    }

    /// Makes a server.
    fn make(&mut self, alloc: Global, side: Side, files: u32, blocks: u32) -> Mem<Stepped>
        requires admitted { IsTrue (admits self.old.context (Event.Volume side files blocks)) }
        requires disks { HasDisks self.old }
        ensures is { IfOk result (StepIs D.Told (run_machines M.mic_of M.derived M.started M.accepted M.finished) reading D.faults D.size (mech_of self.old) self.old self.new (Event.Volume side files blocks)) }
        ensures context { IfOk result (λ stepped. self.new.context ≡ context_after self.old.context (Event.Volume side files blocks) stepped) }
        ensures arms { ArmsRight self.old self.new (Event.Volume side files blocks) }
        ensures disks { IfOk result (λ stepped. HasDisks self.new) }
    {
        let next = self.context.after(&Event::Volume {
            side,
            files,
            blocks,
        });
        match self.stage.make(alloc, self.mech, side, files, blocks)? {
            Err(cause) => Ok(Stepped::Unmade(cause)),
            Ok(()) => {
                self.context = next;
                Ok(Stepped::Went {
                    text: String::new(alloc),
                })
            }
        }
    }

    /// Delivers what was sent before.
    fn flow(&mut self, alloc: Global) -> Mem<Stepped>
        requires admitted { IsTrue (admits self.old.context (Event.Flow)) }
        requires disks { HasDisks self.old }
        ensures is { IfOk result (StepIs D.Told (run_machines M.mic_of M.derived M.started M.accepted M.finished) reading D.faults D.size (mech_of self.old) self.old self.new (Event.Flow)) }
        ensures context { IfOk result (λ stepped. self.new.context ≡ context_after self.old.context (Event.Flow) stepped) }
        ensures arms { ArmsRight self.old self.new (Event.Flow) }
        ensures disks { IfOk result (λ stepped. HasDisks self.new) }
    {
        self.context = self.context.after(&Event::Flow);
        match self.stage.flow(alloc)? {
            Ok(stepped) => Ok(stepped),
            Err(lost) => Ok(self.lose(lost)),
        }
    }

    /// An event that is one small step.
    fn once(&mut self, alloc: Global, event: &Event) -> Mem<Stepped>
        requires single { IsSingle event.now }
        requires admitted { IsTrue (admits self.old.context event.now) }
        requires disks { HasDisks self.old }
        ensures is { IfOk result (StepIs D.Told (run_machines M.mic_of M.derived M.started M.accepted M.finished) reading D.faults D.size (mech_of self.old) self.old self.new event.now) }
        ensures context { IfOk result (λ stepped. self.new.context ≡ context_after self.old.context event.now stepped) }
        ensures arms { ArmsRight self.old self.new event.now }
        ensures disks { IfOk result (λ stepped. HasDisks self.new) }
    {
        self.context = self.context.after(event);
        match self.stage.once(alloc, event)? {
            Ok(stepped) => Ok(stepped),
            Err(lost) => Ok(self.lose(lost)),
        }
    }

    /// A server that was lost isn't there any more, and its disk is on its own.
    fn lose(&mut self, lost: Lost<D>) -> Stepped
        requires gone { is_there self.old lost.side ≡ false }
        ensures result { result ≡ Stepped.Lost lost.side lost.cause }
        ensures lost { self.new ≡ lost_in lost.side lost.disk self.old }
    {
        let Lost { side, disk, cause } = lost;
        match side {
            Side::Source => {
                self.context.source = None;
                drop(mem::replace(&mut self.stage.source, SourceEnd::Disk(disk)));
            }
            Side::Dest => {
                self.context.dest = None;
                drop(mem::replace(&mut self.stage.dest, DestEnd::Disk(disk)));
            }
        }
        Stepped::Lost { side, cause }
    }
}
