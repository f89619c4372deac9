//! A whole schedule.

ghost use Rattle.wire_run.specs.Trace.{Puts};

use crate::fresh::Unmade;
use crate::system::{Stepped, System};
use disk_model::CrashDisk;
use gss_mech::Mechanism;
use outcome::Mem;
use std::alloc::Global;
use streams::{Sink, put_all};
use wire_lines::Line;
use wire_machine::Mistake;
use wire_schedule::{Directive, Event, Schedule};

/// How a run ended, want of memory aside.
#[derive(Clone, Copy, PartialEq, Eq)]
pub enum Ran {
    /// Each event was carried out, and the whole transcript was put.
    Whole,

    /// The records have too many bytes from this line of the schedule on; the lines before that were put.
    OverLimit { line: u64 },

    /// The sink failed; a front of the transcript was put.
    WriteFault,

    /// A server's volume could not be made.
    Unmade(Unmade),

    /// A server that stopped could not be opened anew; the lines before that were put.
    Lost(Unmade),

    /// A record was taken by mistake; the lines before that were put.
    Mistaken(Mistake),
}

impl<D: CrashDisk + Drop, M: Mechanism + Copy> System<D, M> {
    ghost use Rattle.std.specs.Prelude.{◌≡◌, ◌≤◌, ◌⊎◌, length, IfOk, IsTrue, OnErr};
    ghost use Rattle.wire_log.specs.Keeping.{reading};
    ghost use Rattle.wire_machine.specs.Runs.{events_in, numbered};
    ghost use Rattle.run_ends.specs.Ends.{run_machines};
    ghost use Rattle.wire_run.specs.Run.{RanHasCause, RanIs, RanOut};
    ghost use Rattle.wire_run.specs.Running.{at_rest, mech_of, HasDisks};
    ghost use Rattle.wire_run.specs.Trace.{turn_of, EndPuts, Happen, Happens, IsCut};
    ghost use Rattle.wire_schedule.specs.Admission.{admits, at_start};
    ghost use Rattle.wire_schedule.specs.Expansion.{are_admitted, events_of, events_of_all, repeated};

    /// Carries out a schedule and puts its transcript, the lines of each event as soon as it is done.
    pub fn run<K: Sink>(&mut self, alloc: Global, schedule: &Schedule, out: &mut K) -> Mem<Ran>
        requires rest { self.old ≡ at_rest (mech_of self.old) self.old.source self.old.dest }
        requires disks { HasDisks self.old }
        ensures ran { IfOk result (RanIs D.Told (run_machines M.mic_of M.derived M.started M.accepted M.finished) reading D.faults D.size (mech_of self.old) (events_in schedule.now) self.old self.new (K.takes out.old).taken (K.takes out.new).taken) }
        ensures err { OnErr result (RanOut D.Told (run_machines M.mic_of M.derived M.started M.accepted M.finished) reading (mech_of self.old) (events_in schedule.now) (K.takes out.old).taken (K.takes out.new).taken) }
        ensures there { IfOk result (λ ran. HasDisks self.new) }
        ensures later { (K.takes out.old).faults ≤ (K.takes out.new).faults }
        ensures cause { IfOk result (RanHasCause D.faults self.old self.new (K.takes out.old).faults (K.takes out.new).faults) }
    {
        match self.run_all(alloc, schedule, out)? {
            Some(ran) => Ok(ran),
            None => self.put_last(alloc, out),
        }
    }

    /// All events, and their lines. None where the run goes on to its last line.
    fn run_all<K: Sink>(
        &mut self,
        alloc: Global,
        schedule: &Schedule,
        out: &mut K,
    ) -> Mem<Option<Ran>>
        requires start { self.old.context ≡ at_start }
        requires disks { HasDisks self.old }
        ensures ran { IfOk result (Happen D.Told (run_machines M.mic_of M.derived M.started M.accepted M.finished) reading D.faults D.size (events_in schedule.now) self.old self.new (K.takes out.old) (K.takes out.new)) }
        ensures err { OnErr result (IsCut D.Told (run_machines M.mic_of M.derived M.started M.accepted M.finished) reading D.faults D.size (events_in schedule.now) self.old (K.takes out.old) (K.takes out.new)) }
        ensures admitted { IsTrue (are_admitted at_start (events_of_all schedule.now)) }
    {
        for entry in schedule.entries() {
            if let Some(ran) = self.run_entry(alloc, entry.line, &entry.directive, out)? {
                return Ok(Some(ran));
            }
        }
        Ok(None)
    }

    /// The events of a line.
    fn run_entry<K: Sink>(
        &mut self,
        alloc: Global,
        line: u64,
        directive: &Directive,
        out: &mut K,
    ) -> Mem<Option<Ran>>
        requires admitted { IsTrue (are_admitted self.old.context (events_of directive.now)) }
        requires disks { HasDisks self.old }
        ensures ran { IfOk result (Happen D.Told (run_machines M.mic_of M.derived M.started M.accepted M.finished) reading D.faults D.size (numbered line (events_of directive.now)) self.old self.new (K.takes out.old) (K.takes out.new)) }
        ensures err { OnErr result (IsCut D.Told (run_machines M.mic_of M.derived M.started M.accepted M.finished) reading D.faults D.size (numbered line (events_of directive.now)) self.old (K.takes out.old) (K.takes out.new)) }
    {
        match directive {
            Directive::Once(event) => self.run_event(alloc, line, event, out),
            Directive::Flows { times } => self.run_turns(alloc, line, *times, false, out),
            Directive::Rounds { times } => self.run_turns(alloc, line, *times, true, out),
        }
    }

    /// So many times: what was sent before is delivered, and where the first worker works it makes one step.
    fn run_turns<K: Sink>(
        &mut self,
        alloc: Global,
        line: u64,
        times: u32,
        works: bool,
        out: &mut K,
    ) -> Mem<Option<Ran>>
        requires admitted { IsTrue (are_admitted self.old.context (repeated times (turn_of works))) }
        requires disks { HasDisks self.old }
        ensures ran { IfOk result (Happen D.Told (run_machines M.mic_of M.derived M.started M.accepted M.finished) reading D.faults D.size (numbered line (repeated times (turn_of works))) self.old self.new (K.takes out.old) (K.takes out.new)) }
        ensures err { OnErr result (IsCut D.Told (run_machines M.mic_of M.derived M.started M.accepted M.finished) reading D.faults D.size (numbered line (repeated times (turn_of works))) self.old (K.takes out.old) (K.takes out.new)) }
    {
        for done in 0..times {
            if let Some(ran) = self.run_turn(alloc, line, works, out)? {
                return Ok(Some(ran));
            }
        }
        Ok(None)
    }

    /// What was sent before is delivered, and where the first worker works it makes one step.
    fn run_turn<K: Sink>(
        &mut self,
        alloc: Global,
        line: u64,
        works: bool,
        out: &mut K,
    ) -> Mem<Option<Ran>>
        requires admitted { IsTrue (are_admitted self.old.context (turn_of works)) }
        requires disks { HasDisks self.old }
        ensures ran { IfOk result (Happen D.Told (run_machines M.mic_of M.derived M.started M.accepted M.finished) reading D.faults D.size (numbered line (turn_of works)) self.old self.new (K.takes out.old) (K.takes out.new)) }
        ensures err { OnErr result (IsCut D.Told (run_machines M.mic_of M.derived M.started M.accepted M.finished) reading D.faults D.size (numbered line (turn_of works)) self.old (K.takes out.old) (K.takes out.new)) }
    {
        if let Some(ran) = self.run_event(alloc, line, &Event::Flow, out)? {
            return Ok(Some(ran));
        }
        if works {
            self.run_event(alloc, line, &Event::Work { worker: 1 }, out)
        } else {
            Ok(None)
        }
    }

    /// One event, and its lines. None where the run goes on.
    fn run_event<K: Sink>(
        &mut self,
        alloc: Global,
        line: u64,
        event: &Event,
        out: &mut K,
    ) -> Mem<Option<Ran>>
        requires admitted { IsTrue (admits self.old.context event.now) }
        requires disks { HasDisks self.old }
        ensures ran { IfOk result (Happens D.Told (run_machines M.mic_of M.derived M.started M.accepted M.finished) reading D.faults D.size (record { line = line; event = event.now }) self.old self.new (K.takes out.old) (K.takes out.new)) }
        ensures err { OnErr result (K.takes out.new ≡ K.takes out.old) }
    {
        match self.step(alloc, event)? {
            Stepped::Went { text } => Ok(put_text(out, text.as_bytes(), None)),
            Stepped::OverLimit { text } => {
                Ok(put_text(out, text.as_bytes(), Some(Ran::OverLimit { line })))
            }
            Stepped::Mistaken { text, mistake } => {
                Ok(put_text(out, text.as_bytes(), Some(Ran::Mistaken(mistake))))
            }
            Stepped::Unmade(cause) => Ok(Some(Ran::Unmade(cause))),
            Stepped::Lost { cause, .. } => Ok(Some(Ran::Lost(cause))),
        }
    }

    /// The last line.
    fn put_last<K: Sink>(&self, alloc: Global, out: &mut K) -> Mem<Ran>
        ensures ran { IfOk result (EndPuts (length self.now.log) (K.takes out.old) (K.takes out.new)) }
        ensures later { (K.takes out.old).faults ≤ (K.takes out.new).faults }
        ensures err { OnErr result (K.takes out.new ≡ K.takes out.old) }
    {
        let last = Line::End {
            records: self.records(),
        };
        let mut text = String::new(alloc);
        last.push_to(&mut text)?;
        match put_all(out, text.as_bytes()) {
            Ok(()) => Ok(Ran::Whole),
            Err(_) => Ok(Ran::WriteFault),
        }
    }
}

/// Bytes are put, and this follows; where the sink fails, that is the end of the run.
fn put_text<K: Sink>(out: &mut K, bytes: &[u8], next: Option<Ran>) -> Option<Ran>
    ensures { Puts bytes.now next (K.takes out.old) (K.takes out.new) result }
{
    match put_all(out, bytes) {
        Ok(()) => next,
        Err(_) => Some(Ran::WriteFault),
    }
}
