//! An event, small step by small step.

ghost use Rattle.std.specs.Prelude.{◌≡◌, ◌+◌, ◌<◌, ◌∷◌, [], ◌≤◌, length, map, IfOk, OnErr, Some};
ghost use Rattle.std.specs.String.{string_bytes};
ghost use Rattle.disk_model.specs.declared.fuse.Fuse.TheVariants.{Unset};
ghost use Rattle.wire_log.specs.Keeping.{reading};
ghost use Rattle.wire_machine.specs.World.{waiting};
ghost use Rattle.run_ends.specs.Ends.{run_machines};
ghost use Rattle.wire_run.specs.Cutting.{disk_at, FlowsEnd, StageEnds};
ghost use Rattle.wire_run.specs.Fresh.{IsShape};
ghost use Rattle.wire_run.specs.Making.{AwayAt, IsDiskAt, MakesAt};
ghost use Rattle.wire_run.specs.Running.{fault_in, text_in, MakesNone};
ghost use Rattle.wire_run.specs.Stage.{begun_in, faults_named, most_records, BeginsNone, BeginsOnly, FlowKeeps, FlowKeepsStops, IsFair, IsFit, IsFlowing, SmallKeeps};
ghost use Rattle.wire_run.specs.Watching.{fuse_in, sets_in, KeepsStops};

use crate::fresh::Unmade;
use crate::stage::{Fault, Lost, Stage};
use crate::system::Stepped;
use disk_model::CrashDisk;
use gss_mech::Mechanism;
use nfs_base::Side;
use outcome::Mem;
use std::alloc::Global;
use wire_schedule::Event;

impl<D: CrashDisk + Drop, M: Mechanism> Stage<D, M> {
    /// Makes a server.
    pub(crate) fn make(
        &mut self,
        alloc: Global,
        mech: M,
        side: Side,
        files: u32,
        blocks: u32,
    ) -> Mem<Result<(), Unmade>>
        requires disk { IsDiskAt side self.old }
        requires shape { IsShape files blocks }
        ensures makes { IfOk result (MakesAt D.Told D.faults D.size mech (record { files = files; blocks = blocks }) side self.old self.new) }
        ensures away { OnErr result (AwayAt side self.old self.new) }
        ensures unset { IfOk result (λ made. IfOk made (λ _. fuse_in D.fuse (disk_at side self.new) ≡ Unset)) }
    {
        match side {
            Side::Source => self.source.make(alloc, mech, files, blocks),
            Side::Dest => self.dest.make(alloc, mech, files, blocks),
        }
    }
}

impl<D: CrashDisk + Drop, M: Mechanism> Stage<D, M> {
    /// An event that is one small step.
    pub(crate) fn once(&mut self, alloc: Global, event: &Event) -> Mem<Result<Stepped, Lost<D>>>
        requires fair { IsFair D.Told D.size D.fuse self.old }
        requires fit { IsFit D.Told event.now self.old }
        ensures goes { IfOk result (StageEnds D.Told (run_machines M.mic_of M.derived M.started M.accepted M.finished) reading D.faults D.size (event.now ∷ []) self.old self.new) }
        ensures made { IfOk result (λ ended. IfOk ended MakesNone) }
        ensures keeps { SmallKeeps D.Told self.old self.new }
        ensures stops { KeepsStops D.Told D.size D.fuse (sets_in event.now) self.old self.new }
        ensures begun { BeginsOnly (begun_in event.now) self.old.client self.new.client }
        ensures clock { self.new.clock ≤ self.old.clock + 1000000 }
    {
        let mut text = String::new(alloc);
        match self.small(alloc, event, &mut text)? {
            Ok(fault) => Ok(Ok(stepped(text, fault))),
            Err(lost) => Ok(Err(lost)),
        }
    }

    /// Delivers each record that wasn't delivered yet and was sent before, in order.
    pub(crate) fn flow(&mut self, alloc: Global) -> Mem<Result<Stepped, Lost<D>>>
        requires { IsFlowing D.Told D.size D.fuse self.old }
        ensures goes { IfOk result (StageEnds D.Told (run_machines M.mic_of M.derived M.started M.accepted M.finished) reading D.faults D.size (map Event.Deliver (waiting self.old.log)) self.old self.new) }
        ensures made { IfOk result (λ ended. IfOk ended MakesNone) }
        ensures keeps { FlowKeeps D.Told self.old self.new }
        ensures stops { FlowKeepsStops D.Told D.size D.fuse self.old self.new }
        ensures begun { BeginsNone self.old.client self.new.client }
    {
        let mut text = String::new(alloc);
        let last = self.log.count();
        'deliveries: while self.flowed < last {
            match self.flow_one(alloc, &mut text)? {
                Ok(None) => {}
                Ok(Some(fault)) => return Ok(Ok(stepped(text, Some(fault)))),
                Err(lost) => return Ok(Err(lost)),
            }
        }
        Ok(Ok(stepped(text, None)))
    }

    /// The next record is delivered, unless it was.
    fn flow_one(&mut self, alloc: Global, text: &mut String) -> Mem<Result<Option<Fault>, Lost<D>>>
        requires flowing { IsFlowing D.Told D.size D.fuse self.old }
        requires more { self.old.flowed < length self.old.log }
        requires few { self.old.flowed < most_records }
        ensures flows { IfOk result (FlowsEnd D.Told (run_machines M.mic_of M.derived M.started M.accepted M.finished) reading D.faults D.size self.old self.new (string_bytes text.old) (string_bytes text.new)) }
        ensures keeps { FlowKeeps D.Told self.old self.new }
        ensures stops { FlowKeepsStops D.Told D.size D.fuse self.old self.new }
        ensures flowing { IfOk result (λ ended. IfOk ended (λ _. IsFlowing D.Told D.size D.fuse self.new)) }
        ensures begun { BeginsNone self.old.client self.new.client }
        ensures flowed { self.new.flowed ≡ self.old.flowed + 1 }
    {
        self.flowed += 1;
        let number = self.flowed;
        if self.log.is_waiting(number) {
            self.deliver(alloc, number, text)
        } else {
            Ok(Ok(None))
        }
    }
}

/// What became of an event.
fn stepped(text: String, fault: Option<Fault>) -> Stepped
    ensures text { text_in result ≡ string_bytes text }
    ensures fault { fault_in result ≡ faults_named fault }
    ensures made { MakesNone result }
{
    match fault {
        None => Stepped::Went { text },
        Some(Fault::Mistaken(mistake)) => Stepped::Mistaken { text, mistake },
        Some(Fault::TooLarge) => Stepped::OverLimit { text },
    }
}
