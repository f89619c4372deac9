//! Servers that stop: each is opened anew, and a line says so.

ghost use Rattle.std.specs.Prelude.{◌≡◌, ◌↔◌, ◌≤◌, ◌++◌, ◌∷◌, [], List, ℕ, length, IfOk, IsTrue, MatchOption, OnErr, OnOk};
ghost use Rattle.std.specs.String.{string_bytes};
ghost use Rattle.run_ends.specs.Ends.{run_machines};
ghost use Rattle.run_ends.specs.Setting as setting;
ghost use Rattle.source_core.specs.Location.{IsShort};
ghost use Rattle.wire_log.specs.Keeping.{reading};
ghost use Rattle.wire_machine.specs.Runs.{most_bytes};
ghost use Rattle.wire_machine.specs.World.{bytes_of};
ghost use Rattle.wire_run.specs.Cutting.{boot_at, crash_lines, dest_kept, kept_at, source_kept, with_end, without_end, ArmedAt, DestArmed, DestCalls, DestIsOut, DestMayReopen, DestReopens, EndKeeps, EndReopens, GoesOnAt, IsDueAt, IsOutAt, MayReopenAt, ReopensAt, RestsAt, ServerEnds, SmallEnds, SourceArmed, SourceCalls, SourceIsOut, SourceMayReopen, SourceReopens};
ghost use Rattle.wire_run.specs.Stage.{BeginsNone, IsDestOpen, IsFair, IsOpenAt, IsSourceOpen, SettleKeeps, SmallIs, SmallKeeps, faults_named};
ghost use Rattle.wire_run.specs.Watching.{KeepsStops, no_side, no_stop, noted, sets_in, stop_at, stopped_by};
ghost use Rattle.wire_schedule.specs.declared.event.Event.TheVariants as kinds;

use crate::ends::{DestEnd, SourceEnd};
use crate::fresh::{Unmade, unopened};
use crate::stage::{Acted, Fault, Lost, Stage, Stop};
use crate::stop_laws::servers_stop;
use copy_privs::Peer;
use disk_model::CrashDisk;
use gss_mech::Mechanism;
use nfs_base::{NetLoc, Side};
use outcome::Mem;
use run_ends::stops::{kept_by, reopen_dest, reopen_source, servers_open_anew};
use run_ends::{dest_name, dest_place, dest_source, source_peers, source_place};
use server_volume::Used;
use std::alloc::Global;
use std::mem;
use volume_stops::{Kept, Pending};
use wire_lines::Line;
use wire_machine::Choice;
use wire_xdr::{Items, Octets};

/// The servers that a source knows, and where it is found.
fn source_names(alloc: Global) -> Mem<(Items<Peer>, NetLoc)>
    ensures peers { IfOk result (λ names. names.0 ≡ setting.source_peers) }
    ensures own { IfOk result (λ names. names.1 ≡ setting.source_place) }
    ensures short { IfOk result (λ names. IsShort names.1) }
{
    let peers = source_peers(alloc)?;
    let own = source_place(alloc)?;
    Ok((peers, own))
}

/// The source of a destination, its principal, and where it is found.
fn dest_names(alloc: Global) -> Mem<(Peer, Octets, NetLoc)>
    ensures source { IfOk result (λ names. names.0 ≡ setting.dest_source) }
    ensures principal { IfOk result (λ names. names.1 ≡ setting.dest_name) }
    ensures own { IfOk result (λ names. names.2 ≡ setting.dest_place) }
{
    let source = dest_source(alloc)?;
    let principal = dest_name(alloc)?;
    let own = dest_place(alloc)?;
    Ok((source, principal, own))
}

impl<D: CrashDisk + Drop, M: Mechanism> SourceEnd<D, M> {
    /// Its disk crashes under a pick, and it is opened anew. A disk that refuses that comes back, and the end is away then.
    pub(crate) fn reopen(&mut self, alloc: Global, pick: u8) -> Mem<Result<(), (D, Unmade)>>
        requires may { SourceMayReopen D.Told D.size D.fuse D.timeline D.faults self.old }
        ensures reopens { IfOk result (SourceReopens D.Told D.size D.fuse D.timeline D.faults self.old self.new) }
        ensures away { OnErr result (self.new ≡ SourceEnd.Away) }
    {
        let core = match mem::replace(self, SourceEnd::Away) {
            SourceEnd::Open(core) => core,
            other => {
                drop(other);
                unreachable!()
            }
        };
        let (peers, own) = match source_names(alloc) {
            Ok(names) => names,
            Err(memory) => {
                drop(core);
                return Err(memory);
            }
        };
        match reopen_source(alloc, core, pick, peers, own)? {
            Ok(core) => {
                drop(mem::replace(self, SourceEnd::Open(core)));
                Ok(Ok(()))
            }
            Err((disk, fault)) => Ok(Err((disk, unopened(fault)))),
        }
    }

    /// What a crash kept of a commit, by the home of its file's table.
    fn kept(&self, pending: Option<Pending>) -> Kept
        requires { IsSourceOpen self.now }
        ensures { result ≡ source_kept pending self.now }
    {
        let SourceEnd::Open(core) = self else {
            unreachable!()
        };
        kept_by(core.volume(), pending)
    }

    /// Whether its machine has stopped.
    fn has_stopped(&self) -> bool
        requires { IsSourceOpen self.now }
        ensures { IsTrue result ↔ SourceIsOut D.fuse self.now }
    {
        let SourceEnd::Open(core) = self else {
            unreachable!()
        };
        core.volume().stopped()
    }

    /// Between two of its steps no calls are made on its volume.
    pub(crate) fn rests(&self)
        requires { IsSourceOpen self.now }
        ensures { SourceCalls D.Told D.size D.fuse D.timeline D.faults self.now self.now [] }
    {
        servers_open_anew::<D>();
        let SourceEnd::Open(core) = self else {
            unreachable!()
        };
        core.boot();
    }

    /// Lets so many more writes and syncs of its disk pass; the one after them stops its machine.
    fn arm(&mut self, calls: u64)
        requires { IsSourceOpen self.old }
        ensures { SourceArmed D.Told D.size D.fuse D.faults calls self.old self.new }
    {
        let SourceEnd::Open(core) = self else {
            unreachable!()
        };
        core.fuse(calls);
    }
}

impl<D: CrashDisk + Drop, M: Mechanism> DestEnd<D, M> {
    /// Its disk crashes under a pick, and it is opened anew. A disk that refuses that comes back, and the end is away then.
    pub(crate) fn reopen(&mut self, alloc: Global, pick: u8) -> Mem<Result<(), (D, Unmade)>>
        requires may { DestMayReopen D.Told D.size D.fuse D.timeline D.faults self.old }
        ensures reopens { IfOk result (DestReopens D.Told D.size D.fuse D.timeline D.faults self.old self.new) }
        ensures away { OnErr result (self.new ≡ DestEnd.Away) }
    {
        let core = match mem::replace(self, DestEnd::Away) {
            DestEnd::Open(core) => core,
            other => {
                drop(other);
                unreachable!()
            }
        };
        let (source, principal, own) = match dest_names(alloc) {
            Ok(names) => names,
            Err(memory) => {
                drop(core);
                return Err(memory);
            }
        };
        match reopen_dest(alloc, core, pick, source, principal, own)? {
            Ok(core) => {
                drop(mem::replace(self, DestEnd::Open(core)));
                Ok(Ok(()))
            }
            Err((disk, fault)) => Ok(Err((disk, unopened(fault)))),
        }
    }

    /// What a crash kept of a commit, by the home of its file's table.
    fn kept(&self, pending: Option<Pending>) -> Kept
        requires { IsDestOpen self.now }
        ensures { result ≡ dest_kept pending self.now }
    {
        let DestEnd::Open(core) = self else {
            unreachable!()
        };
        kept_by(core.volume(), pending)
    }

    /// Whether its machine has stopped.
    fn has_stopped(&self) -> bool
        requires { IsDestOpen self.now }
        ensures { IsTrue result ↔ DestIsOut D.fuse self.now }
    {
        let DestEnd::Open(core) = self else {
            unreachable!()
        };
        core.volume().stopped()
    }

    /// Between two of its steps no calls are made on its volume.
    pub(crate) fn rests(&self)
        requires { IsDestOpen self.now }
        ensures { DestCalls D.Told D.size D.fuse D.timeline D.faults self.now self.now [] }
    {
        servers_open_anew::<D>();
        let DestEnd::Open(core) = self else {
            unreachable!()
        };
        core.boot();
    }

    /// Lets so many more writes and syncs of its disk pass; the one after them stops its machine.
    fn arm(&mut self, calls: u64)
        requires { IsDestOpen self.old }
        ensures { DestArmed D.Told D.size D.fuse D.faults calls self.old self.new }
    {
        let DestEnd::Open(core) = self else {
            unreachable!()
        };
        core.fuse(calls);
    }
}

impl<D: CrashDisk + Drop, M: Mechanism> Stage<D, M> {
    /// The small step ends in which a server acted. Where its machine stopped, it is opened anew; else what it gave is put down.
    pub(crate) fn end_server(
        &mut self,
        alloc: Global,
        side: Side,
        acted: Acted,
        text: &mut String,
    ) -> Mem<Result<Option<Fault>, Lost<D>>>
        requires open { IsOpenAt side self.old }
        requires may { MayReopenAt D.Told D.size D.fuse D.timeline D.faults side self.old }
        requires took { acted.took ≤ length self.old.log }
        requires bytes { bytes_of self.old.log ≤ most_bytes }
        ensures ends { IfOk result (ServerEnds D.Told D.size D.fuse D.timeline D.faults reading side acted self.old self.new (string_bytes text.old) (string_bytes text.new)) }
        ensures keeps { EndKeeps D.Told D.size D.fuse D.timeline D.faults side acted.out.used self.old self.new }
    {
        match self.due(side) {
            Some(pick) => self.cut(alloc, side, pick, &acted, text),
            None => {
                self.note(side, acted.out.used.as_slice());
                let fault = self.settle(alloc, acted, text)?;
                Ok(Ok(fault))
            }
        }
    }

    /// The pick under which a server's disk is to crash, where its fuse was set and its machine has stopped.
    fn due(&self, side: Side) -> Option<u8>
        requires { IsOpenAt side self.now }
        ensures { MatchOption result (GoesOnAt D.fuse side self.now) (IsDueAt D.fuse side self.now) }
    {
        match self.stops.at(side).armed {
            None => None,
            Some(pick) => {
                if self.has_stopped(side) {
                    Some(pick)
                } else {
                    None
                }
            }
        }
    }

    /// The calls of a server's step are noted.
    fn note(&mut self, side: Side, used: &[Used])
        ensures { self.new ≡ stopped_by side (noted used.now (stop_at side self.old.stops)) self.old }
    {
        let stop = self.stops.at(side);
        self.stops.put(
            side,
            Stop {
                pending: Pending::behind(stop.pending, used),
                armed: stop.armed,
            },
        );
    }

    /// A server stopped in a small step: it is opened anew, and what it took is checked. Nothing that it sent or told goes on.
    fn cut(
        &mut self,
        alloc: Global,
        side: Side,
        pick: u8,
        acted: &Acted,
        text: &mut String,
    ) -> Mem<Result<Option<Fault>, Lost<D>>>
        requires due { IsDueAt D.fuse side self.old pick }
        requires may { MayReopenAt D.Told D.size D.fuse D.timeline D.faults side self.old }
        requires bytes { bytes_of self.old.log ≤ most_bytes }
        ensures ends { IfOk result (ServerEnds D.Told D.size D.fuse D.timeline D.faults reading side acted.now self.old self.new (string_bytes text.old) (string_bytes text.new)) }
        ensures keeps { EndKeeps D.Told D.size D.fuse D.timeline D.faults side acted.now.out.used self.old self.new }
    {
        let pending = Pending::within(self.stops.at(side).pending, acted.out.used.as_slice());
        match self.reopen(alloc, side, pick)? {
            Err(lost) => Ok(Err(lost)),
            Ok(()) => match self
                .log
                .mistake(acted.end, acted.opening, acted.out.accepted, acted.took)
            {
                Some(mistake) => Ok(Ok(Some(Fault::Mistaken(mistake)))),
                None => {
                    self.tell_stop(side, pending, text)?;
                    Ok(Ok(None))
                }
            },
        }
    }

    /// A server's disk crashes under a pick between two steps, and the server is opened anew.
    pub(crate) fn crash(
        &mut self,
        alloc: Global,
        side: Side,
        pick: u8,
        text: &mut String,
    ) -> Mem<Result<Option<Fault>, Lost<D>>>
        requires fair { IsFair D.Told D.size D.fuse self.old }
        ensures small { IfOk result (SmallEnds D.Told (run_machines M.mic_of M.derived M.started M.accepted M.finished) reading D.faults D.size (kinds.Crash side pick) self.old self.new (string_bytes text.old) (string_bytes text.new)) }
        ensures keeps { SmallKeeps D.Told self.old self.new }
        ensures stops { KeepsStops D.Told D.size D.fuse no_side self.old self.new }
        ensures begun { BeginsNone self.old.client self.new.client }
        ensures clock { self.new.clock ≡ self.old.clock }
    {
        servers_stop::<D, M>();
        self.rests(side);
        let pending = self.stops.at(side).pending;
        match self.reopen(alloc, side, pick)? {
            Err(lost) => Ok(Err(lost)),
            Ok(()) => {
                self.tell_stop(side, pending, text)?;
                Ok(Ok(None))
            }
        }
    }

    /// A server's disk lets so many more writes and syncs pass. The next one stops the server in the small step that makes it, and the
    /// disk crashes under the pick.
    pub(crate) fn arm(&mut self, side: Side, calls: u64, pick: u8) -> Mem<Option<Fault>>
        requires fair { IsFair D.Told D.size D.fuse self.old }
        ensures small { (text : List ℕ) → IfOk result (λ fault. SmallIs D.Told (run_machines M.mic_of M.derived M.started M.accepted M.finished) reading D.faults D.size (kinds.CrashAfter side calls pick) self.old self.new text text (faults_named fault)) }
        ensures keeps { SmallKeeps D.Told self.old self.new }
        ensures stops { KeepsStops D.Told D.size D.fuse (sets_in (kinds.CrashAfter side calls pick)) self.old self.new }
        ensures begun { BeginsNone self.old.client self.new.client }
        ensures clock { self.new.clock ≡ self.old.clock }
    {
        self.arm_end(side, calls);
        let pending = self.stops.at(side).pending;
        self.stops.put(
            side,
            Stop {
                pending,
                armed: Some(pick),
            },
        );
        self.count(Choice::Went)?;
        Ok(None)
    }

    /// A server's disk crashes, and the server is opened anew. No commit of it is unfinished then, and no fuse is set.
    fn reopen(&mut self, alloc: Global, side: Side, pick: u8) -> Mem<Result<(), Lost<D>>>
        requires may { MayReopenAt D.Told D.size D.fuse D.timeline D.faults side self.old }
        ensures reopens { IfOk result (ReopensAt D.Told D.size D.fuse D.timeline D.faults side self.old self.new) }
        ensures away { OnErr result (self.new ≡ stopped_by side no_stop (without_end side self.old)) }
    {
        self.stops.put(side, Stop::none());
        match self.reopen_end(alloc, side, pick)? {
            Err((disk, cause)) => Ok(Err(Lost { side, disk, cause })),
            Ok(()) => Ok(Ok(())),
        }
    }

    fn reopen_end(&mut self, alloc: Global, side: Side, pick: u8) -> Mem<Result<(), (D, Unmade)>>
        requires may { MayReopenAt D.Told D.size D.fuse D.timeline D.faults side self.old }
        ensures reopens { IfOk result (EndReopens D.Told D.size D.fuse D.timeline D.faults side self.old self.new) }
        ensures rest { self.new ≡ with_end side self.new self.old }
        ensures away { OnErr result (self.new ≡ without_end side self.old) }
    {
        match side {
            Side::Source => self.source.reopen(alloc, pick),
            Side::Dest => self.dest.reopen(alloc, pick),
        }
    }

    /// The line of a stop, behind which the server was opened anew; the small step is counted.
    fn tell_stop(&mut self, side: Side, pending: Option<Pending>, text: &mut String) -> Mem<()>
        requires open { IsOpenAt side self.old }
        requires bytes { bytes_of self.old.log ≤ most_bytes }
        ensures lines { OnOk result (string_bytes text.new ≡ string_bytes text.old ++ crash_lines side pending self.old) }
        ensures choices { OnOk result (self.new.choices.items ≡ self.old.choices.items ++ Choice.Stopped (kept_at side pending self.old) ∷ []) }
        ensures log { self.new.log ≡ self.old.log }
        ensures keeps { SettleKeeps self.old self.new }
    {
        let kept = self.kept(side, pending);
        Line::Crash {
            side,
            boot: self.opening(side),
            kept,
        }
        .push_to(text)?;
        self.count(Choice::Stopped { kept })
    }

    /// The number of the opening of a server's volume.
    fn opening(&self, side: Side) -> u32
        requires { IsOpenAt side self.now }
        ensures { result ≡ boot_at side self.now }
    {
        match side {
            Side::Source => self.source.opening(),
            Side::Dest => self.dest.opening(),
        }
    }

    /// What a crash kept of a commit of a server.
    fn kept(&self, side: Side, pending: Option<Pending>) -> Kept
        requires { IsOpenAt side self.now }
        ensures { result ≡ kept_at side pending self.now }
    {
        match side {
            Side::Source => self.source.kept(pending),
            Side::Dest => self.dest.kept(pending),
        }
    }

    /// Between two steps of a server no calls are made on its volume.
    fn rests(&self, side: Side)
        requires { IsOpenAt side self.now }
        ensures { RestsAt D.Told D.size D.fuse D.timeline D.faults side self.now }
    {
        match side {
            Side::Source => self.source.rests(),
            Side::Dest => self.dest.rests(),
        }
    }

    /// A fuse is set at a server's disk.
    fn arm_end(&mut self, side: Side, calls: u64)
        requires { IsOpenAt side self.old }
        ensures armed { ArmedAt D.Told D.size D.fuse D.faults side calls self.old self.new }
        ensures rest { self.new ≡ with_end side self.new self.old }
    {
        match side {
            Side::Source => self.source.arm(calls),
            Side::Dest => self.dest.arm(calls),
        }
    }

    /// Whether a server's machine has stopped.
    fn has_stopped(&self, side: Side) -> bool
        requires { IsOpenAt side self.now }
        ensures { IsTrue result ↔ IsOutAt D.fuse side self.now }
    {
        match side {
            Side::Source => self.source.has_stopped(),
            Side::Dest => self.dest.has_stopped(),
        }
    }
}
