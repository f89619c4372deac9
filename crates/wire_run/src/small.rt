//! The small steps of an event.

ghost use Rattle.std.specs.Prelude.{◌≡◌, ◌+◌, ◌<◌, ◌≤◌, ◌++◌, length, true, None, Some, IfOk, IfSome, IsSome, OnOk};
ghost use Rattle.std.specs.String.{string_bytes};
ghost use Rattle.wire_lines.specs.LineText.{lines_text};
ghost use Rattle.wire_log.specs.Keeping.{reading};
ghost use Rattle.wire_machine.specs.Ends as acts;
ghost use Rattle.wire_machine.specs.Steps.{command_of, port_in, side_at, AllTick, ClientDoes, DestDoes, DestStops};
ghost use Rattle.wire_machine.specs.Runs.{most_bytes};
ghost use Rattle.wire_machine.specs.World.{bytes_of, marked, posted_at};
ghost use Rattle.run_ends.specs.Ends.{is_worker, run_machines};
ghost use Rattle.wire_run.specs.Cutting.{disk_at, EndsIn, IsLasting, SmallEnds, StopsAt, StopsHandedOver};
ghost use Rattle.wire_run.specs.Watching.{fuse_in, no_side, sets_in, AreWatched, KeepsStops};
ghost use Rattle.wire_run.specs.Stage.{begun_in, bytes_lines, faults_named, has_failed, AllLook, BeginsNone, BeginsOnly, Comes, Grows, HandsOver, HasFileAt, IsBelow, IsCommand, IsFair, IsFit, IsOpenAt, IsReady, IsSizedAt, LooksOnly, Peeks, SmallIs, SmallKeeps, TakesAt};

use crate::acting::{client_commanded, client_takes, client_ticks};
use crate::settling::choice_by;
use crate::stage::{Acted, Fault, Lost, Stage, Ticked};
use crate::stop_laws::servers_stop;
use crate::system::Peeked;
use disk_model::CrashDisk;
use gss_mech::Mechanism;
use nfs_base::{End, Side};
use outcome::Mem;
use std::alloc::Global;
use wire_lines::{Line, Speaker};
use wire_machine::{Choice, Port};
use wire_schedule::Event;
use wire_xdr::Octets;

impl<D: CrashDisk + Drop, M: Mechanism> Stage<D, M> {
    /// An event that is one small step. None where the run goes on.
    pub(crate) fn small(
        &mut self,
        alloc: Global,
        event: &Event,
        text: &mut String,
    ) -> Mem<Result<Option<Fault>, Lost<D>>>
        requires fair { IsFair D.Told D.size D.fuse self.old }
        requires fit { IsFit D.Told event.now self.old }
        ensures small { IfOk result (SmallEnds D.Told (run_machines M.mic_of M.derived M.started M.accepted M.finished) reading D.faults D.size event.now self.old self.new (string_bytes text.old) (string_bytes text.new)) }
        ensures keeps { SmallKeeps D.Told self.old self.new }
        ensures stops { KeepsStops D.Told D.size D.fuse (sets_in event.now) self.old self.new }
        ensures begun { BeginsOnly (begun_in event.now) self.old.client self.new.client }
        ensures clock { self.new.clock ≤ self.old.clock + 1000000 }
    {
        match event {
            Event::Deliver { number } => self.deliver(alloc, *number, text),
            Event::Work { worker } => self.work(alloc, *worker, text),
            Event::Crash { side, pick } => self.crash(alloc, *side, *pick, text),
            _ => {
                let fault = self.lasting(alloc, event, text)?;
                Ok(Ok(fault))
            }
        }
    }

    /// An event that is one small step in which no server can stop.
    fn lasting(&mut self, alloc: Global, event: &Event, text: &mut String) -> Mem<Option<Fault>>
        requires fair { IsFair D.Told D.size D.fuse self.old }
        requires fit { IsFit D.Told event.now self.old }
        requires lasts { IsLasting event.now }
        ensures small { IfOk result (λ fault. SmallIs D.Told (run_machines M.mic_of M.derived M.started M.accepted M.finished) reading D.faults D.size event.now self.old self.new (string_bytes text.old) (string_bytes text.new) (faults_named fault)) }
        ensures keeps { SmallKeeps D.Told self.old self.new }
        ensures stops { KeepsStops D.Told D.size D.fuse (sets_in event.now) self.old self.new }
        ensures begun { BeginsOnly (begun_in event.now) self.old.client self.new.client }
        ensures clock { self.new.clock ≤ self.old.clock + 1000000 }
    {
        match event {
            Event::Tick { seconds } => self.tick(alloc, *seconds, text),
            Event::Peek {
                side,
                file,
                off,
                len,
            } => self.show(alloc, *side, *file, *off, *len, text),
            Event::CrashAfter { side, calls, pick } => self.arm(*side, *calls, *pick),
            _ => self.command(alloc, event, text),
        }
    }

    /// A command of the client.
    fn command(&mut self, alloc: Global, event: &Event, text: &mut String) -> Mem<Option<Fault>>
        requires fair { IsFair D.Told D.size D.fuse self.old }
        requires command { IsCommand event.now self.old.client }
        ensures comes { IfOk result (λ fault. Comes D.Told (run_machines M.mic_of M.derived M.started M.accepted M.finished) reading D.faults D.size
            (λ before parts after. IfSome (command_of event.now) (λ act. ClientDoes (run_machines M.mic_of M.derived M.started M.accepted M.finished) act None before parts after))
            self.old self.new (string_bytes text.old) (string_bytes text.new) (faults_named fault)) }
        ensures keeps { SmallKeeps D.Told self.old self.new }
        ensures stops { KeepsStops D.Told D.size D.fuse no_side self.old self.new }
        ensures there { IsSome (command_of event.now) }
        ensures begun { BeginsOnly (begun_in event.now) self.old.client self.new.client }
        ensures clock { self.new.clock ≡ self.old.clock }
    {
        let out = client_commanded(&mut self.client, alloc, event, self.clock, &mut self.draws)?;
        let acted = Acted {
            end: End::Client,
            opening: 0,
            speaker: Speaker::Client,
            took: 0,
            out,
        };
        self.settle(alloc, acted, text)
    }

    /// A worker of the destination makes one step.
    fn work(
        &mut self,
        alloc: Global,
        worker: u8,
        text: &mut String,
    ) -> Mem<Result<Option<Fault>, Lost<D>>>
        requires fair { IsFair D.Told D.size D.fuse self.old }
        requires there { is_worker worker ≡ true }
        ensures comes { IfOk result (EndsIn D.Told (run_machines M.mic_of M.derived M.started M.accepted M.finished) reading D.faults D.size Side.Dest
            (DestDoes (run_machines M.mic_of M.derived M.started M.accepted M.finished) (acts.Works worker) Speaker.Dest None)
            (DestStops (run_machines M.mic_of M.derived M.started M.accepted M.finished) (acts.Works worker) Speaker.Dest None)
            self.old self.new (string_bytes text.old) (string_bytes text.new)) }
        ensures keeps { SmallKeeps D.Told self.old self.new }
        ensures stops { KeepsStops D.Told D.size D.fuse no_side self.old self.new }
        ensures begun { BeginsNone self.old.client self.new.client }
        ensures clock { self.new.clock ≡ self.old.clock }
    {
        servers_stop::<D, M>();
        let out = self.dest.work(alloc, worker, self.clock, &mut self.draws)?;
        let acted = Acted {
            end: End::Dest,
            opening: self.dest.opening(),
            speaker: Speaker::Dest,
            took: 0,
            out,
        };
        self.end_server(alloc, Side::Dest, acted, text)
    }

    /// A record is delivered. Where none has the number, that is told, and nothing happens.
    pub(crate) fn deliver(
        &mut self,
        alloc: Global,
        number: u64,
        text: &mut String,
    ) -> Mem<Result<Option<Fault>, Lost<D>>>
        requires { IsFair D.Told D.size D.fuse self.old }
        ensures small { IfOk result (SmallEnds D.Told (run_machines M.mic_of M.derived M.started M.accepted M.finished) reading D.faults D.size (Event.Deliver number) self.old self.new (string_bytes text.old) (string_bytes text.new)) }
        ensures keeps { SmallKeeps D.Told self.old self.new }
        ensures stops { KeepsStops D.Told D.size D.fuse no_side self.old self.new }
        ensures grows { Grows (marked number self.old.log) self.new.log }
        ensures begun { BeginsNone self.old.client self.new.client }
        ensures clock { self.new.clock ≡ self.old.clock }
    {
        if self.log.has(number) {
            self.log.mark(number);
            self.hand_over(alloc, number, text)
        } else {
            Line::NoRecord { number }.push_to(text)?;
            self.count(Choice::Went)?;
            Ok(Ok(None))
        }
    }

    /// A record that was just marked as delivered goes in where it goes in.
    fn hand_over(
        &mut self,
        alloc: Global,
        number: u64,
        text: &mut String,
    ) -> Mem<Result<Option<Fault>, Lost<D>>>
        requires fair { IsFair D.Told D.size D.fuse self.old }
        requires sent { IsSome (posted_at number self.old.log) }
        ensures comes { IfOk result (EndsIn D.Told (run_machines M.mic_of M.derived M.started M.accepted M.finished) reading D.faults D.size (side_at (port_in (posted_at number self.old.log)))
            (HandsOver (run_machines M.mic_of M.derived M.started M.accepted M.finished) number)
            (StopsHandedOver (run_machines M.mic_of M.derived M.started M.accepted M.finished) number)
            self.old self.new (string_bytes text.old) (string_bytes text.new)) }
        ensures keeps { SmallKeeps D.Told self.old self.new }
        ensures stops { KeepsStops D.Told D.size D.fuse no_side self.old self.new }
        ensures grows { Grows self.old.log self.new.log }
        ensures begun { BeginsNone self.old.client self.new.client }
        ensures clock { self.new.clock ≡ self.old.clock }
    {
        match self.log.port(number) {
            None => {
                self.count(Choice::Went)?;
                Ok(Ok(None))
            }
            Some(port) => self.arrive(alloc, number, port, text),
        }
    }

    /// A record arrives where it goes in.
    fn arrive(
        &mut self,
        alloc: Global,
        number: u64,
        port: Port,
        text: &mut String,
    ) -> Mem<Result<Option<Fault>, Lost<D>>>
        requires fair { IsFair D.Told D.size D.fuse self.old }
        requires sent { IsSome (posted_at number self.old.log) }
        ensures comes { IfOk result (EndsIn D.Told (run_machines M.mic_of M.derived M.started M.accepted M.finished) reading D.faults D.size (side_at (Some port))
            (TakesAt (run_machines M.mic_of M.derived M.started M.accepted M.finished) port number)
            (StopsAt (run_machines M.mic_of M.derived M.started M.accepted M.finished) port number)
            self.old self.new (string_bytes text.old) (string_bytes text.new)) }
        ensures keeps { SmallKeeps D.Told self.old self.new }
        ensures stops { KeepsStops D.Told D.size D.fuse no_side self.old self.new }
        ensures grows { Grows self.old.log self.new.log }
        ensures begun { BeginsNone self.old.client self.new.client }
        ensures clock { self.new.clock ≡ self.old.clock }
    {
        match port {
            Port::Source { conn } => self.at_source(alloc, number, conn, text),
            Port::Dest => self.at_dest(alloc, number, text),
            Port::Worker { worker } => self.at_worker(alloc, number, worker, text),
            Port::Client { from } => {
                let fault = self.at_client(alloc, number, from, text)?;
                Ok(Ok(fault))
            }
        }
    }

    fn at_source(
        &mut self,
        alloc: Global,
        number: u64,
        conn: u32,
        text: &mut String,
    ) -> Mem<Result<Option<Fault>, Lost<D>>>
        requires fair { IsFair D.Told D.size D.fuse self.old }
        requires sent { IsSome (posted_at number self.old.log) }
        ensures comes { IfOk result (EndsIn D.Told (run_machines M.mic_of M.derived M.started M.accepted M.finished) reading D.faults D.size Side.Source
            (TakesAt (run_machines M.mic_of M.derived M.started M.accepted M.finished) (Port.Source conn) number)
            (StopsAt (run_machines M.mic_of M.derived M.started M.accepted M.finished) (Port.Source conn) number)
            self.old self.new (string_bytes text.old) (string_bytes text.new)) }
        ensures keeps { SmallKeeps D.Told self.old self.new }
        ensures stops { KeepsStops D.Told D.size D.fuse no_side self.old self.new }
        ensures grows { Grows self.old.log self.new.log }
        ensures begun { BeginsNone self.old.client self.new.client }
        ensures clock { self.new.clock ≡ self.old.clock }
    {
        servers_stop::<D, M>();
        let bytes = self.log.stored(number);
        let out = self
            .source
            .take(alloc, conn, bytes, self.clock, &mut self.draws)?;
        let acted = Acted {
            end: End::Source,
            opening: self.source.opening(),
            speaker: Speaker::Source,
            took: number,
            out,
        };
        self.end_server(alloc, Side::Source, acted, text)
    }

    fn at_dest(
        &mut self,
        alloc: Global,
        number: u64,
        text: &mut String,
    ) -> Mem<Result<Option<Fault>, Lost<D>>>
        requires fair { IsFair D.Told D.size D.fuse self.old }
        requires sent { IsSome (posted_at number self.old.log) }
        ensures comes { IfOk result (EndsIn D.Told (run_machines M.mic_of M.derived M.started M.accepted M.finished) reading D.faults D.size Side.Dest
            (TakesAt (run_machines M.mic_of M.derived M.started M.accepted M.finished) Port.Dest number)
            (StopsAt (run_machines M.mic_of M.derived M.started M.accepted M.finished) Port.Dest number)
            self.old self.new (string_bytes text.old) (string_bytes text.new)) }
        ensures keeps { SmallKeeps D.Told self.old self.new }
        ensures stops { KeepsStops D.Told D.size D.fuse no_side self.old self.new }
        ensures grows { Grows self.old.log self.new.log }
        ensures begun { BeginsNone self.old.client self.new.client }
        ensures clock { self.new.clock ≡ self.old.clock }
    {
        servers_stop::<D, M>();
        let bytes = self.log.stored(number);
        let out = self.dest.take(alloc, bytes, self.clock, &mut self.draws)?;
        let acted = Acted {
            end: End::Dest,
            opening: self.dest.opening(),
            speaker: Speaker::Dest,
            took: number,
            out,
        };
        self.end_server(alloc, Side::Dest, acted, text)
    }

    fn at_worker(
        &mut self,
        alloc: Global,
        number: u64,
        worker: u32,
        text: &mut String,
    ) -> Mem<Result<Option<Fault>, Lost<D>>>
        requires fair { IsFair D.Told D.size D.fuse self.old }
        requires sent { IsSome (posted_at number self.old.log) }
        ensures comes { IfOk result (EndsIn D.Told (run_machines M.mic_of M.derived M.started M.accepted M.finished) reading D.faults D.size Side.Dest
            (TakesAt (run_machines M.mic_of M.derived M.started M.accepted M.finished) (Port.Worker worker) number)
            (StopsAt (run_machines M.mic_of M.derived M.started M.accepted M.finished) (Port.Worker worker) number)
            self.old self.new (string_bytes text.old) (string_bytes text.new)) }
        ensures keeps { SmallKeeps D.Told self.old self.new }
        ensures stops { KeepsStops D.Told D.size D.fuse no_side self.old self.new }
        ensures grows { Grows self.old.log self.new.log }
        ensures begun { BeginsNone self.old.client self.new.client }
        ensures clock { self.new.clock ≡ self.old.clock }
    {
        servers_stop::<D, M>();
        let bytes = self.log.stored(number);
        let out = self.dest.hear(alloc, worker, bytes, self.clock)?;
        let acted = Acted {
            end: End::Dest,
            opening: self.dest.opening(),
            speaker: Speaker::Worker,
            took: number,
            out,
        };
        self.end_server(alloc, Side::Dest, acted, text)
    }

    fn at_client(
        &mut self,
        alloc: Global,
        number: u64,
        from: Side,
        text: &mut String,
    ) -> Mem<Option<Fault>>
        requires fair { IsFair D.Told D.size D.fuse self.old }
        requires sent { IsSome (posted_at number self.old.log) }
        ensures comes { IfOk result (λ fault. Comes D.Told (run_machines M.mic_of M.derived M.started M.accepted M.finished) reading D.faults D.size
            (TakesAt (run_machines M.mic_of M.derived M.started M.accepted M.finished) (Port.Client from) number)
            self.old self.new (string_bytes text.old) (string_bytes text.new) (faults_named fault)) }
        ensures keeps { SmallKeeps D.Told self.old self.new }
        ensures stops { KeepsStops D.Told D.size D.fuse no_side self.old self.new }
        ensures grows { Grows self.old.log self.new.log }
        ensures begun { BeginsNone self.old.client self.new.client }
        ensures clock { self.new.clock ≡ self.old.clock }
    {
        let bytes = self.log.stored(number);
        let out = client_takes(
            &mut self.client,
            alloc,
            from,
            bytes,
            self.clock,
            &mut self.draws,
        )?;
        let acted = Acted {
            end: End::Client,
            opening: 0,
            speaker: Speaker::Client,
            took: number,
            out,
        };
        self.settle(alloc, acted, text)
    }

    /// The clock moves on, and each end looks at it: the source, the destination, the client.
    fn tick(&mut self, alloc: Global, seconds: u32, text: &mut String) -> Mem<Option<Fault>>
        requires fair { IsFair D.Told D.size D.fuse self.old }
        requires few { seconds ≤ 1000000 }
        ensures comes { IfOk result (λ fault. Comes D.Told (run_machines M.mic_of M.derived M.started M.accepted M.finished) reading D.faults D.size
            (AllTick (run_machines M.mic_of M.derived M.started M.accepted M.finished) seconds)
            self.old self.new (string_bytes text.old) (string_bytes text.new) (faults_named fault)) }
        ensures keeps { SmallKeeps D.Told self.old self.new }
        ensures stops { KeepsStops D.Told D.size D.fuse no_side self.old self.new }
        ensures begun { BeginsNone self.old.client self.new.client }
        ensures clock { self.new.clock ≡ self.old.clock + seconds }
    {
        self.clock += u64::from(seconds);
        let ticked = self.all_tick(alloc)?;
        self.settle_all(alloc, ticked, text)
    }

    /// Each end looks at the clock.
    fn all_tick(&mut self, alloc: Global) -> Mem<Ticked>
        requires ready { IsReady self.old }
        requires below { IsBelow 67108862 self.old }
        requires bytes { bytes_of self.old.log ≤ most_bytes }
        requires watched { AreWatched D.Told D.size D.fuse self.old }
        ensures ticks { IfOk result (AllLook D.Told (run_machines M.mic_of M.derived M.started M.accepted M.finished) D.faults D.size self.old self.new) }
        ensures keeps { SmallKeeps D.Told self.old self.new }
        ensures stops { KeepsStops D.Told D.size D.fuse no_side self.old self.new }
        ensures begun { BeginsNone self.old.client self.new.client }
        ensures fuses { (side : Side) → fuse_in D.fuse (disk_at side self.new) ≡ fuse_in D.fuse (disk_at side self.old) }
        ensures same { LooksOnly self.old self.new }
    {
        let source = self.source.tick(alloc, self.clock)?;
        let dest = self.dest.tick(alloc, self.clock)?;
        let client = client_ticks(&mut self.client, alloc, self.clock)?;
        Ok(Ticked {
            source,
            source_opening: self.source.opening(),
            dest,
            dest_opening: self.dest.opening(),
            client,
        })
    }

    /// Shows bytes of a file as they are now.
    fn show(
        &mut self,
        alloc: Global,
        side: Side,
        file: u32,
        off: u64,
        len: u8,
        text: &mut String,
    ) -> Mem<Option<Fault>>
        requires fair { IsFair D.Told D.size D.fuse self.old }
        requires there { HasFileAt D.Told side file self.old }
        ensures small { IfOk result (λ fault. SmallIs D.Told (run_machines M.mic_of M.derived M.started M.accepted M.finished) reading D.faults D.size (Event.Peek side file off len) self.old self.new (string_bytes text.old) (string_bytes text.new) (faults_named fault)) }
        ensures keeps { SmallKeeps D.Told self.old self.new }
        ensures stops { KeepsStops D.Told D.size D.fuse no_side self.old self.new }
        ensures begun { BeginsNone self.old.client self.new.client }
        ensures clock { self.new.clock ≡ self.old.clock }
    {
        let mut shown = vec![in alloc; 0; len as usize]?;
        let read = self.read(side, file, off, &mut shown);
        put_bytes(text, read, side, file, off, shown)?;
        self.count(choice_by(is_failure(read)))?;
        Ok(None)
    }

    /// How many bytes a file has now; 0 where it isn't there.
    pub(crate) fn size(&self, side: Side, file: u32) -> u64
        requires open { IsOpenAt side self.now }
        requires no_root { 1 ≤ file }
        ensures { IsSizedAt side file self.now result }
    {
        match side {
            Side::Source => self.source.size(file),
            Side::Dest => self.dest.size(file),
        }
    }

    /// Fills `out` with bytes of a file as they are now.
    pub(crate) fn read(&mut self, side: Side, file: u32, off: u64, out: &mut [u8]) -> Peeked
        requires open { IsOpenAt side self.old }
        requires no_root { 1 ≤ file }
        ensures peeks { Peeks D.Told D.faults D.size side file off self.old self.new out.old out.new result }
        ensures fuse { fuse_in D.fuse (disk_at side self.new) ≡ fuse_in D.fuse (disk_at side self.old) }
    {
        match side {
            Side::Source => self.source.peek(file, off, out),
            Side::Dest => self.dest.peek(file, off, out),
        }
    }
}

/// Whether the disk failed in a read.
fn is_failure(read: Peeked) -> bool
    ensures { result ≡ has_failed read }
{
    match read {
        Peeked::Failed => true,
        Peeked::Shown | Peeked::Refused => false,
    }
}

/// The line of bytes that are shown; there is none where they couldn't be read.
fn put_bytes(
    text: &mut String,
    read: Peeked,
    side: Side,
    file: u32,
    off: u64,
    bytes: Vec<u8>,
) -> Mem<()>
    ensures { OnOk result (string_bytes text.new ≡ string_bytes text.old ++ lines_text (bytes_lines read side file off bytes.items)) }
{
    if read == Peeked::Shown {
        let bytes = Octets::from_vec(bytes);
        Line::Bytes {
            side,
            file,
            off,
            bytes,
        }
        .push_to(text)?;
    }
    Ok(())
}
