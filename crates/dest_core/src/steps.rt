//! The steps of a destination besides those of every server.

ghost use Rattle.std.specs.Prelude.{◌≡◌, ◌≤◌, ◌<◌, ◌+◌, [], false, true, length, vec_capacity, IfOk, OnErr};
ghost use Rattle.dest_core.specs.Core.{leases_ended};
ghost use Rattle.dest_core.specs.Landing.{copies_in, landed_by, LandsTold};
ghost use Rattle.dest_core.specs.Serving.{given};
ghost use Rattle.dest_core.specs.Stepping.{answer_step, failure_step, finished, around_in, is_undrawn, put_copier, second_in, tick_step, turn_step, reply_step, without_lapsed, IsRecord, IsReply, IsWork};
ghost use Rattle.block_file.specs.Opened.{SameOpening};
ghost use Rattle.dest_jobs.specs.Counting.{KeepsLanded, Lands};
ghost use Rattle.dest_steps.specs.Failing.{failing};
ghost use Rattle.dest_steps.specs.Landing.{doing_of, Does};
ghost use Rattle.dest_steps.specs.Hearing.{heard_client};
ghost use Rattle.dest_steps.specs.Replying.{effect_done, IsHeard};
ghost use Rattle.dest_steps.specs.Sending.{EffectMaySend, FailingMaySend, TurnMaySend};
ghost use Rattle.dest_steps.specs.Ticking.{again};
ghost use Rattle.dest_steps.specs.Turning.{IsTurnOf};
ghost use Rattle.dest_steps.specs.Working.{turn_made};
ghost use Rattle.dest_steps.specs.declared.turning.Turn.TheVariants as turns;
ghost use Rattle.dest_tasks.specs.declared.workers.TheConstants.{WORKERS};
ghost use Rattle.nfs_base.specs.declared.limits.TheConstants.{MOST_JOBS};
ghost use Rattle.outbox.specs.Counting.{landed_in, records_to};
ghost use Rattle.outcome.specs.Causes.{Rose};
ghost use Rattle.server_volume.specs.Choices.{Agrees, Choice};
ghost use Rattle.server_volume.specs.Moments.{Counted};
ghost use Rattle.server_volume.specs.Store.{seat_of, store_of};
ghost use Rattle.session_server.specs.Host.{host_of, stepped_of, IsCounted};
ghost use Rattle.session_server.specs.Lengths.{AreShort};
ghost use Rattle.session_server.specs.declared.host.TheConstants.{MOST_STEPS};

use crate::destination::Destination;
use compound_server::Server;
use dest_back::Hearing;
use dest_jobs::{Carried, Whose};
use dest_steps::{
    Again, Effect, Failing, Heard, Here, Turn, take_again, take_effect, take_failing, take_hearing,
    take_turn,
};
use disk_model::Disk;
use file_server::Files;
use gss_mech::Mechanism;
use nfs_base::{Seal, Stop};
use outbox::{CallList, NoteList, Outbox, Outgoing};
use outcome::Mem;
use rpc_calls::Judged;
use session_server::{Extending, Host};
use std::alloc::Global;
use std::marker::Model;
use streams::Draws;
use wire_xdr::Items;

/// The memory of a step's outbox, for one record that goes out.
#[derive(Drop)]
pub(crate) struct Room {
    sent: Vec<Outgoing>,
    notes: NoteList,
    used: CallList,
}

impl Model for Room {
    ghost use Rattle.std.specs.Prelude.{◌≡◌, ◌≤◌, [], vec_capacity};

    ghost Value = { Unit {0} };

    ghost view = { λ r. tt };

    ghost invariant = { λ r. (r.sent.items ≡ []) × (1 ≤ vec_capacity r.sent) × (r.notes ≡ []) × (r.used ≡ []) };
}

impl Room {
    fn new(alloc: Global) -> Mem<Room> {
        Ok(Room {
            sent: Vec::with_capacity(alloc, 1)?,
            notes: NoteList::new(alloc)?,
            used: CallList::new(alloc)?,
        })
    }
}

/// A worker's turn, once the leases have ended: one step.
pub(crate) fn work<D: Disk, M: Mechanism, W: Draws>(
    host: &mut Host<D, Destination<M>, Carried>,
    alloc: Global,
    place: u32,
    now: u64,
    draws: &mut W,
) -> Mem<Outbox>
    requires few { host.old.steps < MOST_STEPS }
    requires counted { IsCounted given host.old }
    requires silent { (copies_in host.old).told ≡ [] }
    requires place { place < WORKERS }
    ensures is { D.Told → IfOk result (λ out. IsWork W.gives (M.started host.old.server.files.extra.mech) (record { mic = M.mic_of; derived = M.derived }) place now (host_of D.size host.old) draws.old draws.new (stepped_of D.size host.new out)) }
    ensures ran { IfOk result (λ out. Counted D.Told (seat_of D.size D.fuse D.timeline D.faults host.old.server.files.volume) (seat_of D.size D.fuse D.timeline D.faults host.new.server.files.volume) [] out.used) }
    ensures once { IfOk result (λ out. length out.used ≤ 1) }
    ensures undrawn { IfOk result (λ out. out.undrawn ≡ true → Rose (W.faults draws.old) (W.faults draws.new)) }
    ensures short { IfOk result (λ out. AreShort out.sent) }
    ensures err { OnErr result (host.new ≡ host.old) }
    ensures steps { IfOk result (λ _. host.new.steps ≡ host.old.steps + 1) }
    ensures counted { IsCounted given host.new }
    ensures later { W.faults draws.old ≤ W.faults draws.new }
    ensures failing { W.failing draws.new ≡ W.failing draws.old }
    ensures lands { IfOk result (λ out. LandsTold (landed_by host.old) (landed_by host.new) out.notes) }
    ensures one { IfOk result (λ out. records_to (place + 1) out.sent ≤ 1) }
    ensures silent { (copies_in host.new).told ≡ [] }
{
    let room = Room::new(alloc)?;
    let second = host.second_at(now);
    let turn = turn_due(&mut host.server, alloc, place, second, draws)?;
    Ok(make_turn(host, place, now, turn, room))
}

/// What is due in a worker's turn.
fn turn_due<D: Disk, M: Mechanism, W: Draws>(
    server: &mut Server<D, Destination<M>>,
    alloc: Global,
    place: u32,
    second: u64,
    draws: &mut W,
) -> Mem<Turn>
    requires place { place < WORKERS }
    ensures turn { IfOk result (λ turn. IsTurnOf W.gives (M.started server.old.files.extra.mech) (record { mic = M.mic_of; derived = M.derived }) (around_in second server.old) place server.old.files.extra.copier draws.old draws.new (turn, server.new.files.extra.copier)) }
    ensures short { IfOk result TurnMaySend }
    ensures undrawn { IfOk result (λ turn. turn ≡ turns.Undrawn → Rose (W.faults draws.old) (W.faults draws.new)) }
    ensures same { server.new ≡ put_copier server.new.files.extra.copier server.old }
    ensures given { server.new.files.extra.copier.copies.book.table.made ≡ server.old.files.extra.copier.copies.book.table.made }
    ensures err { OnErr result (server.new ≡ server.old) }
    ensures later { W.faults draws.old ≤ W.faults draws.new }
    ensures failing { W.failing draws.new ≡ W.failing draws.old }
    ensures keeps { KeepsLanded server.old.files.extra.copier.copies server.new.files.extra.copier.copies }
    ensures told { server.new.files.extra.copier.copies.told ≡ server.old.files.extra.copier.copies.told }
{
    let here = here(server, second);
    let Server { files, sessions } = server;
    let Destination { copier, mech, .. } = &mut files.extra;
    copier.turn(alloc, place, sessions, here, mech, draws)
}

fn make_turn<D: Disk, M: Mechanism>(
    host: &mut Host<D, Destination<M>, Carried>,
    place: u32,
    now: u64,
    turn: Turn,
    room: Room,
) -> Outbox
    requires few { host.old.steps < MOST_STEPS }
    requires counted { IsCounted given host.old }
    requires silent { (copies_in host.old).told ≡ [] }
    requires place { place < WORKERS }
    requires short { TurnMaySend turn }
    ensures short { AreShort result.sent }
    ensures is { D.Told → (choice : Choice) → Agrees choice result.used → stepped_of D.size host.new result ≡ turn_step choice place now turn (host_of D.size host.old) }
    ensures ran { Counted D.Told (seat_of D.size D.fuse D.timeline D.faults host.old.server.files.volume) (seat_of D.size D.fuse D.timeline D.faults host.new.server.files.volume) [] result.used }
    ensures once { length result.used ≤ 1 }
    ensures steps { host.new.steps ≡ host.old.steps + 1 }
    ensures counted { IsCounted given host.new }
    ensures undrawn { result.undrawn ≡ is_undrawn turn }
    ensures lands { LandsTold (landed_by host.old) (landed_by host.new) result.notes }
    ensures one { records_to (place + 1) result.sent ≤ 1 }
    ensures silent { (copies_in host.new).told ≡ [] }
{
    let undrawn = is_undrawn(&turn);
    second_comes(host, now);
    let Room {
        sent,
        notes,
        mut used,
    } = room;
    let sent = make_turn_on(&mut host.server.files, place, turn, &mut used, sent);
    finish(host, notes, used, sent, None, undrawn)
}

/// Whether a turn does nothing since a draw failed.
fn is_undrawn(turn: &Turn) -> bool
    ensures { result ≡ is_undrawn turn.now }
{
    matches!(turn, Turn::Undrawn)
}

fn make_turn_on<D: Disk, M>(
    files: &mut Files<D, Destination<M>>,
    place: u32,
    turn: Turn,
    used: &mut CallList,
    room: Vec<Outgoing>,
) -> Items<Outgoing>
    requires place { place < WORKERS }
    requires short { TurnMaySend turn }
    requires calls { used.old ≡ [] }
    requires room { room.items ≡ [] }
    requires one { 1 ≤ vec_capacity room }
    ensures does { D.Told → Does (λ choice. turn_made choice place turn (doing_of files.old.extra.copier (store_of D.size files.old.volume) used.old)) files.new.extra.copier (store_of D.size files.new.volume) used.new result }
    ensures ran { Counted D.Told (seat_of D.size D.fuse D.timeline D.faults files.old.volume) (seat_of D.size D.fuse D.timeline D.faults files.new.volume) used.old used.new }
    ensures short { AreShort result }
    ensures once { length used.new ≤ 1 }
    ensures opening { SameOpening files.old.volume.volume files.new.volume.volume }
    ensures tag { files.new.volume.tag ≡ files.old.volume.tag }
    ensures opens { files.new.opens ≡ files.old.opens }
    ensures rest { files.new.extra ≡ record files.old.extra { copier = files.new.extra.copier } }
    ensures given { files.new.extra.copier.copies.book.table.made ≡ files.old.extra.copier.copies.book.table.made }
    ensures lands { Lands files.old.extra.copier.copies files.new.extra.copier.copies }
    ensures one { records_to (place + 1) result ≤ 1 }
{
    let Files { volume, extra, .. } = files;
    take_turn(&mut extra.copier, volume, place, turn, used, room)
}

/// What a step gives, with what is told of it.
fn finish<D: Disk, M: Mechanism>(
    host: &mut Host<D, Destination<M>, Carried>,
    notes: NoteList,
    used: CallList,
    sent: Items<Outgoing>,
    accepted: Option<Seal>,
    undrawn: bool,
) -> Outbox
    requires untold { notes ≡ [] }
    requires counted { IsCounted given host.old }
    ensures is { stepped_of D.size host.new result ≡ finished sent accepted used undrawn (host_of D.size host.old) }
    ensures volume { host.new.server.files.volume ≡ host.old.server.files.volume }
    ensures used { result.used ≡ used }
    ensures sent { result.sent ≡ sent }
    ensures undrawn { result.undrawn ≡ undrawn }
    ensures steps { host.new.steps ≡ host.old.steps }
    ensures counted { IsCounted given host.new }
    ensures notes { result.notes ≡ (copies_in host.old).told }
    ensures silent { (copies_in host.new).told ≡ [] }
    ensures landed { landed_by host.new ≡ landed_by host.old }
{
    let mut notes = notes;
    host.server.files.extra.tell(&mut notes);
    Outbox {
        sent,
        notes,
        accepted,
        used,
        undrawn,
    }
}

/// A record that the source sent to a worker: one step.
pub(crate) fn take_reply<D: Disk, M: Mechanism>(
    host: &mut Host<D, Destination<M>, Carried>,
    alloc: Global,
    place: u32,
    record_: &[u8],
    now: u64,
) -> Mem<Outbox>
    requires few { host.old.steps < MOST_STEPS }
    requires counted { IsCounted given host.old }
    requires silent { (copies_in host.old).told ≡ [] }
    requires place { place < WORKERS }
    ensures is { D.Told → IfOk result (λ out. IsReply (record { mic = M.mic_of; derived = M.derived }) (M.finished host.old.server.files.extra.mech host.old.server.files.extra.copier.principal) place record_.now now (host_of D.size host.old) (stepped_of D.size host.new out)) }
    ensures ran { IfOk result (λ out. Counted D.Told (seat_of D.size D.fuse D.timeline D.faults host.old.server.files.volume) (seat_of D.size D.fuse D.timeline D.faults host.new.server.files.volume) [] out.used) }
    ensures once { IfOk result (λ out. length out.used ≤ 1) }
    ensures short { IfOk result (λ out. AreShort out.sent) }
    ensures err { OnErr result (host.new ≡ host.old) }
    ensures steps { IfOk result (λ _. host.new.steps ≡ host.old.steps + 1) }
    ensures counted { IsCounted given host.new }
    ensures lands { IfOk result (λ out. LandsTold (landed_by host.old) (landed_by host.new) out.notes) }
    ensures one { IfOk result (λ out. records_to (place + 1) out.sent ≤ 1) }
    ensures silent { (copies_in host.new).told ≡ [] }
{
    let room = Room::new(alloc)?;
    let second = host.second_at(now);
    let heard = hear(&mut host.server, alloc, place, record_, second)?;
    Ok(make_effect(host, place, now, heard, room))
}

fn hear<D: Disk, M: Mechanism>(
    server: &mut Server<D, Destination<M>>,
    alloc: Global,
    place: u32,
    record_: &[u8],
    second: u64,
) -> Mem<Heard>
    requires place { place < WORKERS }
    ensures short { IfOk result (λ heard. EffectMaySend heard.effect) }
    ensures heard { IfOk result (λ heard. IsHeard (record { mic = M.mic_of; derived = M.derived }) (M.finished server.old.files.extra.mech server.old.files.extra.copier.principal) (around_in second server.old) place record_.now server.old.files.extra.copier heard server.new.files.extra.copier) }
    ensures same { server.new ≡ put_copier server.new.files.extra.copier server.old }
    ensures given { server.new.files.extra.copier.copies.book.table.made ≡ server.old.files.extra.copier.copies.book.table.made }
    ensures err { OnErr result (server.new ≡ server.old) }
    ensures keeps { KeepsLanded server.old.files.extra.copier.copies server.new.files.extra.copier.copies }
    ensures notes { length server.new.files.extra.copier.copies.told ≤ length server.old.files.extra.copier.copies.told + 1 }
{
    let here = here(server, second);
    let Server { files, sessions } = server;
    let Destination { copier, mech, .. } = &mut files.extra;
    copier.hear(alloc, place, record_, sessions, here, mech)
}

fn make_effect<D: Disk, M: Mechanism>(
    host: &mut Host<D, Destination<M>, Carried>,
    place: u32,
    now: u64,
    heard: Heard,
    room: Room,
) -> Outbox
    requires few { host.old.steps < MOST_STEPS }
    requires counted { IsCounted given host.old }
    requires note { length (copies_in host.old).told ≤ 1 }
    requires untold { landed_in (copies_in host.old).told ≡ 0 }
    requires place { place < WORKERS }
    requires short { EffectMaySend heard.effect }
    ensures short { AreShort result.sent }
    ensures is { D.Told → (choice : Choice) → Agrees choice result.used → stepped_of D.size host.new result ≡ reply_step choice place now heard (host_of D.size host.old) }
    ensures ran { Counted D.Told (seat_of D.size D.fuse D.timeline D.faults host.old.server.files.volume) (seat_of D.size D.fuse D.timeline D.faults host.new.server.files.volume) [] result.used }
    ensures once { length result.used ≤ 1 }
    ensures steps { host.new.steps ≡ host.old.steps + 1 }
    ensures counted { IsCounted given host.new }
    ensures lands { LandsTold (landed_by host.old) (landed_by host.new) result.notes }
    ensures one { records_to (place + 1) result.sent ≤ 1 }
    ensures silent { (copies_in host.new).told ≡ [] }
{
    let Heard { effect, accepted } = heard;
    host.tick(now);
    let Room {
        sent,
        notes,
        mut used,
    } = room;
    let sent = make_effect_on(&mut host.server.files, place, effect, &mut used, sent);
    finish(host, notes, used, sent, accepted, false)
}

fn make_effect_on<D: Disk, M>(
    files: &mut Files<D, Destination<M>>,
    place: u32,
    effect: Effect,
    used: &mut CallList,
    room: Vec<Outgoing>,
) -> Items<Outgoing>
    requires place { place < WORKERS }
    requires short { EffectMaySend effect }
    requires calls { used.old ≡ [] }
    requires room { room.items ≡ [] }
    ensures does { D.Told → Does (λ choice. effect_done choice place effect (doing_of files.old.extra.copier (store_of D.size files.old.volume) used.old)) files.new.extra.copier (store_of D.size files.new.volume) used.new result }
    ensures ran { Counted D.Told (seat_of D.size D.fuse D.timeline D.faults files.old.volume) (seat_of D.size D.fuse D.timeline D.faults files.new.volume) used.old used.new }
    ensures short { AreShort result }
    ensures once { length used.new ≤ 1 }
    ensures opening { SameOpening files.old.volume.volume files.new.volume.volume }
    ensures tag { files.new.volume.tag ≡ files.old.volume.tag }
    ensures opens { files.new.opens ≡ files.old.opens }
    ensures rest { files.new.extra ≡ record files.old.extra { copier = files.new.extra.copier } }
    ensures given { files.new.extra.copier.copies.book.table.made ≡ files.old.extra.copier.copies.book.table.made }
    ensures lands { Lands files.old.extra.copier.copies files.new.extra.copier.copies }
    ensures one { records_to (place + 1) result ≤ 1 }
{
    let Files { volume, extra, .. } = files;
    take_effect(&mut extra.copier, volume, place, effect, used, room)
}

/// A worker's link failed: one step.
pub(crate) fn fail_link<D: Disk, M: Mechanism>(
    host: &mut Host<D, Destination<M>, Carried>,
    alloc: Global,
    place: u32,
) -> Mem<Outbox>
    requires few { host.old.steps < MOST_STEPS }
    requires counted { IsCounted given host.old }
    requires silent { (copies_in host.old).told ≡ [] }
    requires place { place < WORKERS }
    ensures is { IfOk result (λ out. stepped_of D.size host.new out ≡ failure_step (record { mic = M.mic_of; derived = M.derived }) place (host_of D.size host.old)) }
    ensures volume { host.new.server.files.volume ≡ host.old.server.files.volume }
    ensures short { IfOk result (λ out. AreShort out.sent) }
    ensures err { OnErr result (host.new ≡ host.old) }
    ensures steps { IfOk result (λ _. host.new.steps ≡ host.old.steps + 1) }
    ensures counted { IsCounted given host.new }
    ensures landed { landed_by host.new ≡ landed_by host.old }
    ensures none { IfOk result (λ out. records_to (place + 1) out.sent ≡ 0) }
    ensures silent { (copies_in host.new).told ≡ [] }
{
    let room = Room::new(alloc)?;
    let second = host.second;
    let failing = failing(&host.server, alloc, place, second)?;
    host.tick(second);
    let Room { sent, notes, used } = room;
    let sent = take_failing(&mut host.server.files.extra.copier, place, failing, sent);
    Ok(finish(host, notes, used, sent, None, false))
}

fn failing<D: Disk, M: Mechanism>(
    server: &Server<D, Destination<M>>,
    alloc: Global,
    place: u32,
    second: u64,
) -> Mem<Failing>
    requires { place < WORKERS }
    ensures short { IfOk result FailingMaySend }
    ensures told { IfOk result (λ told. told ≡ failing (record { mic = M.mic_of; derived = M.derived }) (around_in second server.now) place server.now.files.extra.copier) }
{
    let extra = &server.files.extra;
    let here = here(server, second);
    extra
        .copier
        .failing(alloc, place, &server.sessions, here, &extra.mech)
}

fn here<D: Disk, M>(server: &Server<D, Destination<M>>, second: u64) -> Here
    ensures { result ≡ record { boot = server.now.files.volume.volume.boot; tag = server.now.files.volume.tag; second = second } }
{
    Here {
        boot: server.files.volume.boot(),
        tag: server.files.volume.tag(),
        second,
    }
}

/// A second comes by itself: one step. What was sent long enough ago goes out again, once the leases have ended.
pub(crate) fn tick<D: Disk, M: Mechanism>(
    host: &mut Host<D, Destination<M>, Carried>,
    alloc: Global,
    now: u64,
) -> Mem<Outbox>
    requires few { host.old.steps < MOST_STEPS }
    requires counted { IsCounted given host.old }
    requires silent { (copies_in host.old).told ≡ [] }
    ensures is { IfOk result (λ out. stepped_of D.size host.new out ≡ tick_step (record { mic = M.mic_of; derived = M.derived }) now (host_of D.size host.old)) }
    ensures volume { host.new.server.files.volume ≡ host.old.server.files.volume }
    ensures short { IfOk result (λ out. AreShort out.sent) }
    ensures err { OnErr result (host.new ≡ host.old) }
    ensures steps { IfOk result (λ _. host.new.steps ≡ host.old.steps + 1) }
    ensures counted { IsCounted given host.new }
    ensures landed { landed_by host.new ≡ landed_by host.old }
    ensures silent { (copies_in host.new).told ≡ [] }
{
    let room = Room::new(alloc)?;
    let second = host.second_at(now);
    let again = again(&host.server, alloc, second)?;
    second_comes(host, now);
    let Room { notes, used, .. } = room;
    let sent = take_again(&mut host.server.files.extra.copier, again);
    Ok(finish(host, notes, used, sent, None, false))
}

fn again<D: Disk, M: Mechanism>(
    server: &Server<D, Destination<M>>,
    alloc: Global,
    second: u64,
) -> Mem<Again>
    ensures short { IfOk result (λ told. AreShort told.sent) }
    ensures told { IfOk result (λ told. told ≡ again (record { mic = M.mic_of; derived = M.derived }) (around_in second server.now) server.now.files.extra.copier) }
{
    let extra = &server.files.extra;
    let here = here(server, second);
    extra
        .copier
        .again(alloc, &server.sessions, here, &extra.mech)
}

/// A record that comes on a connection: one step. A reply is one to a callback; else it is as at every server.
pub(crate) fn take_record<D: Disk, M: Mechanism, W: Draws>(
    host: &mut Host<D, Destination<M>, Carried>,
    alloc: Global,
    conn: u32,
    record_: &[u8],
    now: u64,
    draws: &mut W,
) -> Mem<Outbox>
    requires few { host.old.steps < MOST_STEPS }
    requires counted { IsCounted given host.old }
    requires silent { (copies_in host.old).told ≡ [] }
    ensures turn { D.Told → IfOk result (λ out. IsRecord (record { mic = M.mic_of; derived = M.derived }) (M.accepted host.old.server.files.extra.mech) W.gives conn record_.now now (host_of D.size host.old) draws.old draws.new (stepped_of D.size host.new out)) }
    ensures ran { IfOk result (λ out. Counted D.Told (seat_of D.size D.fuse D.timeline D.faults host.old.server.files.volume) (seat_of D.size D.fuse D.timeline D.faults host.new.server.files.volume) [] out.used) }
    ensures short { IfOk result (λ out. AreShort out.sent) }
    ensures undrawn { IfOk result (λ out. out.undrawn ≡ true → Rose (W.faults draws.old) (W.faults draws.new)) }
    ensures err { OnErr result (host.new ≡ host.old) }
    ensures steps { IfOk result (λ _. host.new.steps ≡ host.old.steps + 1) }
    ensures counted { IsCounted given host.new }
    ensures later { W.faults draws.old ≤ W.faults draws.new }
    ensures failing { W.failing draws.new ≡ W.failing draws.old }
    ensures landed { landed_by host.new ≡ landed_by host.old }
    ensures silent { (copies_in host.new).told ≡ [] }
{
    let second = host.second_at(now);
    match host.judge(alloc, record_, second)? {
        Judged::Unread => host.on_record(alloc, conn, record_, now, draws),
        Judged::Reply => take_answer(host, alloc, record_, now),
        Judged::Call(call) => host.on_call(alloc, conn, &call, second, draws),
    }
}

/// A client's reply.
fn take_answer<D: Disk, M: Mechanism>(
    host: &mut Host<D, Destination<M>, Carried>,
    alloc: Global,
    record_: &[u8],
    now: u64,
) -> Mem<Outbox>
    requires few { host.old.steps < MOST_STEPS }
    requires counted { IsCounted given host.old }
    requires silent { (copies_in host.old).told ≡ [] }
    ensures is { IfOk result (λ out. stepped_of D.size host.new out ≡ answer_step M.mic_of record_.now now (host_of D.size host.old)) }
    ensures volume { host.new.server.files.volume ≡ host.old.server.files.volume }
    ensures short { IfOk result (λ out. AreShort out.sent) }
    ensures unused { IfOk result (λ out. out.used ≡ []) }
    ensures drawn { IfOk result (λ out. out.undrawn ≡ false) }
    ensures err { OnErr result (host.new ≡ host.old) }
    ensures steps { IfOk result (λ _. host.new.steps ≡ host.old.steps + 1) }
    ensures counted { IsCounted given host.new }
    ensures landed { landed_by host.new ≡ landed_by host.old }
    ensures silent { (copies_in host.new).told ≡ [] }
{
    let room = Room::new(alloc)?;
    let boot = host.server.files.volume.boot();
    let hearing = hear_client(&host.server.files.extra, alloc, boot, record_)?;
    host.tick(now);
    let Room { sent, notes, used } = room;
    let accepted = take_hearing(&mut host.server.files.extra.copier, boot, hearing);
    Ok(finish(host, notes, used, Items::from_vec(sent), accepted, false))
}

fn hear_client<M: Mechanism>(
    extra: &Destination<M>,
    alloc: Global,
    boot: u32,
    record_: &[u8],
) -> Mem<Hearing>
    ensures { IfOk result (λ hearing. hearing ≡ heard_client M.mic_of boot record_.now extra.now.copier) }
{
    extra.copier.hear_client(alloc, boot, record_, &extra.mech)
}

/// A second comes, and the jobs end whose clients' leases have ended in it.
fn second_comes<D: Disk, M: Mechanism>(host: &mut Host<D, Destination<M>, Carried>, now: u64)
    requires few { host.old.steps < MOST_STEPS }
    requires counted { IsCounted given host.old }
    ensures is { host_of D.size host.new ≡ without_lapsed (second_in now (host_of D.size host.old)) }
    ensures volume { host.new.server.files.volume ≡ host.old.server.files.volume }
    ensures steps { host.new.steps ≡ host.old.steps + 1 }
    ensures counted { IsCounted given host.new }
    ensures keeps { KeepsLanded (copies_in host.old) (copies_in host.new) }
    ensures notes { length (copies_in host.new).told ≤ length (copies_in host.old).told + MOST_JOBS }
{
    host.tick(now);
    end_leases(&mut host.server, host.second);
}

/// Ends the jobs whose clients' leases have ended in a second.
fn end_leases<D: Disk, M>(server: &mut Server<D, Destination<M>>, second: u64)
    ensures { server.new ≡ (let extra = leases_ended server.old.sessions second server.old.files.extra in let files = record server.old.files { extra = extra } in record server.old { files = files }) }
{
    let whose = Whose::Lapsed {
        sessions: &server.sessions,
        second,
    };
    server
        .files
        .extra
        .copier
        .copies
        .end_all(&whose, Stop::LeaseExpired);
}
