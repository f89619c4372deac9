ghost use Rattle.std.specs.Prelude.{true, ◌≡◌, ◌≤◌, is_some, IfSome, Some};
ghost use Rattle.block_file.specs.Opened.{CanBeOpened};
ghost use Rattle.disk_model.specs.Disk.{Image, MayLeave};
ghost use Rattle.disk_model.specs.Elapsed.{present};
ghost use Rattle.link_server.specs.Keeping.{books_of};
ghost use Rattle.server_volume.specs.Store.{seat_of};
ghost use Rattle.source_server.specs.Serving.{net_words};
ghost use Rattle.volume_format.specs.DiskWords.{disk_words};
ghost use Rattle.dest_server.specs.Coming.{core_words, ComesFrom};
ghost use Rattle.dest_server.specs.Desk.{desk_answers, dest_words, words_of};
ghost use Rattle.dest_server.specs.Serving.{end_after, DestEnds, MeetsNet};

use crate::crew::{Service, serve_desk};
use crate::desk::CountedDesk;
use block_file::OpenFault;
use callback_links::Line;
use callback_server::{DialFault, Shares};
use copy_privs::Peer;
use copy_workers::Gate;
use core_desk::{Core, CoreDesk};
use dest_core::DestCore;
use disk_model::Disk;
use gss_mech::Mechanism;
use link_server::{Origin, Stop, Tally};
use net_links::Net;
use nfs_base::NetLoc;
use outcome::NoMemory;
use source_server::ServeEnd;
use std::alloc::Global;
use std::marker::{Brand, Send, Sync};
use std::sync::ledger::{Blank, Ledger};
use std::sync::{Mutex, Wait};
use std::thread::Threads;
use streams::{Clock, Draws, Sink, Source};
use volume_format::{not_volume_line, put_line};
use wire_xdr::Octets;

/// How many turns a worker has at most.
pub const MOST_TURNS: u64 = 4_194_302;

/// The ledgers of what workers do have a part for each worker.
const WORKER_PARTS: u64 = 8;

/// That of connections' calls has one for the connection that is served, and one more.
const CALL_PARTS: u64 = 2;

/// What a destination's server is asked to do.
#[derive(Clone, Copy)]
pub struct DestService {
    /// How many connections it accepts at most.
    pub conns: u32,

    /// How many workers it has, from 1 to 8.
    pub workers: u8,

    /// The port at which each of them finds the source.
    pub port: u16,
}

/// Whom a destination knows: the source that it copies from, the principal as which it calls that, and where it is found itself.
#[derive(Drop)]
pub struct Partner {
    pub source: Peer,
    pub principal: Octets,
    pub own: NetLoc,
}

/// Opens the volume on the disk and serves it as a destination to up to `conns` connections of a net, one after the other, with
/// workers that fetch from the source's port. Each worker's link is dialed before any connection is accepted, and hung up after the
/// last one has ended. Nothing is put. Where the disk holds no volume, the line `not a volume BLOCK AT` is put and nobody is served.
/// The disk is handed back, but where memory is refused while it is opened.
pub fn serve_dest<
    R: Threads + Wait + Sync,
    K: Sink,
    D: Disk + Drop + Send,
    M: Mechanism + Send + Drop,
    C: Clock + Drop + Send,
    W: Draws + Drop + Send,
    F: Source + Send + Drop,
    T: Sink + Send + Drop,
    N: Net<From = F, To = T>,
>(
    rt: &R,
    alloc: Global,
    service: DestService,
    partner: Partner,
    mech: M,
    clock: C,
    draws: W,
    output: &mut K,
    disk: &mut Option<D>,
    net: &mut N,
) -> ServeEnd
    requires there { is_some disk.old ≡ true }
    requires volume { IfSome disk.old (λ d. D.Told → (image : Image) → MayLeave (present (D.timeline d)) image → CanBeOpened (D.size d) image) }
    requires workers { (1 ≤ service.workers) × (service.workers ≤ 8) }
    ensures ends { DestEnds (disk_words D.Told D.faults D.size D.timeline) (net_words N.Told N.coming N.faults (books_of N.hung N.up N.accepted))
        (dest_words (disk_words D.Told D.faults D.size D.timeline)
        (words_of D.Told D.size (seat_of D.size D.fuse D.timeline D.faults) M.mic_of M.derived M.started M.accepted M.finished W.gives)
        mech partner.source partner.principal partner.own) service
        (K.takes output.old).taken (K.takes output.new).taken (K.takes output.old).faults (K.takes output.new).faults net.old net.new disk.old disk.new result }
    ensures later { (K.takes output.old).faults ≤ (K.takes output.new).faults }
{
    let Some(handed) = disk.take() else {
        unreachable!();
    };
    let Partner {
        source,
        principal,
        own,
    } = partner;
    match DestCore::open(alloc, handed, mech, source, principal, own) {
        Ok(Ok(core)) => {
            let (last, done) = serve_all::<Brand, Brand, Brand, Brand, Brand, _, _, _, _, _, _, _>(
                rt,
                alloc,
                service,
                core,
                clock,
                draws,
                Blank::new(CALL_PARTS),
                Blank::new(1),
                Blank::new(WORKER_PARTS),
                Blank::new(WORKER_PARTS),
                Blank::new(WORKER_PARTS),
                net,
            );
            *disk = Some(last.hand_back());
            end_of(done)
        }
        Ok(Err((back, fault))) => {
            *disk = Some(back);
            match fault {
                OpenFault::NotVolume { block, at } => put_line(
                    output,
                    not_volume_line(alloc, block, at),
                    ServeEnd::NotVolume,
                    ServeEnd::WriteFault,
                    ServeEnd::NoMemory,
                ),
                OpenFault::DiskFailed => ServeEnd::DiskFault,
            }
        }
        Err(NoMemory) => ServeEnd::NoMemory,
    }
}

/// Serves connections by a machine that landed nothing yet, beside workers, and hands it back as it is after the last step. All books
/// begin at none.
fn serve_all<
    Q: Origin<K> + Send,
    B: Ledger + Send,
    L: Ledger + Send,
    E: Ledger + Send,
    G: Ledger + Send,
    K: Core<W> + Send + Drop,
    C: Clock + Drop + Send,
    W: Draws + Drop + Send,
    F: Source + Send + Drop,
    T: Sink + Send + Drop,
    N: Net<From = F, To = T>,
    R: Threads + Wait + Sync,
>(
    rt: &R,
    alloc: Global,
    service: DestService,
    core: K,
    clock: C,
    draws: W,
    calls: Blank,
    own: Blank,
    landed: Blank,
    turns: Blank,
    given: Blank,
    net: &mut N,
) -> (K, Result<Tally, DialFault>)
    requires calls { (calls.name ≡ Q.name) × (calls.parts ≡ Q.parts) × (2 ≤ calls.parts) }
    requires own { (own.name ≡ B.name) × (own.parts ≡ B.parts) × (own.parts ≡ 1) }
    requires landed { (landed.name ≡ L.name) × (landed.parts ≡ L.parts) × (landed.parts ≡ 8) }
    requires turns { (turns.name ≡ E.name) × (turns.parts ≡ E.parts) × (turns.parts ≡ 8) }
    requires given { (given.name ≡ G.name) × (given.parts ≡ G.parts) × (given.parts ≡ 8) }
    requires workers { (1 ≤ service.workers) × (service.workers ≤ 8) }
    requires nothing { K.landed core ≡ 0 }
    requires origin { Q.origin ≡ Some core }
    ensures came { ComesFrom (core_words K.takes_record K.ticks K.works K.takes_reply K.fails_link) Q.origin result.0 }
    ensures meets { MeetsNet (net_words N.Told N.coming N.faults (books_of N.hung N.up N.accepted))
        (desk_answers (core_words K.takes_record K.ticks K.works K.takes_reply K.fails_link) K.landed K.steps Q.origin) service net.old net.new result.1 }
{
    let (calls_book, calls) = calls.open::<Q>();
    let (own_book, own) = own.open::<B>();
    let (landed_book, all) = landed.open::<L>();
    let (turns_book, turned) = turns.open::<E>();
    let (given_book, given) = given.open::<G>();
    let desk = CoreDesk::new(core, clock, draws, landed_book, turns_book, given_book);
    let desk = Mutex::new(CountedDesk::new(desk, calls_book));
    let gate = Gate::new();
    let line = Mutex::new(Line::new(own_book));
    let shares = Shares {
        calls,
        own,
        all,
        turned,
        given,
    };
    let service = Service {
        conns: service.conns,
        workers: usize::from(service.workers),
        port: service.port,
        turns: MOST_TURNS,
    };
    let done = serve_desk(rt, alloc, &desk, &gate, &line, shares, service, net);
    let core = desk.into_inner().hand_back();
    match done {
        Ok(served) => (core, Ok(served.tally)),
        Err(fault) => (core, Err(fault)),
    }
}

/// The end of a server that did this.
fn end_of(done: Result<Tally, DialFault>) -> ServeEnd
    ensures { result ≡ end_after done }
{
    match done {
        Ok(tally) => match tally.stop {
            Stop::Failed => ServeEnd::NetFault,
            Stop::All | Stop::End | Stop::Spent => {
                if tally.starved == 0 {
                    ServeEnd::Done
                } else {
                    ServeEnd::NoMemory
                }
            }
        },
        Err(DialFault::Failed) => ServeEnd::NetFault,
        Err(DialFault::NoMemory) => ServeEnd::NoMemory,
    }
}
