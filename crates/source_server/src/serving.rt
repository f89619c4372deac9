ghost use Rattle.std.specs.Prelude.{true, ◌≡◌, ◌≤◌, ◌+◌, is_some, IfSome, Some};
ghost use Rattle.block_file.specs.Opened.{CanBeOpened};
ghost use Rattle.disk_model.specs.Disk.{Image, MayLeave};
ghost use Rattle.disk_model.specs.Elapsed.{present};
ghost use Rattle.link_server.specs.Answering.{Answers};
ghost use Rattle.link_server.specs.Keeping.{books_of, Serves, StopIs};
ghost use Rattle.server_volume.specs.Store.{seat_of};
ghost use Rattle.source_core.specs.Location.{IsShort};
ghost use Rattle.link_server.specs.Reaching.{ReachedFrom};
ghost use Rattle.source_server.specs.Machine.{source_words, words_of};
ghost use Rattle.source_server.specs.Serving.{end_by, net_words, ServeEnds};
ghost use Rattle.volume_format.specs.DiskWords.{disk_words};

use crate::machine::SourceMachine;
use block_file::OpenFault;
use copy_privs::Peer;
use disk_model::Disk;
use gss_mech::Mechanism;
use link_server::{Counted, Machine, Origin, Stop, Tally, serve};
use net_links::Net;
use nfs_base::NetLoc;
use outcome::NoMemory;
use source_core::SourceCore;
use std::alloc::Global;
use std::marker::{Brand, Send, Sync};
use std::sync::ledger::Blank;
use std::sync::{Mutex, Wait};
use std::thread::Threads;
use streams::{Clock, Draws, Sink, Source};
use volume_format::{not_volume_line, put_line};
use wire_xdr::Items;

/// A server's ledger of calls has so many parts: one for each connection that is served at once, and two more.
const PARTS: u64 = 18;

/// How serving ends.
#[derive(Clone, Copy, PartialEq, Eq)]
pub enum ServeEnd {
    /// As many connections as were asked for were served and hung up; or no more came, or all records were taken, before.
    Done,

    /// The sink failed.
    WriteFault,

    /// Want of memory, of the server or of a connection.
    NoMemory,

    /// The disk failed while its volume was opened.
    DiskFault,

    /// The disk holds no volume.
    NotVolume,

    /// Accepting a connection failed.
    NetFault,
}

/// Whom a source knows: the servers that may copy from it, and where it is found itself.
#[derive(Drop)]
pub struct Acquaintance {
    pub peers: Items<Peer>,
    pub own: NetLoc,
}

/// Opens the volume on the disk and serves it as a source to up to `conns` connections of a net, each in a thread, sixteen at
/// most at once. Nothing is put. Where the disk holds no volume, the line `not a volume BLOCK AT` is put and nobody is served. The
/// disk is handed back, but where memory is refused while it is opened.
pub fn serve_source<
    R: Threads + Wait + Sync,
    K: Sink,
    D: Disk + Drop + Send,
    M: Mechanism + Send,
    C: Clock + Drop + Send,
    W: Draws + Drop + Send,
    F: Source + Send + Drop,
    T: Sink + Send + Drop,
    N: Net<From = F, To = T>,
>(
    rt: &R,
    alloc: Global,
    conns: u32,
    known: Acquaintance,
    mech: M,
    clock: C,
    draws: W,
    output: &mut K,
    disk: &mut Option<D>,
    net: &mut N,
) -> ServeEnd
    requires there { is_some disk.old ≡ true }
    requires volume { IfSome disk.old (λ d. D.Told → (image : Image) → MayLeave (present (D.timeline d)) image → CanBeOpened (D.size d) image) }
    requires short { IsShort known.own }
    ensures ends { ServeEnds (disk_words D.Told D.faults D.size D.timeline) (net_words N.Told N.coming N.faults (books_of N.hung N.up N.accepted))
        (source_words (disk_words D.Told D.faults D.size D.timeline) (words_of D.Told D.size (seat_of D.size D.fuse D.timeline D.faults) M.mic_of M.derived M.accepted W.gives)
        mech clock draws known.peers known.own) conns
        (K.takes output.old).taken (K.takes output.new).taken (K.takes output.old).faults (K.takes output.new).faults net.old net.new disk.old disk.new result }
    ensures later { (K.takes output.old).faults ≤ (K.takes output.new).faults }
{
    let Some(handed) = disk.take() else {
        unreachable!();
    };
    let Acquaintance { peers, own } = known;
    match SourceCore::open(alloc, handed, mech, peers, own) {
        Ok(Ok(core)) => {
            let machine = SourceMachine { core, clock, draws };
            let (machine, tally) = serve_all::<Brand, _, _, _, _, _>(
                rt,
                alloc,
                conns,
                machine,
                Blank::new(PARTS),
                net,
            );
            *disk = Some(machine.core.hand_back());
            end_of(tally)
        }
        Ok(Err((back, fault))) => {
            *disk = Some(back);
            match fault {
                OpenFault::NotVolume { block, at } => put_line(
                    output,
                    not_volume_line(alloc, block, at),
                    ServeEnd::NotVolume,
                    ServeEnd::WriteFault,
                    ServeEnd::NoMemory,
                ),
                OpenFault::DiskFailed => ServeEnd::DiskFault,
            }
        }
        Err(NoMemory) => ServeEnd::NoMemory,
    }
}

/// Serves connections by a machine, whose book of calls begins at none, and hands it back as it is after the last call.
fn serve_all<
    L: Origin<K> + Send,
    K: Machine + Send,
    F: Source + Send + Drop,
    T: Sink + Send + Drop,
    N: Net<From = F, To = T>,
    R: Threads + Wait + Sync,
>(rt: &R, alloc: Global, conns: u32, machine: K, blank: Blank, net: &mut N) -> (K, Tally)
    requires name { blank.name ≡ L.name }
    requires parts { blank.parts ≡ L.parts }
    requires enough { 18 ≤ blank.parts }
    requires origin { L.origin ≡ Some machine }
    ensures reached { ReachedFrom K.calls_of K.step K.kept L.origin result.0 }
    ensures served { N.Told → Serves (Answers K.calls_of K.step K.kept L.origin)
        (books_of N.hung N.up N.accepted net.old) (books_of N.hung N.up N.accepted net.new) result.1 }
    ensures stop { StopIs N.Told conns result.1.accepted result.1.left (N.coming net.new) (N.faults net.old) (N.faults net.new) result.1.stop }
    ensures later { N.faults net.old ≤ N.faults net.new }
{
    let (book, all) = blank.open::<L>();
    let desk = Mutex::new(Counted::new(machine, book));
    let tally = serve(rt, alloc, &desk, all, conns, net);
    (desk.into_inner().hand_back(), tally)
}

/// The end of a server that did this.
fn end_of(tally: Tally) -> ServeEnd
    ensures { result ≡ end_by tally.stop tally.starved }
{
    match tally.stop {
        Stop::Failed => ServeEnd::NetFault,
        Stop::All | Stop::End | Stop::Spent => {
            if tally.starved == 0 {
                ServeEnd::Done
            } else {
                ServeEnd::NoMemory
            }
        }
    }
}
