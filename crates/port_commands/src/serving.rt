//! The commands that serve the connections of a net. They wait for others.

ghost use Rattle.std.specs.Prelude.{◌≡◌, ◌≤◌, true, is_some, IfOk, IfSome};
ghost use Rattle.link_server.specs.Keeping.{books_of};
ghost use Rattle.dest_server.specs.Serving.{DestEnds};
ghost use Rattle.command_line.specs.Disks.{MayOpen};
ghost use Rattle.port_commands.specs.Serving.{dest_by, dest_service_of, source_by};
ghost use Rattle.command_line.specs.ExitStatus.{EndsAs, serve_status};
ghost use Rattle.server_volume.specs.Store.{seat_of};
ghost use Rattle.source_core.specs.Location.{IsShort};
ghost use Rattle.source_server.specs.Serving.{net_words, ServeEnds};
ghost use Rattle.volume_format.specs.DiskWords.{disk_words};
ghost use Rattle.run_ends.specs.Setting.{dest_name, dest_place, dest_source, source_peers, source_place};

use command_line::{DestOrder, Service, serve_code};
use dest_server::{DestService, Partner, serve_dest};
use disk_model::Disk;
use gss_mech::Mechanism;
use net_links::Net;
use outcome::Mem;
use run_ends::{dest_name, dest_place, dest_source, source_peers, source_place};
use source_server::{Acquaintance, ServeEnd, serve_source};
use std::alloc::Global;
use std::marker::{Send, Sync};
use std::sync::Wait;
use std::thread::Threads;
use streams::{Clock, Draws, Sink, Source};

/// Serves the volume on the disk in the source's place to so many connections.
pub fn serve_as_source<
    R: Threads + Wait + Sync,
    K: Sink,
    D: Disk + Drop + Send,
    M: Mechanism + Send,
    C: Clock + Drop + Send,
    W: Draws + Drop + Send,
    F: Source + Send + Drop,
    T: Sink + Send + Drop,
    N: Net<From = F, To = T>,
>(
    rt: &R,
    alloc: Global,
    service: Service,
    mech: M,
    clock: C,
    draws: W,
    output: &mut K,
    disk: &mut Option<D>,
    net: &mut N,
) -> u8
    requires there { is_some disk.old ≡ true }
    requires volume { IfSome disk.old (MayOpen (disk_words D.Told D.faults D.size D.timeline)) }
    ensures ends { EndsAs serve_status (ServeEnds (disk_words D.Told D.faults D.size D.timeline) (net_words N.Told N.coming N.faults (books_of N.hung N.up N.accepted))
        (source_by (disk_words D.Told D.faults D.size D.timeline) mech clock draws (seat_of D.size D.fuse D.timeline D.faults) M.mic_of M.derived M.accepted W.gives) service.conns
        (K.takes output.old).taken (K.takes output.new).taken (K.takes output.old).faults (K.takes output.new).faults net.old net.new disk.old disk.new) result }
    ensures later { (K.takes output.old).faults ≤ (K.takes output.new).faults }
{
    let Ok(known) = acquaintance(alloc) else {
        return serve_code(ServeEnd::NoMemory);
    };
    serve_code(serve_source(
        rt,
        alloc,
        service.conns,
        known,
        mech,
        clock,
        draws,
        output,
        disk,
        net,
    ))
}

/// Serves the volume on the disk in the destination's place, with workers.
pub fn serve_as_dest<
    R: Threads + Wait + Sync,
    K: Sink,
    D: Disk + Drop + Send,
    M: Mechanism + Send + Drop,
    C: Clock + Drop + Send,
    W: Draws + Drop + Send,
    F: Source + Send + Drop,
    T: Sink + Send + Drop,
    N: Net<From = F, To = T>,
>(
    rt: &R,
    alloc: Global,
    order: DestOrder,
    mech: M,
    clock: C,
    draws: W,
    output: &mut K,
    disk: &mut Option<D>,
    net: &mut N,
) -> u8
    requires there { is_some disk.old ≡ true }
    requires volume { IfSome disk.old (MayOpen (disk_words D.Told D.faults D.size D.timeline)) }
    ensures ends { EndsAs serve_status (DestEnds (disk_words D.Told D.faults D.size D.timeline) (net_words N.Told N.coming N.faults (books_of N.hung N.up N.accepted))
        (dest_by (disk_words D.Told D.faults D.size D.timeline) mech (seat_of D.size D.fuse D.timeline D.faults) M.mic_of M.derived M.started M.accepted M.finished W.gives) (dest_service_of order)
        (K.takes output.old).taken (K.takes output.new).taken (K.takes output.old).faults (K.takes output.new).faults net.old net.new disk.old disk.new) result }
    ensures later { (K.takes output.old).faults ≤ (K.takes output.new).faults }
{
    let Ok(partner) = partner(alloc) else {
        return serve_code(ServeEnd::NoMemory);
    };
    serve_code(serve_dest(
        rt,
        alloc,
        service_of(order),
        partner,
        mech,
        clock,
        draws,
        output,
        disk,
        net,
    ))
}

/// What a destination's server is asked to do.
fn service_of(order: DestOrder) -> DestService
    ensures is { result ≡ dest_service_of order }
    ensures some { 1 ≤ result.workers }
    ensures few { result.workers ≤ 8 }
{
    DestService {
        conns: order.service.conns,
        workers: order.workers.number(),
        port: order.source_port,
    }
}

/// Whom the destination knows: the source that every schedule has, too.
fn partner(alloc: Global) -> Mem<Partner>
    ensures source { IfOk result (λ partner. partner.source ≡ dest_source) }
    ensures principal { IfOk result (λ partner. partner.principal ≡ dest_name) }
    ensures own { IfOk result (λ partner. partner.own ≡ dest_place) }
{
    Ok(Partner {
        source: dest_source(alloc)?,
        principal: dest_name(alloc)?,
        own: dest_place(alloc)?,
    })
}

/// Whom the source knows: the destination that every schedule has, too.
fn acquaintance(alloc: Global) -> Mem<Acquaintance>
    ensures peers { IfOk result (λ known. known.peers ≡ source_peers) }
    ensures own { IfOk result (λ known. known.own ≡ source_place) }
    ensures short { IfOk result (λ known. IsShort known.own) }
{
    Ok(Acquaintance {
        peers: source_peers(alloc)?,
        own: source_place(alloc)?,
    })
}
