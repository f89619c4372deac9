//! A copy over a net, from the dials to the lines.

ghost use Rattle.std.specs.Prelude.{◌≡◌, ◌≤◌, IfOk, OnErr};
ghost use Rattle.client_core.specs.Endings.{ways_of};
ghost use Rattle.client_leaving.specs.declared.leaving.Leaving.{Leaving};
ghost use Rattle.client_steps.specs.Setting.{IsFit};
ghost use Rattle.net_links.specs.Links.{IsNew};
ghost use Rattle.rpc_msg.specs.Underway.{IsFresh};
ghost use Rattle.single_copy.specs.Turns.{conduct_of};
ghost use Rattle.linked_copy.specs.Copying.{leaving_of, Made, Starved};
ghost use Rattle.linked_copy.specs.Ends.{CopyEnds};
ghost use Rattle.linked_copy.specs.Nets.{books_of, HungUp, net_words};

use crate::dialing::{LinkPair, dial_both, hang_both};
use crate::ends::CopyEnd;
use crate::telling::tell;
use client_core::Client;
use client_leaving::Leaving;
use client_steps::Setting;
use gss_mech::Mechanism;
use net_links::Net;
use nfs_base::CopySpec;
use outcome::{Mem, NoMemory};
use rpc_msg::{RecordFeed, Watched};
use single_copy::{Copied, copy_once};
use std::alloc::Global;
use streams::{Clock, Draws, Sink, Source};

/// Which copy is made, and at which ports of this machine its servers are found.
#[derive(Clone, Copy, PartialEq, Eq)]
pub struct CopyOrder {
    pub source_port: u16,
    pub dest_port: u16,
    pub copy: CopySpec,
}

/// What is needed before a server is dialed.
#[derive(Drop)]
struct Prepared<M> {
    client: Leaving<M>,
    source: RecordFeed,
    dest: RecordFeed,
}

/// Makes one copy by a client, over links to both servers that are dialed for it, the source's first, and hung up behind it. What
/// became of the copy is put then: `stable`, and `exact` or `unsure`; or `failed STATUS`, with the status's number. Where a call of a
/// link failed before the copy's last report, `stable` is put where it had been reported so. Where memory is wanted before a server
/// is dialed, none is.
pub fn copy_over<
    K: Sink,
    M: Mechanism,
    C: Clock + Drop,
    W: Draws + Drop,
    F: Source + Drop,
    T: Sink + Drop,
    N: Net<From = F, To = T>,
>(
    alloc: Global,
    order: CopyOrder,
    setting: Setting<M>,
    clock: C,
    draws: W,
    output: &mut K,
    net: &mut N,
) -> CopyEnd
    requires fit { IsFit setting }
    ensures ends { CopyEnds (conduct_of (ways_of M.mic_of M.derived M.finished M.started M.accepted) W.gives W.faults order.copy) setting
        (net_words N.Told (books_of N.coming N.accepted N.up N.hung) N.faults) draws
        (K.takes output.old).taken (K.takes output.new).taken (K.takes output.old).faults (K.takes output.new).faults net.old net.new result }
    ensures writes_later { (K.takes output.old).faults ≤ (K.takes output.new).faults }
    ensures net_later { N.faults net.old ≤ N.faults net.new }
{
    let Ok(prepared) = prepare(alloc, setting) else {
        return CopyEnd::NoMemory;
    };
    let Some(pair) = dial_both(order.source_port, order.dest_port, net) else {
        return CopyEnd::DialFault;
    };
    match copy_between(alloc, pair, prepared, order.copy, clock, draws, net) {
        Ok(copied) => tell(alloc, copied, output),
        Err(NoMemory) => CopyEnd::NoMemory,
    }
}

/// A client that has called nobody yet, and two feeds.
fn prepare<M: Mechanism>(alloc: Global, setting: Setting<M>) -> Mem<Prepared<M>>
    requires fit { IsFit setting }
    ensures client { IfOk result (λ prepared. prepared.client ≡ leaving_of setting) }
    ensures source { IfOk result (λ prepared. IsFresh prepared.source) }
    ensures dest { IfOk result (λ prepared. IsFresh prepared.dest) }
{
    let Setting {
        mech,
        me,
        source,
        dest,
    } = setting;
    let source_feed = RecordFeed::new(alloc)?;
    let dest_feed = RecordFeed::new(alloc)?;
    let client = Client::new(alloc, mech, me, source, dest)?;
    Ok(Prepared {
        client: Leaving::new(client),
        source: source_feed,
        dest: dest_feed,
    })
}

/// Makes the copy over both links, and hangs them up.
fn copy_between<
    M: Mechanism,
    C: Clock + Drop,
    W: Draws + Drop,
    F: Source + Drop,
    T: Sink + Drop,
    N: Net<From = F, To = T>,
>(
    alloc: Global,
    pair: LinkPair<F, T>,
    prepared: Prepared<M>,
    copy: CopySpec,
    clock: C,
    draws: W,
    net: &mut N,
) -> Mem<Copied>
    requires source { IsNew pair.source }
    requires dest { IsNew pair.dest }
    requires source_feed { IsFresh prepared.source }
    requires dest_feed { IsFresh prepared.dest }
    requires client { prepared.client ≡ leaving_of prepared.client.client.setting }
    requires up { N.Told → 2 ≤ N.up net.old }
    ensures ok { IfOk result (Made (conduct_of (ways_of M.mic_of M.derived M.finished M.started M.accepted) W.gives W.faults copy)
        prepared.client.client.setting draws
        (HungUp N.Told (books_of N.coming N.accepted N.up N.hung net.old) (books_of N.coming N.accepted N.up N.hung net.new))) }
    ensures err { OnErr result (Starved (conduct_of (ways_of M.mic_of M.derived M.finished M.started M.accepted) W.gives W.faults copy)
        prepared.client.client.setting draws
        (HungUp N.Told (books_of N.coming N.accepted N.up N.hung net.old) (books_of N.coming N.accepted N.up N.hung net.new))) }
    ensures faults { N.faults net.new ≡ N.faults net.old }
{
    let LinkPair { source, dest } = pair;
    let mut source = Watched::new(source, prepared.source);
    let mut dest = Watched::new(dest, prepared.dest);
    let (mut client, mut clock, mut draws) = (prepared.client, clock, draws);
    let copied = copy_once(
        alloc,
        &mut source,
        &mut dest,
        &mut client,
        copy,
        &mut clock,
        &mut draws,
    );
    let pair = LinkPair {
        source: source.into_link(),
        dest: dest.into_link(),
    };
    hang_both(pair, net);
    copied
}
