//! A turn of a client over its two links.

ghost use Rattle.std.specs.Prelude.{◌≡◌, ◌+◌, ◌<◌, ◌≤◌, false, None, IfOk, IfSome, IfNone, OnErr};
ghost use Rattle.client_core.specs.Endings.{ways_of};
ghost use Rattle.client_core.specs.Telling.{copy_of};
ghost use Rattle.client_core.specs.declared.client.TheConstants.{MOST_STEPS};
ghost use Rattle.nfs_base.specs.declared.copy_spec.CopySpec.{CopySpec};
ghost use Rattle.rpc_msg.specs.Watching.{is_down};
ghost use Rattle.single_copy.specs.Stepping as spec;
ghost use Rattle.single_copy.specs.Turns.{Begins, Leaves, conduct_of, due_at, terms_of};
ghost use Rattle.single_copy.specs.declared.phases.Due.TheVariants as dues;
ghost use Rattle.single_copy.specs.declared.phases.Phase.TheVariants as phases;
ghost use Rattle.single_copy.specs.declared.phases.TheConstants.{COPY_NUMBER};

use crate::acts::hear;
use crate::links::{Took, take};
use crate::phases::{COPY_NUMBER, Due, Phase};
use crate::sending::send_all;
use client_leaving::Leaving;
use gss_mech::Mechanism;
use nfs_base::{CopySpec, Side};
use outcome::Mem;
use rpc_msg::{Sink, Source, Watched};
use std::alloc::Global;
use streams::{Clock, Draws};

/// How many records may still be taken from each link.
#[derive(Clone, Copy)]
pub(crate) struct Allowance {
    pub(crate) source: u32,
    pub(crate) dest: u32,
}

/// Does what is due. None: nothing is, or the link from which a record is due brings none.
pub(crate) fn turn<L: Source + Sink, M: Mechanism, C: Clock, W: Draws>(
    alloc: Global,
    source: &mut Watched<L>,
    dest: &mut Watched<L>,
    left: &mut Allowance,
    client: &mut Leaving<M>,
    phase: Phase,
    copy: CopySpec,
    clock: &mut C,
    draws: &mut W,
) -> Mem<Option<Phase>>
    requires source_up { is_down source.old.signs ≡ false }
    requires dest_up { is_down dest.old.signs ≡ false }
    requires few { client.old.client.steps < MOST_STEPS }
    requires new { phase ≡ phases.Fresh → copy_of COPY_NUMBER client.old.client ≡ None }
    ensures some { IfOk result (λ told. IfSome told (λ now. spec.TurnsOn
        (terms_of L.gives L.takes (conduct_of (ways_of M.mic_of M.derived M.finished M.started M.accepted) W.gives W.faults copy))
        (record { source = source.old; dest = dest.old; client = client.old; draws = draws.old }) phase left.old
        left.new (record { source = source.new; dest = dest.new; client = client.new; draws = draws.new }) now)) }
    ensures none { IfOk result (λ told. IfNone told (spec.Halts
        (terms_of L.gives L.takes (conduct_of (ways_of M.mic_of M.derived M.finished M.started M.accepted) W.gives W.faults copy))
        (record { source = source.old; dest = dest.old; client = client.old; draws = draws.old }) phase left.old
        (record { source = source.new; dest = dest.new; client = client.new; draws = draws.new }))) }
    ensures err { OnErr result (spec.Wants
        (terms_of L.gives L.takes (conduct_of (ways_of M.mic_of M.derived M.finished M.started M.accepted) W.gives W.faults copy))
        (record { source = source.old; dest = dest.old; client = client.old; draws = draws.old }) phase left.old left.new source.new dest.new client.new) }
    ensures later { W.faults draws.old ≤ W.faults draws.new }
    ensures failing { W.failing draws.new ≡ W.failing draws.old }
{
    match phase.due(
        client.client.awaits(Side::Source),
        client.client.awaits(Side::Dest),
    ) {
        Due::Begin => Ok(Some(begin_turn(alloc, source, dest, client, phase, copy, clock, draws)?)),
        Due::Hear(Side::Source) => hear_turn(
            alloc,
            Side::Source,
            source,
            dest,
            &mut left.source,
            client,
            phase,
            clock,
            draws,
        ),
        Due::Hear(Side::Dest) => hear_turn(
            alloc,
            Side::Dest,
            dest,
            source,
            &mut left.dest,
            client,
            phase,
            clock,
            draws,
        ),
        Due::Leave => Ok(Some(leave_turn(alloc, source, dest, client, phase, clock, draws)?)),
        Due::Nothing => Ok(None),
    }
}

/// The copy is begun.
fn begin_turn<L: Source + Sink, M: Mechanism, C: Clock, W: Draws>(
    alloc: Global,
    source: &mut Watched<L>,
    dest: &mut Watched<L>,
    client: &mut Leaving<M>,
    phase: Phase,
    copy: CopySpec,
    clock: &mut C,
    draws: &mut W,
) -> Mem<Phase>
    requires source_up { is_down source.old.signs ≡ false }
    requires dest_up { is_down dest.old.signs ≡ false }
    requires few { client.old.client.steps < MOST_STEPS }
    requires new { copy_of COPY_NUMBER client.old.client ≡ None }
    requires due { due_at phase client.old ≡ dues.Begin }
    ensures turn { IfOk result (λ now. spec.OwnTurn
        (terms_of L.gives L.takes (conduct_of (ways_of M.mic_of M.derived M.finished M.started M.accepted) W.gives W.faults copy)) Begins
        (record { source = source.old; dest = dest.old; client = client.old; draws = draws.old }) phase
        (record { source = source.new; dest = dest.new; client = client.new; draws = draws.new }) now) }
    ensures err_source { OnErr result (source.new ≡ source.old) }
    ensures err_dest { OnErr result (dest.new ≡ dest.old) }
    ensures err_client { OnErr result (client.new ≡ client.old) }
    ensures later { W.faults draws.old ≤ W.faults draws.new }
    ensures failing { W.failing draws.new ≡ W.failing draws.old }
{
    let now = clock.now();
    let out = client
        .client
        .begin_copy(alloc, COPY_NUMBER, copy, now, draws)?;
    send_all(source, Side::Source, out.sent.as_slice());
    send_all(dest, Side::Dest, out.sent.as_slice());
    Ok(phase.after(out.undrawn, client.client.report(COPY_NUMBER)))
}

/// Leave is taken.
fn leave_turn<L: Source + Sink, M: Mechanism, C: Clock, W: Draws>(
    alloc: Global,
    source: &mut Watched<L>,
    dest: &mut Watched<L>,
    client: &mut Leaving<M>,
    phase: Phase,
    clock: &mut C,
    _draws: &mut W,
) -> Mem<Phase>
    requires source_up { is_down source.old.signs ≡ false }
    requires dest_up { is_down dest.old.signs ≡ false }
    requires few { client.old.client.steps < MOST_STEPS }
    requires due { due_at phase client.old ≡ dues.Leave }
    ensures turn { IfOk result (λ now. (copy : CopySpec) → spec.OwnTurn
        (terms_of L.gives L.takes (conduct_of (ways_of M.mic_of M.derived M.finished M.started M.accepted) W.gives W.faults copy)) Leaves
        (record { source = source.old; dest = dest.old; client = client.old; draws = _draws.old }) phase
        (record { source = source.new; dest = dest.new; client = client.new; draws = _draws.new }) now) }
    ensures err_source { OnErr result (source.new ≡ source.old) }
    ensures err_dest { OnErr result (dest.new ≡ dest.old) }
    ensures err_client { OnErr result (client.new ≡ client.old) }
    ensures draws { _draws.new ≡ _draws.old }
{
    let now = clock.now();
    let out = client.farewell(alloc, now)?;
    send_all(source, Side::Source, out.sent.as_slice());
    send_all(dest, Side::Dest, out.sent.as_slice());
    Ok(phase.parted())
}

/// A server is heard: a record is taken from its link, which is here.
fn hear_turn<L: Source + Sink, M: Mechanism, C: Clock, W: Draws>(
    alloc: Global,
    side: Side,
    here: &mut Watched<L>,
    there: &mut Watched<L>,
    left: &mut u32,
    client: &mut Leaving<M>,
    phase: Phase,
    clock: &mut C,
    draws: &mut W,
) -> Mem<Option<Phase>>
    requires up { is_down here.old.signs ≡ false }
    requires few { client.old.client.steps < MOST_STEPS }
    ensures some { IfOk result (λ told. IfSome told (λ now. (copy : CopySpec) → spec.HearsTurn
        (terms_of L.gives L.takes (conduct_of (ways_of M.mic_of M.derived M.finished M.started M.accepted) W.gives W.faults copy)) side phase
        here.old here.new there.old there.new client.old client.new draws.old draws.new now)) }
    ensures counted { IfOk result (λ told. IfSome told (λ now. left.old ≡ left.new + 1)) }
    ensures none { IfOk result (λ told. IfNone told (spec.Idles L.gives L.takes left.old left.new here.old here.new there.old there.new
        client.old client.new draws.old draws.new)) }
    ensures err { OnErr result (spec.HearsShort L.gives L.takes left.old left.new here.old here.new there.old there.new client.old client.new) }
    ensures later { W.faults draws.old ≤ W.faults draws.new }
    ensures failing { W.failing draws.new ≡ W.failing draws.old }
{
    match take(here, left) {
        Took::Whole => {
            let now = clock.now();
            let out = hear(alloc, client, phase, side, here.record(), now, draws)?;
            send_all(here, side, out.sent.as_slice());
            send_all(there, other(side), out.sent.as_slice());
            Ok(Some(phase.after(out.undrawn, client.client.report(COPY_NUMBER))))
        }
        Took::Full | Took::Down => Ok(None),
    }
}

fn other(side: Side) -> Side
    ensures { result ≡ spec.other side }
{
    match side {
        Side::Source => Side::Dest,
        Side::Dest => Side::Source,
    }
}
