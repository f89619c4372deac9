//! A client takes a record.

ghost use Rattle.std.specs.Prelude.{◌≡◌, ◌<◌, ◌≤◌, IfOk, OnErr};
ghost use Rattle.client_core.specs.Endings.{ways_of};
ghost use Rattle.client_core.specs.declared.client.TheConstants.{MOST_STEPS};
ghost use Rattle.nfs_base.specs.declared.copy_spec.CopySpec.{CopySpec};
ghost use Rattle.single_copy.specs.Turns as spec;

use crate::phases::Phase;
use client_leaving::Leaving;
use gss_mech::Mechanism;
use nfs_base::Side;
use outbox::Outbox;
use outcome::Mem;
use std::alloc::Global;
use streams::Draws;

/// Takes a record that came from a server.
pub(crate) fn hear<M: Mechanism, W: Draws>(
    alloc: Global,
    client: &mut Leaving<M>,
    phase: Phase,
    side: Side,
    message: &[u8],
    now: u64,
    draws: &mut W,
) -> Mem<Outbox>
    requires few { client.old.client.steps < MOST_STEPS }
    ensures acts { IfOk result (λ out. (copy : CopySpec) → spec.Acts (spec.conduct_of (ways_of M.mic_of M.derived M.finished M.started M.accepted) W.gives W.faults copy) phase
        (record { event = spec.Hears side message.now; second = now; out = out }) client.old client.new draws.old draws.new) }
    ensures err { OnErr result (client.new ≡ client.old) }
    ensures later { W.faults draws.old ≤ W.faults draws.new }
    ensures failing { W.failing draws.new ≡ W.failing draws.old }
{
    if phase.has_left() {
        client.on_record(alloc, side, message, now, draws)
    } else {
        client.client.on_record(alloc, side, message, now, draws)
    }
}
