//! The client's commands.

ghost use Rattle.std.specs.Prelude.{◌≡◌, ◌<◌, ◌≤◌, length, IfOk, IfSome, IsSome, OnErr};
ghost use Rattle.client_core.specs.declared.client.TheConstants.{MOST_STEPS};
ghost use Rattle.nfs_base.specs.declared.limits.TheConstants.{DATA_LIMIT};
ghost use Rattle.wire_run.specs.Commanding.{CanBegin};
ghost use Rattle.wire_run.specs.Stage.{bytes_in};
ghost use Rattle.wire_machine.specs.Steps.{command_of};
ghost use Rattle.run_ends.specs.Ends.{client_does, words_of};

use client_core::Client;
use gss_mech::Mechanism;
use outbox::Outbox;
use outcome::Mem;
use std::alloc::Global;
use streams::Draws;
use wire_schedule::Event;

/// The client carries out the command that an event is.
pub(crate) fn command<M: Mechanism, W: Draws>(
    client: &mut Client<M>,
    alloc: Global,
    event: &Event,
    now: u64,
    draws: &mut W,
) -> Mem<Outbox>
    requires there { IsSome (command_of event.now) }
    requires few { client.old.steps < MOST_STEPS }
    requires new { CanBegin event.now client.old }
    requires short { length (bytes_in event.now) ≤ DATA_LIMIT }
    ensures is { IfOk result (λ out. IfSome (command_of event.now) (λ act. client_does (words_of M.mic_of M.derived M.started M.accepted M.finished W.gives) act now client.old draws.old client.new draws.new out)) }
    ensures err { OnErr result (client.new ≡ client.old) }
{
    match event {
        Event::Write {
            side,
            file,
            off,
            bytes,
        } => client.write(alloc, *side, *file, *off, bytes.as_slice(), now, draws),
        Event::Commit { side, file } => client.commit(alloc, *side, *file, now, draws),
        Event::Copy { copy, spec } => client.begin_copy(alloc, *copy, *spec, now, draws),
        Event::Status { copy } => client.status(alloc, *copy, now),
        Event::Cancel { copy } => client.cancel(alloc, *copy, now),
        Event::Retry => client.retry(alloc, now, draws),
        Event::Volume { .. }
        | Event::Deliver { .. }
        | Event::Flow
        | Event::Work { .. }
        | Event::Tick { .. }
        | Event::Peek { .. }
        | Event::Crash { .. }
        | Event::CrashAfter { .. } => unreachable!(),
    }
}
