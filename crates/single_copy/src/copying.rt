//! One copy, from its begin to the client's leave.

ghost use Rattle.std.specs.Prelude.{◌≡◌, ◌≤◌, ◌||◌, true, false, IfOk, OnErr};
ghost use Rattle.outcome.specs.Causes.{Rose};
ghost use Rattle.client_core.specs.Endings.{ways_of};
ghost use Rattle.rpc_msg.specs.Watching.{is_down};
ghost use Rattle.single_copy.specs.Copying as spec;
ghost use Rattle.single_copy.specs.Drawing.{DrawHasCause};
ghost use Rattle.single_copy.specs.Links as links;
ghost use Rattle.single_copy.specs.Stepping.{RunsOut, RunsShort};
ghost use Rattle.single_copy.specs.Turns.{conduct_of, terms_of};
ghost use Rattle.single_copy.specs.declared.answers.Copied.TheVariants as answers;

use crate::answers::{Copied, answer};
use crate::links::{MOST_RECORDS, is_faulty, is_up};
use crate::phases::{COPY_NUMBER, Phase};
use crate::turns::{Allowance, turn};
use client_leaving::Leaving;
use gss_mech::Mechanism;
use nfs_base::CopySpec;
use outcome::Mem;
use rpc_msg::{Sink, Source, Watched, nexts_join};
use std::alloc::Global;
use streams::{Clock, Draws};

/// Makes one copy, by a client that was just made, over the links to both servers, and tells how it ended. The next record is
/// taken from the source's link where an answer of the source is awaited, else from the destination's. After the copy's last
/// report the answers that are still awaited are taken, and then the client takes leave; that changes nothing of what is told.
/// Nothing is sent while the copy's completion is waited for. A link that has brought [`MOST_RECORDS`] records counts as ended.
/// Without memory what was done before stands.
pub fn copy_once<L: Source + Sink, M: Mechanism, C: Clock, W: Draws>(
    alloc: Global,
    source: &mut Watched<L>,
    dest: &mut Watched<L>,
    client: &mut Leaving<M>,
    copy: CopySpec,
    clock: &mut C,
    draws: &mut W,
) -> Mem<Copied>
    requires new { spec.IsNew client.old }
    ensures ok { IfOk result (λ copied. spec.Copies
        (terms_of L.gives L.takes (conduct_of (ways_of M.mic_of M.derived M.finished M.started M.accepted) W.gives W.faults copy))
        (record { source = source.old; dest = dest.old; client = client.old; draws = draws.old }) copied
        (record { source = source.new; dest = dest.new; client = client.new; draws = draws.new })) }
    ensures err { OnErr result (spec.Starves
        (terms_of L.gives L.takes (conduct_of (ways_of M.mic_of M.derived M.finished M.started M.accepted) W.gives W.faults copy))
        (record { source = source.old; dest = dest.old; client = client.old; draws = draws.old }) source.new dest.new client.new) }
    ensures draw_fault { IfOk result (λ copied. copied ≡ answers.DrawFault → Rose (W.faults draws.old) (W.faults draws.new)) }
    ensures later { W.faults draws.old ≤ W.faults draws.new }
    ensures failing { W.failing draws.new ≡ W.failing draws.old }
{
    nexts_join::<L>();
    let phase = make_turns(alloc, source, dest, client, copy, clock, draws)?;
    Ok(answer(
        phase,
        client.client.report(COPY_NUMBER),
        any_faulty(source, dest),
    ))
}

/// Makes turns until nothing is due, or a link stops them, and says how far the client is then.
fn make_turns<L: Source + Sink, M: Mechanism, C: Clock, W: Draws>(
    alloc: Global,
    source: &mut Watched<L>,
    dest: &mut Watched<L>,
    client: &mut Leaving<M>,
    copy: CopySpec,
    clock: &mut C,
    draws: &mut W,
) -> Mem<Phase>
    requires new { spec.IsNew client.old }
    ensures ok { IfOk result (λ phase. RunsOut
        (terms_of L.gives L.takes (conduct_of (ways_of M.mic_of M.derived M.finished M.started M.accepted) W.gives W.faults copy))
        (record { source = source.old; dest = dest.old; client = client.old; draws = draws.old })
        (record { source = source.new; dest = dest.new; client = client.new; draws = draws.new }) phase) }
    ensures err { OnErr result (RunsShort
        (terms_of L.gives L.takes (conduct_of (ways_of M.mic_of M.derived M.finished M.started M.accepted) W.gives W.faults copy))
        (record { source = source.old; dest = dest.old; client = client.old; draws = draws.old }) source.new dest.new client.new) }
    ensures drawn { IfOk result (λ phase. DrawHasCause (W.faults draws.old) (W.faults draws.new) phase) }
    ensures later { W.faults draws.old ≤ W.faults draws.new }
    ensures failing { W.failing draws.new ≡ W.failing draws.old }
{
    let mut left = Allowance {
        source: MOST_RECORDS,
        dest: MOST_RECORDS,
    };
    let mut phase = Phase::Fresh;
    'turns: while both_up(source, dest) {
        match turn(
            alloc, source, dest, &mut left, client, phase, copy, clock, draws,
        )? {
            None => return Ok(phase),
            Some(now) => phase = now,
        }
    }
    Ok(phase)
}

fn both_up<L: Source + Sink>(source: &Watched<L>, dest: &Watched<L>) -> bool
    ensures source { result ≡ true → is_down source.now.signs ≡ false }
    ensures dest { result ≡ true → is_down dest.now.signs ≡ false }
    ensures down { result ≡ false → (is_down source.now.signs || is_down dest.now.signs) ≡ true }
{
    is_up(source) && is_up(dest)
}

/// Whether a call of a link failed.
fn any_faulty<L: Source + Sink>(source: &Watched<L>, dest: &Watched<L>) -> bool
    ensures { result ≡ (links.is_faulty source.now.signs || links.is_faulty dest.now.signs) }
{
    is_faulty(source) || is_faulty(dest)
}
