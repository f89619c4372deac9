ghost use Rattle.std.specs.Prelude.{ℕ, List};
ghost use Rattle.client_copies.specs.declared.copy.Query.{Query};
ghost use Rattle.client_core.specs.Commands.{IsBegun, IsWork, query_step, retry_step, tick_step};
ghost use Rattle.client_core.specs.Endings.{Ways};
ghost use Rattle.client_core.specs.Records.{IsRecord};
ghost use Rattle.client_core.specs.State.{ClientState};
ghost use Rattle.client_laws.specs.Bounds.Known.{ClientIsFit, SpecIsFit, WorkIsFit};
ghost use Rattle.client_laws.specs.Bounds.Ways.{WaysAreFit};
ghost use Rattle.nfs_base.specs.declared.copy_spec.CopySpec.{CopySpec};
ghost use Rattle.nfs_base.specs.declared.side.Side.{Side};
ghost use Rattle.outbox.specs.declared.outgoing.Outbox.{Outbox};
ghost use Rattle.wire_xdr.specs.Cursor.{IsBytes};
ghost use Rattle.write_queue.specs.declared.work.Work.{Work};

use streams::Draws;

/// Each step of a fit client leaves one, where what it is told to do is within bounds and what comes is bytes.
pub fn clients_stay_fit<M, W: Draws>()
    ensures begins { (ways : Ways) (c : ClientState M) (j : ℕ) (spec : CopySpec) (now : ℕ) (v w : W) (end : ClientState M × Outbox)
        → WaysAreFit ways W.gives → ClientIsFit c → SpecIsFit spec → IsBegun ways W.gives j spec now c v w end → ClientIsFit end.0 }
    ensures works { (ways : Ways) (c : ClientState M) (side : Side) (work : Work) (now : ℕ) (v w : W) (end : ClientState M × Outbox)
        → WaysAreFit ways W.gives → ClientIsFit c → WorkIsFit work → IsWork ways W.gives side work now c v w end → ClientIsFit end.0 }
    ensures hears { (ways : Ways) (c : ClientState M) (side : Side) (message : List ℕ) (now : ℕ) (v w : W) (end : ClientState M × Outbox)
        → WaysAreFit ways W.gives → ClientIsFit c → IsBytes message → IsRecord ways W.gives side message now c v w end → ClientIsFit end.0 }
    ensures asks { (ways : Ways) (c : ClientState M) (j : ℕ) (query : Query) (now : ℕ)
        → WaysAreFit ways W.gives → ClientIsFit c → ClientIsFit (query_step ways.means.mic j query now c).0 }
    ensures ticks { (ways : Ways) (c : ClientState M) (now : ℕ) → WaysAreFit ways W.gives → ClientIsFit c → ClientIsFit (tick_step ways.means.mic now c).0 }
    ensures retries { (ways : Ways) (c : ClientState M) (now : ℕ) → WaysAreFit ways W.gives → ClientIsFit c → ClientIsFit (retry_step ways.means.mic now c).0 }
{}
