ghost use Rattle.std.specs.Prelude.{◌≡◌, ◌+◌, ℕ, None, false};
ghost use Rattle.client_core.specs.Endings.{Ways};
ghost use Rattle.client_core.specs.State.{ClientState};
ghost use Rattle.client_core.specs.Telling.{copy_of};
ghost use Rattle.outbox.specs.declared.outgoing.Outbox.{Outbox};
ghost use Rattle.client_laws.specs.Turns.{IsTurn, Turn, begins};

use streams::Draws;

/// Each step is counted, also where a draw failed, and what a client knows from the beginning stays.
pub fn each_step_counts_one<M, W: Draws>()
    ensures steps { (ways : Ways) (turn : Turn) (c d : ClientState M) (v w : W) (out : Outbox)
        → IsTurn ways W.gives turn c v w (d, out) → d.steps ≡ c.steps + 1 }
    ensures setting { (ways : Ways) (turn : Turn) (c d : ClientState M) (v w : W) (out : Outbox)
        → IsTurn ways W.gives turn c v w (d, out) → d.setting ≡ c.setting }
{}

/// A copy comes to be only by the command that begins it.
pub fn copies_begin_by_command<M, W: Draws>()
    ensures { (ways : Ways) (turn : Turn) (c d : ClientState M) (v w : W) (out : Outbox) (j : ℕ)
        → IsTurn ways W.gives turn c v w (d, out) → copy_of j c ≡ None → begins j turn ≡ false → copy_of j d ≡ None }
{}
