ghost use Rattle.std.specs.Prelude.{◌≡◌, ◌≤◌, ℕ, List, [], Option, length};
ghost use Rattle.dest_core.specs.Stepping.{DestState, DestStep, IsReply, IsWork, failure_step, tick_step};
ghost use Rattle.dest_steps.specs.Copier.{Codes};

use streams::Draws;

/// In a worker's turn a destination calls its volume once at most, and so it does where a record of the source comes to a worker. It
/// calls it at no other time but for a client.
pub fn workers_call_once<M, W: Draws>()
    ensures work { (started : List ℕ → List ℕ → Option (List ℕ)) (codes : Codes) (place now : ℕ) (d : DestState M) (before after : W) (t : DestStep M)
        → IsWork W.gives started codes place now d before after t → length t.out.used ≤ 1 }
    ensures reply { (codes : Codes) (finish : List ℕ → List ℕ → Option (List ℕ)) (place : ℕ) (message : List ℕ) (now : ℕ) (d : DestState M) (t : DestStep M)
        → IsReply codes finish place message now d t → length t.out.used ≤ 1 }
    ensures failure { (codes : Codes) (place : ℕ) (d : DestState M) → (failure_step codes place d).out.used ≡ [] }
    ensures tick { (codes : Codes) (now : ℕ) (d : DestState M) → (tick_step codes now d).out.used ≡ [] }
{}
