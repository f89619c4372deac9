ghost use Rattle.std.specs.Prelude.{◌≡◌, ℕ, Bool, List};
ghost use Rattle.mount.specs.State.{Mounted};
ghost use Rattle.caller_laws.specs.Duties.{AwaitsOwn, InStep, NumbersGrow, OwnsContexts};
ghost use Rattle.caller_laws.specs.Good.{Identity};
ghost use Rattle.caller_laws.specs.Lawful.{IsStep};
ghost use Rattle.caller_laws.specs.Moves.{Move};
ghost use Rattle.caller_laws.specs.View.{Above};

use crate::laws::steps_are_lawful;
use gss_mech::Mechanism;

/// A caller has a context only as the root that its own INIT gave, or as the child that its own CREATE gave under a root that it
/// had (RFC 2203 section 5.2.2, RFC 7861 section 2.5).
pub fn callers_own_their_contexts<M: Mechanism>()
    ensures { (mech : M) (principal : List ℕ) (who : Identity) (before after : Above) (m : Mounted) (move : Move)
        → IsStep who (record { mic = M.mic_of; derived = M.derived; finished = M.finished mech principal }) before after m move
        → InStep OwnsContexts who (record { mic = M.mic_of; derived = M.derived; finished = M.finished mech principal }) before after m move }
{
    steps_are_lawful::<M>();
}

/// A mount stays, and its slots' numbers only grow, until another root is learnt; then no INIT is awaited any more (RFC 8881
/// section 2.10.6.1).
pub fn numbers_only_grow<M: Mechanism>()
    ensures { (mech : M) (principal : List ℕ) (who : Identity) (before after : Above) (m : Mounted) (move : Move)
        → IsStep who (record { mic = M.mic_of; derived = M.derived; finished = M.finished mech principal }) before after m move
        → InStep NumbersGrow who (record { mic = M.mic_of; derived = M.derived; finished = M.finished mech principal }) before after m move }
{
    steps_are_lawful::<M>();
}

/// A call of a slot that is awaited goes on as it is, or is new, in the place of its slot; what is sent in a slot is awaited, and calls
/// a volume once at most.
pub fn calls_are_awaited<M: Mechanism>()
    ensures { (mech : M) (principal : List ℕ) (who : Identity) (before after : Above) (m : Mounted) (move : Move)
        → IsStep who (record { mic = M.mic_of; derived = M.derived; finished = M.finished mech principal }) before after m move
        → InStep AwaitsOwn who (record { mic = M.mic_of; derived = M.derived; finished = M.finished mech principal }) before after m move }
{
    steps_are_lawful::<M>();
}
