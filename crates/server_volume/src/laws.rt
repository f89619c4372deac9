ghost use Rattle.std.specs.Prelude.{◌+◌, ◌<◌, ◌≤◌, ◌^◌, List, length};
ghost use Rattle.server_volume.specs.declared.used.Used.{Used};
ghost use Rattle.server_volume.specs.EffectLaws.{HasEffect};
ghost use Rattle.server_volume.specs.Moments.{Counted, Ran};
ghost use Rattle.server_volume.specs.Store.{Seat};

use disk_model::Disk;

/// What is known of no call, and of calls in two parts. `specs/MomentLaws.antt` has the laws.
#[tactic(auto, using(crate::specs::MomentLaws::counted_none, crate::specs::MomentLaws::counted_on))]
pub fn moments_join<D: Disk>()
    ensures none { (seat : Seat) (used : List Used) → Counted D.Told seat seat used used }
    ensures on { (old middle new : Seat) (used some more : List Used) → Counted D.Told old middle used some → Counted D.Told middle new some more → Counted D.Told old new used more }
{}

/// One call at most is to the volume one effect that is allowed: nothing, a write, a commit, or the failure of either.
pub fn one_call_is_one_effect()
    ensures { (old new : Seat) (used more : List Used) → Ran old new used more → length more ≤ length used + 1 → old.store.volume.writes < 2 ^ 32 → HasEffect old.store.volume new.store.volume }
{}
