//! The laws of slots for every COMPOUND (RFC 8881 section 2.10.6.1).

ghost use Rattle.std.specs.Prelude.{◌≡◌, ◌⊎◌, ℕ, suc, ◌<◌, ◌≤◌, true, false, None, Some};
ghost use Rattle.sess_slots.specs.Lives.{no_clients};
ghost use Rattle.wire_model.specs.Wire.{Kept};
ghost use Rattle.slot_laws.specs.Effects.{EachCompound, IsAnsweredAsKept, IsRunOnce, Names};
ghost use Rattle.slot_laws.specs.Fronts.{SaysNotRun};
ghost use Rattle.slot_laws.specs.Sound.{AreBelow, IsSound};
ghost use Rattle.slot_laws.specs.Turns.{Turns, is_retry};
ghost use Rattle.slot_laws.specs.View.{kept_in, last_in, past_all};

/// A server's sessions, from the first on: numbers are of one session each, each session has its sixteen slots, and a
/// COMPOUND makes one session at most and raises a slot's number by one at most.
pub fn sessions_are_sound<X, C>()
    ensures first { (boot : ℕ) → IsSound (no_clients boot) }
    ensures none_kept { (boot session slot : ℕ) → kept_in (no_clients boot) session slot ≡ None }
    ensures from_zero { (boot : ℕ) → AreBelow 0 (no_clients boot) }
    ensures sound { EachCompound X C (λ who c v g. IsSound g.state.sessions) }
    ensures few { EachCompound X C (λ who c v g. g.state.sessions.sessions_made ≤ suc v.sessions_made) }
    ensures below { EachCompound X C (λ who c v g. (most : ℕ) → AreBelow most v → AreBelow (suc most) g.state.sessions) }
{}

/// What each COMPOUND of a server does to its slots, whatever the server serves and its disk does. It is a retry, or a new
/// call that runs, or it moves no slot, and then its reply doesn't say that operations ran.
///
/// A reply that is kept was kept, or is that of this call, which isn't a retry. A retry is answered by what is kept for its
/// slot, number and root context, and changes no session. What runs has a number above its slot's last one and leaves it
/// there, as long as numbers are far from their end at 2^32; and no slot's last number falls.
pub fn compounds_keep_slots<X, C>()
    ensures turns { EachCompound X C (λ who c v g. Turns (is_retry who.root c v) who.root c.tag c.ops v g.state.sessions g.body) }
    ensures kept { EachCompound X C (λ who c v g. (session slot : ℕ) (k : Kept) → kept_in g.state.sessions session slot ≡ Some k
        → (kept_in v session slot ≡ Some k) ⊎ ((is_retry who.root c v ≡ false) × Names c.ops v session slot k.number × (k ≡ record { number = k.number; root = who.root; results = g.body }))) }
    ensures retry { EachCompound X C (λ who c v g. is_retry who.root c v ≡ true → IsAnsweredAsKept who.root c.ops v g.state.sessions g.body) }
    ensures once { EachCompound X C (λ who c v g. is_retry who.root c v ≡ false → (most : ℕ) → suc most < past_all → AreBelow most v
        → SaysNotRun c.tag g.body ⊎ IsRunOnce c.ops v g.state.sessions) }
    ensures last { EachCompound X C (λ who c v g. (most : ℕ) → suc most < past_all → AreBelow most v
        → (session slot : ℕ) → last_in v session slot ≤ last_in g.state.sessions session slot) }
{}
