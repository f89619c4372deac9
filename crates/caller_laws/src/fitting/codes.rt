ghost use Rattle.std.specs.Prelude.{ℕ};
ghost use Rattle.caller_laws.specs.Fitting.Bounds.{FixedFits};
ghost use Rattle.streams.specs.Draws.{counted_draw};

/// What is drawn by a counter has the 32 bytes of a nonce.
pub fn counted_draws_are_nonces()
    ensures { (count : ℕ) → FixedFits 32 (counted_draw count) }
{}
