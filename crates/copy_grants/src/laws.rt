ghost use Rattle.std.specs.Prelude.{◌≡◌, ℕ, ◌+◌, ◌<◌, List, length, slice_index};
ghost use Rattle.copy_grants.specs.Grants.{no_grants};
ghost use Rattle.copy_grants.specs.Runs.{GrantCall, given};

/// What holds of every list of calls on the grants of one opening, whatever is cancelled and expires: the
/// numbers that are given out count from 1, one after the other. So a number is given once, and that of a grant
/// that has ended names none again.
pub fn a_number_is_given_once()
    ensures counted { (boot : ℕ) (calls : List GrantCall) (k : ℕ) → k < length (given (no_grants boot) calls) → slice_index (given (no_grants boot) calls) k ≡ k + 1 }
    ensures once { (boot : ℕ) (calls : List GrantCall) (i j : ℕ) → i < length (given (no_grants boot) calls) → j < length (given (no_grants boot) calls) → slice_index (given (no_grants boot) calls) i ≡ slice_index (given (no_grants boot) calls) j → i ≡ j }
{}
