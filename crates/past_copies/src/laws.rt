//! Laws of the copies of all openings.

ghost use Rattle.std.specs.Prelude.{◌≡◌, ◌+◌, ◌<◌, ◌≤◌, ℕ, true, List, [], length, slice_index_or};
ghost use Rattle.opening_laws.specs.Anew.{lost};
ghost use Rattle.past_copies.specs.Past.{ArePast, Past, all_copies, copy_at, name_at, name_of, past_after};
ghost use Rattle.wire_model.specs.Copies.{Job};

/// Behind those of the openings before, the copies of an opening stand by their own numbers, and so do their names.
pub fn copies_stand_in_order()
    ensures count { (past : List Past) (jobs : List Job) → length (all_copies past jobs) ≡ length past + length jobs }
    ensures copies { (none : Job) (past : List Past) (jobs : List Job) (j : ℕ)
        → copy_at none past jobs (length past + j) ≡ slice_index_or jobs j none }
    ensures names { (boot : ℕ) (past : List Past) (j : ℕ) → name_at boot past (length past + j) ≡ name_of boot (j + 1) }
{}

/// Those of the openings before are what they are whatever the present one has. Each was lost, and none has a name of the
/// present opening.
pub fn copies_of_the_past_stay()
    ensures copies { (none : Job) (past : List Past) (jobs others : List Job) (j : ℕ) → j < length past
        → copy_at none past jobs j ≡ copy_at none past others j }
    ensures names { (boot other : ℕ) (past : List Past) (j : ℕ) → j < length past → name_at boot past j ≡ name_at other past j }
    ensures gone { (boot : ℕ) (none : Job) (past : List Past) (jobs : List Job) (j : ℕ) → ArePast boot past → j < length past
        → (copy_at none past jobs j).lost ≡ true }
    ensures others { (boot number other : ℕ) (past : List Past) (j : ℕ) → ArePast boot past → j < length past
        → name_at other past j ≡ name_of boot number → ⊥ }
{}

/// A crash loses all copies, and each keeps its place and its name. None is accepted in it.
pub fn crashes_end_openings()
    ensures count { (boot : ℕ) (past : List Past) (jobs : List Job) → length (past_after boot past jobs) ≡ length past + length jobs }
    ensures copies { (none : Job) (boot : ℕ) (past : List Past) (jobs : List Job) (j : ℕ) → ArePast boot past
        → j < length past + length jobs → copy_at none (past_after boot past jobs) [] j ≡ lost (copy_at none past jobs j) }
    ensures names { (boot later : ℕ) (past : List Past) (jobs : List Job) (j : ℕ) → j < length past + length jobs
        → name_at later (past_after boot past jobs) j ≡ name_at boot past j }
    ensures blank { (none : Job) (boot : ℕ) (past : List Past) (jobs : List Job) (j : ℕ) → length past + length jobs ≤ j
        → copy_at none (past_after boot past jobs) [] j ≡ none }
    ensures past { (boot later : ℕ) (past : List Past) (jobs : List Job) → ArePast boot past → boot < later
        → ArePast later (past_after boot past jobs) }
{}
