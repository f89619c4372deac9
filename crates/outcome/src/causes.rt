ghost use Rattle.std.specs.Prelude.{ℕ, ◌+◌, ◌≤◌};
ghost use Rattle.outcome.specs.Causes.{Rose, RoseBy};

/// Causes add up over calls made one after the other: a count that rose in one of them has risen
/// over all of them, and the rises of several calls add.
pub fn causes_join()
    ensures earlier { (before middle now : ℕ) → Rose before middle → middle ≤ now → Rose before now }
    ensures later { (before middle now : ℕ) → before ≤ middle → Rose middle now → Rose before now }
    ensures sum { (n m before middle now : ℕ) → RoseBy n before middle → RoseBy m middle now → RoseBy (n + m) before now }
    ensures one { (before now : ℕ) → Rose before now → RoseBy 1 before now }
{}
