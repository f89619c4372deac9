ghost use Rattle.std.specs.Prelude.{◌≡◌, ◌==◌, ℕ, ◌+◌, ◌≤◌, []};
ghost use Rattle.std.specs.Bool.{OnTrue};
ghost use Rattle.std.specs.List.{list_any};
ghost use Rattle.outcome.specs.Causes.{Rose};
ghost use Rattle.outcome.specs.Plan.{Plan, is_due, after_call, planned_faults};

use std::marker::Model;

/// Counts the calls of an object in memory, and says which of them are to fail.
#[derive(Drop)]
pub struct Planned {
    calls: u64,
    failing: Vec<u64>,
}

impl Model for Planned {
    ghost use Rattle.outcome.specs.Plan.{Plan};

    ghost Value = { Plan };

    ghost view = { λ p. record { calls = p.calls; failing = p.failing.items } };
}

impl Planned {
    /// No call was made yet. `failing` has the numbers of the calls that are to fail, in any order;
    /// the first call is number 1.
    pub fn new(failing: Vec<u64>) -> Planned
        ensures { result ≡ record { calls = 0; failing = failing.items } }
    {
        Planned { calls: 0, failing }
    }

    /// How many calls were made. The count stops at the end of its type, and no call fails then.
    pub fn calls(&self) -> u64
        ensures { result ≡ self.now.calls }
    {
        self.calls
    }

    /// Counts a call, and says whether it is to fail.
    pub fn fails(&mut self) -> bool
        ensures due { result ≡ is_due self.old }
        ensures counted { self.new ≡ after_call self.old }
        ensures later { planned_faults self.old ≤ planned_faults self.new }
        ensures cause { OnTrue result (Rose (planned_faults self.old) (planned_faults self.new)) }
    {
        if self.calls == u64::MAX {
            return false;
        }
        self.calls += 1;
        contains(self.failing.as_slice(), self.calls)
    }
}

/// Where no call is planned to fail, none does. Over a source in memory no fault is left then, and
/// over a sink in memory only want of memory, whatever the calls went through.
pub fn nothing_planned()
    ensures source { (old new : Plan) → old.failing ≡ [] → new.failing ≡ old.failing
        → Rose (planned_faults old) (planned_faults new) → ⊥ }
    ensures sink { (old new : Plan) (before now : ℕ) → old.failing ≡ [] → new.failing ≡ old.failing
        → Rose (planned_faults old + before) (planned_faults new + now) → Rose before now }
{}

fn contains(numbers: &[u64], number: u64) -> bool
    ensures { result ≡ list_any (λ n. n == number) numbers.now }
{
    numbers.iter().any(|n| *n == number)
}
