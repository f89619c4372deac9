ghost use Rattle.std.specs.Prelude.{◌≡◌, ℕ, ◌≤◌, List, [], length};
ghost use Rattle.outcome.specs.Plan.{planned_faults};
ghost use Rattle.streams.specs.Draws.{DrawHasCause, drawn_of, after_draw, counted_draw, next_count};
ghost use Rattle.streams.specs.declared.draws.Drawn.{Drawn};
ghost use Rattle.streams.specs.declared.draws.Drawn.TheVariants.{Got};

use outcome::Planned;
use sha2::{Digest, Sha256};
use std::marker::Model;

/// What a source of draws answers to one call.
#[derive(Clone, Copy, PartialEq, Eq)]
pub enum Drawn {
    /// 32 bytes.
    Got([u8; 32]),
    /// A fault. Nothing was drawn.
    Failed,
}

/// Where secrets, nonces and tokens are drawn from.
pub trait Draws {
    // Whether a call may answer this where the draws stand as the first, and leaves them as the second.
    ghost gives: { Self → Drawn → Self → Type 0 };

    // How many calls failed. The count stops at the end of its type.
    ghost faults: { Self → ℕ };

    // The numbers of the calls that are to fail, where that was planned. They stay as they are.
    ghost failing: { Self → List ℕ } = { λ _. [] };

    /// Draws 32 bytes.
    fn draw(&mut self) -> Drawn
        ensures given { gives self.old result self.new }
        ensures cause { DrawHasCause (faults self.old) (faults self.new) result }
        ensures failing { failing self.new ≡ failing self.old };
}

/// Draws in memory, which tell their bytes. They fail at planned calls and at no other, and are zeros
/// once all were given.
#[derive(Drop)]
pub struct MemDraws {
    draws: Vec<[u8; 32]>,
    at: usize,
    plan: Planned,
}

impl Model for MemDraws {
    ghost use Rattle.std.specs.Prelude.{◌≤◌, drop, length};
    ghost use Rattle.streams.specs.Draws.{DrawState};

    ghost Value = { DrawState };

    ghost view = { λ d. record { left = drop d.at d.draws.items; plan = d.plan } };

    ghost invariant = { λ d. d.at ≤ length d.draws.items };
}

impl MemDraws {
    /// Gives these draws in their order. `failing` has the numbers of the calls that are to fail, in
    /// any order; the first call is number 1.
    pub fn new(draws: Vec<[u8; 32]>, failing: Vec<u64>) -> MemDraws
        ensures left { result.left ≡ draws.items }
        ensures plan { result.plan ≡ record { calls = 0; failing = failing.items } }
    {
        MemDraws {
            draws,
            at: 0,
            plan: Planned::new(failing),
        }
    }

    /// The draws that are left.
    pub fn left(&self) -> &[[u8; 32]]
        ensures { result.now ≡ self.now.left }
    {
        &self.draws.as_slice()[self.at..]
    }

    /// How many calls were made. The count stops at the end of its type.
    pub fn calls(&self) -> u64
        ensures { result ≡ self.now.plan.calls }
    {
        self.plan.calls()
    }
}

impl Draws for MemDraws {
    ghost gives = { λ old drawn new. (drawn ≡ drawn_of old) × (new ≡ after_draw old) };

    ghost faults = { λ d. planned_faults d.plan };

    ghost failing = { λ d. d.plan.failing };

    fn draw(&mut self) -> Drawn {
        if self.plan.fails() {
            return Drawn::Failed;
        }
        match self.draws.get(self.at).copied() {
            None => Drawn::Got([0; 32]),
            Some(bytes) => {
                self.at += 1;
                Drawn::Got(bytes)
            }
        }
    }
}

/// Draws by a counter, which begins at 0: the SHA-256 digest (FIPS 180-4) of the counter in eight
/// bytes, high first. They never fail, and anyone can foretell them: they are for runs that are to
/// be the same each time.
#[derive(Drop)]
pub struct CountDraws {
    count: u64,
}

impl Model for CountDraws {
    ghost use Rattle.std.specs.Prelude.{ℕ};

    ghost Value = { ℕ };

    ghost view = { λ d. d.count };
}

impl CountDraws {
    /// Nothing was drawn yet.
    pub fn new() -> CountDraws
        ensures { result ≡ 0 }
    {
        CountDraws { count: 0 }
    }

    /// How many draws were made, less 2^64 each time that this number was reached.
    pub fn count(&self) -> u64
        ensures { result ≡ self.now }
    {
        self.count
    }
}

impl Draws for CountDraws {
    ghost gives = { λ old drawn new. (drawn ≡ Got (counted_draw old)) × (new ≡ next_count old) };

    ghost faults = { λ _. 0 };

    fn draw(&mut self) -> Drawn {
        let bytes = Sha256::digest(self.count.to_be_bytes());
        self.count = self.count.wrapping_add(1);
        Drawn::Got(bytes)
    }
}
