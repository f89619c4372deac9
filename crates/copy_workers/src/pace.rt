ghost use Rattle.std.specs.Prelude.{◌≡◌};
ghost use Rattle.copy_workers.specs.Pace.{least_of, paced, rested};

use crate::turn::Turn;

// The first rest, and each one for memory or drawn bytes: nobody tells when there are some again. In milliseconds, as all rests.
const FIRST_REST: u64 = 100;

// The longest rest. With a turn behind each, a worker has turns for four years, and a lease that ends is seen within that time.
const LONGEST_REST: u64 = 30_000;

// The shortest rest, once many turns did nothing. However often it is woken, a worker has turns for 29 hours then.
const LEAST_REST: u64 = 25;

// So many turns in a row that did nothing are many. Eight workers at one copy wake each other less often.
const EMPTY_TURNS: u32 = 64;

/// How a worker rests, in milliseconds: until it is woken, but no shorter than `least` and no longer than `most`.
#[derive(Clone, Copy)]
pub struct Rest {
    pub least: u64,
    pub most: u64,
}

// How long a worker rests next, by how its turns went: the turns in a row that did nothing, and the longest that the next rest may be.
#[derive(Clone, Copy)]
pub(crate) struct Pace {
    empty: u32,
    most: u64,
}

impl Pace {
    // That of a worker that begins.
    pub(crate) fn new() -> Pace
        ensures { result ≡ record { empty = 0; most = 0 } }
    {
        Pace { empty: 0, most: 0 }
    }

    // Behind a turn.
    pub(crate) fn after(self, turn: Turn) -> Pace
        ensures { result ≡ paced turn self }
    {
        let empty = self.empty.saturating_add(1).min(EMPTY_TURNS);
        match turn {
            Turn::Worked => Pace::new(),
            Turn::Empty => Pace {
                empty,
                most: self.most.max(FIRST_REST),
            },
            Turn::Wanting => Pace {
                empty,
                most: FIRST_REST,
            },
        }
    }

    // The rest that is due.
    pub(crate) fn rest(self) -> Rest
        ensures { result ≡ record { least = least_of self; most = self.most } }
    {
        let least = if self.empty >= EMPTY_TURNS {
            LEAST_REST
        } else {
            0
        };
        Rest {
            least,
            most: self.most,
        }
    }

    // Behind a rest.
    pub(crate) fn rested(self, woken: bool) -> Pace
        ensures { result ≡ rested woken self }
    {
        if woken {
            return self;
        }
        let most = self.most.saturating_mul(2).min(LONGEST_REST);
        Pace { most, ..self }
    }
}
