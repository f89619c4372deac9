use crate::pace::Rest;
use std::sync::Wait;
use std::sync::atomic::{AtomicU64, Ordering};
use std::time::Duration;

// Who waits for something past the wakes that it saw looks for it again after so many milliseconds.
const REST_MILLIS: u64 = 100;

/// Where workers rest until something was done that may have given them work. Anyone may wake them, with no lock.
pub struct Gate {
    wakes: AtomicU64,
    still: AtomicU64,
}

impl Gate {
    /// A gate at which no one was woken yet.
    pub fn new() -> Gate {
        Gate {
            wakes: AtomicU64::new(0),
            still: AtomicU64::new(0),
        }
    }

    /// Wakes all that rest, and lets those that come to rest next pass.
    pub fn wake(&self) {
        self.wakes.fetch_add(1, Ordering::SeqCst);
        self.wakes.wake_all();
    }

    /// Rests until there was a wake after those that were seen, or for a tenth of a second. It answers the wakes seen then.
    pub fn wait_past<R: Wait>(&self, rt: &R, seen: u64) -> u64 {
        self.wait(rt, seen, REST_MILLIS)
    }

    // Rests until there was a wake after those that were seen, or for so many milliseconds. It answers the wakes seen then.
    fn wait<R: Wait>(&self, rt: &R, seen: u64, millis: u64) -> u64 {
        if millis > 0 && self.wakes.load(Ordering::SeqCst) == seen {
            let low = (seen % 0x1_0000_0000) as u32;
            self.wakes
                .park_timeout(rt, low, Duration::from_millis(millis));
        }
        self.wakes.load(Ordering::SeqCst)
    }

    // Rests for so many milliseconds, whoever wakes.
    fn stand_still<R: Wait>(&self, rt: &R, millis: u64) {
        if millis > 0 {
            self.still
                .park_timeout(rt, 0, Duration::from_millis(millis));
        }
    }
}

impl Drop for Gate {
    fn drop(self) {
        let Gate { wakes: _, still: _ } = self;
    }
}

/// One worker's rests at a gate, for a link to keep. A wake between two rests ends the second at once.
#[derive(Drop)]
pub struct Resting<'a, R: Wait> {
    rt: &'a R,
    gate: &'a Gate,
    seen: u64,
}

impl<'a, R: Wait> Resting<'a, R> {
    /// No wake was seen yet.
    pub fn new(rt: &'a R, gate: &'a Gate) -> Resting<'a, R> {
        Resting { rt, gate, seen: 0 }
    }

    /// Rests until there was a wake since the last rest ended, but no shorter and no longer than this rest may be. Whether there was one.
    pub fn rest(&mut self, rest: Rest) -> bool {
        let seen = self.seen;
        self.gate.stand_still(self.rt, rest.least);
        let left = rest.most.saturating_sub(rest.least);
        self.seen = self.gate.wait(self.rt, seen, left);
        self.seen != seen
    }
}
