use std::time::{Clock as Time, Instant};
use streams::Clock;

/// Tells the seconds since it was made. Where the system doesn't tell the time, it stands still.
#[derive(Drop)]
pub struct SystemClock<'a, R> {
    rt: &'a R,
    start: Option<Instant>,
    last: u64,
}

impl<'a, R: Time> SystemClock<'a, R> {
    /// A clock that begins at 0.
    pub fn new(rt: &'a R) -> SystemClock<'a, R> {
        SystemClock {
            rt,
            start: Instant::now(rt).ok(),
            last: 0,
        }
    }
}

impl<'a, R: Time> Clock for SystemClock<'a, R> {
    fn now(&mut self) -> u64 {
        let Some(start) = self.start else {
            return self.last;
        };
        if let Ok(elapsed) = start.elapsed(self.rt) {
            self.last = self.last.max(elapsed.as_secs());
        }
        self.last
    }
}
