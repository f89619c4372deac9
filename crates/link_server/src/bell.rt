use std::sync::Wait;
use std::sync::atomic::{AtomicU64, Ordering};
use std::time::Duration;

// A rest is no longer than this many milliseconds.
const REST_MILLIS: u64 = 100;

// Tells which of the threads at up to 32 seats have ended. It only says whom to wait for first: nothing rests on it.
pub(crate) struct Bell {
    rang: AtomicU64,
}

impl Bell {
    pub(crate) fn new() -> Bell {
        Bell {
            rang: AtomicU64::new(0),
        }
    }

    // The thread at a seat is at its end.
    pub(crate) fn ring(&self, seat: u8) {
        self.rang.fetch_add(bit(seat), Ordering::SeqCst);
        self.rang.wake_all();
    }

    // Whether it is.
    pub(crate) fn rang(&self, seat: u8) -> bool {
        self.rang.load(Ordering::SeqCst) & bit(seat) != 0
    }

    // The seat is free again.
    pub(crate) fn clear(&self, seat: u8) {
        self.rang.fetch_sub(bit(seat), Ordering::SeqCst);
    }

    // Rests until some thread is at its end, or for a tenth of a second.
    pub(crate) fn rest<R: Wait>(&self, rt: &R) {
        self.rang
            .park_timeout(rt, 0, Duration::from_millis(REST_MILLIS));
    }
}

impl Drop for Bell {
    fn drop(self) {
        let Bell { rang: _ } = self;
    }
}

fn bit(seat: u8) -> u64 {
    1 << (seat % 32)
}
