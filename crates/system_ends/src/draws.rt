use std::io::Read;
use streams::{Drawn, Draws};

/// Draws what a reader gives, as the system's random bytes. A read that fails is a fault, and so is one that ends before 32 bytes.
#[derive(Drop)]
pub struct ReadDraws<R> {
    inner: R,
    faults: u64,
}

impl<R: Read> ReadDraws<R> {
    /// Nothing was drawn yet.
    pub fn new(inner: R) -> ReadDraws<R> {
        ReadDraws { inner, faults: 0 }
    }
}

impl<R: Read> Draws for ReadDraws<R> {
    ghost gives = { λ _ _ _. Unit {0} };

    ghost faults = { λ d. d.faults };

    fn draw(&mut self) -> Drawn {
        let mut bytes = [0; 32];
        match self.inner.read_exact(&mut bytes) {
            Ok(()) => Drawn::Got(bytes),
            Err(_) => {
                self.faults = self.faults.saturating_add(1);
                Drawn::Failed
            }
        }
    }
}
