use crate::pace::Rest;
use streams::{Sink, Source};

/// A worker's way to the source, and its way to the connections of the destination's own clients.
pub trait Link: Source + Sink {
    /// Rests so, after a holding that gave nothing to send, and tells whether it was woken. It may wait; nothing is promised of it.
    fn rest(&mut self, rest: Rest) -> bool;

    /// Sends a record, whose mark it puts before it, on a connection of that number. It may wait; nothing is promised of it,
    /// and what it sends isn't counted as this link's.
    fn post(&mut self, conn: u32, bytes: &[u8]);
}
