//! What happens to a server in a case.

use crate::lines::{bytes_of, long};
use row_text::{number, word};
use std::alloc::Global;

/// What a server may make a step of. Workers have numbers from 1 on.
#[derive(Drop)]
pub enum Event {
    /// A record comes on a connection.
    Record {
        conn: u32,
        bytes: Vec<u8>,
        now: u64,
    },

    /// A second comes by itself.
    Tick {
        now: u64,
    },

    /// A worker has its turn.
    Work {
        worker: u8,
        now: u64,
    },

    /// A record comes to a worker from the source.
    Reply {
        worker: u8,
        bytes: Vec<u8>,
        now: u64,
    },

    /// A worker's link has failed.
    Failed {
        worker: u8,
    },
}

impl Event {
    /// The event that the words of a line say. None where the first one names no event.
    pub fn from_words(alloc: Global, words: &[&str]) -> Option<Event> {
        let event = match word(words, 0) {
            "record" => Event::Record {
                conn: number(words, 1),
                bytes: bytes_of(alloc, word(words, 3)),
                now: long(words, 2),
            },
            "tick" => Event::Tick {
                now: long(words, 1),
            },
            "work" => Event::Work {
                worker: worker_of(words),
                now: long(words, 2),
            },
            "reply" => Event::Reply {
                worker: worker_of(words),
                bytes: bytes_of(alloc, word(words, 3)),
                now: long(words, 2),
            },
            "failed" => Event::Failed {
                worker: worker_of(words),
            },
            _ => return None,
        };
        Some(event)
    }
}

/// The number of a worker, 0 where there is none.
fn worker_of(words: &[&str]) -> u8 {
    word(words, 1).parse::<u8>().unwrap_or(0)
}
