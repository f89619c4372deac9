//! The cores whose cases can be replayed.

use crate::player::{Core, Player, begin, event, held};
use outcome::Mem;
use std::alloc::Global;

/// The source, the destination and the client of the last case of each, and which of them the lines drive now.
#[derive(Drop)]
pub struct Cores<S, C> {
    now: Core,
    source: Option<S>,
    dest: Option<S>,
    client: Option<C>,
}

impl<S: Player, C: Player> Cores<S, C> {
    /// No case was begun yet, and the first are for this core.
    pub fn new(now: Core) -> Cores<S, C> {
        Cores {
            now,
            source: None,
            dest: None,
            client: None,
        }
    }

    /// From here on cases are for the core that a word names, if it names one.
    pub fn choose(&mut self, word: &str) {
        self.now = Core::named(word).unwrap_or(self.now);
    }

    /// Begins a case with a new core, by the words of its first line.
    pub fn begin(&mut self, alloc: Global, words: &[&str]) -> Mem<()> {
        match self.now {
            Core::Source => begin(&mut self.source, alloc, self.now, words),
            Core::Dest => begin(&mut self.dest, alloc, self.now, words),
            Core::Client => begin(&mut self.client, alloc, self.now, words),
        }
    }

    /// Makes the step that an event's words say, adds the lines of its outcome, and tells whether the core makes such a step.
    pub fn event(&mut self, alloc: Global, words: &[&str], text: &mut String) -> Mem<bool> {
        match self.now {
            Core::Source => event(&mut self.source, alloc, words, text),
            Core::Dest => event(&mut self.dest, alloc, words, text),
            Core::Client => event(&mut self.client, alloc, words, text),
        }
    }

    /// Adds what the core holds in the end, as the line with these words is to say it.
    pub fn held(&mut self, words: &[&str], text: &mut String) -> Mem<()> {
        match self.now {
            Core::Source => held(&mut self.source, words, text),
            Core::Dest => held(&mut self.dest, words, text),
            Core::Client => held(&mut self.client, words, text),
        }
    }
}
