use crate::Event;

/// What one line of a schedule gives.
#[derive(Debug, Drop)]
pub enum Directive {
    /// One event.
    Once(Event),

    /// So many times: what was sent before is delivered.
    Flows { times: u32 },

    /// So many times: what was sent before is delivered, then the first worker makes one step.
    Rounds { times: u32 },
}

/// A line of a schedule that isn't passed over.
#[derive(Debug, Drop)]
pub struct Entry {
    /// Its number in the text, counted from 1.
    pub line: u64,

    pub directive: Directive,
}
