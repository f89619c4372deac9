//! The lines of cases.

use row_text::word;
use std::alloc::Global;

/// What a line is, by its first word.
#[derive(Clone, Copy)]
pub enum Kind {
    /// It says whose cases follow.
    Core,

    /// It begins a case.
    Case,

    /// It is one of a case, and says what happens.
    Event,

    /// It says what an event gave.
    Outcome,

    /// It says what is held in the end.
    Held,

    /// It ends a case.
    End,
}

/// What a line with this first word is. Words that are no others' are those of events.
pub fn kind_of(word: &str) -> Kind {
    match word {
        "core" => Kind::Core,
        "case" => Kind::Case,
        "end" => Kind::End,
        _ if is_outcome(word) => Kind::Outcome,
        _ if is_held(word) => Kind::Held,
        _ => Kind::Event,
    }
}

fn is_outcome(word: &str) -> bool {
    word == "note" || word == "accepted" || word == "used" || word == "undrawn" || word == "sent"
}

fn is_held(word: &str) -> bool {
    word == "file" || word == "peek" || word == "report" || word == "awaits"
}

/// Whether a line says nothing.
pub fn is_passed_over(line: &str) -> bool {
    line.is_empty() || line.starts_with('#')
}

/// The number at a place, and the greatest where there is none.
pub fn long(words: &[&str], at: usize) -> u64 {
    word(words, at).parse::<u64>().unwrap_or(u64::MAX)
}

/// The bytes of a word, and none where it isn't hex.
pub fn bytes_of(alloc: Global, word: &str) -> Vec<u8> {
    match hex::decode(alloc, word) {
        Ok(bytes) => bytes,
        Err(_) => Vec::new(alloc),
    }
}
