//! How bytes are told, and a row of answers.

use outcome::Mem;
use row_text::{bytes, word};
use std::alloc::Global;
use std::fmt::Write;
use two_ends::Wrong;

/// Tells bytes in hex where they are few, and else how many there are.
pub fn tell_hex(text: &mut String, bytes: &[u8]) -> Mem<()> {
    if bytes.len() > 400 {
        write!(text, "{} bytes", bytes.len())?;
        return Ok(());
    }
    for byte in bytes {
        write!(text, "{byte:02x}")?;
    }
    Ok(())
}

/// Tells a text.
pub fn tell(text: &mut String, what: &str) -> Mem<()> {
    text.push_str(what)?;
    Ok(())
}

/// Tells a text where something holds.
pub fn tell_where(holds: bool, text: &mut String, what: &str) -> Mem<()> {
    if holds {
        text.push_str(what)?;
    }
    Ok(())
}

/// The bytes of the word at a place.
pub fn bytes_at(alloc: Global, words: &[&str], at: usize) -> Mem<Vec<u8>> {
    bytes(alloc, &[word(words, at)], 0)
}

/// The answers of one call at many places, of which each is told that is another one than the one before.
#[derive(Drop)]
pub struct Places {
    last: String,
}

impl Places {
    pub fn new(alloc: Global) -> Places {
        Places {
            last: String::new(alloc),
        }
    }

    /// Tells the answer at a place.
    pub fn tell(&mut self, text: &mut String, at: usize, answer: String) -> Mem<()> {
        if answer.as_str() != self.last.as_str() {
            write!(text, "{at}: {answer}; ")?;
            self.last = answer;
        }
        Ok(())
    }
}

/// The bytes between two places.
pub fn part(bytes: &[u8], from: usize, to: usize) -> Result<&[u8], Wrong> {
    match bytes.get(from..to) {
        Some(part) => Ok(part),
        None => Err(Wrong::Lacks("bytes")),
    }
}

/// What a record carries under a seal, where its head and the sequence number have so many bytes.
pub fn carried(bytes: &[u8], head: usize) -> Result<&[u8], Wrong> {
    part(bytes, head, bytes.len().saturating_sub(36))
}

/// The bytes with these bits turned in the byte at a place, where there is one.
pub fn turned(alloc: Global, bytes: &[u8], at: usize, bits: u8) -> Mem<Vec<u8>> {
    let mut bytes = Vec::from_slice(alloc, bytes)?;
    if let Some(byte) = bytes.get_mut(at) {
        *byte ^= bits;
    }
    Ok(bytes)
}
