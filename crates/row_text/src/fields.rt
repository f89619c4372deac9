use outcome::Mem;
use std::alloc::Global;

/// The words of a text.
pub fn words<'a>(alloc: Global, text: &'a str) -> Mem<Vec<&'a str>> {
    let mut words = Vec::new(alloc);
    for word in text.split(' ') {
        words.push(word)?;
    }
    Ok(words)
}

/// The word at a place, and an empty one behind the last.
pub fn word<'a>(words: &[&'a str], at: usize) -> &'a str {
    match words.get(at) {
        Some(word) => *word,
        None => "",
    }
}

/// The number at a place, and the greatest where there is none.
pub fn number(words: &[&str], at: usize) -> u32 {
    word(words, at).parse::<u32>().unwrap_or(u32::MAX)
}

/// The bytes of the words from a place on, one after the other. Each word is hex, or hex, a `*` and how often it
/// stands there; what is neither is nothing.
pub fn bytes(alloc: Global, words: &[&str], at: usize) -> Mem<Vec<u8>> {
    let mut bytes = Vec::new(alloc);
    for word in words.iter().skip(at) {
        let (hex, times) = repeated(word);
        add_hex(alloc, &mut bytes, hex, times)?;
    }
    Ok(bytes)
}

/// The hex of a word, and how often it stands there.
fn repeated(word: &str) -> (&str, u32) {
    match word.split_once('*') {
        Some((hex, times)) => (hex, times.parse::<u32>().unwrap_or(0)),
        None => (word, 1),
    }
}

/// Adds the bytes of this hex so many times.
fn add_hex(alloc: Global, bytes: &mut Vec<u8>, hex: &str, times: u32) -> Mem<()> {
    match hex::decode(alloc, hex) {
        Ok(part) => add_times(bytes, &part, times),
        Err(_) => Ok(()),
    }
}

fn add_times(bytes: &mut Vec<u8>, part: &[u8], times: u32) -> Mem<()> {
    for _ in 0..times {
        bytes.extend_from_slice(part)?;
    }
    Ok(())
}
