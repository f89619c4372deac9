//! The fields of a line, and how answers are told.

use hex::FromHex;
use nfs_base::{NetLoc, Status};
use outcome::Mem;
use row_text::{bytes, word};
use std::alloc::Global;
use std::fmt::Write;
use wire_xdr::Octets;

/// The number at a place, of 64 bits, and the greatest where there is none.
pub fn long(words: &[&str], at: usize) -> u64 {
    word(words, at).parse::<u64>().unwrap_or(u64::MAX)
}

/// The bytes of the word in hex at a place; `-` is none.
pub fn octets(alloc: Global, words: &[&str], at: usize) -> Mem<Octets> {
    Ok(Octets::from_vec(bytes(alloc, &[word(words, at)], 0)?))
}

/// The key of the word in hex at a place.
pub fn key(words: &[&str], at: usize) -> [u8; 32] {
    match <[u8; 32] as FromHex>::from_hex(word(words, at)) {
        Ok(key) => key,
        Err(_) => [0; 32],
    }
}

/// The location of the letter at a place: the source's, the destination's, or another one.
pub fn location(alloc: Global, words: &[&str], at: usize) -> Mem<NetLoc> {
    let addr: &[u8] = match word(words, at) {
        "s" => b"127.0.0.1.8.1".as_slice(),
        "d" => b"127.0.0.1.8.2".as_slice(),
        _ => b"10.0.0.2.8.1".as_slice(),
    };
    Ok(NetLoc::Addr {
        netid: Octets::from_slice(alloc, b"tcp")?,
        addr: Octets::from_slice(alloc, addr)?,
    })
}

/// Tells a text.
pub fn tell(text: &mut String, what: &str) -> Mem<()> {
    Ok(text.push_str(what)?)
}

/// Tells a number.
pub fn tell_number(number: u32, text: &mut String) -> Mem<()> {
    Ok(write!(text, "{number}")?)
}

/// Tells a status by its number.
pub fn tell_status(status: Status, text: &mut String) -> Mem<()> {
    Ok(write!(text, "{status}")?)
}

/// Tells `true` or `false`.
pub fn tell_flag(flag: bool, text: &mut String) -> Mem<()> {
    tell(text, if flag { "true" } else { "false" })
}

/// Tells bytes in hex.
pub fn tell_hex(bytes: &[u8], text: &mut String) -> Mem<()> {
    for byte in bytes {
        write!(text, "{byte:02x}")?;
    }
    Ok(())
}
