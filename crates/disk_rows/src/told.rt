//! How answers are told.

use outcome::Mem;
use std::fmt::{Debug, Write};

/// Adds an answer, behind a `; ` where it isn't the first.
pub fn tell(text: &mut String, answer: &str) -> Mem<()> {
    next(text)?;
    text.push_str(answer)?;
    Ok(())
}

/// Tells a call that was refused or failed by its fault.
pub fn tell_fault<F: Debug>(text: &mut String, answer: &Result<(), F>) -> Mem<()> {
    match answer {
        Ok(()) => Ok(()),
        Err(fault) => tell_shown(text, fault),
    }
}

/// Tells a value as it is shown.
pub fn tell_shown<V: Debug>(text: &mut String, value: &V) -> Mem<()> {
    next(text)?;
    write!(text, "{value:?}")?;
    Ok(())
}

/// Tells a number between two texts.
pub fn tell_number(text: &mut String, before: &str, number: u64, behind: &str) -> Mem<()> {
    next(text)?;
    add_number(text, before, number)?;
    text.push_str(behind)?;
    Ok(())
}

/// Adds a number behind a text.
pub fn add_number(text: &mut String, before: &str, number: u64) -> Mem<()> {
    write!(text, "{before}{number}")?;
    Ok(())
}

/// Parts the next answer from those before it.
pub fn next(text: &mut String) -> Mem<()> {
    if !text.is_empty() {
        text.push_str("; ")?;
    }
    Ok(())
}

/// Tells bytes in hex.
pub fn tell_bytes(text: &mut String, bytes: &[u8]) -> Mem<()> {
    next(text)?;
    for byte in bytes {
        write!(text, "{byte:02x}")?;
    }
    Ok(())
}

/// A byte that stands so often in a row.
#[derive(Clone, Copy)]
struct Row {
    byte: u8,
    times: u32,
}

impl Row {
    fn tell(self, text: &mut String) -> Mem<()> {
        write!(text, "{:02x}*{} ", self.byte, self.times)?;
        Ok(())
    }
}

/// Tells bytes in hex, each with how often it stands there in a row.
pub fn tell_rows(text: &mut String, bytes: &[u8]) -> Mem<()> {
    next(text)?;
    let mut row = Row { byte: 0, times: 0 };
    for byte in bytes {
        if *byte != row.byte && row.times > 0 {
            row.tell(text)?;
            row.times = 0;
        }
        row.byte = *byte;
        row.times = row.times.saturating_add(1);
    }
    row.tell(text)?;
    text.push_str("end")?;
    Ok(())
}
