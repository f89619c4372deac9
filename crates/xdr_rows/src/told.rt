//! How answers are told.

use outcome::Mem;
use std::fmt::Write;

/// Tells a text.
pub fn tell(text: &mut String, what: &str) -> Mem<()> {
    Ok(text.push_str(what)?)
}

/// Tells bytes in hex.
pub fn tell_hex(text: &mut String, bytes: &[u8]) -> Mem<()> {
    for byte in bytes {
        write!(text, "{byte:02x}")?;
    }
    Ok(())
}

/// Tells a record: its bytes where they are few, and else how many there are.
pub fn tell_record(text: &mut String, record_: &[u8]) -> Mem<()> {
    if record_.len() > 64 {
        return Ok(write!(text, "[{} bytes]", record_.len())?);
    }
    tell(text, "[")?;
    tell_hex(text, record_)?;
    tell(text, "]")
}
