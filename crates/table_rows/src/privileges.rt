//! Privileges by name (`copy_privs`).

ghost use Rattle.copy_privs.specs.Forms.{PrivilegeFits};

use crate::fields::{octets, tell, tell_hex};
use copy_privs::{PrivFault, Privilege, read_privilege, write_privilege};
use outcome::Mem;
use std::alloc::Global;
use std::fmt::Write;
use wire_xdr::Octets;

/// The answer that a line `NAME BYTES ANSWER` wants.
pub fn wanted(line: &str) -> &str {
    let Some((_, rest)) = line.split_once(' ') else {
        return "";
    };
    match rest.split_once(' ') {
        Some((_, wanted)) => wanted,
        None => "",
    }
}

/// What the bytes of `NAME BYTES ..` spell: `from SECRET USER`, `to SECRET N USER` with the number of sources, `confirm CODE
/// USER`, `unknown`, or `bad AT`. What was read is written again, to the same bytes.
pub fn answer(alloc: Global, words: &[&str], text: &mut String) -> Mem<()> {
    let name = octets(alloc, words, 0)?;
    let bytes = octets(alloc, words, 1)?;
    tell_read(alloc, name.as_slice(), bytes.as_slice(), text)
}

fn tell_read(alloc: Global, name: &[u8], bytes: &[u8], text: &mut String) -> Mem<()> {
    match read_privilege(alloc, name, bytes)? {
        Ok(privilege) => tell_again(alloc, &privilege, name, bytes, text),
        Err(fault) => tell_fault(fault, text),
    }
}

fn tell_again(
    alloc: Global,
    privilege: &Privilege,
    name: &[u8],
    bytes: &[u8],
    text: &mut String,
) -> Mem<()>
    requires { PrivilegeFits privilege.now }
{
    if is_again(alloc, privilege, name, bytes)? {
        tell_privilege(privilege, text)
    } else {
        tell(text, "written otherwise")
    }
}

/// Whether a privilege has this name and is written to these bytes.
fn is_again(alloc: Global, privilege: &Privilege, name: &[u8], bytes: &[u8]) -> Mem<bool>
    requires { PrivilegeFits privilege.now }
{
    let again = write_privilege(alloc, privilege)?;
    Ok(again.as_slice() == bytes && privilege.name() == name)
}

fn tell_fault(fault: PrivFault, text: &mut String) -> Mem<()> {
    match fault {
        PrivFault::UnknownName => tell(text, "unknown"),
        PrivFault::BadXdr { at } => Ok(write!(text, "bad {at}")?),
    }
}

fn tell_privilege(privilege: &Privilege, text: &mut String) -> Mem<()> {
    match privilege {
        Privilege::From { secret, user, .. } => tell_two("from ", secret, user, text),
        Privilege::To {
            secret,
            sources,
            user,
        } => tell_to(secret, sources.len(), user, text),
        Privilege::Confirm { mic, user } => tell_two("confirm ", mic, user, text),
    }
}

fn tell_two(front: &str, first: &Octets, user: &Octets, text: &mut String) -> Mem<()> {
    tell_bytes(front, first, text)?;
    tell_bytes(" ", user, text)
}

fn tell_to(secret: &Octets, sources: usize, user: &Octets, text: &mut String) -> Mem<()> {
    tell_bytes("to ", secret, text)?;
    write!(text, " {sources}")?;
    tell_bytes(" ", user, text)
}

/// Tells bytes in hex behind a text; `-` is none.
fn tell_bytes(front: &str, bytes: &Octets, text: &mut String) -> Mem<()> {
    tell(text, front)?;
    if bytes.is_empty() {
        tell(text, "-")
    } else {
        tell_hex(bytes.as_slice(), text)
    }
}
