//! The arguments and results of INIT and CREATE.

ghost use Rattle.std.specs.Prelude.{◌≤◌, length};

use crate::told::{bytes_at, tell, tell_hex};
use gss_ctx::{
    CreateResult, InitResult, handle_of, read_create, read_create_result, read_init,
    read_init_result, write_create, write_create_result, write_init_result,
};
use outcome::Mem;
use row_text::bytes;
use std::alloc::Global;
use std::fmt::Write;
use wire_xdr::Octets;

/// `read_init BYTES..`: the token, or `none`.
pub fn read_init_args(alloc: Global, words: &[&str], text: &mut String) -> Mem<()> {
    let args = bytes(alloc, words, 1)?;
    match read_init(alloc, &args)? {
        Some(token) => tell_hex(text, token.as_slice()),
        None => tell(text, "none"),
    }
}

/// `init_result TOKEN`: how the result of INIT is written that makes context 1 in boot 1, with a token that goes back.
pub fn init_result(alloc: Global, words: &[&str], text: &mut String) -> Mem<()> {
    let token = bytes_at(alloc, words, 1)?;
    if token.len() > 4096 {
        return tell(text, "a long token");
    }
    let written = written_init(alloc, Octets::from_vec(token))?;
    tell_hex(text, written.as_slice())
}

#[tactic(auto, unfolding(gss_ctx::specs::Forms::init_result))]
fn written_init(alloc: Global, token: Octets) -> Mem<Octets>
    requires { length token ≤ 4096 }
{
    let made = InitResult {
        handle: Octets::from_slice(alloc, &handle_of(1, 1))?,
        major: 0,
        minor: 0,
        window: 128,
        token,
    };
    write_init_result(alloc, &made)
}

/// `read_init_result BYTES`: the handle, both statuses, the window and the token, or `none`.
pub fn read_result(alloc: Global, words: &[&str], text: &mut String) -> Mem<()> {
    let result_ = bytes_at(alloc, words, 1)?;
    match read_init_result(alloc, &result_)? {
        Some(read) => tell_result(&read, text),
        None => tell(text, "none"),
    }
}

fn tell_result(read: &InitResult, text: &mut String) -> Mem<()> {
    tell_hex(text, read.handle.as_slice())?;
    write!(text, " ({}, {}, {}) ", read.major, read.minor, read.window)?;
    tell_hex(text, read.token.as_slice())
}

/// `create_args ARGS`: the name and the privilege of the arguments of CREATE, which are written again to the same bytes.
pub fn create_args(alloc: Global, words: &[&str], text: &mut String) -> Mem<()> {
    let args = bytes_at(alloc, words, 1)?;
    match read_create(alloc, &args)? {
        Some((name, privilege)) => {
            created_again(alloc, &args, name.as_slice(), privilege.as_slice(), text)
        }
        None => tell(text, "none"),
    }
}

fn created_again(
    alloc: Global,
    args: &[u8],
    name: &[u8],
    privilege: &[u8],
    text: &mut String,
) -> Mem<()> {
    if name.len() > 64 || privilege.len() > 2048 {
        return tell(text, "long");
    }
    let written = write_create(alloc, name, privilege)?;
    if written.as_slice() != args {
        return tell(text, "written otherwise");
    }
    tell_hex(text, name)?;
    tell(text, " ")?;
    tell_hex(text, privilege)
}

/// `create_result`: how the result of CREATE is written that makes context 2 in boot 1.
pub fn create_result(alloc: Global, text: &mut String) -> Mem<()> {
    let written = written_created(alloc)?;
    tell_hex(text, written.as_slice())
}

#[tactic(auto, unfolding(gss_ctx::specs::Forms::create_result))]
fn written_created(alloc: Global) -> Mem<Octets> {
    let made = CreateResult {
        handle: Octets::from_slice(alloc, &handle_of(1, 2))?,
        major: 0,
        minor: 0,
    };
    write_create_result(alloc, &made)
}

/// `read_create_result BYTES`: the handle and both statuses, or `none`.
pub fn read_created(alloc: Global, words: &[&str], text: &mut String) -> Mem<()> {
    let result_ = bytes_at(alloc, words, 1)?;
    match read_create_result(alloc, &result_)? {
        Some(read) => tell_created(&read, text),
        None => tell(text, "none"),
    }
}

fn tell_created(read: &CreateResult, text: &mut String) -> Mem<()> {
    tell_hex(text, read.handle.as_slice())?;
    write!(text, " ({}, {})", read.major, read.minor)?;
    Ok(())
}
