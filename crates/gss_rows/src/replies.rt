//! Replies to calls that are made by hand, whole.

ghost use Rattle.std.specs.Prelude.{IfOk};
ghost use Rattle.rpc_msg.specs.Heads.{call};

use crate::told::tell_hex;
use std::alloc::Global;
use two_ends::{Asked, Call, Server, Wrong};

/// A call by hand of this version with number 7, which the source admitted.
fn admitted(alloc: Global, source: &mut Server, version: u32) -> Result<Call, Wrong>
    ensures { IfOk result (λ told. call.Fits told.head) }
{
    let asked = Asked {
        version,
        ..Asked::data(7)
    };
    let record_ = asked.record(alloc, &source.key(1)?)?;
    source.admit(alloc, record_.as_slice())
}

/// `served VERSION`: the reply with the result `result!!`.
pub fn served(alloc: Global, version: u32, text: &mut String) -> Result<(), Wrong> {
    let mut source = Server::with_context(alloc, 0)?;
    let told = admitted(alloc, &mut source, version)?;
    tell_served(alloc, &source, &told, text)
}

fn tell_served(alloc: Global, source: &Server, told: &Call, text: &mut String) -> Result<(), Wrong>
    requires { call.Fits told.now.head }
{
    let reply = source.reply(alloc, told, b"result!!")?;
    Ok(tell_hex(text, reply.as_slice())?)
}

/// `garbage VERSION`: the reply that says that the arguments aren't spelled.
pub fn garbage(alloc: Global, version: u32, text: &mut String) -> Result<(), Wrong> {
    let mut source = Server::with_context(alloc, 0)?;
    let told = admitted(alloc, &mut source, version)?;
    tell_garbage(alloc, &source, &told, text)
}

fn tell_garbage(alloc: Global, source: &Server, told: &Call, text: &mut String) -> Result<(), Wrong>
    requires { call.Fits told.now.head }
{
    let reply = source.garbage(alloc, told)?;
    Ok(tell_hex(text, reply.as_slice())?)
}
