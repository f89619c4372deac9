ghost use Rattle.std.specs.Prelude.{◌≡◌, ℕ, List, [], ◌++◌, IfOk};
ghost use Rattle.wire_xdr.specs.Form.{Spells};
ghost use Rattle.rpc_msg.specs.Heads.{call, reply};
ghost use Rattle.rpc_msg.specs.Messages.{kind_of, head_told, IsHead, ReadsHead};
ghost use Rattle.rpc_msg.specs.declared.reply.Stat.TheVariants.{SystemErr};
ghost use Rattle.rpc_msg.specs.declared.reply.ReplyHead.TheVariants.{Accepted};

use crate::call::CallHead;
use crate::numbers::{AUTH_NONE, CALL, REPLY};
use crate::reply::ReplyHead;
use outcome::Mem;
use std::alloc::Global;
use wire_xdr::{Octets, Reader, Writer, Xdr, no_prefix, one_spelling, read};

/// Why the head of a message could not be read.
#[derive(Clone, Copy, PartialEq, Eq)]
pub enum RpcFault {
    /// The bytes spell no head. `at` is the place of the item that is refused, from the first byte on.
    BadXdr { at: usize },
    /// The message is of the other type, [`CALL`] or [`REPLY`].
    OtherKind { found: u32 },
}

/// Reads the head of a call, and says where the body begins (RFC 5531 section 9). `OtherKind` comes exactly
/// where the message type is that of a reply, and else `BadXdr` exactly where the bytes begin with no
/// head's spelling.
pub fn read_call(alloc: Global, bytes: &[u8]) -> Mem<Result<(CallHead, usize), RpcFault>>
    ensures { IfOk result (ReadsHead call REPLY bytes.now) }
{
    read_head(alloc, bytes, REPLY)
}

/// Reads the head of a reply, and says where the body begins (RFC 5531 section 9). `OtherKind` comes exactly
/// where the message type is that of a call, and else `BadXdr` exactly where the bytes begin with no head's
/// spelling.
pub fn read_reply(alloc: Global, bytes: &[u8]) -> Mem<Result<(ReplyHead, usize), RpcFault>>
    ensures { IfOk result (ReadsHead reply CALL bytes.now) }
{
    read_head(alloc, bytes, CALL)
}

/// A call as it is sent: its head and then the body.
pub fn write_call(alloc: Global, head: &CallHead, body: &[u8]) -> Mem<Octets>
    requires { call.Fits head.now }
    ensures { IfOk result (λ message. message ≡ call.spell head.now ++ body.now) }
{
    write_head(alloc, head, body)
}

/// A reply as it is sent: its head and then the body.
pub fn write_reply(alloc: Global, head: &ReplyHead, body: &[u8]) -> Mem<Octets>
    requires { reply.Fits head.now }
    ensures { IfOk result (λ message. message ≡ reply.spell head.now ++ body.now) }
{
    write_head(alloc, head, body)
}

/// The reply for want of memory, SYSTEM_ERR with a verifier of flavor 0. It takes no memory.
pub fn system_error(xid: u32) -> [u8; 24]
    ensures { result ≡ reply.spell (Accepted xid (record { flavor = AUTH_NONE; body = [] }) SystemErr) }
{
    let number = xid.to_be_bytes();
    [
        number[0], number[1], number[2], number[3], 0, 0, 0, 1, 0, 0, 0, 0, 0, 0, 0, 0, 0, 0, 0, 0,
        0, 0, 0, 5,
    ]
}

/// A head has one spelling, a list of bytes spells one head, and no head's spelling begins a longer one.
pub fn heads_are_spelled_once()
    ensures call { (a b : CallHead) (bytes : List ℕ) → Spells call a bytes → Spells call b bytes → a ≡ b }
    ensures call_prefix { (a b : CallHead) (bytes rest : List ℕ) → Spells call a bytes → Spells call b (bytes ++ rest) → rest ≡ [] }
    ensures reply { (a b : ReplyHead) (bytes : List ℕ) → Spells reply a bytes → Spells reply b bytes → a ≡ b }
    ensures reply_prefix { (a b : ReplyHead) (bytes rest : List ℕ) → Spells reply a bytes → Spells reply b (bytes ++ rest) → rest ≡ [] }
{
    one_spelling::<CallHead>();
    no_prefix::<CallHead>();
    one_spelling::<ReplyHead>();
    no_prefix::<ReplyHead>();
}

// The message type.
fn kind(bytes: &[u8]) -> Option<u32>
    ensures { result ≡ kind_of bytes.now }
{
    match bytes {
        [_, _, _, _, a, b, c, d, ..] => Some(u32::from_be_bytes([*a, *b, *c, *d])),
        _ => None,
    }
}

// Reads the head of a message. `other` is the type of those that have another head.
fn read_head<T: Xdr>(alloc: Global, bytes: &[u8], other: u32) -> Mem<Result<(T, usize), RpcFault>>
    ensures exact { IfOk result (λ told. told ≡ head_told T.form other bytes.now) }
    ensures found { IfOk result (λ told. IfOk told (λ head. IsHead T.form bytes.now head.0 head.1)) }
{
    if kind(bytes) == Some(other) {
        return Ok(Err(RpcFault::OtherKind { found: other }));
    }
    let mut reader = Reader::new(bytes);
    match read::<T>(alloc, &mut reader)? {
        Ok(head) => Ok(Ok((head, reader.at()))),
        Err(bad) => Ok(Err(RpcFault::BadXdr { at: bad.at })),
    }
}

// A message: its head and then the body.
fn write_head<T: Xdr>(alloc: Global, head: &T, body: &[u8]) -> Mem<Octets>
    requires { T.form.Fits head.now }
    ensures { IfOk result (λ message. message ≡ T.form.spell head.now ++ body.now) }
{
    let mut writer = Writer::new(alloc)?;
    head.put(&mut writer)?;
    writer.append(body)?;
    Ok(writer.finish())
}
