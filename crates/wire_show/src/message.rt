ghost use Rattle.std.specs.Prelude.{◌≡◌, [], ◌∷◌, IfOk};
ghost use Rattle.rpc_msg.specs.Heads.{reply};
ghost use Rattle.rpc_msg.specs.Messages.{head_told};
ghost use Rattle.wire_show.specs.Shown.{call_line, reply_line, reply_lines, record_lines};

use crate::body::body_lines;
use crate::line::ShownLine;
use outcome::Mem;
use rpc_msg::{CallHead, ReplyHead, RpcFault, read_call, read_reply};
use std::alloc::Global;

/// The lines of a record, which is the one with this number.
#[tactic(auto, unfolding(crate::specs::Shown::record_lines))]
pub fn record_lines(alloc: Global, number: u64, bytes: &[u8]) -> Mem<Vec<ShownLine>>
    ensures { IfOk result (λ lines. lines.items ≡ record_lines number bytes.now) }
{
    let mut lines = Vec::new(alloc);
    lines.push(ShownLine::Record {
        number,
        len: bytes.len(),
    })?;
    match read_call(alloc, bytes)? {
        Ok((head, at)) => {
            lines.push(call_line(&head))?;
            lines.append(&mut body_lines(alloc, &head, at as u128, &bytes[at..])?)?;
        }
        Err(RpcFault::OtherKind { .. }) => lines.push(reply_of(alloc, bytes)?)?,
        Err(RpcFault::BadXdr { at }) => lines.push(ShownLine::Unread { at: at as u128 })?,
    }
    Ok(lines)
}

/// The line of a call's head.
fn call_line(head: &CallHead) -> ShownLine
    ensures { result ≡ call_line head.now }
{
    ShownLine::Call {
        xid: head.xid,
        prog: head.prog,
        vers: head.vers,
        proc: head.proc,
        flavor: head.cred.flavor,
    }
}

/// The line of a reply's head.
fn reply_line(head: &ReplyHead) -> ShownLine
    ensures { result ≡ reply_line head.now }
{
    match head {
        ReplyHead::Accepted { xid, stat, .. } => ShownLine::Accepted {
            xid: *xid,
            stat: *stat,
        },
        ReplyHead::Denied { xid, why } => ShownLine::Denied {
            xid: *xid,
            why: *why,
        },
    }
}

/// The line of a message that is no call.
fn reply_of(alloc: Global, bytes: &[u8]) -> Mem<ShownLine>
    ensures { IfOk result (λ line. line ∷ [] ≡ reply_lines (head_told reply 0 bytes.now)) }
{
    Ok(match read_reply(alloc, bytes)? {
        Ok((head, _)) => reply_line(&head),
        Err(RpcFault::OtherKind { .. }) => ShownLine::Unread { at: 4 },
        Err(RpcFault::BadXdr { at }) => ShownLine::Unread { at: at as u128 },
    })
}
