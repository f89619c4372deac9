//! Replies to COMPOUND, written onto pages (RFC 8881 section 16.2).

ghost use Rattle.std.specs.Prelude.{◌≡◌, ◌+◌, ◌-◌, ◌≤◌, ◌<◌, ◌^◌, ◌++◌, [], length};
ghost use Rattle.nfs_base.specs.declared.limits.TheConstants.{SLOTS, TEXT_LIMIT};
ghost use Rattle.nfs_compound.specs.Results.{outcome};
ghost use Rattle.wire_xdr.specs.Page.{Added};
ghost use Rattle.wire_xdr.specs.Words.{word_bytes, opaque_bytes, fixed_bytes};
ghost use Rattle.compound_server.specs.Compounds.{sequence_done};
ghost use Rattle.compound_server.specs.State.{refusal_bytes};

use file_ops::{OP_SEQUENCE, SequenceArgs};
use nfs_base::{SLOTS, Status};
use wire_xdr::Page;

/// How many bytes stand before a reply's results at most, the tag's own apart.
pub(crate) const HEAD_ROOM: usize = 15;

/// How many bytes a result has that is a status alone: its operation's number, and the status.
pub(crate) const REFUSAL_ROOM: usize = 8;

/// Begins a reply: its status, the call's tag, and how many results there are.
pub(crate) fn put_head(page: &mut Page, status: Status, tag: &[u8], count: u32)
    requires short { length tag.now ≤ TEXT_LIMIT }
    requires room { length page.old.bytes + HEAD_ROOM + length tag.now ≤ page.old.room }
    ensures added { Added page.old (word_bytes status.number ++ (opaque_bytes tag.now ++ word_bytes count)) page.new }
    ensures len { length page.new.bytes ≤ length page.old.bytes + HEAD_ROOM + length tag.now }
{
    page.u32(status.number);
    page.opaque(tag);
    page.u32(count);
}

/// The ID of a session.
pub(crate) fn put_session(page: &mut Page, session: &[u8; 16])
    requires { length page.old.bytes + 16 ≤ page.old.room }
    ensures added { Added page.old (fixed_bytes session.now) page.new }
    ensures len { length page.new.bytes ≡ length page.old.bytes + 16 }
{
    page.append(session);
}

/// SEQUENCE is done: what it was asked with, and that all slots may be used.
pub(crate) fn put_sequence(page: &mut Page, args: &SequenceArgs)
    requires { length page.old.bytes + 44 ≤ page.old.room }
    ensures added { Added page.old (outcome.spell (sequence_done args.now)) page.new }
    ensures len { length page.new.bytes ≤ length page.old.bytes + 44 }
{
    page.u32(OP_SEQUENCE);
    page.u32(0);
    put_session(page, &args.session);
    page.u32(args.sequence);
    page.u32(args.slot);
    page.u32(SLOTS - 1);
    page.u32(SLOTS - 1);
    page.u32(0);
}

/// The whole reply that answers one operation by a status alone.
#[tactic(auto, using(crate::proofs::Replies::refusal_spelled))]
pub(crate) fn put_refusal(page: &mut Page, status: Status, tag: &[u8], op: u32)
    requires short { length tag.now ≤ TEXT_LIMIT }
    requires empty { page.old.bytes ≡ [] }
    requires room { HEAD_ROOM + length tag.now + REFUSAL_ROOM ≤ page.old.room }
    ensures bytes { page.new.bytes ≡ refusal_bytes tag.now op status }
    ensures len { length page.new.bytes ≤ HEAD_ROOM + length tag.now + REFUSAL_ROOM }
{
    put_head(page, status, tag, 1);
    page.u32(op);
    page.u32(status.number);
}
