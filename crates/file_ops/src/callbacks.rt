//! CB_SEQUENCE, the first operation of a callback (RFC 8881 section 20.9).

ghost use Rattle.std.specs.Prelude.{◌≡◌, List, ℕ, [], ◌++◌, OnOk, OnErr};
ghost use Rattle.nfs_base.specs.Forms.{answer};
ghost use Rattle.wire_xdr.specs.Cursor.{Appends};
ghost use Rattle.wire_xdr.specs.Form.{Spells};
ghost use Rattle.wire_xdr.specs.Reads.{IsRead};
ghost use Rattle.file_ops.specs.Callbacks.{referring_call, referring_calls, cb_seq, cb_seq_done};

use crate::zero::NO_LIMIT;
use nfs_base::Answer;
use outcome::Mem;
use std::alloc::Global;
use wire_xdr::{
    BadXdr, Items, ReadError, Reader, Writer, Xdr, no_prefix, one_spelling, read, write,
};

/// A call of a slot, referring_call4.
#[derive(Drop)]
pub struct ReferringCall {
    pub sequence: u32,
    pub slot: u32,
}

impl Xdr for ReferringCall {
    ghost form = { referring_call };

    #[tactic(auto, unfolding(crate::specs::Callbacks::referring_call))]
    fn parse(alloc: Global, reader: &mut Reader) -> Result<ReferringCall, ReadError> {
        let (sequence, slot) = <(u32, u32)>::parse(alloc, reader)?;
        Ok(ReferringCall { sequence, slot })
    }

    #[tactic(auto, unfolding(crate::specs::Callbacks::referring_call))]
    fn put(&self, writer: &mut Writer) -> Mem<()> {
        (self.sequence, self.slot).put(writer)
    }
}

/// Calls of a session which the callback comes from, referring_call_list4.
#[derive(Drop)]
pub struct ReferringCalls {
    pub session: [u8; 16],
    pub calls: Items<ReferringCall>,
}

impl Xdr for ReferringCalls {
    ghost form = { referring_calls };

    #[tactic(auto, unfolding(crate::specs::Callbacks::referring_calls))]
    fn parse(alloc: Global, reader: &mut Reader) -> Result<ReferringCalls, ReadError> {
        Ok(ReferringCalls {
            session: <[u8; 16]>::parse(alloc, reader)?,
            calls: Items::parse(alloc, reader, NO_LIMIT)?,
        })
    }

    #[tactic(auto, unfolding(crate::specs::Callbacks::referring_calls))]
    fn put(&self, writer: &mut Writer) -> Mem<()> {
        self.session.put(writer)?;
        self.calls.put(writer)
    }
}

/// The arguments of CB_SEQUENCE, CB_SEQUENCE4args.
#[derive(Drop)]
pub struct CbSeq {
    pub session: [u8; 16],
    pub sequence: u32,
    pub slot: u32,
    pub highest_slot: u32,
    pub cache_this: bool,
    pub referring: Items<ReferringCalls>,
}

impl Xdr for CbSeq {
    ghost form = { cb_seq };

    #[tactic(auto, unfolding(crate::specs::Callbacks::cb_seq))]
    fn parse(alloc: Global, reader: &mut Reader) -> Result<CbSeq, ReadError> {
        Ok(CbSeq {
            session: <[u8; 16]>::parse(alloc, reader)?,
            sequence: u32::parse(alloc, reader)?,
            slot: u32::parse(alloc, reader)?,
            highest_slot: u32::parse(alloc, reader)?,
            cache_this: bool::parse(alloc, reader)?,
            referring: Items::parse(alloc, reader, NO_LIMIT)?,
        })
    }

    #[tactic(auto, unfolding(crate::specs::Callbacks::cb_seq))]
    fn put(&self, writer: &mut Writer) -> Mem<()> {
        let slots = (self.slot, (self.highest_slot, self.cache_this));
        (self.session, (self.sequence, slots)).put(writer)?;
        self.referring.put(writer)
    }
}

/// What CB_SEQUENCE answers with status 0, CB_SEQUENCE4resok.
#[derive(Drop)]
pub struct CbSeqDone {
    pub session: [u8; 16],
    pub sequence: u32,
    pub slot: u32,
    pub highest_slot: u32,
    pub target_highest_slot: u32,
}

impl Xdr for CbSeqDone {
    ghost form = { cb_seq_done };

    #[tactic(auto, unfolding(crate::specs::Callbacks::cb_seq_done))]
    fn parse(alloc: Global, reader: &mut Reader) -> Result<CbSeqDone, ReadError> {
        let (session, (sequence, (slot, (highest_slot, target_highest_slot)))) = <(
            [u8; 16],
            (u32, (u32, (u32, u32))),
        )>::parse(alloc, reader)?;
        Ok(CbSeqDone {
            session,
            sequence,
            slot,
            highest_slot,
            target_highest_slot,
        })
    }

    #[tactic(auto, unfolding(crate::specs::Callbacks::cb_seq_done))]
    fn put(&self, writer: &mut Writer) -> Mem<()> {
        let slots = (self.slot, (self.highest_slot, self.target_highest_slot));
        (self.session, (self.sequence, slots)).put(writer)
    }
}

/// Reads the arguments of CB_SEQUENCE, exactly where the bytes begin with their spelling; a refusal names
/// the first place that fails. After a refusal and without memory the reader stands where it stood.
pub fn read_cb_seq(alloc: Global, reader: &mut Reader) -> Mem<Result<CbSeq, BadXdr>>
    ensures { IsRead cb_seq result reader.old reader.new }
{
    read(alloc, reader)
}

/// Writes the arguments of CB_SEQUENCE, without its number. Without memory the writer is as it was.
pub fn write_cb_seq(alloc: Global, writer: &mut Writer, arg: &CbSeq) -> Mem<()>
    requires { cb_seq.Fits arg.now }
    ensures ok { OnOk result (Appends writer.old (cb_seq.spell arg.now) writer.new) }
    ensures err { OnErr result (writer.new ≡ writer.old) }
{
    write(alloc, writer, arg)
}

/// Reads what CB_SEQUENCE answers, in the same way.
pub fn read_cb_seq_res(alloc: Global, reader: &mut Reader) -> Mem<Result<Answer<CbSeqDone>, BadXdr>>
    ensures { IsRead (answer cb_seq_done) result reader.old reader.new }
{
    read(alloc, reader)
}

/// Writes what CB_SEQUENCE answers, without its number. Without memory the writer is as it was.
pub fn write_cb_seq_res(alloc: Global, writer: &mut Writer, res: &Answer<CbSeqDone>) -> Mem<()>
    requires { (answer cb_seq_done).Fits res.now }
    ensures ok { OnOk result (Appends writer.old ((answer cb_seq_done).spell res.now) writer.new) }
    ensures err { OnErr result (writer.new ≡ writer.old) }
{
    write(alloc, writer, res)
}

/// Arguments of CB_SEQUENCE have one spelling, a list of bytes spells one value, and no spelling begins a
/// longer one.
pub fn cb_seq_has_one_spelling()
    ensures spelling { (v : CbSeq) (a b : List ℕ) → Spells cb_seq v a → Spells cb_seq v b → a ≡ b }
    ensures value { (u v : CbSeq) (bytes : List ℕ) → Spells cb_seq u bytes → Spells cb_seq v bytes → u ≡ v }
    ensures prefix { (u v : CbSeq) (bytes rest : List ℕ) → Spells cb_seq u bytes → Spells cb_seq v (bytes ++ rest) → rest ≡ [] }
{
    one_spelling::<CbSeq>();
    no_prefix::<CbSeq>();
}
