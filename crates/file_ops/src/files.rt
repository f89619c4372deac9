//! Operations on files (RFC 8881 sections 18.2, 18.3, 18.7, 18.22 and 18.32).

ghost use Rattle.file_ops.specs.Files.{close_args, commit_args, attributes, read_args, read_done, write_args, write_done};

use crate::zero::NO_LIMIT;
use nfs_base::{Stability, StateId};
use outcome::Mem;
use std::alloc::Global;
use wire_xdr::{Items, Octets, ReadError, Reader, Writer, Xdr};

/// The arguments of CLOSE, CLOSE4args.
#[derive(Drop)]
pub struct CloseArgs {
    pub seqid: u32,
    pub state_id: StateId,
}

impl Xdr for CloseArgs {
    ghost form = { close_args };

    #[tactic(auto, unfolding(crate::specs::Files::close_args))]
    fn parse(alloc: Global, reader: &mut Reader) -> Result<CloseArgs, ReadError> {
        let (seqid, state_id) = <(u32, StateId)>::parse(alloc, reader)?;
        Ok(CloseArgs { seqid, state_id })
    }

    #[tactic(auto, unfolding(crate::specs::Files::close_args))]
    fn put(&self, writer: &mut Writer) -> Mem<()> {
        (self.seqid, self.state_id).put(writer)
    }
}

/// The arguments of COMMIT, COMMIT4args: a range in bytes.
#[derive(Drop)]
pub struct CommitArgs {
    pub offset: u64,
    pub count: u32,
}

impl Xdr for CommitArgs {
    ghost form = { commit_args };

    #[tactic(auto, unfolding(crate::specs::Files::commit_args))]
    fn parse(alloc: Global, reader: &mut Reader) -> Result<CommitArgs, ReadError> {
        let (offset, count) = <(u64, u32)>::parse(alloc, reader)?;
        Ok(CommitArgs { offset, count })
    }

    #[tactic(auto, unfolding(crate::specs::Files::commit_args))]
    fn put(&self, writer: &mut Writer) -> Mem<()> {
        (self.offset, self.count).put(writer)
    }
}

/// The bit of the type of a file, attribute 1 (RFC 8881 section 5.8.1.2).
pub const ATTR_TYPE: u32 = 2;

/// The bit of the change attribute, number 3 (RFC 8881 section 5.8.1.4).
pub const ATTR_CHANGE: u32 = 8;

/// The bit of the size in bytes, attribute 4 (RFC 8881 section 5.8.1.5).
pub const ATTR_SIZE: u32 = 16;

/// The bit of the lease time in seconds, attribute 10 (RFC 8881 section 5.8.1.11).
pub const ATTR_LEASE_TIME: u32 = 1024;

/// Attributes of a file, fattr4 (RFC 8881 section 3.3.8): which ones, and their values one after the other.
#[derive(Drop)]
pub struct Attributes {
    pub mask: Items<u32>,
    pub values: Octets,
}

impl Xdr for Attributes {
    ghost form = { attributes };

    #[tactic(auto, unfolding(crate::specs::Files::attributes))]
    fn parse(alloc: Global, reader: &mut Reader) -> Result<Attributes, ReadError> {
        Ok(Attributes {
            mask: Items::parse(alloc, reader, NO_LIMIT)?,
            values: Octets::parse(alloc, reader, NO_LIMIT)?,
        })
    }

    #[tactic(auto, unfolding(crate::specs::Files::attributes))]
    fn put(&self, writer: &mut Writer) -> Mem<()> {
        self.mask.put(writer)?;
        self.values.put(writer)
    }
}

/// The arguments of READ, READ4args: a range in bytes.
#[derive(Drop)]
pub struct ReadArgs {
    pub state_id: StateId,
    pub offset: u64,
    pub count: u32,
}

impl Xdr for ReadArgs {
    ghost form = { read_args };

    #[tactic(auto, unfolding(crate::specs::Files::read_args))]
    fn parse(alloc: Global, reader: &mut Reader) -> Result<ReadArgs, ReadError> {
        let (state_id, (offset, count)) = <(StateId, (u64, u32))>::parse(alloc, reader)?;
        Ok(ReadArgs {
            state_id,
            offset,
            count,
        })
    }

    #[tactic(auto, unfolding(crate::specs::Files::read_args))]
    fn put(&self, writer: &mut Writer) -> Mem<()> {
        (self.state_id, (self.offset, self.count)).put(writer)
    }
}

/// What READ answers with status 0, READ4resok: whether the file ends behind the bytes, and these.
#[derive(Drop)]
pub struct ReadDone {
    pub eof: bool,
    pub bytes: Octets,
}

impl Xdr for ReadDone {
    ghost form = { read_done };

    #[tactic(auto, unfolding(crate::specs::Files::read_done))]
    fn parse(alloc: Global, reader: &mut Reader) -> Result<ReadDone, ReadError> {
        Ok(ReadDone {
            eof: bool::parse(alloc, reader)?,
            bytes: Octets::parse(alloc, reader, NO_LIMIT)?,
        })
    }

    #[tactic(auto, unfolding(crate::specs::Files::read_done))]
    fn put(&self, writer: &mut Writer) -> Mem<()> {
        self.eof.put(writer)?;
        self.bytes.put(writer)
    }
}

/// The arguments of WRITE, WRITE4args.
#[derive(Drop)]
pub struct WriteArgs {
    pub state_id: StateId,
    pub offset: u64,
    pub stable: Stability,
    pub bytes: Octets,
}

impl Xdr for WriteArgs {
    ghost form = { write_args };

    #[tactic(auto, unfolding(crate::specs::Files::write_args))]
    fn parse(alloc: Global, reader: &mut Reader) -> Result<WriteArgs, ReadError> {
        Ok(WriteArgs {
            state_id: StateId::parse(alloc, reader)?,
            offset: u64::parse(alloc, reader)?,
            stable: Stability::parse(alloc, reader)?,
            bytes: Octets::parse(alloc, reader, NO_LIMIT)?,
        })
    }

    #[tactic(auto, unfolding(crate::specs::Files::write_args))]
    fn put(&self, writer: &mut Writer) -> Mem<()> {
        (self.state_id, (self.offset, self.stable)).put(writer)?;
        self.bytes.put(writer)
    }
}

/// What WRITE answers with status 0, WRITE4resok: how many bytes were written, and how firmly.
#[derive(Drop)]
pub struct WriteDone {
    pub count: u32,
    pub committed: Stability,
    pub verifier: [u8; 8],
}

impl Xdr for WriteDone {
    ghost form = { write_done };

    #[tactic(auto, unfolding(crate::specs::Files::write_done))]
    fn parse(alloc: Global, reader: &mut Reader) -> Result<WriteDone, ReadError> {
        let (count, (committed, verifier)) = <(u32, (Stability, [u8; 8]))>::parse(alloc, reader)?;
        Ok(WriteDone {
            count,
            committed,
            verifier,
        })
    }

    #[tactic(auto, unfolding(crate::specs::Files::write_done))]
    fn put(&self, writer: &mut Writer) -> Mem<()> {
        (self.count, (self.committed, self.verifier)).put(writer)
    }
}
