//! OPEN (RFC 8881 section 18.16). With creation, and with a claim other than CLAIM_NULL, the operation is
//! cut: it is read up to the word that decides this, and nothing of it behind that word.

ghost use Rattle.file_ops.specs.Opening.{claim, open_how, open_args, open_done};

use crate::zero::{NO_LIMIT, Zero};
use nfs_base::{StateId, TEXT_LIMIT};
use outcome::Mem;
use std::alloc::Global;
use wire_xdr::{Items, Octets, ReadError, Reader, Writer, Xdr};

/// What is to be opened, open_claim4.
#[derive(Drop)]
pub enum Claim {
    /// The file of this name in the current directory, CLAIM_NULL 0.
    Null(Octets),

    /// A claim with this number, at which the operation is cut.
    Other(u32),
}

impl Xdr for Claim {
    ghost form = { claim };

    #[tactic(auto, unfolding(crate::specs::Opening::claim))]
    fn parse(alloc: Global, reader: &mut Reader) -> Result<Claim, ReadError> {
        match u32::parse(alloc, reader)? {
            0 => Ok(Claim::Null(Octets::parse(alloc, reader, NO_LIMIT)?)),
            claim => Ok(Claim::Other(claim)),
        }
    }

    #[tactic(auto, unfolding(crate::specs::Opening::claim))]
    fn put(&self, writer: &mut Writer) -> Mem<()> {
        match self {
            Claim::Null(name) => {
                0u32.put(writer)?;
                name.put(writer)
            }
            Claim::Other(claim) => {
                claim.put(writer)?;
                writer.void()
            }
        }
    }
}

/// Whether the file is made where it isn't there, openflag4, and what follows that.
#[derive(Drop)]
pub enum OpenHow {
    /// It isn't made, OPEN4_NOCREATE 0; then the claim.
    NoCreate(Claim),

    /// It is made, OPEN4_CREATE 1, in the mode with this number, at which the operation is cut.
    Create(u32),
}

impl Xdr for OpenHow {
    ghost form = { open_how };

    #[tactic(auto, unfolding(crate::specs::Opening::open_how))]
    fn parse(alloc: Global, reader: &mut Reader) -> Result<OpenHow, ReadError> {
        let start = reader.at();
        match u32::parse(alloc, reader)? {
            0 => Ok(OpenHow::NoCreate(Claim::parse(alloc, reader)?)),
            1 => Ok(OpenHow::Create(u32::parse(alloc, reader)?)),
            _ => Err(ReadError::at(start)),
        }
    }

    #[tactic(auto, unfolding(crate::specs::Opening::open_how))]
    fn put(&self, writer: &mut Writer) -> Mem<()> {
        match self {
            OpenHow::NoCreate(claim) => {
                0u32.put(writer)?;
                claim.put(writer)
            }
            OpenHow::Create(mode) => {
                1u32.put(writer)?;
                mode.put(writer)
            }
        }
    }
}

/// The arguments of OPEN, OPEN4args.
#[derive(Drop)]
pub struct OpenArgs {
    pub seqid: u32,
    pub access: u32,
    pub deny: u32,
    pub client: u64,
    pub owner: Octets,
    pub how: OpenHow,
}

impl Xdr for OpenArgs {
    ghost form = { open_args };

    #[tactic(auto, unfolding(crate::specs::Opening::open_args))]
    fn parse(alloc: Global, reader: &mut Reader) -> Result<OpenArgs, ReadError> {
        Ok(OpenArgs {
            seqid: u32::parse(alloc, reader)?,
            access: u32::parse(alloc, reader)?,
            deny: u32::parse(alloc, reader)?,
            client: u64::parse(alloc, reader)?,
            owner: Octets::parse(alloc, reader, TEXT_LIMIT)?,
            how: OpenHow::parse(alloc, reader)?,
        })
    }

    #[tactic(auto, unfolding(crate::specs::Opening::open_args))]
    fn put(&self, writer: &mut Writer) -> Mem<()> {
        (self.seqid, (self.access, (self.deny, self.client))).put(writer)?;
        self.owner.put(writer)?;
        self.how.put(writer)
    }
}

/// What OPEN answers with status 0, OPEN4resok: the stateid, whether the directory's change attribute was
/// read in one step with the open, that attribute before and after, flags, which attributes were set, and
/// OPEN_DELEGATE_NONE.
#[derive(Drop)]
pub struct OpenDone {
    pub state_id: StateId,
    pub atomic: bool,
    pub before: u64,
    pub after: u64,
    pub flags: u32,
    pub attributes_set: Items<u32>,
    pub delegation: Zero,
}

impl Xdr for OpenDone {
    ghost form = { open_done };

    #[tactic(auto, unfolding(crate::specs::Opening::open_done))]
    fn parse(alloc: Global, reader: &mut Reader) -> Result<OpenDone, ReadError> {
        Ok(OpenDone {
            state_id: StateId::parse(alloc, reader)?,
            atomic: bool::parse(alloc, reader)?,
            before: u64::parse(alloc, reader)?,
            after: u64::parse(alloc, reader)?,
            flags: u32::parse(alloc, reader)?,
            attributes_set: Items::parse(alloc, reader, NO_LIMIT)?,
            delegation: Zero::parse(alloc, reader)?,
        })
    }

    #[tactic(auto, unfolding(crate::specs::Opening::open_done))]
    fn put(&self, writer: &mut Writer) -> Mem<()> {
        let change = (self.atomic, (self.before, self.after));
        (self.state_id, (change, self.flags)).put(writer)?;
        self.attributes_set.put(writer)?;
        self.delegation.put(writer)
    }
}
