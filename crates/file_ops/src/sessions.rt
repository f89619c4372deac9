//! Operations on clients and sessions (RFC 8881 sections 18.35, 18.36 and 18.46).

ghost use Rattle.file_ops.specs.Sessions.{impl_id, protection, exchange_id_args, exchange_id_done, create_session_args, create_session_done, sequence_args, sequence_done};

use crate::parms::{ChannelAttrs, SecParm};
use crate::zero::{NO_LIMIT, Zero};
use nfs_base::{TEXT_LIMIT, Time};
use outcome::Mem;
use std::alloc::Global;
use wire_xdr::{Items, Octets, ReadError, Reader, Writer, Xdr};

/// The flag of CREATE_SESSION by which the connection serves callbacks too, CREATE_SESSION4_FLAG_CONN_BACK_CHAN (RFC 8881
/// section 18.36).
pub const CONN_BACK_CHAN: u32 = 2;

/// Who made an implementation and when, nfs_impl_id4 (RFC 8881 section 3.3.12).
#[derive(Drop)]
pub struct ImplId {
    pub domain: Octets,
    pub name: Octets,
    pub date: Time,
}

impl Xdr for ImplId {
    ghost form = { impl_id };

    #[tactic(auto, unfolding(crate::specs::Sessions::impl_id))]
    fn parse(alloc: Global, reader: &mut Reader) -> Result<ImplId, ReadError> {
        Ok(ImplId {
            domain: Octets::parse(alloc, reader, NO_LIMIT)?,
            name: Octets::parse(alloc, reader, NO_LIMIT)?,
            date: Time::parse(alloc, reader)?,
        })
    }

    #[tactic(auto, unfolding(crate::specs::Sessions::impl_id))]
    fn put(&self, writer: &mut Writer) -> Mem<()> {
        self.domain.put(writer)?;
        self.name.put(writer)?;
        self.date.put(writer)
    }
}

/// How a client asks that its state be protected, state_protect4_a, and what follows that.
#[derive(Drop)]
pub enum Protection {
    /// In no way, SP4_NONE 0; then who made the client.
    Unprotected(Option<ImplId>),

    /// In the way with this number. The operation is cut behind it: nothing further is read.
    Protected(u32),
}

impl Xdr for Protection {
    ghost form = { protection };

    #[tactic(auto, unfolding(crate::specs::Sessions::protection))]
    fn parse(alloc: Global, reader: &mut Reader) -> Result<Protection, ReadError> {
        match u32::parse(alloc, reader)? {
            0 => Ok(Protection::Unprotected(Option::parse(alloc, reader)?)),
            how => Ok(Protection::Protected(how)),
        }
    }

    #[tactic(auto, unfolding(crate::specs::Sessions::protection))]
    fn put(&self, writer: &mut Writer) -> Mem<()> {
        match self {
            Protection::Unprotected(id) => {
                0u32.put(writer)?;
                id.put(writer)
            }
            Protection::Protected(how) => {
                how.put(writer)?;
                writer.void()
            }
        }
    }
}

/// The arguments of EXCHANGE_ID, EXCHANGE_ID4args (RFC 8881 section 18.35.1).
#[derive(Drop)]
pub struct ExchangeIdArgs {
    pub verifier: [u8; 8],
    pub owner: Octets,
    pub flags: u32,
    pub protection: Protection,
}

impl Xdr for ExchangeIdArgs {
    ghost form = { exchange_id_args };

    #[tactic(auto, unfolding(crate::specs::Sessions::exchange_id_args))]
    fn parse(alloc: Global, reader: &mut Reader) -> Result<ExchangeIdArgs, ReadError> {
        Ok(ExchangeIdArgs {
            verifier: <[u8; 8]>::parse(alloc, reader)?,
            owner: Octets::parse(alloc, reader, TEXT_LIMIT)?,
            flags: u32::parse(alloc, reader)?,
            protection: Protection::parse(alloc, reader)?,
        })
    }

    #[tactic(auto, unfolding(crate::specs::Sessions::exchange_id_args))]
    fn put(&self, writer: &mut Writer) -> Mem<()> {
        self.verifier.put(writer)?;
        self.owner.put(writer)?;
        self.flags.put(writer)?;
        self.protection.put(writer)
    }
}

/// What EXCHANGE_ID answers with status 0, EXCHANGE_ID4resok. The state is protected in no way.
#[derive(Drop)]
pub struct ExchangeIdDone {
    pub client: u64,
    pub sequence: u32,
    pub flags: u32,
    pub protection: Zero,
    pub minor_id: u64,
    pub major_id: Octets,
    pub scope: Octets,
    pub impl_id: Option<ImplId>,
}

impl Xdr for ExchangeIdDone {
    ghost form = { exchange_id_done };

    #[tactic(auto, unfolding(crate::specs::Sessions::exchange_id_done))]
    fn parse(alloc: Global, reader: &mut Reader) -> Result<ExchangeIdDone, ReadError> {
        let (client, (sequence, (flags, protection))) = <(u64, (u32, (u32, Zero)))>::parse(
            alloc, reader,
        )?;
        Ok(ExchangeIdDone {
            client,
            sequence,
            flags,
            protection,
            minor_id: u64::parse(alloc, reader)?,
            major_id: Octets::parse(alloc, reader, NO_LIMIT)?,
            scope: Octets::parse(alloc, reader, NO_LIMIT)?,
            impl_id: Option::parse(alloc, reader)?,
        })
    }

    #[tactic(auto, unfolding(crate::specs::Sessions::exchange_id_done))]
    fn put(&self, writer: &mut Writer) -> Mem<()> {
        let grant = (self.client, (self.sequence, (self.flags, self.protection)));
        (grant, self.minor_id).put(writer)?;
        self.major_id.put(writer)?;
        self.scope.put(writer)?;
        self.impl_id.put(writer)
    }
}

/// The arguments of CREATE_SESSION, CREATE_SESSION4args (RFC 8881 section 18.36.1).
#[derive(Drop)]
pub struct CreateSessionArgs {
    pub client: u64,
    pub sequence: u32,
    pub flags: u32,
    pub fore: ChannelAttrs,
    pub back: ChannelAttrs,
    pub program: u32,
    pub parms: Items<SecParm>,
}

impl Xdr for CreateSessionArgs {
    ghost form = { create_session_args };

    #[tactic(auto, unfolding(crate::specs::Sessions::create_session_args))]
    fn parse(alloc: Global, reader: &mut Reader) -> Result<CreateSessionArgs, ReadError> {
        Ok(CreateSessionArgs {
            client: u64::parse(alloc, reader)?,
            sequence: u32::parse(alloc, reader)?,
            flags: u32::parse(alloc, reader)?,
            fore: ChannelAttrs::parse(alloc, reader)?,
            back: ChannelAttrs::parse(alloc, reader)?,
            program: u32::parse(alloc, reader)?,
            parms: Items::parse(alloc, reader, NO_LIMIT)?,
        })
    }

    #[tactic(auto, unfolding(crate::specs::Sessions::create_session_args))]
    fn put(&self, writer: &mut Writer) -> Mem<()> {
        (self.client, (self.sequence, self.flags)).put(writer)?;
        self.fore.put(writer)?;
        self.back.put(writer)?;
        self.program.put(writer)?;
        self.parms.put(writer)
    }
}

/// What CREATE_SESSION answers with status 0, CREATE_SESSION4resok.
#[derive(Drop)]
pub struct CreateSessionDone {
    pub session: [u8; 16],
    pub sequence: u32,
    pub flags: u32,
    pub fore: ChannelAttrs,
    pub back: ChannelAttrs,
}

impl Xdr for CreateSessionDone {
    ghost form = { create_session_done };

    #[tactic(auto, unfolding(crate::specs::Sessions::create_session_done))]
    fn parse(alloc: Global, reader: &mut Reader) -> Result<CreateSessionDone, ReadError> {
        let (session, (sequence, (flags, (fore, back)))) = <(
            [u8; 16],
            (u32, (u32, (ChannelAttrs, ChannelAttrs))),
        )>::parse(alloc, reader)?;
        Ok(CreateSessionDone {
            session,
            sequence,
            flags,
            fore,
            back,
        })
    }

    #[tactic(auto, unfolding(crate::specs::Sessions::create_session_done))]
    fn put(&self, writer: &mut Writer) -> Mem<()> {
        (self.session, (self.sequence, self.flags)).put(writer)?;
        self.fore.put(writer)?;
        self.back.put(writer)
    }
}

/// The arguments of SEQUENCE, SEQUENCE4args (RFC 8881 section 18.46.1).
#[derive(Drop)]
pub struct SequenceArgs {
    pub session: [u8; 16],
    pub sequence: u32,
    pub slot: u32,
    pub highest_slot: u32,
    pub cache_this: bool,
}

impl Xdr for SequenceArgs {
    ghost form = { sequence_args };

    #[tactic(auto, unfolding(crate::specs::Sessions::sequence_args))]
    fn parse(alloc: Global, reader: &mut Reader) -> Result<SequenceArgs, ReadError> {
        let (session, (sequence, (slot, (highest_slot, cache_this)))) = <(
            [u8; 16],
            (u32, (u32, (u32, bool))),
        )>::parse(alloc, reader)?;
        Ok(SequenceArgs {
            session,
            sequence,
            slot,
            highest_slot,
            cache_this,
        })
    }

    #[tactic(auto, unfolding(crate::specs::Sessions::sequence_args))]
    fn put(&self, writer: &mut Writer) -> Mem<()> {
        let slots = (self.slot, (self.highest_slot, self.cache_this));
        (self.session, (self.sequence, slots)).put(writer)
    }
}

/// What SEQUENCE answers with status 0, SEQUENCE4resok. No status flag is set.
#[derive(Drop)]
pub struct SequenceDone {
    pub session: [u8; 16],
    pub sequence: u32,
    pub slot: u32,
    pub highest_slot: u32,
    pub target_highest_slot: u32,
    pub status_flags: Zero,
}

impl Xdr for SequenceDone {
    ghost form = { sequence_done };

    #[tactic(auto, unfolding(crate::specs::Sessions::sequence_done))]
    fn parse(alloc: Global, reader: &mut Reader) -> Result<SequenceDone, ReadError> {
        let (session, (sequence, (slot, (highest_slot, (target_highest_slot, status_flags))))) = <(
            [u8; 16],
            (u32, (u32, (u32, (u32, Zero)))),
        )>::parse(alloc, reader)?;
        Ok(SequenceDone {
            session,
            sequence,
            slot,
            highest_slot,
            target_highest_slot,
            status_flags,
        })
    }

    #[tactic(auto, unfolding(crate::specs::Sessions::sequence_done))]
    fn put(&self, writer: &mut Writer) -> Mem<()> {
        let target = (self.target_highest_slot, self.status_flags);
        let slots = (self.slot, (self.highest_slot, target));
        (self.session, (self.sequence, slots)).put(writer)
    }
}
