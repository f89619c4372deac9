ghost use Rattle.std.specs.Prelude.{◌≡◌};
ghost use Rattle.wire_xdr.specs.Arms.{number_of};
ghost use Rattle.rpc_msg.specs.Heads.{stat, stat_case, denial, reply};

use crate::auth::Auth;
use crate::numbers::{
    AUTH_ERROR, GARBAGE_ARGS, MSG_ACCEPTED, MSG_DENIED, PROC_UNAVAIL, PROG_MISMATCH, PROG_UNAVAIL,
    REPLY, RPC_MISMATCH, SUCCESS, SYSTEM_ERR,
};
use outcome::Mem;
use std::alloc::Global;
use wire_xdr::{ReadError, Reader, Writer, Xdr};

/// What became of a call that was accepted (RFC 5531 section 9).
#[derive(Clone, Copy, Debug, PartialEq, Eq)]
pub enum Stat {
    /// It was carried out, and the result stands behind the head.
    Success,
    /// The program isn't served.
    ProgUnavail,
    /// The program is served in these versions.
    ProgMismatch { low: u32, high: u32 },
    /// The program has no such procedure.
    ProcUnavail,
    /// The arguments aren't spelled.
    Garbage,
    /// Want of memory.
    SystemErr,
}

/// Why a call was denied (RFC 5531 section 9).
#[derive(Clone, Copy, Debug, PartialEq, Eq)]
pub enum Denial {
    /// RPC is spoken in these versions.
    Mismatch { low: u32, high: u32 },
    /// The caller isn't known or may not call; the number is an auth_stat.
    Auth(u32),
}

/// The head of a reply (RFC 5531 section 9): the number of the call that it answers, and what became of it.
#[derive(Drop)]
pub enum ReplyHead {
    Accepted { xid: u32, verf: Auth, stat: Stat },
    Denied { xid: u32, why: Denial },
}

impl Stat {
    /// Its number, which is called accept_stat.
    pub fn number(self) -> u32
        ensures { result ≡ number_of stat_case self }
    {
        match self {
            Stat::Success => SUCCESS,
            Stat::ProgUnavail => PROG_UNAVAIL,
            Stat::ProgMismatch { .. } => PROG_MISMATCH,
            Stat::ProcUnavail => PROC_UNAVAIL,
            Stat::Garbage => GARBAGE_ARGS,
            Stat::SystemErr => SYSTEM_ERR,
        }
    }
}

impl Xdr for Stat {
    ghost form = { stat };

    #[tactic(auto, unfolding(crate::specs::Heads::stat))]
    fn parse(alloc: Global, reader: &mut Reader) -> Result<Stat, ReadError> {
        let start = reader.at();
        match u32::parse(alloc, reader)? {
            SUCCESS => Ok(Stat::Success),
            PROG_UNAVAIL => Ok(Stat::ProgUnavail),
            PROG_MISMATCH => {
                let (low, high) = <(u32, u32)>::parse(alloc, reader)?;
                Ok(Stat::ProgMismatch { low, high })
            }
            PROC_UNAVAIL => Ok(Stat::ProcUnavail),
            GARBAGE_ARGS => Ok(Stat::Garbage),
            SYSTEM_ERR => Ok(Stat::SystemErr),
            _ => Err(ReadError::at(start)),
        }
    }

    #[tactic(auto, unfolding(crate::specs::Heads::stat))]
    fn put(&self, writer: &mut Writer) -> Mem<()> {
        match self {
            Stat::Success => {
                SUCCESS.put(writer)?;
                writer.void()
            }
            Stat::ProgUnavail => {
                PROG_UNAVAIL.put(writer)?;
                writer.void()
            }
            Stat::ProgMismatch { low, high } => { (PROG_MISMATCH, (*low, *high)).put(writer) }
            Stat::ProcUnavail => {
                PROC_UNAVAIL.put(writer)?;
                writer.void()
            }
            Stat::Garbage => {
                GARBAGE_ARGS.put(writer)?;
                writer.void()
            }
            Stat::SystemErr => {
                SYSTEM_ERR.put(writer)?;
                writer.void()
            }
        }
    }
}

impl Xdr for Denial {
    ghost form = { denial };

    #[tactic(auto, unfolding(crate::specs::Heads::denial))]
    fn parse(alloc: Global, reader: &mut Reader) -> Result<Denial, ReadError> {
        let start = reader.at();
        match u32::parse(alloc, reader)? {
            RPC_MISMATCH => {
                let (low, high) = <(u32, u32)>::parse(alloc, reader)?;
                Ok(Denial::Mismatch { low, high })
            }
            AUTH_ERROR => Ok(Denial::Auth(u32::parse(alloc, reader)?)),
            _ => Err(ReadError::at(start)),
        }
    }

    #[tactic(auto, unfolding(crate::specs::Heads::denial))]
    fn put(&self, writer: &mut Writer) -> Mem<()> {
        match self {
            Denial::Mismatch { low, high } => (RPC_MISMATCH, (*low, *high)).put(writer),
            Denial::Auth(why) => (AUTH_ERROR, *why).put(writer),
        }
    }
}

impl Xdr for ReplyHead {
    ghost form = { reply };

    #[tactic(auto, unfolding(crate::specs::Heads::reply))]
    fn parse(alloc: Global, reader: &mut Reader) -> Result<ReplyHead, ReadError> {
        let xid = u32::parse(alloc, reader)?;
        let kind_at = reader.at();
        if u32::parse(alloc, reader)? != REPLY {
            return Err(ReadError::at(kind_at));
        }
        let start = reader.at();
        match u32::parse(alloc, reader)? {
            MSG_ACCEPTED => Ok(ReplyHead::Accepted {
                xid,
                verf: Auth::parse(alloc, reader)?,
                stat: Stat::parse(alloc, reader)?,
            }),
            MSG_DENIED => Ok(ReplyHead::Denied {
                xid,
                why: Denial::parse(alloc, reader)?,
            }),
            _ => Err(ReadError::at(start)),
        }
    }

    #[tactic(auto, unfolding(crate::specs::Heads::reply))]
    fn put(&self, writer: &mut Writer) -> Mem<()> {
        match self {
            ReplyHead::Accepted { xid, verf, stat } => {
                (*xid, (REPLY, MSG_ACCEPTED)).put(writer)?;
                verf.put(writer)?;
                stat.put(writer)
            }
            ReplyHead::Denied { xid, why } => { (*xid, (REPLY, (MSG_DENIED, *why))).put(writer) }
        }
    }
}
