//! What a session is made of: the attributes of its channels, and who may call back (RFC 8881 section 18.36).

ghost use Rattle.file_ops.specs.Parms.{channel_attrs, sys_parm, gss_parm, sec_parm};

use crate::zero::NO_LIMIT;
use outcome::Mem;
use std::alloc::Global;
use wire_xdr::{Items, Octets, ReadError, Reader, Writer, Xdr};

/// The attributes of a channel of a session, channel_attrs4. Sizes are in bytes.
#[derive(Drop)]
pub struct ChannelAttrs {
    pub header_padding: u32,
    pub max_request: u32,
    pub max_response: u32,
    pub max_cached_response: u32,
    pub max_operations: u32,
    pub max_requests: u32,
    pub rdma: Option<u32>,
}

impl Xdr for ChannelAttrs {
    ghost form = { channel_attrs };

    #[tactic(auto, unfolding(crate::specs::Parms::channel_attrs))]
    fn parse(alloc: Global, reader: &mut Reader) -> Result<ChannelAttrs, ReadError> {
        let (header_padding, (max_request, (max_response, (max_cached_response, counts)))) = <(
            u32,
            (u32, (u32, (u32, (u32, (u32, Option<u32>))))),
        )>::parse(alloc, reader)?;
        let (max_operations, (max_requests, rdma)) = counts;
        Ok(ChannelAttrs {
            header_padding,
            max_request,
            max_response,
            max_cached_response,
            max_operations,
            max_requests,
            rdma,
        })
    }

    #[tactic(auto, unfolding(crate::specs::Parms::channel_attrs))]
    fn put(&self, writer: &mut Writer) -> Mem<()> {
        let counts = (self.max_operations, (self.max_requests, self.rdma));
        let sizes = (
            self.max_request,
            (self.max_response, (self.max_cached_response, counts)),
        );
        (self.header_padding, sizes).put(writer)
    }
}

/// A user of a machine, authsys_parms (RFC 5531 appendix A).
#[derive(Drop)]
pub struct SysParm {
    pub stamp: u32,
    pub machine: Octets,
    pub uid: u32,
    pub gid: u32,
    pub gids: Items<u32>,
}

impl Xdr for SysParm {
    ghost form = { sys_parm };

    #[tactic(auto, unfolding(crate::specs::Parms::sys_parm))]
    fn parse(alloc: Global, reader: &mut Reader) -> Result<SysParm, ReadError> {
        Ok(SysParm {
            stamp: u32::parse(alloc, reader)?,
            machine: Octets::parse(alloc, reader, 255)?,
            uid: u32::parse(alloc, reader)?,
            gid: u32::parse(alloc, reader)?,
            gids: Items::parse(alloc, reader, 16)?,
        })
    }

    #[tactic(auto, unfolding(crate::specs::Parms::sys_parm))]
    fn put(&self, writer: &mut Writer) -> Mem<()> {
        self.stamp.put(writer)?;
        self.machine.put(writer)?;
        (self.uid, self.gid).put(writer)?;
        self.gids.put(writer)
    }
}

/// A context under which to call back, gss_cb_handles4. `service` is any word here.
#[derive(Drop)]
pub struct GssParm {
    pub service: u32,
    pub handle_from_server: Octets,
    pub handle_from_client: Octets,
}

impl Xdr for GssParm {
    ghost form = { gss_parm };

    #[tactic(auto, unfolding(crate::specs::Parms::gss_parm))]
    fn parse(alloc: Global, reader: &mut Reader) -> Result<GssParm, ReadError> {
        Ok(GssParm {
            service: u32::parse(alloc, reader)?,
            handle_from_server: Octets::parse(alloc, reader, NO_LIMIT)?,
            handle_from_client: Octets::parse(alloc, reader, NO_LIMIT)?,
        })
    }

    #[tactic(auto, unfolding(crate::specs::Parms::gss_parm))]
    fn put(&self, writer: &mut Writer) -> Mem<()> {
        self.service.put(writer)?;
        self.handle_from_server.put(writer)?;
        self.handle_from_client.put(writer)
    }
}

/// How a server may authenticate when it calls back, callback_sec_parms4: a union by the flavor.
#[derive(Drop)]
pub enum SecParm {
    /// Not at all, AUTH_NONE 0.
    NoAuth,

    /// As a user of a machine, AUTH_SYS 1.
    Sys(SysParm),

    /// Under a context, RPCSEC_GSS 6.
    Gss(GssParm),
}

impl Xdr for SecParm {
    ghost form = { sec_parm };

    #[tactic(auto, unfolding(crate::specs::Parms::sec_parm))]
    fn parse(alloc: Global, reader: &mut Reader) -> Result<SecParm, ReadError> {
        let start = reader.at();
        match u32::parse(alloc, reader)? {
            0 => Ok(SecParm::NoAuth),
            1 => Ok(SecParm::Sys(SysParm::parse(alloc, reader)?)),
            6 => Ok(SecParm::Gss(GssParm::parse(alloc, reader)?)),
            _ => Err(ReadError::at(start)),
        }
    }

    #[tactic(auto, unfolding(crate::specs::Parms::sec_parm))]
    fn put(&self, writer: &mut Writer) -> Mem<()> {
        match self {
            SecParm::NoAuth => {
                0u32.put(writer)?;
                writer.void()
            }
            SecParm::Sys(parm) => {
                1u32.put(writer)?;
                parm.put(writer)
            }
            SecParm::Gss(parm) => {
                6u32.put(writer)?;
                parm.put(writer)
            }
        }
    }
}
