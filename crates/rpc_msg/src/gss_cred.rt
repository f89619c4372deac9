ghost use Rattle.std.specs.Prelude.{IfOk};
ghost use Rattle.rpc_msg.specs.GssCred.{gss_cred};
ghost use Rattle.rpc_msg.specs.Messages.{ReadsWhole};

use crate::numbers::AUTH_LIMIT;
use outcome::Mem;
use std::alloc::Global;
use wire_xdr::{BadXdr, Octets, ReadError, Reader, Writer, Xdr, read_all};

/// The credential of RPCSEC_GSS (RFC 2203 section 5), which is the body of an auth of flavor 6. Each number
/// may be any word here: what version, procedure and service are served is for the caller to say.
#[derive(Drop)]
pub struct GssCred {
    pub version: u32,
    pub gss_proc: u32,
    pub seq_num: u32,
    pub service: u32,
    pub handle: Octets,
}

impl Xdr for GssCred {
    ghost form = { gss_cred };

    #[tactic(auto, unfolding(crate::specs::GssCred::gss_cred))]
    fn parse(alloc: Global, reader: &mut Reader) -> Result<GssCred, ReadError> {
        Ok(GssCred {
            version: u32::parse(alloc, reader)?,
            gss_proc: u32::parse(alloc, reader)?,
            seq_num: u32::parse(alloc, reader)?,
            service: u32::parse(alloc, reader)?,
            handle: Octets::parse(alloc, reader, AUTH_LIMIT)?,
        })
    }

    #[tactic(auto, unfolding(crate::specs::GssCred::gss_cred))]
    fn put(&self, writer: &mut Writer) -> Mem<()> {
        let call = (self.gss_proc, (self.seq_num, self.service));
        (self.version, call).put(writer)?;
        self.handle.put(writer)
    }
}

/// Reads the body of a credential of flavor 6: all of it is to spell one. A refusal names the first place
/// that fails, or the place behind the credential where more bytes stand there.
pub fn read_gss_cred(alloc: Global, body: &[u8]) -> Mem<Result<GssCred, BadXdr>>
    ensures { IfOk result (ReadsWhole gss_cred body.now) }
{
    read_all(alloc, body)
}
