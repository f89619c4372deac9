ghost use Rattle.rpc_msg.specs.Heads.{call};

use crate::auth::Auth;
use crate::numbers::CALL;
use outcome::Mem;
use std::alloc::Global;
use wire_xdr::{ReadError, Reader, Writer, Xdr};

/// The head of a call (RFC 5531 section 9): its number, the version of RPC, which is 2, the program, its
/// version and the procedure, and who calls.
#[derive(Drop)]
pub struct CallHead {
    pub xid: u32,
    pub rpcvers: u32,
    pub prog: u32,
    pub vers: u32,
    pub proc: u32,
    pub cred: Auth,
    pub verf: Auth,
}

impl Xdr for CallHead {
    ghost form = { call };

    #[tactic(auto, unfolding(crate::specs::Heads::call))]
    fn parse(alloc: Global, reader: &mut Reader) -> Result<CallHead, ReadError> {
        let xid = u32::parse(alloc, reader)?;
        let start = reader.at();
        match u32::parse(alloc, reader)? {
            CALL => {
                let (rpcvers, (prog, (vers, proc))) = <(u32, (u32, (u32, u32)))>::parse(
                    alloc, reader,
                )?;
                Ok(CallHead {
                    xid,
                    rpcvers,
                    prog,
                    vers,
                    proc,
                    cred: Auth::parse(alloc, reader)?,
                    verf: Auth::parse(alloc, reader)?,
                })
            }
            _ => Err(ReadError::at(start)),
        }
    }

    #[tactic(auto, unfolding(crate::specs::Heads::call))]
    fn put(&self, writer: &mut Writer) -> Mem<()> {
        let called = (self.rpcvers, (self.prog, (self.vers, self.proc)));
        (self.xid, (CALL, called)).put(writer)?;
        self.cred.put(writer)?;
        self.verf.put(writer)
    }
}
