ghost use Rattle.std.specs.Prelude.{◌≡◌, []};
ghost use Rattle.rpc_msg.specs.Heads.{auth};

use crate::numbers::{AUTH_LIMIT, AUTH_NONE};
use outcome::Mem;
use std::alloc::Global;
use wire_xdr::{Octets, ReadError, Reader, Writer, Xdr};

/// A credential or a verifier (RFC 5531 section 8.2): its flavor, and a body of at most 400 bytes.
#[derive(Drop)]
pub struct Auth {
    pub flavor: u32,
    pub body: Octets,
}

impl Auth {
    /// That of flavor 0, AUTH_NONE, whose body is empty. It takes no memory.
    pub fn none(alloc: Global) -> Auth
        ensures { result ≡ record { flavor = AUTH_NONE; body = [] } }
    {
        Auth {
            flavor: AUTH_NONE,
            body: Octets::from_vec(Vec::new(alloc)),
        }
    }
}

impl Xdr for Auth {
    ghost form = { auth };

    #[tactic(auto, unfolding(crate::specs::Heads::auth))]
    fn parse(alloc: Global, reader: &mut Reader) -> Result<Auth, ReadError> {
        Ok(Auth {
            flavor: u32::parse(alloc, reader)?,
            body: Octets::parse(alloc, reader, AUTH_LIMIT)?,
        })
    }

    #[tactic(auto, unfolding(crate::specs::Heads::auth))]
    fn put(&self, writer: &mut Writer) -> Mem<()> {
        self.flavor.put(writer)?;
        self.body.put(writer)
    }
}
