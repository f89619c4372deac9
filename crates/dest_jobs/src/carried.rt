use nfs_base::NetLoc;
use wire_xdr::{Items, Octets};

/// The privilege that a child carries at a destination: copy_to_auth (RFC 7862 section 4.10.1.1). By this secret it may
/// copy from these places, for the user.
#[derive(Drop)]
pub struct Carried {
    pub secret: Octets,
    pub sources: Items<NetLoc>,
    pub user: Octets,

    /// The key of the context under which the child was made.
    pub root: [u8; 32],
}
