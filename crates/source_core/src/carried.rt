use nfs_base::NetLoc;
use wire_xdr::Octets;

/// The privilege that a child carries at a source (RFC 7862 section 4.10.1.1), with what a copy needs of the context
/// under which it was made.
#[derive(Drop)]
pub enum Carried {
    /// copy_from_auth: this destination may read by the secret, for the user.
    From {
        secret: Octets,
        destination: NetLoc,
        user: Octets,
    },

    /// copy_confirm_auth: the destination knows the secret of the user's copy.
    Confirm {
        code: Octets,
        user: Octets,

        /// Where the principal of the parent is found, if it is one of the servers that are known.
        peer: Option<NetLoc>,

        /// The key of the parent.
        key: [u8; 32],
    },
}
