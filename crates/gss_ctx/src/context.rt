use crate::window::Window;
use wire_xdr::Octets;

/// A security context (RFC 2203 section 5), or a child that carries a privilege (RFC 7861).
#[derive(Drop)]
pub struct Context<P> {
    /// Whose calls these are.
    pub principal: Octets,

    /// The number of the context under which it was made, of a child.
    pub parent: Option<u32>,

    /// The key of its codes.
    pub key: [u8; 32],

    /// The privilege, of a child.
    pub carry: Option<P>,

    /// The second of its last use, which is an admission under it or under a child, or else its making.
    pub used: u64,
}

/// A context that is held, with its number and the sequence numbers that it has seen.
#[derive(Drop)]
pub struct Entry<P> {
    pub number: u32,
    pub context: Context<P>,
    pub window: Window,
}
