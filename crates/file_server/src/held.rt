use nfs_base::{Handle, StateId};

/// What the operations of a compound hand on to one another (RFC 8881 section 16.2.3.1).
#[derive(Clone, Copy)]
pub struct Held {
    /// The current handle.
    pub current: Option<Handle>,

    /// The saved handle.
    pub saved: Option<Handle>,

    /// The current stateid.
    pub id: Option<StateId>,

    /// The saved stateid.
    pub saved_id: Option<StateId>,
}
