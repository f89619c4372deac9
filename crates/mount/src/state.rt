//! What a mount is made of.

use gss_ctx::Caller;
use nfs_base::SLOTS;
use session_client::{PendingCall, PendingInit, Setup, SlotNumbers};

/// At how many places a call may await its answer: one for each slot of a session.
pub const PLACES: u32 = SLOTS;

/// A context that the caller made at the server.
#[derive(Drop)]
pub struct Context {
    /// The name that it has here: the xid of the call whose answer gave it.
    pub name: u32,

    /// The name of its root, which is its own where it is a root.
    pub mount: u32,

    /// The handle of its root.
    pub root: [u8; 8],

    pub key: [u8; 32],
    pub caller: Caller,
}

/// A mount whose root context is there.
#[derive(Drop)]
pub struct Root {
    /// The name of the root context.
    pub name: u32,

    pub setup: Setup,
    pub numbers: SlotNumbers,
}

/// Whether a root context is there.
#[derive(Drop)]
pub enum Standing {
    /// None is there. An INIT that failed, or was given up, is kept, since it goes out anew with its token.
    Down { kept: Option<PendingInit> },

    /// One is there.
    Rooted(Root),
}

/// What a call under a context is for.
#[derive(Clone, Copy)]
pub enum Aim {
    /// The next step of the setup.
    Setup,

    /// The child with this number.
    Child(u32),

    /// What the machine above asks in a slot.
    Slot,

    /// The end of a session, a client or a context.
    End,
}

/// A call that awaits its answer.
#[derive(Drop)]
pub enum Pending {
    /// INIT, which goes out under no context.
    Init(PendingInit),

    /// A call under the context with this name.
    Under {
        context: u32,
        aim: Aim,
        call: PendingCall,
    },
}

/// What is awaited at a place.
#[derive(Drop)]
pub struct Awaiting {
    /// The second in which it was last sent.
    pub sent_at: u64,

    pub pending: Pending,
}
