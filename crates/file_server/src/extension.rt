//! What a particular server adds to what every server does.

ghost use Rattle.std.specs.Prelude.{◌≡◌};

use nfs_base::{StateId, Status};

/// Who makes a call: a client in a session, under a context.
#[derive(Clone, Copy, PartialEq, Eq)]
pub struct Caller {
    /// The client's ID.
    pub client: u64,

    /// The number of the session.
    pub session: u32,

    /// The number of the context of the call.
    pub context: u32,

    /// The second in which the call came.
    pub second: u64,
}

/// What an operation asks a server's extension before it goes on.
#[derive(Clone, Copy, PartialEq, Eq)]
pub enum Ask {
    /// To be served at all, by its number.
    Operation { number: u32 },

    /// To read a file with a stateid.
    Read { file: u32, id: StateId },

    /// To see the attributes of a file.
    Attributes { file: u32 },
}

/// What an extension says to that.
#[derive(Clone, Copy, PartialEq, Eq)]
pub enum Gate {
    /// It may go on, and a READ needs no open.
    Serve,

    /// It is answered with this status.
    Refuse(Status),

    /// It may go on as at any server, a READ by its open.
    Usual,
}

/// What a particular server has besides a volume and opens, and its rules. `P` is what a context carries.
pub trait Extension<P> {
    ghost use Rattle.file_server.specs.declared.extension.Ask.{Ask};
    ghost use Rattle.file_server.specs.declared.extension.Caller.{Caller};
    ghost use Rattle.file_server.specs.declared.extension.Gate.{Gate};

    // What is said to what an operation asks, and what that changes.
    ghost gated: { Self → Caller → P → Ask → Self × Gate };

    /// Whether an operation may go on, by its caller and what the caller's context carries. It takes no memory.
    fn gate(&mut self, caller: &Caller, carry: &P, ask: &Ask) -> Gate
        ensures after { (gated self.old caller.now carry.now ask.now).0 ≡ self.new }
        ensures gate { (gated self.old caller.now carry.now ask.now).1 ≡ result };
}
