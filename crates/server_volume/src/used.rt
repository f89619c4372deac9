ghost use Rattle.std.specs.Prelude.{◌≡◌, ◌++◌, ◌∷◌, ◌<◌, [], length, IfOk};
ghost use Rattle.server_volume.specs.Choices.{noted};

use outcome::Mem;
use std::alloc::Global;
use std::marker::Model;

/// How many calls one step makes at most: each of 16 operations makes two, a write and a commit.
pub const MOST_CALLS: usize = 32;

/// A call of a server on its volume. Offsets and lengths are bytes.
#[derive(Clone, Copy, PartialEq, Eq)]
pub enum VolumeCall {
    Read { file: u32, off: u64, len: u32 },

    Write { file: u32, off: u64, len: u32 },

    /// A commit, with the home whose table it puts, 0 or 1.
    Commit { file: u32, home: u8 },
}

/// What a call of a volume answered.
#[derive(Clone, Copy, PartialEq, Eq)]
pub enum CallAnswer {
    Done,

    /// The disk failed.
    DiskFailed,

    /// The volume refused the call, and nothing changed.
    Refused,
}

/// A call that was made, and what it answered.
#[derive(Clone, Copy, PartialEq, Eq)]
pub struct Used {
    pub call: VolumeCall,
    pub answer: CallAnswer,
}

/// The calls of a step in their order. Room for all of them is taken when it is made.
#[derive(Drop)]
pub struct CallList {
    calls: Vec<Used>,
}

impl Model for CallList {
    ghost use Rattle.std.specs.Prelude.{◌≤◌, List, vec_capacity};
    ghost use Rattle.server_volume.specs.declared.used.TheConstants.{MOST_CALLS};
    ghost use Rattle.server_volume.specs.declared.used.Used.{Used};

    ghost Value = { List Used };

    ghost view = { λ l. l.calls.items };

    ghost invariant = { λ l. MOST_CALLS ≤ vec_capacity l.calls };
}

impl CallList {
    /// No call yet, and room for those of a step.
    pub fn new(alloc: Global) -> Mem<CallList>
        ensures { IfOk result (λ calls. calls ≡ []) }
    {
        Ok(CallList {
            calls: Vec::with_capacity(alloc, MOST_CALLS)?,
        })
    }

    /// The calls, lent.
    pub fn as_slice(&self) -> &[Used]
        ensures { result.now ≡ self.now }
    {
        self.calls.as_slice()
    }

    /// Notes a call. It takes no memory.
    pub(crate) fn note(&mut self, call: VolumeCall, answer: CallAnswer)
        requires { length self.old < MOST_CALLS }
        ensures { self.new ≡ noted self.old call answer }
    {
        self.calls.push(Used { call, answer }).unwrap();
    }
}
