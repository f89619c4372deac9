ghost use Rattle.std.specs.Prelude.{◌≡◌, ◌++◌, ◌∷◌, ◌<◌, [], length, IfOk, OnOk, OnErr};

use nfs_base::{Cause, JobName, PrivCause, Side, Status, Stop};
use outcome::Mem;
use std::alloc::Global;
use std::marker::Model;

/// Why a record was dropped without an answer.
#[derive(Clone, Copy, PartialEq, Eq)]
pub enum Dropped {
    /// It is no readable call or reply.
    Unread,

    /// Its sequence number was seen before under its context (RFC 2203 section 5.3.3.1).
    Repeat,

    /// Its sequence number is below its context's window.
    Old,

    /// It answers no call that is awaited.
    Unmatched,
}

/// What is to be told of a step, one line of a transcript each. Offsets count from the start of the copied range;
/// lengths and counts are bytes.
#[derive(Clone, Copy, PartialEq, Eq)]
pub enum Note {
    /// A record was dropped.
    Dropped {
        why: Dropped,
    },

    /// The source didn't let a destination read under a grant.
    Permit {
        cause: Cause,
    },

    /// A server refused a privilege.
    Privilege {
        cause: PrivCause,
    },

    /// COPY was answered OK. A count of 0 goes to the end of the source file.
    Accepted {
        job: JobName,
        file: u32,
        to: u64,
        count: u64,
    },

    /// COPY was denied, since its range overlaps that of a job.
    Overlap {
        job: JobName,
    },

    /// The source's size made the job's length known.
    Sized {
        job: JobName,
        len: u64,
    },

    /// A chunk landed in the destination file.
    Landed {
        job: JobName,
        off: u64,
        len: u32,
    },

    /// A chunk waits for an earlier one.
    Held {
        job: JobName,
        off: u64,
    },

    /// A chunk came for a job that takes it no more.
    Late {
        job: JobName,
        off: u64,
    },

    /// The job was stopped: nothing of it lands any more.
    Stopped {
        job: JobName,
        cause: Stop,
    },

    /// All of the job landed and was committed.
    Committed {
        job: JobName,
    },

    /// The client has acknowledged the job's end.
    Reported {
        job: JobName,
    },

    /// The client's WRITE of so many bytes was answered OK.
    Written {
        side: Side,
        file: u32,
        count: u32,
    },

    /// The client's COMMIT was answered OK: whether its verifier is that of each write since the last.
    Commit {
        side: Side,
        file: u32,
        same: bool,
    },

    /// The client's WRITE or COMMIT was refused.
    Refused {
        side: Side,
        file: u32,
        status: Status,
    },

    /// The client learnt that its copy is accepted.
    Started {
        copy: u8,
    },

    /// The client learnt that so many bytes of its copy have landed.
    Copied {
        copy: u8,
        count: u64,
    },

    /// The client learnt that its copy is stable at the destination.
    Stable {
        copy: u8,
    },

    /// The client's copy failed.
    Failed {
        copy: u8,
        status: Status,
    },

    /// The source file's change attribute stood still over the whole copy.
    Exact {
        copy: u8,
    },

    /// Whether it did isn't known.
    Unsure {
        copy: u8,
    },

    /// The client's copy was cancelled.
    Cancelled {
        copy: u8,
    },

    /// The client asked of a copy that isn't under way.
    Idle {
        copy: u8,
    },

    /// The client asked of a copy of which a call is awaited.
    Busy {
        copy: u8,
    },
}

/// How many notes a step has at most: each of 16 operations one, each of 16 jobs one, and one of the record.
pub const MOST_NOTES: usize = 33;

/// The notes of a step in their order. Room for all of them is taken when it is made.
#[derive(Drop)]
pub struct NoteList {
    notes: Vec<Note>,
}

impl Model for NoteList {
    ghost use Rattle.std.specs.Prelude.{◌≤◌, List, vec_capacity};
    ghost use Rattle.outbox.specs.declared.note.Note.{Note};
    ghost use Rattle.outbox.specs.declared.note.TheConstants.{MOST_NOTES};

    ghost Value = { List Note };

    ghost view = { λ l. l.notes.items };

    ghost invariant = { λ l. MOST_NOTES ≤ vec_capacity l.notes };
}

impl NoteList {
    /// No note yet, and room for those of a step.
    pub fn new(alloc: Global) -> Mem<NoteList>
        ensures { IfOk result (λ notes. notes ≡ []) }
    {
        Ok(NoteList {
            notes: Vec::with_capacity(alloc, MOST_NOTES)?,
        })
    }

    /// The notes, lent.
    pub fn as_slice(&self) -> &[Note]
        ensures { result.now ≡ self.now }
    {
        self.notes.as_slice()
    }

    /// Adds a note. It takes no memory.
    pub fn push(&mut self, note: Note)
        requires { length self.old < MOST_NOTES }
        ensures { self.new ≡ self.old ++ note ∷ [] }
    {
        self.notes.push(note).unwrap();
    }

    /// Adds a note, also beyond the room that was taken. Without memory nothing changes.
    pub fn add(&mut self, note: Note) -> Mem<()>
        ensures ok { OnOk result (self.new ≡ self.old ++ note ∷ []) }
        ensures err { OnErr result (self.new ≡ self.old) }
    {
        self.notes.push(note)?;
        Ok(())
    }

    /// Takes all notes out.
    pub fn clear(&mut self)
        ensures { self.new ≡ [] }
    {
        self.notes.clear();
    }
}
