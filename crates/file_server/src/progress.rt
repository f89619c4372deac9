//! How far a compound is in code: the page of its results, and all room that its operations need.

ghost use Rattle.std.specs.Prelude.{◌≡◌, ◌+◌, ◌*◌, ◌≤◌, ◌++◌, length, IfOk, Some, None};
ghost use Rattle.nfs_base.specs.Forms.{stability};
ghost use Rattle.nfs_base.specs.declared.limits.TheConstants.{DATA_LIMIT, HANDLE_LIMIT, MOST_OPERATIONS};
ghost use Rattle.wire_xdr.specs.Words.{word_bytes, hyper_bytes, flag_bytes, opaque_bytes};
ghost use Rattle.wire_xdr.specs.Page.{Added};
ghost use Rattle.file_server.specs.Answering.{Says, Ready, IsNew};

use crate::held::Held;
use file_ops::{OP_COMMIT, OP_GETFH, OP_READ, OP_WRITE};
use nfs_base::{DATA_LIMIT, Handle, Stability, Status};
use outcome::Mem;
use server_volume::CallList;
use std::alloc::Global;
use wire_xdr::Page;

/// How many bytes the result of an operation has at most, the data of a READ apart.
pub const MOST_RESULT: usize = 400;

/// How far a compound is. All room is taken when it is made.
#[derive(Drop)]
pub struct Progress {
    /// The results so far.
    pub page: Page,

    /// The calls on the volume so far.
    pub used: CallList,

    /// What the operations hand on to one another.
    pub held: Held,

    /// Whether a READ was among them.
    pub has_read: bool,
}

impl Progress {
    /// No operation was done yet. Room for the results of so many is taken, and for their calls on the volume.
    pub fn new(alloc: Global, operations: u32) -> Mem<Progress>
        requires { operations ≤ MOST_OPERATIONS }
        ensures ready { IfOk result (λ p. Ready p operations) }
        ensures empty { IfOk result IsNew }
        ensures room { IfOk result (λ p. p.page.room ≡ DATA_LIMIT + operations * MOST_RESULT) }
    {
        let page = Page::new(
            alloc,
            DATA_LIMIT as usize + operations as usize * MOST_RESULT,
        )?;
        let used = CallList::new(alloc)?;
        Ok(Progress {
            page,
            used,
            held: Held {
                current: None,
                saved: None,
                id: None,
                saved_id: None,
            },
            has_read: false,
        })
    }
}

impl Progress {
    /// Answers the operation with a number by a status and nothing more.
    pub fn refuse(&mut self, op: u32, status: Status) -> Status
        requires { length self.old.page.bytes + 8 ≤ self.old.page.room }
        ensures says { Says self.old (word_bytes op ++ word_bytes status.number) self.new }
        ensures len { length self.new.page.bytes ≤ length self.old.page.bytes + 8 }
        ensures status { result ≡ status }
    {
        self.page.u32(op);
        self.page.u32(status.number);
        status
    }
}

impl Progress {
    /// COMMIT is done: its verifier is the number of the volume's opening.
    pub(crate) fn say_committed(&mut self, boot: u32) -> Status
        requires { length self.old.page.bytes + 16 ≤ self.old.page.room }
        ensures says { Says self.old (word_bytes OP_COMMIT ++ (word_bytes 0 ++ hyper_bytes boot)) self.new }
        ensures len { length self.new.page.bytes ≤ length self.old.page.bytes + 16 }
        ensures status { result ≡ Status.OK }
    {
        self.page.u32(OP_COMMIT);
        self.page.u32(0);
        self.page.u64(u64::from(boot));
        Status::OK
    }
}

impl Progress {
    /// WRITE is done: so many bytes, how firmly, and the verifier, which is the number of the volume's opening.
    #[tactic(auto, unfolding(nfs_base::specs::Forms::stability))]
    pub(crate) fn say_written(&mut self, count: u32, how: Stability, boot: u32) -> Status
        requires { length self.old.page.bytes + 24 ≤ self.old.page.room }
        ensures says { Says self.old (word_bytes OP_WRITE ++ (word_bytes 0 ++ (word_bytes count ++ (stability.spell how ++ hyper_bytes boot)))) self.new }
        ensures len { length self.new.page.bytes ≤ length self.old.page.bytes + 24 }
        ensures status { result ≡ Status.OK }
    {
        self.page.u32(OP_WRITE);
        self.page.u32(0);
        self.page.u32(count);
        self.page.u32(stability_number(how));
        self.page.u64(u64::from(boot));
        Status::OK
    }
}

/// READ is done: these bytes, and whether the file ends behind them.
pub(crate) fn say_read(page: &mut Page, eof: bool, bytes: &[u8])
    requires short { length bytes.now ≤ DATA_LIMIT }
    requires room { length page.old.bytes + 19 + length bytes.now ≤ page.old.room }
    ensures added { Added page.old (word_bytes OP_READ ++ (word_bytes 0 ++ (flag_bytes eof ++ opaque_bytes bytes.now))) page.new }
    ensures len { length page.new.bytes ≤ length page.old.bytes + 19 + length bytes.now }
{
    page.u32(OP_READ);
    page.u32(0);
    page.flag(eof);
    page.opaque(bytes);
}

// The number of a stability (stable_how4).
#[tactic(auto, unfolding(nfs_base::specs::Forms::stability))]
fn stability_number(how: Stability) -> u32
    ensures { word_bytes result ≡ stability.spell how }
{
    match how {
        Stability::Unstable => 0,
        Stability::DataSync => 1,
        Stability::FileSync => 2,
    }
}

impl Progress {
    /// An operation is done that tells nothing more.
    pub(crate) fn say_done(&mut self, op: u32) -> Status
        requires { length self.old.page.bytes + 8 ≤ self.old.page.room }
        ensures says { Says self.old (word_bytes op ++ word_bytes 0) self.new }
        ensures len { length self.new.page.bytes ≤ length self.old.page.bytes + 8 }
        ensures status { result ≡ Status.OK }
    {
        self.page.u32(op);
        self.page.u32(0);
        Status::OK
    }

    /// GETFH is done: this is the current handle.
    pub(crate) fn say_handle(&mut self, handle: &[u8]) -> Status
        requires short { length handle.now ≤ HANDLE_LIMIT }
        requires room { length self.old.page.bytes + 143 ≤ self.old.page.room }
        ensures says { Says self.old (word_bytes OP_GETFH ++ (word_bytes 0 ++ opaque_bytes handle.now)) self.new }
        ensures len { length self.new.page.bytes ≤ length self.old.page.bytes + 143 }
        ensures status { result ≡ Status.OK }
    {
        self.page.u32(OP_GETFH);
        self.page.u32(0);
        self.page.opaque(handle);
        Status::OK
    }

    /// A handle becomes the current one, without a stateid.
    pub(crate) fn put_current(&mut self, handle: Handle)
        ensures { self.new ≡ (let held = record self.old.held { current = Some handle; id = None } in record self.old { held = held }) }
    {
        self.held.current = Some(handle);
        self.held.id = None;
    }
}
