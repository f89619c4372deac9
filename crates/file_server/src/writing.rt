//! WRITE and COMMIT (RFC 8881 sections 18.32 and 18.3).

ghost use Rattle.std.specs.Prelude.{◌≡◌, ◌+◌, ◌≤◌, ◌<◌, take, length, Ok};
ghost use Rattle.nfs_base.specs.declared.limits.TheConstants.{DATA_LIMIT};
ghost use Rattle.server_volume.specs.Store.{seat_of};
ghost use Rattle.server_volume.specs.Moments.{Counted};
ghost use Rattle.file_server.specs.Machine.{Does};
ghost use Rattle.file_server.specs.Answering.{Ready, Keeps, CanCommit, CommitKeeps, going_of};
ghost use Rattle.file_server.specs.Writing.{commit, commit_file, write, write_file, write_at, write_settled, sync_written, taken_bytes, write_status};

use crate::files::Files;
use crate::progress::Progress;
use block_file::WriteFault;
use disk_model::Disk;
use file_ops::{OP_COMMIT, OP_WRITE, WriteArgs};
use nfs_base::{DATA_LIMIT, Stability, Status};
use server_volume::{call_commit, call_write};
use state_ids::Access;

impl<D: Disk, X> Files<D, X> {
    /// COMMIT: makes all of the current file safe, whatever range it names.
    #[tactic(auto, unfolding(crate::specs::Writing::commit, file_ops::specs::Results::file_res, nfs_base::specs::Forms::answer, wire_xdr::specs::Words::word_bytes))]
    pub fn commit(&mut self, p: &mut Progress) -> Status
        requires { Ready p.old 1 }
        ensures does { D.Told → Does (λ choice. commit choice (going_of D.size self.old p.old)) p.old.page.bytes (going_of D.size self.new p.new) p.new.page.bytes result.number }
        ensures keeps { Keeps p.old p.new }
        ensures ran { Counted D.Told (seat_of D.size D.fuse D.timeline D.faults self.old.volume) (seat_of D.size D.fuse D.timeline D.faults self.new.volume) p.old.used p.new.used }
        ensures opens { self.new.opens ≡ self.old.opens }
        ensures extra { self.new.extra ≡ self.old.extra }
    {
        match self.byte_file(&p.held.current) {
            Err(status) => p.refuse(OP_COMMIT, status),
            Ok(file) => self.commit_file(file, p),
        }
    }

    #[tactic(auto, unfolding(server_volume::specs::Calls::commit_call))]
    fn commit_file(&mut self, file: u32, p: &mut Progress) -> Status
        requires ready { Ready p.old 1 }
        requires no_root { 1 ≤ file }
        requires there { file < length self.old.volume.volume.files }
        ensures does { D.Told → Does (λ choice. commit_file choice (Ok file) (going_of D.size self.old p.old)) p.old.page.bytes (going_of D.size self.new p.new) p.new.page.bytes result.number }
        ensures keeps { Keeps p.old p.new }
        ensures ran { Counted D.Told (seat_of D.size D.fuse D.timeline D.faults self.old.volume) (seat_of D.size D.fuse D.timeline D.faults self.new.volume) p.old.used p.new.used }
        ensures opens { self.new.opens ≡ self.old.opens }
        ensures extra { self.new.extra ≡ self.old.extra }
    {
        match call_commit(&mut self.volume, &mut p.used, file) {
            Err(_) => p.refuse(OP_COMMIT, Status::IO),
            Ok(()) => p.say_committed(self.volume.boot()),
        }
    }
}

impl<D: Disk, X> Files<D, X> {
    /// WRITE: writes the first 65,536 bytes at most to the current file. Data that is to be safe is committed.
    #[tactic(auto, unfolding(crate::specs::Writing::write, file_ops::specs::Results::file_res, nfs_base::specs::Forms::answer, wire_xdr::specs::Words::word_bytes))]
    pub fn write(&mut self, args: &WriteArgs, p: &mut Progress) -> Status
        requires { Ready p.old 1 }
        ensures does { D.Told → Does (λ choice. write choice args.now (going_of D.size self.old p.old)) p.old.page.bytes (going_of D.size self.new p.new) p.new.page.bytes result.number }
        ensures keeps { Keeps p.old p.new }
        ensures ran { Counted D.Told (seat_of D.size D.fuse D.timeline D.faults self.old.volume) (seat_of D.size D.fuse D.timeline D.faults self.new.volume) p.old.used p.new.used }
        ensures opens { self.new.opens ≡ self.old.opens }
        ensures extra { self.new.extra ≡ self.old.extra }
    {
        match self.byte_file(&p.held.current) {
            Err(status) => p.refuse(OP_WRITE, status),
            Ok(file) => self.write_file(args, file, p),
        }
    }

    #[tactic(auto, unfolding(file_ops::specs::Results::file_res, nfs_base::specs::Forms::answer, wire_xdr::specs::Words::word_bytes))]
    fn write_file(&mut self, args: &WriteArgs, file: u32, p: &mut Progress) -> Status
        requires ready { Ready p.old 1 }
        requires no_root { 1 ≤ file }
        requires there { file < length self.old.volume.volume.files }
        ensures does { D.Told → Does (λ choice. write_file choice args.now (Ok file) (going_of D.size self.old p.old)) p.old.page.bytes (going_of D.size self.new p.new) p.new.page.bytes result.number }
        ensures keeps { Keeps p.old p.new }
        ensures ran { Counted D.Told (seat_of D.size D.fuse D.timeline D.faults self.old.volume) (seat_of D.size D.fuse D.timeline D.faults self.new.volume) p.old.used p.new.used }
        ensures opens { self.new.opens ≡ self.old.opens }
        ensures extra { self.new.extra ≡ self.old.extra }
    {
        match self.check_open(&p.held.id, &args.state_id, file, Access::Write) {
            Err(status) => p.refuse(OP_WRITE, status),
            Ok(()) => self.write_at(
                args.offset,
                taken_bytes(args.bytes.as_slice()),
                args.stable,
                file,
                p,
            ),
        }
    }

    fn write_at(
        &mut self,
        off: u64,
        bytes: &[u8],
        how: Stability,
        file: u32,
        p: &mut Progress,
    ) -> Status
        requires ready { Ready p.old 1 }
        requires no_root { 1 ≤ file }
        requires there { file < length self.old.volume.volume.files }
        requires short { length bytes.now ≤ DATA_LIMIT }
        ensures does { D.Told → Does (λ choice. write_at choice off bytes.now how file (going_of D.size self.old p.old)) p.old.page.bytes (going_of D.size self.new p.new) p.new.page.bytes result.number }
        ensures keeps { Keeps p.old p.new }
        ensures ran { Counted D.Told (seat_of D.size D.fuse D.timeline D.faults self.old.volume) (seat_of D.size D.fuse D.timeline D.faults self.new.volume) p.old.used p.new.used }
        ensures opens { self.new.opens ≡ self.old.opens }
        ensures extra { self.new.extra ≡ self.old.extra }
    {
        match call_write(&mut self.volume, &mut p.used, file, off, bytes) {
            Err(fault) => p.refuse(OP_WRITE, write_status(fault)),
            Ok(()) => self.settle(bytes.len() as u32, how, file, p),
        }
    }

    // What was written is committed, where it is to be safe.
    fn settle(&mut self, count: u32, how: Stability, file: u32, p: &mut Progress) -> Status
        requires ready { CanCommit p.old }
        requires no_root { 1 ≤ file }
        requires there { file < length self.old.volume.volume.files }
        ensures does { D.Told → Does (λ choice. write_settled choice file count how (going_of D.size self.old p.old)) p.old.page.bytes (going_of D.size self.new p.new) p.new.page.bytes result.number }
        ensures keeps { CommitKeeps p.old p.new }
        ensures ran { Counted D.Told (seat_of D.size D.fuse D.timeline D.faults self.old.volume) (seat_of D.size D.fuse D.timeline D.faults self.new.volume) p.old.used p.new.used }
        ensures opens { self.new.opens ≡ self.old.opens }
        ensures extra { self.new.extra ≡ self.old.extra }
    {
        match how {
            Stability::Unstable => { p.say_written(count, Stability::Unstable, self.volume.boot()) }
            Stability::DataSync => self.sync_written(count, file, p),
            Stability::FileSync => self.sync_written(count, file, p),
        }
    }

    fn sync_written(&mut self, count: u32, file: u32, p: &mut Progress) -> Status
        requires ready { CanCommit p.old }
        requires no_root { 1 ≤ file }
        requires there { file < length self.old.volume.volume.files }
        ensures does { D.Told → Does (λ choice. sync_written choice file count (going_of D.size self.old p.old)) p.old.page.bytes (going_of D.size self.new p.new) p.new.page.bytes result.number }
        ensures keeps { CommitKeeps p.old p.new }
        ensures ran { Counted D.Told (seat_of D.size D.fuse D.timeline D.faults self.old.volume) (seat_of D.size D.fuse D.timeline D.faults self.new.volume) p.old.used p.new.used }
        ensures opens { self.new.opens ≡ self.old.opens }
        ensures extra { self.new.extra ≡ self.old.extra }
    {
        match call_commit(&mut self.volume, &mut p.used, file) {
            Err(_) => p.refuse(OP_WRITE, Status::IO),
            Ok(()) => p.say_written(count, Stability::FileSync, self.volume.boot()),
        }
    }
}

/// The bytes that one WRITE writes: the first 65,536 at most.
#[tactic(auto, unfolding(crate::specs::Writing::taken_bytes))]
fn taken_bytes(bytes: &[u8]) -> &[u8]
    ensures bytes { result.now ≡ taken_bytes bytes.now }
    ensures short { length result.now ≤ DATA_LIMIT }
{
    front(bytes, DATA_LIMIT as usize)
}

fn front(bytes: &[u8], most: usize) -> &[u8]
    ensures front { result.now ≡ take most bytes.now }
    ensures short { length result.now ≤ most }
{
    &bytes[..bytes.len().min(most)]
}

/// How a WRITE is answered that the volume refuses or fails.
fn write_status(fault: WriteFault) -> Status
    ensures { result ≡ write_status fault }
{
    match fault {
        WriteFault::TooFar => Status::FBIG,
        WriteFault::Worn => Status::SERVERFAULT,
        WriteFault::DiskFailed => Status::IO,
        WriteFault::Broken => Status::IO,
    }
}
