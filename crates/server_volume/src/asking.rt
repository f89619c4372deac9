//! The three calls on a volume that a server makes, each with its note.

ghost use Rattle.std.specs.Prelude.{◌≡◌, ◌+◌, ◌<◌, ◌≤◌, length, IsOk};
ghost use Rattle.nfs_base.specs.declared.limits.TheConstants.{DATA_LIMIT};
ghost use Rattle.copy_model.specs.Volume.{file_at, bytes_at};
ghost use Rattle.block_file.specs.Opened.{SameOpening, homes_by};
ghost use Rattle.server_volume.specs.declared.used.TheConstants.{MOST_CALLS};
ghost use Rattle.server_volume.specs.Choices.{Grows};
ghost use Rattle.server_volume.specs.Store.{store_of, seat_of};
ghost use Rattle.server_volume.specs.Calls.{read_call, write_call, commit_call, read_answer, write_answer, Makes};
ghost use Rattle.server_volume.specs.Moments.{Counted};

use crate::used::{CallAnswer, CallList, VolumeCall};
use block_file::{ReadFault, Volume, WriteFault};
use disk_model::Disk;

/// Fills `out` with a file's bytes from `off` on. A volume that is broken refuses it.
pub fn call_read<D: Disk>(
    volume: &mut Volume<D>,
    used: &mut CallList,
    file: u32,
    off: u64,
    out: &mut [u8],
) -> Result<(), ReadFault>
    requires no_root { 1 ≤ file }
    requires there { file < length volume.old.volume.files }
    requires short { length out.old ≤ DATA_LIMIT }
    requires room { length used.old < MOST_CALLS }
    ensures makes { D.Told → Makes (λ choice. read_call choice used.old (store_of D.size volume.old) file off (length out.old)) (store_of D.size volume.new) used.new result }
    ensures bytes { D.Told → IsOk result → out.new ≡ bytes_at (file_at volume.old.volume file).now off (length out.old) }
    ensures ran { Counted D.Told (seat_of D.size D.fuse D.timeline D.faults volume.old) (seat_of D.size D.fuse D.timeline D.faults volume.new) used.old used.new }
    ensures grows { Grows used.old used.new }
    ensures counted { length used.new ≡ length used.old + 1 }
    ensures opening { SameOpening volume.old.volume volume.new.volume }
    ensures tag { volume.new.tag ≡ volume.old.tag }
{
    let len = out.len() as u32;
    let result = volume.read(file, off, out);
    used.note(VolumeCall::Read { file, off, len }, read_answer(&result));
    result
}

/// Writes bytes to a file at `off`. The volume refuses it where it is broken, where the bytes end past its capacity,
/// and where it has no further write number, tested in this order.
pub fn call_write<D: Disk>(
    volume: &mut Volume<D>,
    used: &mut CallList,
    file: u32,
    off: u64,
    bytes: &[u8],
) -> Result<(), WriteFault>
    requires no_root { 1 ≤ file }
    requires there { file < length volume.old.volume.files }
    requires short { length bytes.now ≤ DATA_LIMIT }
    requires room { length used.old < MOST_CALLS }
    ensures makes { D.Told → Makes (λ choice. write_call choice used.old (store_of D.size volume.old) file off bytes.now) (store_of D.size volume.new) used.new result }
    ensures ran { Counted D.Told (seat_of D.size D.fuse D.timeline D.faults volume.old) (seat_of D.size D.fuse D.timeline D.faults volume.new) used.old used.new }
    ensures grows { Grows used.old used.new }
    ensures counted { length used.new ≡ length used.old + 1 }
    ensures opening { SameOpening volume.old.volume volume.new.volume }
    ensures tag { volume.new.tag ≡ volume.old.tag }
{
    let len = bytes.len() as u32;
    let result = volume.write(file, off, bytes);
    used.note(VolumeCall::Write { file, off, len }, write_answer(&result));
    result
}

/// Makes all of a file safe. A volume that is broken refuses it.
pub fn call_commit<D: Disk>(
    volume: &mut Volume<D>,
    used: &mut CallList,
    file: u32,
) -> Result<(), ReadFault>
    requires no_root { 1 ≤ file }
    requires there { file < length volume.old.volume.files }
    requires room { length used.old < MOST_CALLS }
    ensures makes { D.Told → Makes (λ choice. commit_call choice used.old (store_of D.size volume.old) file) (store_of D.size volume.new) used.new result }
    ensures ran { Counted D.Told (seat_of D.size D.fuse D.timeline D.faults volume.old) (seat_of D.size D.fuse D.timeline D.faults volume.new) used.old used.new }
    ensures grows { Grows used.old used.new }
    ensures counted { length used.new ≡ length used.old + 1 }
    ensures opening { SameOpening volume.old.volume volume.new.volume }
    ensures tag { volume.new.tag ≡ volume.old.tag }
{
    let home = 1 - volume.home(file);
    let result = volume.commit(file);
    used.note(VolumeCall::Commit { file, home }, read_answer(&result));
    result
}

// What is noted of a read or a commit.
fn read_answer(answer: &Result<(), ReadFault>) -> CallAnswer
    ensures { result ≡ read_answer answer.now }
{
    match answer {
        Ok(()) => CallAnswer::Done,
        Err(ReadFault::DiskFailed) => CallAnswer::DiskFailed,
        Err(ReadFault::Broken) => CallAnswer::Refused,
    }
}

// What is noted of a write.
fn write_answer(answer: &Result<(), WriteFault>) -> CallAnswer
    ensures { result ≡ write_answer answer.now }
{
    match answer {
        Ok(()) => CallAnswer::Done,
        Err(WriteFault::DiskFailed) => CallAnswer::DiskFailed,
        Err(_) => CallAnswer::Refused,
    }
}
