//! Handles of the files of a volume.

ghost use Rattle.std.specs.Prelude.{◌≡◌, ◌+◌, ◌≤◌, ◌<◌, take, drop, length, IfOk};
ghost use Rattle.std.specs.Int.{w32, w64, from_be_bytes};
ghost use Rattle.file_server.specs.Handles.{file_handle, handle_file};

use nfs_base::{Handle, Status};

/// How many bytes the handle of a file has.
const HANDLE_LENGTH: usize = 12;

/// The file that a handle names at a volume with so many files, the root apart, and this tag.
pub(crate) fn file_of(files: u32, tag: u64, handle: &[u8]) -> Result<u32, Status>
    requires { files < 65536 }
    ensures file { result ≡ handle_file (files + 1) tag handle.now }
    ensures there { IfOk result (λ file. file < files + 1) }
{
    if handle.len() != HANDLE_LENGTH {
        return Err(Status::BADHANDLE);
    }
    let file = file_in(handle);
    if file > files {
        return Err(Status::BADHANDLE);
    }
    if tag_in(handle) != tag {
        return Err(Status::STALE);
    }
    Ok(file)
}

fn tag_in(handle: &[u8]) -> u64
    requires { length handle.now ≡ 12 }
    ensures { result ≡ from_be_bytes w64 (take 8 (drop 0 handle.now)) }
{
    let mut word = [0; 8];
    word.copy_from_slice(&handle[0..8]);
    u64::from_be_bytes(word)
}

fn file_in(handle: &[u8]) -> u32
    requires { length handle.now ≡ 12 }
    ensures { result ≡ from_be_bytes w32 (take 4 (drop 8 handle.now)) }
{
    let mut word = [0; 4];
    word.copy_from_slice(&handle[8..12]);
    u32::from_be_bytes(word)
}

/// The handle of a file, by the volume's tag.
#[tactic(auto, unfolding(crate::specs::Handles::file_handle, wire_xdr::specs::Words::hyper_bytes, wire_xdr::specs::Words::word_bytes))]
pub(crate) fn handle_of(tag: u64, file: u32) -> Handle
    ensures { result ≡ file_handle tag file }
{
    let [a, b, c, d, e, f, g, h] = tag.to_be_bytes();
    let [i, j, k, l] = file.to_be_bytes();
    match Handle::new(&[a, b, c, d, e, f, g, h, i, j, k, l]) {
        Some(handle) => handle,
        None => unreachable!(),
    }
}
