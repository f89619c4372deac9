//! Calls of a server on its volume, each with its note.

ghost use Rattle.std.specs.Prelude.{◌≤◌, ◌<◌, ◌+◌, length};

use crate::told::{tell, tell_fault};
use crate::volumes::has_file;
use blind_disk::BlindDisk;
use block_file::Volume;
use outcome::Mem;
use row_text::{bytes, number, word};
use server_volume::{CallList, call_commit, call_write};
use std::alloc::Global;

/// How many bytes are written at most.
const MOST: usize = 64;

/// Makes `write FILE OFF HEX`, `commit FILE`, or `both FILE OFF HEX`, which writes and commits.
pub fn make(
    alloc: Global,
    volume: &mut Volume<BlindDisk>,
    words: &[&str],
    used: &mut CallList,
    text: &mut String,
) -> Mem<()>
    requires { length used.old < 1 }
{
    match word(words, 0) {
        "write" => write(alloc, volume, words, used, text),
        "commit" => commit(volume, words, used, text),
        "both" => {
            write(alloc, volume, words, used, text)?;
            commit(volume, words, used, text)
        }
        _ => tell(text, "no such call"),
    }
}

fn write(
    alloc: Global,
    volume: &mut Volume<BlindDisk>,
    words: &[&str],
    used: &mut CallList,
    text: &mut String,
) -> Mem<()>
    requires { length used.old ≤ 1 }
    ensures { length used.new ≤ length used.old + 1 }
{
    let file = number(words, 1);
    let bytes = bytes(alloc, words, 3)?;
    if !has_file(volume, file) || bytes.len() > MOST {
        return tell(text, "no such file");
    }
    let off = u64::from(number(words, 2));
    tell_fault(text, &call_write(volume, used, file, off, &bytes))
}

fn commit(
    volume: &mut Volume<BlindDisk>,
    words: &[&str],
    used: &mut CallList,
    text: &mut String,
) -> Mem<()>
    requires { length used.old ≤ 1 }
{
    let file = number(words, 1);
    if !has_file(volume, file) {
        return tell(text, "no such file");
    }
    tell_fault(text, &call_commit(volume, used, file))
}
