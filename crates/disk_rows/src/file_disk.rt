//! A disk over a real file.

use crate::disks::on_any;
use crate::told::{next, tell_rows};
use disk_model::FileDisk;
use outcome::Mem;
use row_text::words;
use std::alloc::Global;
use std::fs::{self, File, OpenOptions};
use std::path::PathBuf;
use std::{env, io};

/// What the disk is asked to do. The file has three blocks and five bytes; a crash of a disk over a file leaves what was
/// written.
const CALLS: [&str; 13] = [
    "blocks",
    "fuse 2",
    "put 1 1 1",
    "sync",
    "stopped",
    "put 2 2 2",
    "stopped",
    "crash 0",
    "stopped",
    "get 0",
    "get 1",
    "get 2",
    "blocks",
];

/// The calls in turn.
fn called(alloc: Global, mut disk: FileDisk, text: &mut String) -> Mem<()> {
    for call in CALLS {
        let words = words(alloc, call)?;
        on_any(&mut disk, &words, text)?;
    }
    Ok(())
}

/// Tells the calls, or that memory was refused.
fn told(alloc: Global, disk: FileDisk, text: &mut String) {
    if called(alloc, disk, text).is_err() {
        text.clear();
    }
}

fn new_file(rt: &HostRuntime, path: &PathBuf) -> io::Result<File> {
    let file = OpenOptions::new()
        .read(true)
        .write(true)
        .create(true)
        .truncate(true)
        .open(rt, path)?;
    file.set_len(3 * 4096 + 5)?;
    Ok(file)
}

/// Prints what the calls tell, and the file's bytes behind them.
pub fn print(rt: &HostRuntime) -> io::Result<()> {
    let path = env::temp_dir(rt)?.join(rt.alloc(), "nfscopy-disk-rows")?;
    let file = new_file(rt, &path)?;
    let len = file.metadata()?.len();
    let mut text = String::new(rt.alloc());
    told(rt.alloc(), FileDisk::new(file, len), &mut text);
    println!(rt; "{text}")?;
    let mut text = String::new(rt.alloc());
    let bytes = fs::read(rt, &path)?;
    if tell_rows(&mut text, &bytes).is_ok() {
        println!(rt; "{text}")?;
    }
    fs::remove_file(rt, &path)
}
