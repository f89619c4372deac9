//! Tables over disks, volumes and what a server does on a volume, crates `disk_model`, `block_file` and `volume_stops`, from
//! standard input (`row_text`): what a crash leaves under each pick, stopped before each call of a disk, each call of a disk
//! failing in turn, what names a disk that is no volume, and what was kept of a commit. Behind the count of lines stands what
//! a real file gives back.
//!
//! The calls of a line are parted by `, `, and begin with no disk. Each tells what it has to tell, and nothing where it
//! was only done; what they tell is parted by `; `. Every expected answer is written by hand from the model of a disk and
//! `docs/formats.md`.
#![tactic(auto)]

mod disks;
mod file_disk;
mod fuses;
mod runs;
mod scene;
mod served;
mod stops;
mod told;
mod volumes;

use crate::scene::Scene;
use outcome::Mem;
use row_text::{Rows, compare, words};
use std::alloc::Global;
use std::io;

#[derive(Drop)]
struct DiskRows;

impl Rows for DiskRows {
    fn answer(&mut self, alloc: Global, call: &str) -> Mem<String> {
        let mut text = String::new(alloc);
        carry_out(alloc, call, &mut text)?;
        Ok(text)
    }
}

/// Makes the calls of a line in turn.
fn carry_out(alloc: Global, line: &str, text: &mut String) -> Mem<()> {
    let mut scene = Scene::new();
    for call in line.split(", ") {
        step(alloc, call, &mut scene, text)?;
    }
    Ok(())
}

fn step(alloc: Global, call: &str, scene: &mut Scene, text: &mut String) -> Mem<()> {
    let words = words(alloc, call)?;
    scene.step(alloc, &words, text)
}

fn main(rt: HostRuntime) -> io::Result<()> {
    compare(&rt, &mut DiskRows)?;
    file_disk::print(&rt)
}
