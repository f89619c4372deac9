ghost use Rattle.std.specs.Prelude.{◌≡◌, ◌≤◌, ◌⊎◌, true, is_some, MatchResult};
ghost use Rattle.std.specs.String.{string_bytes};
ghost use Rattle.volume_format.specs.DiskWords.{disk_words};
ghost use Rattle.volume_format.specs.Formatting.{Formats};
ghost use Rattle.volume_format.specs.Puts.{AllPut, FrontPut, NonePut};

use crate::lines::{formatted_line, small_line};
use crate::new_volume::NewVolume;
use crate::putting::put_line;
use block_file::{FormatFault, Volume};
use disk_model::Disk;
use outcome::{Mem, NoMemory};
use std::alloc::Global;
use streams::Sink;

/// How `format` ends.
#[derive(Clone, Copy, PartialEq, Eq)]
pub enum FormatEnd {
    /// The disk was formatted, and its line was put.
    Done,

    /// The sink failed.
    WriteFault,

    /// Want of memory.
    NoMemory,

    /// The disk failed.
    DiskFault,

    /// The disk has too few blocks.
    TooSmall,
}

/// Makes an empty volume on the disk, and puts the line `formatted BLOCKS` with the number of blocks that it takes. Where the disk has
/// too few, the line `too small NEED HAVE` is put. The disk is handed back in each case.
pub fn format<K: Sink, D: Disk + Drop>(
    alloc: Global,
    new: NewVolume,
    output: &mut K,
    disk: &mut Option<D>,
) -> FormatEnd
    requires there { is_some disk.old ≡ true }
    ensures formats { Formats (disk_words D.Told D.faults D.size D.timeline) new (K.takes output.old).taken (K.takes output.new).taken (K.takes output.old).faults (K.takes output.new).faults disk.old disk.new result }
    ensures later { (K.takes output.old).faults ≤ (K.takes output.new).faults }
{
    let Some(handed) = disk.take() else {
        unreachable!();
    };
    let (files, blocks) = (new.files(), new.blocks());
    match Volume::format(handed, files, blocks, new.tag()) {
        Ok(Ok(made)) => {
            *disk = Some(made);
            let need = 4 + 3 * u64::from(files) + 2 * (u64::from(files) * u64::from(blocks));
            put_by(output, formatted_line(alloc, need), FormatEnd::Done)
        }
        Ok(Err((back, fault))) => {
            *disk = Some(back);
            match fault {
                FormatFault::TooSmall { need, have } => {
                    put_by(output, small_line(alloc, need, have), FormatEnd::TooSmall)
                }
                FormatFault::DiskFailed => FormatEnd::DiskFault,
            }
        }
        Err(NoMemory) => unreachable!(),
    }
}

/// Puts the line that goes with an end, where there is memory for it.
fn put_by<K: Sink>(output: &mut K, line: Mem<String>, end: FormatEnd) -> FormatEnd
    ensures put { MatchResult line
        (λ line. AllPut (K.takes output.old).taken (K.takes output.new).taken (string_bytes line) end result
        ⊎ FrontPut FormatEnd.WriteFault (K.takes output.old).taken (K.takes output.new).taken (K.takes output.old).faults (K.takes output.new).faults (string_bytes line) result)
        (λ _. NonePut (K.takes output.old).taken (K.takes output.new).taken FormatEnd.NoMemory result) }
    ensures later { (K.takes output.old).faults ≤ (K.takes output.new).faults }
{
    put_line(
        output,
        line,
        end,
        FormatEnd::WriteFault,
        FormatEnd::NoMemory,
    )
}
