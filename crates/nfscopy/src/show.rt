ghost use Rattle.std.specs.Prelude.{◌≤◌};
ghost use Rattle.nfscopy.specs.Outside.{without_disks};
ghost use Rattle.nfscopy.specs.ShowEnds.{ShowEnds};

use command_line::ShowEnd;
use outcome::NoMemory;
use std::alloc::Global;
use streams::{Sink, Source};
use wire_show::{Shown, do_show};

/// Puts the lines of a stream of records.
pub(crate) fn show<S: Source, K: Sink>(alloc: Global, input: &mut S, output: &mut K) -> ShowEnd
    ensures ends { ShowEnds
        (without_disks (S.gives input.old).left (K.takes output.old).taken (S.gives input.old).faults (K.takes output.old).faults)
        (without_disks (S.gives input.new).left (K.takes output.new).taken (S.gives input.new).faults (K.takes output.new).faults)
        result }
    ensures reads_later { (S.gives input.old).faults ≤ (S.gives input.new).faults }
    ensures writes_later { (K.takes output.old).faults ≤ (K.takes output.new).faults }
{
    match do_show(alloc, input, output) {
        Ok(Shown::Whole) => ShowEnd::Done,
        Ok(Shown::Refused) => ShowEnd::Refused,
        Ok(Shown::ReadFault) => ShowEnd::ReadFault,
        Ok(Shown::WriteFault) => ShowEnd::WriteFault,
        Err(NoMemory) => ShowEnd::NoMemory,
    }
}
