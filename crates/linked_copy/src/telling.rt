//! What is put of a copy.

ghost use Rattle.std.specs.Prelude.{◌≡◌, ◌≤◌, IfOk};
ghost use Rattle.std.specs.String.{string_bytes};
ghost use Rattle.linked_copy.specs.Lines.{failed_text, plain_lines};
ghost use Rattle.linked_copy.specs.Telling.{Puts, Tells};

use crate::ends::{CopyEnd, end_of};
use nfs_base::Status;
use outcome::{Mem, NoMemory};
use single_copy::Copied;
use std::alloc::Global;
use streams::{Sink, put_all};

/// Puts the lines of what became of a copy.
pub(crate) fn tell<K: Sink>(alloc: Global, copied: Copied, output: &mut K) -> CopyEnd
    ensures tells { Tells (K.takes output.old).taken (K.takes output.new).taken (K.takes output.old).faults (K.takes output.new).faults copied result }
    ensures later { (K.takes output.old).faults ≤ (K.takes output.new).faults }
{
    if let Copied::Failed(status) = copied {
        return match failed_line(alloc, status) {
            Ok(line) => put(output, line.as_bytes(), CopyEnd::Failed),
            Err(NoMemory) => CopyEnd::NoMemory,
        };
    }
    put(output, plain_lines(copied), end_of(copied))
}

/// Puts lines, whose end is then this one.
fn put<K: Sink>(output: &mut K, lines: &[u8], end: CopyEnd) -> CopyEnd
    ensures puts { Puts (K.takes output.old).taken (K.takes output.new).taken (K.takes output.old).faults (K.takes output.new).faults lines.now end result }
    ensures later { (K.takes output.old).faults ≤ (K.takes output.new).faults }
{
    match put_all(output, lines) {
        Ok(()) => end,
        Err(_) => CopyEnd::WriteFault,
    }
}

/// The lines of a copy that didn't fail with a status, for which no memory is wanted.
fn plain_lines(copied: Copied) -> &'static [u8]
    ensures { result.now ≡ plain_lines copied }
{
    match copied {
        Copied::Stable { exact: true } => b"stable\nexact\n",
        Copied::Stable { exact: false } => b"stable\nunsure\n",
        Copied::LinkFault { stable: true } => b"stable\n",
        Copied::LinkFault { stable: false } | Copied::Failed(_) | Copied::DrawFault => b"",
    }
}

fn failed_line(alloc: Global, status: Status) -> Mem<String>
    ensures { IfOk result (λ line. string_bytes line ≡ failed_text status.number) }
{
    Ok(format!(in alloc; "failed {}\n", status.number)?)
}
