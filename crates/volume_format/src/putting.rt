ghost use Rattle.std.specs.Prelude.{◌≤◌, ◌⊎◌, MatchResult};
ghost use Rattle.std.specs.String.{string_bytes};
ghost use Rattle.volume_format.specs.Puts.{AllPut, FrontPut, NonePut};

use outcome::{Mem, NoMemory};
use streams::{Sink, put_all};

/// Puts the line that goes with an end, where there is memory for it. The end is then that one, or this of a fault of the sink;
/// else it is this of want of memory, and nothing is put.
pub fn put_line<K: Sink, E: Drop>(
    output: &mut K,
    line: Mem<String>,
    end: E,
    fault: E,
    no_memory: E,
) -> E
    ensures put { MatchResult line
        (λ line. AllPut (K.takes output.old).taken (K.takes output.new).taken (string_bytes line) end result
        ⊎ FrontPut fault (K.takes output.old).taken (K.takes output.new).taken (K.takes output.old).faults (K.takes output.new).faults (string_bytes line) result)
        (λ _. NonePut (K.takes output.old).taken (K.takes output.new).taken no_memory result) }
    ensures later { (K.takes output.old).faults ≤ (K.takes output.new).faults }
{
    match line {
        Ok(line) => match put_all(output, line.as_bytes()) {
            Ok(()) => end,
            Err(_) => fault,
        },
        Err(NoMemory) => no_memory,
    }
}
