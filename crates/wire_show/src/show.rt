ghost use Rattle.std.specs.Prelude.{◌≡◌, ◌≤◌, [], ◌∷◌, IfOk};
ghost use Rattle.wire_show.specs.Text.{lines_text};
ghost use Rattle.wire_show.specs.Showing.{ShowIs, ShowHasCause, LastIs, LastHasCause};

use crate::line::ShownLine;
use crate::piece::{Piece, put_lines, show_piece};
use nfs_base::INPUT_LIMIT;
use outcome::Mem;
use rpc_msg::{RecordFeed, Sink, Source, Take, take_some};
use std::alloc::Global;

/// How many bytes are asked for at a time.
const ROOM: usize = 4096;

/// How showing ended.
#[derive(Clone, Copy, Debug, PartialEq, Eq)]
pub enum Shown {
    /// All of the input was read and all lines were put.
    Whole,
    /// A record is too large, or the input passes its limit; the lines up to there were put, and the last
    /// one says so.
    Refused,
    /// A fault of the source.
    ReadFault,
    /// A fault of the sink.
    WriteFault,
}

/// Puts the lines of a stream of records. The memory that it takes doesn't grow with the input.
///
/// `Refused` comes exactly where a record is too large or the input passes 16,777,216 bytes, and `Whole`
/// exactly where the input ended before that, unless a read, a put or memory fails. After such a failure a
/// front of the lines was put. Which calls of the source and the sink are planned to fail stays as it was, so
/// that none fails where none is planned to.
pub fn do_show<S: Source, K: Sink>(alloc: Global, input: &mut S, output: &mut K) -> Mem<Shown>
    ensures shown { ShowIs (S.gives input.old).left (S.gives input.new).left (K.takes output.old).taken (K.takes output.new).taken result }
    ensures cause { IfOk result (ShowHasCause (S.gives input.old).faults (S.gives input.new).faults (K.takes output.old).faults (K.takes output.new).faults) }
    ensures reads_later { (S.gives input.old).faults ≤ (S.gives input.new).faults }
    ensures puts_later { (K.takes output.old).faults ≤ (K.takes output.new).faults }
    ensures reads_failing { (S.gives input.new).failing ≡ (S.gives input.old).failing }
    ensures puts_failing { (K.takes output.new).failing ≡ (K.takes output.old).failing }
{
    let mut feed = RecordFeed::new(alloc)?;
    let mut room = [0; ROOM];
    let mut unspent = INPUT_LIMIT;
    let mut rest = 0;
    let mut number = 1;
    'takes: while unspent > 0 {
        match take_some(input, &mut room, unspent) {
            Take::Took(count) => {
                unspent -= count as u64;
                match show_piece(alloc, output, &mut feed, &room[..count], rest, &mut number)? {
                    Piece::Taken(after) => rest = after,
                    Piece::TooLarge(len) => {
                        return put_last(alloc, output, ShownLine::Large { len }, true);
                    }
                    Piece::WriteFault => return Ok(Shown::WriteFault),
                }
            }
            Take::End => return put_last(alloc, output, ShownLine::Rest { count: rest }, false),
            Take::Failed => return Ok(Shown::ReadFault),
        }
    }
    match take_some(input, &mut room, 1) {
        Take::Took(_) => put_last(alloc, output, ShownLine::TooMuch, true),
        Take::End => put_last(alloc, output, ShownLine::Rest { count: rest }, false),
        Take::Failed => Ok(Shown::ReadFault),
    }
}

/// Puts the last line.
fn put_last<K: Sink>(alloc: Global, output: &mut K, line: ShownLine, refused: bool) -> Mem<Shown>
    ensures last { LastIs refused (K.takes output.old).taken (K.takes output.new).taken (lines_text (line ∷ [])) result }
    ensures cause { IfOk result (LastHasCause (K.takes output.old).faults (K.takes output.new).faults) }
    ensures later { (K.takes output.old).faults ≤ (K.takes output.new).faults }
    ensures failing { (K.takes output.new).failing ≡ (K.takes output.old).failing }
{
    match put_lines(alloc, &[line], output)? {
        Ok(()) if refused => Ok(Shown::Refused),
        Ok(()) => Ok(Shown::Whole),
        Err(_) => Ok(Shown::WriteFault),
    }
}
