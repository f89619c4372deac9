ghost use Rattle.std.specs.Prelude.{◌≡◌, ◌≤◌, ◌<◌, ◌+◌, ◌^◌, length, None, IfOk};
ghost use Rattle.outcome.specs.Causes.{HasCause};
ghost use Rattle.rpc_msg.specs.Underway.{Open};
ghost use Rattle.wire_show.specs.Text.{lines_text};
ghost use Rattle.wire_show.specs.Shown.{record_lines};
ghost use Rattle.wire_show.specs.Showing.{PutsText, PieceIs, PieceHasCause, RestWithin};

use crate::line::ShownLine;
use crate::message::record_lines;
use outcome::Mem;
use rpc_msg::{Fed, RecordFeed, Sink, WriteFault, put_all};
use std::alloc::Global;

/// What became of one piece of the stream.
#[derive(Clone, Copy)]
pub(crate) enum Piece {
    /// All of it was taken; so many bytes came after the last whole record.
    Taken(u64),
    /// A record was too large.
    TooLarge(u32),
    /// A fault of the sink.
    WriteFault,
}

/// Puts lines, as one piece.
pub(crate) fn put_lines<K: Sink>(
    alloc: Global,
    lines: &[ShownLine],
    output: &mut K,
) -> Mem<Result<(), WriteFault>>
    ensures puts { PutsText (K.takes output.old).taken (K.takes output.new).taken (lines_text lines.now) result }
    ensures cause { IfOk result (HasCause (K.takes output.old).faults (K.takes output.new).faults) }
    ensures later { (K.takes output.old).faults ≤ (K.takes output.new).faults }
    ensures failing { (K.takes output.new).failing ≡ (K.takes output.old).failing }
{
    let text = ShownLine::text_of(alloc, lines)?;
    Ok(put_all(output, text.as_bytes()))
}

/// Puts the lines of the record with this number.
fn show_record<K: Sink>(
    alloc: Global,
    number: u64,
    bytes: &[u8],
    output: &mut K,
) -> Mem<Result<(), WriteFault>>
    ensures puts { PutsText (K.takes output.old).taken (K.takes output.new).taken (lines_text (record_lines number bytes.now)) result }
    ensures cause { IfOk result (HasCause (K.takes output.old).faults (K.takes output.new).faults) }
    ensures later { (K.takes output.old).faults ≤ (K.takes output.new).faults }
    ensures failing { (K.takes output.new).failing ≡ (K.takes output.old).failing }
{
    let lines = record_lines(alloc, number, bytes)?;
    put_lines(alloc, &lines, output)
}

/// Puts the lines of the records that end in a piece. `rest` bytes came after the last one, and the next one
/// has this number.
pub(crate) fn show_piece<K: Sink>(
    alloc: Global,
    output: &mut K,
    feed: &mut RecordFeed,
    piece: &[u8],
    rest: u64,
    number: &mut u64,
) -> Mem<Piece>
    requires open_now { feed.old.large ≡ None }
    requires fits { rest + length piece.now < 2 ^ 64 }
    requires numbers { number.old + length piece.now < 2 ^ 64 }
    ensures passed { PieceIs (Open rest feed.old.under) feed.new (K.takes output.old).taken (K.takes output.new).taken number.old number.new piece.now result }
    ensures within { IfOk result (RestWithin (rest + length piece.now)) }
    ensures few { number.new ≤ number.old + length piece.now }
    ensures cause { IfOk result (PieceHasCause (K.takes output.old).faults (K.takes output.new).faults) }
    ensures later { (K.takes output.old).faults ≤ (K.takes output.new).faults }
    ensures failing { (K.takes output.new).failing ≡ (K.takes output.old).failing }
{
    let mut rest = rest;
    let mut at = 0;
    'feeds: while at < piece.len() {
        let (count, fed) = feed.feed(&piece[at..]);
        at += count;
        match fed {
            Fed::Need => rest += count as u64,
            Fed::TooLarge { len } => return Ok(Piece::TooLarge(len)),
            Fed::Whole => {
                match show_record(alloc, *number, feed.record(), output)? {
                    Ok(()) => {}
                    Err(_) => return Ok(Piece::WriteFault),
                }
                *number += 1;
                rest = 0;
            }
        }
    }
    Ok(Piece::Taken(rest))
}
