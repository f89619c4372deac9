ghost use Rattle.std.specs.Prelude.{◌≡◌, ℕ, ◌+◌, ◌<◌, ◌≤◌, ◌^◌, List, length, None, IfOk, OnErr};
ghost use Rattle.rpc_msg.specs.Records.{record_limit};
ghost use Rattle.rpc_msg.specs.Underway.{Open};
ghost use Rattle.rpc_msg.specs.Serving.{Served, PieceIs, StopsFront, RanShort, state_of, RestWithin, PieceHasCause, PumpIs, PumpHasCause};
ghost use Rattle.outcome.specs.Causes.{HasCause};

use crate::records::{Fed, RECORD_LIMIT, RecordFeed, mark};
use outcome::Mem;
use std::alloc::Global;
use streams::{Sink, Source, Take, WriteFault, put_all, take_some};
use wire_xdr::Octets;

// How many bytes are asked for at a time.
const ROOM: usize = 4096;

// The room for a marked record of the greatest length.
const MARKED_ROOM: usize = RECORD_LIMIT as usize + 4;

/// Answers records.
pub trait Handler {
    // Whether a handler may answer a record with this reply, and is then as the second one.
    ghost answers: { Self → List ℕ → List ℕ → Self → Type 0 };

    /// The reply to a record, empty where there is none. Without memory the handler is as before.
    fn on(&mut self, alloc: Global, record_: &[u8]) -> Mem<Octets>
        ensures small { IfOk result (λ reply. length reply ≤ record_limit) }
        ensures answered { IfOk result (λ reply. answers self.old record_.now reply self.new) }
        ensures err { OnErr result (self.new ≡ self.old) };
}

/// Why no more records are taken.
#[derive(Clone, Copy, Debug, PartialEq, Eq)]
pub enum Pumped {
    /// The source ended.
    End {
        /// The bytes after the last whole record, headers included. Those that the feed was given before
        /// this call aren't counted.
        rest: u64,
    },
    /// A record was too large.
    TooLarge {
        /// The sum of its fragments' lengths that passed the limit, in bytes.
        len: u32,
    },
    /// The source has more bytes than the budget.
    TooMuch,
    /// No record is left to be given to the handler.
    Enough,
    /// A fault of the source.
    ReadFault,
    /// A fault of the sink.
    WriteFault,
}

/// What became of one piece.
#[derive(Clone, Copy)]
enum Piece {
    /// All of it was taken; so many bytes came after the last whole record.
    Taken(u64),
    /// A record was too large.
    TooLarge(u32),
    /// No record is left to be given to the handler.
    Enough,
    /// A fault of the sink.
    WriteFault,
}

/// Takes the records of a source, gives each to the handler, and puts the mark and the reply as one
/// piece where the reply isn't empty, until the source ends. `left` falls by one for each record; at 0
/// nothing is taken, and all is as before. No more than `budget` bytes are passed to the feed. Without memory what was done
/// before stands: the replies to the records before the one at hand were put, and nothing else. The feed
/// lends that record still; it isn't answered, nor counted in `left`.
pub fn pump_records<S: Source, K: Sink, H: Handler>(
    alloc: Global,
    source: &mut S,
    sink: &mut K,
    feed: &mut RecordFeed,
    handler: &mut H,
    budget: u64,
    left: &mut u64,
) -> Mem<Pumped>
    ensures pumped { IfOk result (PumpIs H.answers feed.old feed.new handler.old handler.new
        (K.takes sink.old) (K.takes sink.new) left.old left.new (S.gives source.old).left (S.gives source.new).left budget) }
    ensures err { OnErr result (RanShort H.answers (state_of 0 feed.old) handler.old handler.new
        (K.takes sink.old) (K.takes sink.new) left.old left.new (S.gives source.old).left (S.gives source.new).left budget feed.new) }
    ensures none_left { left.old ≡ 0 → (result ≡ Ok Pumped.Enough) × (source.new ≡ source.old) × (sink.new ≡ sink.old)
        × (feed.new ≡ feed.old) × (handler.new ≡ handler.old) }
    ensures cause { IfOk result (PumpHasCause (S.gives source.old).faults (S.gives source.new).faults
        (K.takes sink.old).faults (K.takes sink.new).faults) }
    ensures reads_later { (S.gives source.old).faults ≤ (S.gives source.new).faults }
    ensures puts_later { (K.takes sink.old).faults ≤ (K.takes sink.new).faults }
    ensures whole { (S.gives source.new).whole ≡ (S.gives source.old).whole }
    ensures reads_failing { (S.gives source.new).failing ≡ (S.gives source.old).failing }
    ensures puts_failing { (K.takes sink.new).failing ≡ (K.takes sink.old).failing }
    ensures source_puts { S.takes source.new ≡ S.takes source.old }
    ensures sink_gives { K.gives sink.new ≡ K.gives sink.old }
{
    if *left == 0 {
        return Ok(Pumped::Enough);
    }
    if let Some(len) = feed.large() {
        return Ok(Pumped::TooLarge { len });
    }
    let mut room = [0; ROOM];
    let mut unspent = budget;
    let mut rest = 0;
    'takes: while unspent > 0 {
        match take_some(source, &mut room, unspent) {
            Take::Took(count) => {
                unspent -= count as u64;
                match pump_piece(alloc, sink, feed, handler, &room[..count], rest, left)? {
                    Piece::Taken(after) => rest = after,
                    Piece::TooLarge(len) => return Ok(Pumped::TooLarge { len }),
                    Piece::Enough => return Ok(Pumped::Enough),
                    Piece::WriteFault => return Ok(Pumped::WriteFault),
                }
            }
            Take::End => return Ok(Pumped::End { rest }),
            Take::Failed => return Ok(Pumped::ReadFault),
        }
    }
    match take_some(source, &mut room, 1) {
        Take::Took(_) => Ok(Pumped::TooMuch),
        Take::End => Ok(Pumped::End { rest }),
        Take::Failed => Ok(Pumped::ReadFault),
    }
}

// Gives one record to the handler, and puts the mark and the reply as one piece.
fn serve<K: Sink, H: Handler>(
    alloc: Global,
    sink: &mut K,
    handler: &mut H,
    record_: &[u8],
    left: &mut u64,
) -> Mem<Result<(), WriteFault>>
    requires { 0 < left.old }
    ensures served { IfOk result (Served H.answers handler.old handler.new record_.now (K.takes sink.old) (K.takes sink.new)) }
    ensures counted { IfOk result (λ _. left.old ≡ left.new + 1) }
    ensures err_handler { OnErr result (handler.new ≡ handler.old) }
    ensures err_sink { OnErr result (sink.new ≡ sink.old) }
    ensures err_left { OnErr result (left.new ≡ left.old) }
    ensures cause { IfOk result (HasCause (K.takes sink.old).faults (K.takes sink.new).faults) }
    ensures later { (K.takes sink.old).faults ≤ (K.takes sink.new).faults }
    ensures failing { (K.takes sink.new).failing ≡ (K.takes sink.old).failing }
    ensures gives { K.gives sink.new ≡ K.gives sink.old }
{
    let mut piece = Vec::with_capacity(alloc, MARKED_ROOM)?;
    let reply = handler.on(alloc, record_)?;
    *left -= 1;
    if reply.is_empty() {
        return Ok(Ok(()));
    }
    piece.extend_from_slice(&mark(reply.len() as u32)).unwrap();
    piece.extend_from_slice(reply.as_slice()).unwrap();
    Ok(put_all(sink, piece.as_slice()))
}

// Gives the records that end in a piece to the handler. `rest` bytes came after the last one.
fn pump_piece<K: Sink, H: Handler>(
    alloc: Global,
    sink: &mut K,
    feed: &mut RecordFeed,
    handler: &mut H,
    piece: &[u8],
    rest: u64,
    left: &mut u64,
) -> Mem<Piece>
    requires open_now { feed.old.large ≡ None }
    requires some { 0 < left.old }
    requires fits { rest + length piece.now < 2 ^ 64 }
    ensures passed { IfOk result (PieceIs H.answers (Open rest feed.old.under) feed.new handler.old handler.new
        (K.takes sink.old) (K.takes sink.new) left.old left.new piece.now) }
    ensures err { OnErr result (StopsFront H.answers (Open rest feed.old.under) handler.old handler.new
        (K.takes sink.old) (K.takes sink.new) left.old left.new piece.now feed.new) }
    ensures within { IfOk result (RestWithin (rest + length piece.now)) }
    ensures cause { IfOk result (PieceHasCause (K.takes sink.old).faults (K.takes sink.new).faults) }
    ensures later { (K.takes sink.old).faults ≤ (K.takes sink.new).faults }
    ensures failing { (K.takes sink.new).failing ≡ (K.takes sink.old).failing }
    ensures gives { K.gives sink.new ≡ K.gives sink.old }
{
    let mut rest = rest;
    let mut at = 0;
    'feeds: while at < piece.len() {
        let (count, fed) = feed.feed(&piece[at..]);
        at += count;
        match fed {
            Fed::Need => rest += count as u64,
            Fed::TooLarge { len } => return Ok(Piece::TooLarge(len)),
            Fed::Whole => {
                match serve(alloc, sink, handler, feed.record(), left)? {
                    Ok(()) => {}
                    Err(_) => return Ok(Piece::WriteFault),
                }
                if *left == 0 {
                    return Ok(Piece::Enough);
                }
                rest = 0;
            }
        }
    }
    Ok(Piece::Taken(rest))
}
