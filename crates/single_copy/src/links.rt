//! What is called on a link: a record is taken from it, and records are put to it.

ghost use Rattle.std.specs.Prelude.{◌≡◌, ◌≤◌, true, false, length};
ghost use Rattle.rpc_msg.specs.Records.{marked, record_limit};
ghost use Rattle.rpc_msg.specs.Watching.{is_down};
ghost use Rattle.streams.specs.Sink.{PutsWithin};
ghost use Rattle.single_copy.specs.Links as spec;

use rpc_msg::{Got, Put, RECORD_LIMIT, Sink, Source, Watched, mark, nexts_join};

/// How many records are taken from a link at most. One that has brought so many counts as ended.
pub const MOST_RECORDS: u32 = 1_048_576;

/// What became of taking a record.
#[derive(Clone, Copy)]
pub(crate) enum Took {
    /// There is one, which the link lends.
    Whole,

    /// No more are taken from the link.
    Full,

    /// The link went down.
    Down,
}

/// Takes the next record of a link, where more may be taken.
pub(crate) fn take<L: Source + Sink>(link: &mut Watched<L>, left: &mut u32) -> Took
    requires up { is_down link.old.signs ≡ false }
    ensures { spec.Takes L.gives L.takes link.old link.new left.old left.new result }
{
    if *left == 0 {
        return Took::Full;
    }
    match link.next() {
        Got::Whole => {
            *left -= 1;
            Took::Whole
        }
        Got::Down => Took::Down,
    }
}

/// Whether nothing speaks against a link.
pub(crate) fn is_up<L: Source + Sink>(link: &Watched<L>) -> bool
    ensures up { result ≡ true → is_down link.now.signs ≡ false }
    ensures down { result ≡ false → is_down link.now.signs ≡ true }
{
    link.down().is_none()
}

/// Whether a call of a link failed.
pub(crate) fn is_faulty<L: Source + Sink>(link: &Watched<L>) -> bool
    ensures { result ≡ spec.is_faulty link.now.signs }
{
    match link.down() {
        None => false,
        Some(down) => down.faults() > 0,
    }
}

/// Puts the mark of a record, and the record. One that is longer than [`RECORD_LIMIT`] isn't put: no contract says that the records
/// which a client sends are shorter.
pub(crate) fn send<L: Source + Sink>(link: &mut Watched<L>, bytes: &[u8])
    ensures { spec.Sends L.gives L.takes link.old link.new (spec.carried bytes.now) }
{
    if bytes.len() <= RECORD_LIMIT as usize {
        send_marked(link, bytes);
    }
}

fn send_marked<L: Source + Sink>(link: &mut Watched<L>, bytes: &[u8])
    requires fits { length bytes.now ≤ record_limit }
    ensures { spec.Sends L.gives L.takes link.old link.new (marked bytes.now) }
{
    send_piece(link, &mark(bytes.len() as u32));
    send_piece(link, bytes);
}

/// Puts bytes, as long as the link is up.
fn send_piece<L: Source + Sink>(link: &mut Watched<L>, piece: &[u8])
    ensures { spec.Sends L.gives L.takes link.old link.new piece.now }
{
    if !is_up(link) {
        return;
    }
    let mut at = 0;
    'puts: while at < piece.len() {
        match put_once(link, &piece[at..]) {
            Put::Put(count) => at += count,
            Put::Failed => return,
        }
    }
}

/// One put to a link that is up.
fn put_once<L: Source + Sink>(link: &mut Watched<L>, piece: &[u8]) -> Put
    requires up { is_down link.old.signs ≡ false }
    ensures within { PutsWithin result piece.now }
    ensures sends { spec.Sends L.gives L.takes link.old link.new (spec.offered result piece.now) }
    ensures down { is_down link.new.signs ≡ spec.is_failed result }
{
    nexts_join::<L>();
    link.put(piece)
}
