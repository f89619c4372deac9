ghost use Rattle.std.specs.Prelude.{◌≡◌, ◌+◌, ◌^◌, ◌-◌, ◌<◌, ◌≤◌, length};
ghost use Rattle.std.specs.Bool.{OnFalse};
ghost use Rattle.rpc_msg.specs.Records.{record_limit};
ghost use Rattle.outcome.specs.Causes.{Rose};
ghost use Rattle.callback_links.specs.Line.{failed_after, missed, Fails};

use rpc_msg::{RECORD_LIMIT, mark};
use std::marker::Model;
use std::sync::ledger::{Book, Ledger, Share};
use streams::{Sink, put_all};

/// The way to the other end of a connection.
#[derive(Drop)]
struct Way<T> {
    conn: u32,
    to: T,
    /// A record was cut off on it. No record of others is put behind that.
    cut: bool,
    /// It was another's record, and the connection wasn't told yet: its next put fails by that.
    owed: bool,
}

impl<T: Sink> Way<T> {
    // Puts a piece of the connection's own, and says whether all of it was put.
    fn put(&mut self, piece: &[u8]) -> bool
        ensures { Fails T.takes self.old self.new (missed result) }
    {
        if self.owed {
            self.owed = false;
            return false;
        }
        let put = put_all(&mut self.to, piece);
        if put.is_err() {
            self.cut = true;
        }
        put.is_ok()
    }

    // Puts a record with its mark (RFC 5531 section 11), and says whether all of it was put.
    fn put_record(&mut self, bytes: &[u8]) -> bool
        requires { length bytes.now ≤ record_limit }
        ensures owed { self.new.owed ≡ self.old.owed }
        ensures later { (T.takes self.old.to).faults ≤ (T.takes self.new.to).faults }
        ensures cause { OnFalse result (Rose (T.takes self.old.to).faults (T.takes self.new.to).faults) }
    {
        if put_all(&mut self.to, &mark(bytes.len() as u32)).is_err() {
            return false;
        }
        put_all(&mut self.to, bytes).is_ok()
    }

    // Puts another's record, unless one was cut off.
    fn post(&mut self, bytes: &[u8])
        requires { length bytes.now ≤ record_limit }
        ensures { Fails T.takes self.old self.new 0 }
    {
        if self.cut {
            return;
        }
        if self.put_record(bytes) {
            return;
        }
        self.cut = true;
        self.owed = true;
    }
}

/// The way of the connection that is served, where one is. It stands under a lock, and each call puts whole records.
#[derive(Drop)]
pub struct Line<B: Ledger, T: Sink> {
    way: Option<Way<T>>,
    book: Book<B>,
}

impl<B: Ledger, T: Sink> Model for Line<B, T> {
    ghost use Rattle.std.specs.Prelude.{ℕ};
    ghost use Rattle.callback_links.specs.Line.{Stands};

    ghost Value = { ℕ };

    ghost view = { λ l. l.book.total };

    ghost invariant = { λ l. Stands T.takes l.way l.book.total };
}

impl<B: Ledger, T: Sink + Drop> Line<B, T> {
    /// A line of no connection.
    pub fn new(book: Book<B>) -> Line<B, T>
        requires { book.total ≡ 0 }
        ensures { result ≡ 0 }
    {
        Line { way: None, book }
    }

    /// Puts a record on the connection of this number, with its mark, where that is the one that is served and no record was cut
    /// off on it. Else, and where it is longer than a record may be, it is let go.
    pub fn post(&mut self, conn: u32, bytes: &[u8])
        ensures { self.new ≡ self.old }
    {
        if bytes.len() > RECORD_LIMIT as usize {
            return;
        }
        if let Some(way) = &mut self.way {
            if way.conn == conn {
                way.post(bytes);
            }
        }
    }

    // A connection is served from now on.
    pub(crate) fn fill(&mut self, mine: &mut Share<B>, conn: u32, to: T)
        requires whole { mine.old.parts ≡ B.parts }
        requires part { 0 < mine.old.parts }
        requires none { mine.old.amount ≡ 0 }
        ensures parts { mine.new.parts ≡ mine.old.parts }
        ensures one { mine.new.amount ≡ 1 }
    {
        self.book.audit(mine);
        self.book.add(mine, 1);
        self.way = Some(Way {
            conn,
            to,
            cut: false,
            owed: false,
        });
    }

    // It isn't any more. So many of its own puts failed.
    pub(crate) fn empty(&mut self, mine: &mut Share<B>, failed: u64) -> T
        requires whole { mine.old.parts ≡ B.parts }
        requires amount { mine.old.amount ≡ failed + 1 }
        ensures parts { mine.new.parts ≡ mine.old.parts }
        ensures none { mine.new.amount ≡ 0 }
        ensures failed { failed ≤ (T.takes result).faults }
    {
        self.book.audit(mine);
        let Some(way) = self.way.take() else {
            unreachable!();
        };
        self.book.sub(mine, failed);
        self.book.sub(mine, 1);
        let Way { to, .. } = way;
        to
    }

    // Puts a piece of the connection's own, and says whether all of it was put. A put that failed is counted, up to the end of the
    // count's type.
    pub(crate) fn put(&mut self, mine: &mut Share<B>, failed: &mut u64, piece: &[u8]) -> bool
        requires whole { mine.old.parts ≡ B.parts }
        requires part { 0 < mine.old.parts }
        requires amount { mine.old.amount ≡ failed.old + 1 }
        ensures parts { mine.new.parts ≡ mine.old.parts }
        ensures amount { mine.new.amount ≡ failed.new + 1 }
        ensures counted { failed.new ≡ failed_after failed.old result }
    {
        let Line { way, book } = self;
        book.audit(mine);
        let Some(way) = way else {
            unreachable!();
        };
        if way.put(piece) {
            return true;
        }
        if *failed < u64::MAX {
            *failed += 1;
            book.add(mine, 1);
        }
        false
    }
}
