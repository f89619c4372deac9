ghost use Rattle.std.specs.Prelude.{◌≡◌, ◌<◌, ◌≤◌, false, [], List, ℕ, ◌++◌};
ghost use Rattle.std.specs.Borrow.{Lends, sem};
ghost use Rattle.rpc_msg.specs.contracts.watched.Watched.{the_row};
ghost use Rattle.streams.specs.Stream.{left_of, faults_of, with_piece};
ghost use Rattle.streams.specs.Sink.{PutsWithin, PutsBytes, PutHasCause};
ghost use Rattle.rpc_msg.specs.Records.{records_of};
ghost use Rattle.rpc_msg.specs.Underway.{IsFresh, fresh};
ghost use Rattle.std.specs.Io.KnownBytes.{Keeps};
ghost use Rattle.streams.specs.declared.sink.Put.{Put};
ghost use Rattle.rpc_msg.specs.Watching.{bytes_limit, Watch, Signs, no_signs, is_down, down_of, got_of, PutsThrough, NextIs, wants, Brings, Asks, Reads, HasTold, standing};

use crate::records::{Fed, RecordFeed};
use std::marker::Model;
use streams::{Put, Sink, Source, Stream, Take};

// How many bytes are asked for at a time.
const ROOM: usize = 4096;

// So many bytes may come without a record's end.
const BYTES_LIMIT: u32 = 1_048_576;

/// What taking the next record from a link gives.
#[derive(Clone, Copy, PartialEq, Eq)]
pub enum Got {
    /// A record, which the [`Watched`] lends.
    Whole,
    /// The link is down.
    Down,
}

/// Why a link is down. Only a [`Watched`] makes one.
#[derive(Clone, Copy, PartialEq, Eq)]
pub struct Down {
    faults: u64,
    ended: bool,
    large: u32,
}

impl Model for Down {
    ghost use Rattle.std.specs.Prelude.{◌≡◌, true};
    ghost use Rattle.rpc_msg.specs.Watching.{Signs, is_down};

    ghost Value = { Signs };

    ghost view = { λ d. record { faults = d.faults; ended = d.ended; large = d.large } };

    ghost invariant = { λ d. is_down (record { faults = d.faults; ended = d.ended; large = d.large }) ≡ true };

    ghost inverse = { λ s. record { faults = s.faults; ended = s.ended; large = s.large } };
}

impl Down {
    /// How many calls the link failed. The count stops at the end of its type.
    pub fn faults(&self) -> u64
        ensures { result ≡ self.now.faults }
    {
        self.faults
    }

    /// Whether the link ended.
    pub fn ended(&self) -> bool
        ensures { result ≡ self.now.ended }
    {
        self.ended
    }

    /// The length of a record, or the bytes without a record's end, that passed the limit; 0 where
    /// none did.
    pub fn large(&self) -> u32
        ensures { result ≡ self.now.large }
    {
        self.large
    }
}

// What the unread bytes brought.
#[derive(Clone, Copy)]
enum Brought {
    Part,
    Whole,
    Down,
}

// What a link answered when it was asked for bytes.
#[derive(Clone, Copy)]
enum Asked {
    More,
    Ended,
    Failed,
}

/// A link from which records are taken (RFC 5531 section 11). It counts the bytes that the link takes,
/// and keeps what speaks against the link. It allocates nothing.
#[derive(Drop)]
pub struct Watched<L> {
    link: L,
    feed: RecordFeed,
    room: [u8; 4096],
    from: usize,
    until: usize,
    count: u32,
    sent: u64,
    faults: u64,
    ended: bool,
    large: u32,
}

impl<L> Model for Watched<L> {
    ghost use Rattle.std.specs.Prelude.{take, drop, ◌-◌};
    ghost use Rattle.rpc_msg.specs.Watching.{Watch};
    ghost use Rattle.rpc_msg.specs.Unread.{IsWatched};

    ghost Value = { Watch L };

    ghost view = { λ w. record {
      link = w.link;
      unread = take (w.until - w.from) (drop w.from w.room);
      feed = w.feed;
      count = w.count;
      sent = w.sent;
      signs = record { faults = w.faults; ended = w.ended; large = w.large };
    } };

    ghost invariant = { λ w. IsWatched w.from w.until w.count w.large w.feed.large };
}

impl<L: Source + Sink> Watched<L> {
    /// A link that nothing speaks against. The feed was given nothing.
    pub fn new(link: L, feed: RecordFeed) -> Watched<L>
        requires { IsFresh feed }
        ensures { result ≡ record { link = link; unread = []; feed = feed; count = 0; sent = 0; signs = no_signs } }
    {
        Watched {
            link,
            feed,
            room: [0; ROOM],
            from: 0,
            until: 0,
            count: 0,
            sent: 0,
            faults: 0,
            ended: false,
            large: 0,
        }
    }

    /// The link, lent. What is called on it in this way isn't counted.
    pub fn link(&mut self) -> &mut L
        ensures* lent { sem 𝓛 (Lends (the_row L.row) L.row self.entry result (λ link. record self.old { link = link })) }
        ensures value { result.now ≡ self.old.link }
    {
        &mut self.link
    }

    /// The link, handed back. Bytes that no record has taken are lost.
    pub fn into_link(self) -> L
        ensures { result ≡ self.link }
    {
        let Watched {
            link,
            feed: _,
            room: _,
            from: _,
            until: _,
            count: _,
            sent: _,
            faults: _,
            ended: _,
            large: _,
        } = self;
        link
    }

    /// How many bytes the link took. The count stops at the end of its type.
    pub fn sent(&self) -> u64
        ensures { result ≡ self.now.sent }
    {
        self.sent
    }

    /// The record that was taken last, after the answer `Whole` and up to the next one.
    pub fn record(&self) -> &[u8]
        ensures { result.now ≡ self.now.feed.told }
    {
        self.feed.record()
    }

    /// Why the link is down, once it is: a call of it failed, it ended, a record was too large, or
    /// 1,048,576 bytes came without a record's end.
    pub fn down(&self) -> Option<Down>
        ensures { result ≡ down_of self.now.signs }
    {
        if !self.is_down() {
            return None;
        }
        Some(Down {
            faults: self.faults,
            ended: self.ended,
            large: self.large,
        })
    }

    /// Takes the next record. The link is asked for bytes only where those that it gave before hold
    /// no record; once it is down it isn't asked, and nothing changes. What the link took stays.
    pub fn next(&mut self) -> Got
        ensures next { NextIs (left_of L.gives) (faults_of L.gives) self.old self.new result }
        ensures down { result ≡ got_of self.new.signs }
        ensures unasked { wants self.old ≡ false → self.new.link ≡ self.old.link }
        ensures later { (L.gives self.old.link).faults ≤ (L.gives self.new.link).faults }
        ensures whole { (L.gives self.new.link).whole ≡ (L.gives self.old.link).whole }
        ensures failing { (L.gives self.new.link).failing ≡ (L.gives self.old.link).failing }
        ensures puts { L.takes self.new.link ≡ L.takes self.old.link }
    {
        if self.is_down() {
            return Got::Down;
        }
        match self.read() {
            Brought::Part => self.ask(),
            Brought::Whole => Got::Whole,
            Brought::Down => Got::Down,
        }
    }

    fn is_down(&self) -> bool
        ensures { result ≡ is_down self.now.signs }
    {
        self.faults > 0 || self.ended || self.large > 0
    }

    // Asks the link for bytes until they end a record.
    fn ask(&mut self) -> Got
        requires up { self.old.signs ≡ no_signs }
        requires read { self.old.unread ≡ [] }
        requires few { self.old.count < bytes_limit }
        ensures next { NextIs (left_of L.gives) (faults_of L.gives) self.old self.new result }
        ensures down { result ≡ got_of self.new.signs }
        ensures later { (L.gives self.old.link).faults ≤ (L.gives self.new.link).faults }
        ensures whole { (L.gives self.new.link).whole ≡ (L.gives self.old.link).whole }
        ensures failing { (L.gives self.new.link).failing ≡ (L.gives self.old.link).failing }
        ensures puts { L.takes self.new.link ≡ L.takes self.old.link }
    {
        'takes: loop {
            match self.ask_once() {
                Asked::More => match self.read() {
                    Brought::Part => {}
                    Brought::Whole => return Got::Whole,
                    Brought::Down => return Got::Down,
                },
                Asked::Ended => return Got::Down,
                Asked::Failed => return Got::Down,
            }
        }
    }

    // Asks the link for bytes once.
    fn ask_once(&mut self) -> Asked
        requires up { self.old.signs ≡ no_signs }
        requires read { self.old.unread ≡ [] }
        ensures asked { Asks (left_of L.gives) (faults_of L.gives) self.old self.new result }
        ensures later { (L.gives self.old.link).faults ≤ (L.gives self.new.link).faults }
        ensures whole { (L.gives self.new.link).whole ≡ (L.gives self.old.link).whole }
        ensures failing { (L.gives self.new.link).failing ≡ (L.gives self.old.link).failing }
        ensures puts { L.takes self.new.link ≡ L.takes self.old.link }
    {
        match self.link.take(&mut self.room) {
            Take::Took(count) => {
                self.from = 0;
                self.until = count;
                Asked::More
            }
            Take::End => {
                self.ended = true;
                Asked::Ended
            }
            Take::Failed => {
                self.faults = 1;
                Asked::Failed
            }
        }
    }

    // Feeds the unread bytes, up to the end of a record, and no more than may come without one.
    fn read(&mut self) -> Brought
        requires up { self.old.signs ≡ no_signs }
        ensures { Brings self.old self.new result }
    {
        let most = (BYTES_LIMIT - self.count) as usize;
        let end = self.until.min(self.from + most);
        let (taken, fed) = self.feed.feed(&self.room.as_slice()[self.from..end]);
        self.from += taken;
        match fed {
            Fed::Whole => {
                self.count = 0;
                Brought::Whole
            }
            Fed::TooLarge { len } => {
                self.large = len;
                Brought::Down
            }
            Fed::Need => {
                self.count += taken as u32;
                if self.count < BYTES_LIMIT {
                    return Brought::Part;
                }
                self.large = BYTES_LIMIT;
                Brought::Down
            }
        }
    }
}

impl<L: Source + Sink> Stream for Watched<L> {
    ghost gives = { λ w. L.gives w.link };

    ghost takes = { λ w. L.takes w.link };
}

impl<L: Source + Sink> Sink for Watched<L> {
    fn put(&mut self, piece: &[u8]) -> Put
        ensures within { PutsWithin result piece.now }
        ensures bytes { PutsBytes (L.takes self.old.link).taken (L.takes self.new.link).taken result piece.now }
        ensures pieces { (L.takes self.new.link).pieces ≡ with_piece (L.takes self.old.link).pieces piece.now }
        ensures cause { PutHasCause (L.takes self.old.link).faults (L.takes self.new.link).faults result }
        ensures failing { (L.takes self.new.link).failing ≡ (L.takes self.old.link).failing }
        ensures gives { L.gives self.new.link ≡ L.gives self.old.link }
        ensures through { PutsThrough self.old self.new result }
    {
        let answer = self.link.put(piece);
        match answer {
            Put::Put(count) => self.sent = self.sent.saturating_add(count as u64),
            Put::Failed => self.faults = self.faults.saturating_add(1),
        }
        answer
    }
}

/// What the calls of a [`Watched`] tell, taken together, are the records of the bytes that its link
/// gave, however these were cut into pieces: what one call tells comes after what was told before,
/// a put that leaves the link's bytes changes nothing of it, and all that was told are the records of
/// the bytes read (RFC 5531 section 11), which are those given but for the unread ones.
pub fn nexts_join<L: Source>()
    ensures start { (now : Watch L) → now.unread ≡ [] → now.count ≡ 0 → IsFresh now.feed → HasTold (left_of L.gives) now.link now [] }
    ensures more { (start : L) (old new : Watch L) (records others : List (List ℕ)) → HasTold (left_of L.gives) start old records
        → Reads (left_of L.gives) old new others (standing new) → HasTold (left_of L.gives) start new (records ++ others) }
    ensures put { (start : L) (old new : Watch L) (records : List (List ℕ)) (said : Put) → HasTold (left_of L.gives) start old records
        → PutsThrough old new said → Keeps (L.gives old.link).left (L.gives new.link).left → HasTold (left_of L.gives) start new records }
    ensures records { (start : L) (now : Watch L) (records : List (List ℕ)) (told : HasTold (left_of L.gives) start now records)
        → (records_of told.bytes).records ≡ records }
{}
