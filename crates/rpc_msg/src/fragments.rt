ghost use Rattle.std.specs.Prelude.{◌≡◌, ◌≤◌, ◌<◌, ◌==◌, List, [], length, drop, IfOk};
ghost use Rattle.rpc_msg.specs.Underway.{Under, fresh, between, cut, on_end, on_header, on_header_byte, on_body, Makes, MakesCut};

use crate::records::{LAST, RECORD_LIMIT};
use outcome::Mem;
use std::alloc::Global;
use std::marker::Model;

// The room for one record.
const ROOM: usize = RECORD_LIMIT as usize;

/// What some bytes made of a record under way.
#[derive(Clone, Copy)]
pub(crate) enum Progress {
    /// It goes on.
    Goes,
    /// It ended, and its bytes are whole.
    Ends,
    /// The lengths of its fragments, summed, passed the limit.
    Passes(u32),
}

/// A record under way: the bytes of its fragments so far, and what is known of the fragment at hand.
#[derive(Drop)]
pub(crate) struct Fragments {
    bytes: Vec<u8>,
    header_bytes: u32,
    header: u32,
    lacking: usize,
    last: bool,
}

impl Model for Fragments {
    ghost use Rattle.std.specs.Prelude.{length, vec_capacity};
    ghost use Rattle.rpc_msg.specs.Underway.{Under};
    ghost use Rattle.rpc_msg.specs.Room.{HasRoom};

    ghost Value = { Under };

    ghost view = { λ f. record {
      joined = f.bytes.items;
      header_bytes = f.header_bytes;
      header = f.header;
      lacking = f.lacking;
      last = f.last;
    } };

    ghost invariant = { λ f. HasRoom (length f.bytes.items) (vec_capacity f.bytes) f.header_bytes f.header f.lacking };
}

impl Fragments {
    /// No byte came. It takes the room for a whole record.
    pub(crate) fn new(alloc: Global) -> Mem<Fragments>
        ensures { IfOk result (λ fragments. fragments ≡ fresh) }
    {
        Ok(Fragments {
            bytes: Vec::with_capacity(alloc, ROOM)?,
            header_bytes: 0,
            header: 0,
            lacking: 0,
            last: false,
        })
    }

    /// The bytes so far.
    pub(crate) fn bytes(&self) -> &[u8]
        ensures { result.now ≡ self.now.joined }
    {
        self.bytes.as_slice()
    }

    /// Drops the bytes so far. The room stays.
    pub(crate) fn clear(&mut self)
        ensures { self.new ≡ fresh }
    {
        self.bytes.clear();
        self.rest_between();
    }

    /// Takes bytes from the front of the piece, up to the end of a fragment, and says how many.
    pub(crate) fn take(&mut self, piece: &[u8]) -> (usize, Progress)
        requires { 0 < length piece.now }
        ensures some { 0 < result.0 }
        ensures within { result.0 ≤ length piece.now }
        ensures made { MakesCut (cut self.old piece.now) (drop result.0 piece.now) result.1 self.new }
    {
        if self.lacking == 0 {
            return (1, self.header_byte(piece[0]));
        }
        let count = self.lacking.min(piece.len());
        (count, self.body(&piece[..count]))
    }

    // One more byte of a header.
    fn header_byte(&mut self, byte: u8) -> Progress
        requires { self.old.lacking ≡ 0 }
        ensures { Makes (on_header_byte self.old byte) result self.new }
    {
        let header = self.header * 256 + u32::from(byte);
        if self.header_bytes == 3 {
            return self.whole_header(header);
        }
        self.header_bytes += 1;
        self.header = header;
        Progress::Goes
    }

    // A whole header.
    fn whole_header(&mut self, header: u32) -> Progress
        requires { self.old.lacking ≡ 0 }
        ensures { Makes (on_header self.old.joined header) result self.new }
    {
        let last = header >= LAST;
        let len = if last { header - LAST } else { header };
        let sum = self.bytes.len() as u32 + len;
        if sum > RECORD_LIMIT {
            return Progress::Passes(sum);
        }
        if len == 0 {
            return self.fragment_end(last);
        }
        self.header_bytes = 0;
        self.header = 0;
        self.lacking = len as usize;
        self.last = last;
        Progress::Goes
    }

    // Bytes of a fragment.
    fn body(&mut self, bytes: &[u8]) -> Progress
        requires { length bytes.now ≤ self.old.lacking }
        ensures { Makes (on_body self.old bytes.now) result self.new }
    {
        self.bytes.extend_from_slice(bytes).unwrap();
        self.lacking -= bytes.len();
        if self.lacking == 0 {
            return self.fragment_end(self.last);
        }
        Progress::Goes
    }

    // The end of a fragment.
    fn fragment_end(&mut self, last: bool) -> Progress
        ensures { Makes (on_end self.old.joined last) result self.new }
    {
        self.rest_between();
        if last { Progress::Ends } else { Progress::Goes }
    }

    // The next header is to come.
    fn rest_between(&mut self)
        ensures { self.new ≡ between self.old.joined }
    {
        self.header_bytes = 0;
        self.header = 0;
        self.lacking = 0;
        self.last = false;
    }
}
