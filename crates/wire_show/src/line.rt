use nfs_compound::{cb_name_of, name_of};
use outcome::Mem;
use rpc_msg::{Denial, Stat};
use std::alloc::Global;
use std::fmt;

/// One line of what is shown. Places are counted in bytes from the start of the record.
#[derive(Clone, Copy, PartialEq, Eq)]
pub enum ShownLine {
    /// A record, counted from 1, and its length in bytes.
    Record {
        number: u64,
        len: usize,
    },

    /// The head of a call, with the flavor of its credential.
    Call {
        xid: u32,
        prog: u32,
        vers: u32,
        proc: u32,
        flavor: u32,
    },

    /// The head of a reply to a call that was accepted.
    Accepted {
        xid: u32,
        stat: Stat,
    },

    /// The head of a reply to a call that was denied.
    Denied {
        xid: u32,
        why: Denial,
    },

    /// An operation of a COMPOUND, by its place, counted from 0, and its number.
    Op {
        place: usize,
        op: u32,
    },

    /// An operation of a CB_COMPOUND.
    Callback {
        place: usize,
        op: u32,
    },

    /// The operation at this place can't be read.
    Unreadable {
        place: u32,
    },

    /// The operation at this place isn't served.
    Unsupported {
        place: u32,
    },

    /// No operation has the number that stands at this place.
    Illegal {
        place: u32,
    },

    /// What stands in the record can't be read from this place on, which may be the sum of two.
    Unread {
        at: u128,
    },

    /// The input ended, so many bytes after its last whole record.
    Rest {
        count: u64,
    },

    /// The lengths of a record's fragments, summed, pass the limit.
    Large {
        len: u32,
    },

    /// The input passes its limit.
    TooMuch,
}

impl fmt::Display for ShownLine {
    ghost use Rattle.std.specs.Prelude.{Some};
    ghost use Rattle.wire_show.specs.Text.{line_words};

    ghost output = { λ line. Some (line_words line) };

    fn fmt<W: fmt::Write>(&self, f: &mut fmt::Formatter<W>) -> fmt::Result {
        match self {
            ShownLine::Record { number, len } => write!(f, "record {number} {len}"),
            ShownLine::Call {
                xid,
                prog,
                vers,
                proc,
                flavor,
            } => write!(f, "call {xid} {prog} {vers} {proc} {flavor}"),
            ShownLine::Accepted { xid, stat } => {
                let number = stat.number();
                write!(f, "reply {xid} 0 {number}")
            }
            ShownLine::Denied { xid, why } => match why {
                Denial::Mismatch { .. } => write!(f, "reply {xid} 1 mismatch"),
                Denial::Auth(stat) => write!(f, "reply {xid} 1 denied {stat}"),
            },
            ShownLine::Op { place, op } => {
                let name = name_of(*op);
                write!(f, "op {place} {name}")
            }
            ShownLine::Callback { place, op } => {
                let name = cb_name_of(*op);
                write!(f, "op {place} {name}")
            }
            ShownLine::Unreadable { place } => write!(f, "tail {place} unreadable"),
            ShownLine::Unsupported { place } => write!(f, "tail {place} unsupported"),
            ShownLine::Illegal { place } => write!(f, "tail {place} illegal"),
            ShownLine::Unread { at } => write!(f, "unread {at}"),
            ShownLine::Rest { count } => write!(f, "rest {count}"),
            ShownLine::Large { len } => write!(f, "large {len}"),
            ShownLine::TooMuch => f.write_str("too much"),
        }
    }
}

impl ShownLine {
    ghost use Rattle.std.specs.Prelude.{◌≡◌, ◌++◌, IfOk, OnOk};
    ghost use Rattle.std.specs.String.{string_bytes};
    ghost use Rattle.wire_show.specs.Text.{line_text, lines_text};

    /// Writes the line, with its newline, at the end of a text. Where memory runs out, a part of it may
    /// stand there.
    pub fn push_to(&self, text: &mut String) -> Mem<()>
        ensures { OnOk result (string_bytes text.new ≡ string_bytes text.old ++ line_text self.now) }
    {
        writeln!(text, "{self}")?;
        Ok(())
    }

    /// The text of lines, one after the other.
    pub fn text_of(alloc: Global, lines: &[ShownLine]) -> Mem<String>
        ensures { IfOk result (λ text. string_bytes text ≡ lines_text lines.now) }
    {
        let mut text = String::new(alloc);
        for line in lines {
            line.push_to(&mut text)?;
        }
        Ok(text)
    }
}
