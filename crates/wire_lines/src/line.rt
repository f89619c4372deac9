//! A line of a transcript.

ghost use Rattle.std.specs.Prelude.{◌≡◌, ◌<◌, Some};
ghost use Rattle.wire_lines.specs.LineText.{kept_text, seal_text, sealed_text};
ghost use Rattle.wire_schedule.specs.Numerals.{hex_digit, hex_text};

use crate::label::Called;
use crate::letters::{Speaker, end_letter};
use crate::note::Noted;
use nfs_base::{End, Seal, Side};
use outbox::{Label, Note};
use outcome::Mem;
use std::fmt;
use volume_stops::Kept;
use wire_xdr::Octets;

/// One line of a transcript. Records go by number, counted from 1; offsets are bytes.
#[derive(Drop)]
pub enum Line {
    /// A record was sent.
    Sent {
        number: u64,
        from: End,
        to: End,
        label: Label,
    },

    /// No record of this number was sent that could be delivered.
    NoRecord {
        number: u64,
    },

    /// What happened at an end.
    Note {
        by: Speaker,
        note: Note,
    },

    /// Bytes of a file, as they are now.
    Bytes {
        side: Side,
        file: u32,
        off: u64,
        bytes: Octets,
    },

    /// A server stopped, its disk crashed and it was opened anew: the number of this opening, and what the crash kept of a commit.
    Crash {
        side: Side,
        boot: u32,
        kept: Kept,
    },

    /// A record was accepted under a seal that isn't its own, or as the answer to another call: the seal under which it was
    /// accepted, and that of the first record with its bytes.
    Mistaken {
        accepted: Seal,
        sealed: Option<Seal>,
    },

    /// The last line of a whole run: how many records were sent.
    End {
        records: u64,
    },
}

impl fmt::Display for Line {
    ghost use Rattle.std.specs.Prelude.{Some};
    ghost use Rattle.wire_lines.specs.LineText.{shown_text};

    ghost output = { λ line. Some (shown_text line) };

    fn fmt<W: fmt::Write>(&self, f: &mut fmt::Formatter<W>) -> fmt::Result {
        match self {
            Line::Sent {
                number,
                from,
                to,
                label,
            } => {
                let from = end_letter(*from);
                let to = end_letter(*to);
                let called = Called { label: *label };
                write!(f, "sent {number} {from}{to} {called}")
            }
            Line::NoRecord { number } => write!(f, "none {number}"),
            Line::Note { by, note } => {
                let noted = Noted {
                    by: *by,
                    note: *note,
                };
                write!(f, "{noted}")
            }
            Line::Bytes {
                side,
                file,
                off,
                bytes,
            } => {
                let hex = Hex {
                    bytes: bytes.as_slice(),
                };
                write!(f, "bytes {side} {file} {off} {hex}")
            }
            Line::Crash { side, boot, kept } => {
                let kept = kept_word(*kept);
                write!(f, "crash {side} {boot} {kept}")
            }
            Line::Mistaken { accepted, sealed } => {
                let accepted = Sealed {
                    seal: Some(*accepted),
                };
                let sealed = Sealed { seal: *sealed };
                write!(f, "mistaken {accepted} {sealed}")
            }
            Line::End { records } => write!(f, "end {records}"),
        }
    }
}

impl Line {
    ghost use Rattle.std.specs.Prelude.{◌≡◌, ◌++◌, OnOk};
    ghost use Rattle.std.specs.String.{string_bytes};
    ghost use Rattle.wire_lines.specs.LineText.{line_text};

    /// Writes the line, with its newline, at the end of a text. Where memory runs out, a part of it may stand there.
    pub fn push_to(&self, text: &mut String) -> Mem<()>
        ensures { OnOk result (string_bytes text.new ≡ string_bytes text.old ++ line_text self.now) }
    {
        writeln!(text, "{self}")?;
        Ok(())
    }
}

/// A seal, or none.
#[derive(Clone, Copy)]
struct Sealed {
    seal: Option<Seal>,
}

impl fmt::Display for Sealed {
    ghost output = { λ sealed. Some (sealed_text sealed.seal) };

    fn fmt<W: fmt::Write>(&self, f: &mut fmt::Formatter<W>) -> fmt::Result {
        match self.seal {
            None => f.write_str("none"),
            Some(
                Seal {
                    owner,
                    boot,
                    number,
                    seq,
                },
            ) => {
                let owner = end_letter(owner);
                write!(f, "{owner}.{boot}.{number} {seq}")
            }
        }
    }
}

/// What a crash kept of a commit, as a word.
fn kept_word(kept: Kept) -> &'static str
    ensures { result.now ≡ kept_text kept }
{
    match kept {
        Kept::Old => "old",
        Kept::New => "new",
        Kept::Nothing => "none",
    }
}

/// Bytes as text: two lower-case hexadecimal digits for each.
#[derive(Drop)]
struct Hex<'a> {
    bytes: &'a [u8],
}

impl fmt::Display for Hex<'_> {
    ghost output = { λ hex. Some (hex_text hex.bytes.now) };

    fn fmt<W: fmt::Write>(&self, f: &mut fmt::Formatter<W>) -> fmt::Result {
        for byte in self.bytes {
            let high = hex_digit(*byte / 16);
            let low = hex_digit(*byte % 16);
            write!(f, "{high}{low}")?;
        }
        Ok(())
    }
}

/// A hexadecimal digit, in lower case.
fn hex_digit(value: u8) -> char
    requires { value < 16 }
    ensures value { result ≡ hex_digit value }
    ensures ascii { result < 128 }
{
    let digit = if value < 10 {
        b'0' + value
    } else {
        b'a' + (value - 10)
    };
    char::from(digit)
}
