ghost use Rattle.std.specs.Prelude.{◌≡◌, ◌+◌, ◌*◌, ◌<◌, ◌≤◌, ◌^◌, ◌↔◌, get_or, length, IsSome, IfSome, IfOk};
ghost use Rattle.large_copy.specs.Large.{blocks_of, copy, events_count, file_bytes, flows_of, large_events, large_lines, rounds_of, singles_of, write, writes_of};

use nfs_base::{CopySpec, Side};
use outcome::Mem;
use std::alloc::Global;
use std::marker::Model;
use wire_schedule::{Directive, Event};
use wire_xdr::Octets;

/// How many mebibytes a large copy has at most.
const MOST_MEBIBYTES: u8 = 64;

/// How many blocks a mebibyte has.
const MEBIBYTE_BLOCKS: u32 = 256;

/// How many writes fill a mebibyte.
const MEBIBYTE_WRITES: u32 = 16;

/// How many bytes one write has.
const WRITTEN: u64 = 65_536;

/// How many mebibytes a large copy has: 1 to 64.
#[derive(Clone, Copy, PartialEq, Eq)]
pub struct LargeCopy {
    mebibytes: u8,
}

impl Model for LargeCopy {
    ghost use Rattle.std.specs.Prelude.{ℕ, ◌≤◌};

    ghost Value = { ℕ };

    ghost view = { λ c. c.mebibytes };

    ghost invariant = { λ c. (1 ≤ c.mebibytes) × (c.mebibytes ≤ 64) };

    ghost inverse = { λ mebibytes. record { mebibytes = mebibytes } };
}

impl LargeCopy {
    /// A copy of so many mebibytes, where they are 1 to 64.
    pub fn new(mebibytes: u8) -> Option<LargeCopy>
        ensures some { IsSome result ↔ ((1 ≤ mebibytes) × (mebibytes ≤ 64)) }
        ensures same { IfSome result (λ large. large ≡ mebibytes) }
    {
        if mebibytes < 1 || mebibytes > MOST_MEBIBYTES {
            return None;
        }
        Some(LargeCopy { mebibytes })
    }

    /// How many mebibytes it has.
    pub fn mebibytes(self) -> u8
        ensures same { result ≡ self }
        ensures some { 1 ≤ self }
        ensures few { self ≤ 64 }
    {
        self.mebibytes
    }

    /// How many events its schedule has.
    pub fn len(self) -> u32
        ensures whole { result ≡ length (large_events self) }
        ensures number { result ≡ events_count self }
    {
        self.first_round() + 2 * self.rounds()
    }

    /// An event of its schedule, by its place from 0 on. Only a write wants memory, for its bytes.
    pub fn event(self, alloc: Global, place: u32) -> Mem<Event>
        requires { place < length (large_events self) }
        ensures { IfOk result (λ event. event ≡ get_or (large_events self) place event) }
    {
        let first_round = self.first_round();
        if place < first_round {
            self.single(alloc, place)
        } else if (place - first_round) % 2 == 0 {
            Ok(Event::Flow)
        } else {
            Ok(Event::Work { worker: 1 })
        }
    }

    /// The event of a line of its own.
    fn single(self, alloc: Global, place: u32) -> Mem<Event>
        requires { place < singles_of self }
        ensures { IfOk result (λ event. Directive.Once event ≡ get_or (large_lines self) place (Directive.Once event)) }
    {
        let first_flow = 2 + self.writes();
        let copy_place = first_flow + self.flows();
        if place == 0 {
            Ok(self.volume(Side::Source))
        } else if place == 1 {
            Ok(self.volume(Side::Dest))
        } else if place < first_flow {
            write(alloc, place - 2)
        } else if place < copy_place {
            Ok(Event::Flow)
        } else {
            Ok(copy())
        }
    }

    /// The place of the first event of the rounds.
    fn first_round(self) -> u32
        ensures number { result ≡ singles_of self }
        ensures few { result ≤ 3085 }
    {
        3 + self.writes() + self.flows()
    }

    fn volume(self, side: Side) -> Event
        ensures { result ≡ Event.Volume side 1 (blocks_of self) }
    {
        Event::Volume {
            side,
            files: 1,
            blocks: MEBIBYTE_BLOCKS * u32::from(self.mebibytes),
        }
    }

    fn writes(self) -> u32
        ensures number { result ≡ writes_of self }
        ensures few { result ≤ 1024 }
    {
        MEBIBYTE_WRITES * u32::from(self.mebibytes)
    }

    fn flows(self) -> u32
        ensures number { result ≡ flows_of self }
        ensures few { result ≤ 2058 }
    {
        2 * (5 + self.writes())
    }

    fn rounds(self) -> u32
        ensures number { result ≡ rounds_of self }
        ensures few { result ≤ 2112 }
    {
        64 + 32 * u32::from(self.mebibytes)
    }
}

/// The write of a number, counted from 0.
fn write(alloc: Global, number: u32) -> Mem<Event>
    requires { number < 1024 }
    ensures { IfOk result (λ event. Directive.Once event ≡ write number) }
{
    let off = WRITTEN * u64::from(number);
    Ok(Event::Write {
        side: Side::Source,
        file: 1,
        off,
        bytes: file_bytes(alloc, off)?,
    })
}

/// The bytes of a write at this offset: byte i of the file is i mod 251.
fn file_bytes(alloc: Global, off: u64) -> Mem<Octets>
    requires { off < 2 ^ 32 }
    ensures { IfOk result (λ bytes. bytes ≡ file_bytes off 65536) }
{
    let mut bytes = Vec::with_capacity(alloc, WRITTEN as usize)?;
    for k in 0..WRITTEN {
        bytes.push(((off + k) % 251) as u8)?;
    }
    Ok(Octets::from_vec(bytes))
}

/// All of the file is copied, consecutively.
fn copy() -> Event
    ensures { Directive.Once result ≡ copy }
{
    Event::Copy {
        copy: 1,
        spec: CopySpec {
            src_file: 1,
            src_off: 0,
            dst_file: 1,
            dst_off: 0,
            count: 0,
            consecutive: true,
        },
    }
}
