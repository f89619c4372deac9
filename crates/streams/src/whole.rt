ghost use Rattle.std.specs.Prelude.{◌≡◌, ℕ, ◌<◌, ◌≤◌, List, ◌++◌, length, Some, codes, IfOk, OnOk, OnErr};
ghost use Rattle.std.specs.declared.option.Option.{Option};
ghost use Rattle.std.specs.Io.KnownBytes.{Appends};
ghost use Rattle.outcome.specs.Causes.{HasCause};
ghost use Rattle.streams.specs.Source.{TookWithin, TakesBytes, TakeHasCause};
ghost use Rattle.streams.specs.Sink.{AppendsFront, Offers};
ghost use Rattle.streams.specs.Whole.{WholeIs, WholeHasCause, TakesFront};

use crate::sink::{Put, Sink};
use crate::source::{Source, Take};
use outcome::Mem;
use std::alloc::Global;
use std::error::Error;
use std::fmt;

// How many bytes are asked for at a time.
const ROOM: usize = 4096;

/// All that a source has, or why it wasn't read.
#[derive(Drop)]
pub enum Whole {
    /// All the bytes that it had left.
    Text(Vec<u8>),
    /// It has more bytes than the limit.
    TooMuch,
    /// A fault of the source.
    Failed,
}

/// A fault of the sink.
#[derive(Clone, Copy, Debug, PartialEq, Eq)]
pub struct WriteFault;

impl fmt::Display for WriteFault {
    ghost output = { λ _. Some (codes "a write failed") };

    fn fmt<W: fmt::Write>(&self, f: &mut fmt::Formatter<W>) -> fmt::Result {
        f.write_str("a write failed")
    }
}

impl Error for WriteFault {}

/// Takes at most so many bytes into the front of the room.
pub fn take_some<S: Source>(source: &mut S, room: &mut [u8], most: u64) -> Take
    requires some { 0 < most }
    requires room { 0 < length room.old }
    ensures within { TookWithin most result room.new }
    ensures bytes { TakesBytes (S.gives source.old).left (S.gives source.new).left result room.new }
    ensures cause { TakeHasCause (S.gives source.old).faults (S.gives source.new).faults result }
    ensures same_whole { (S.gives source.new).whole ≡ (S.gives source.old).whole }
    ensures failing { (S.gives source.new).failing ≡ (S.gives source.old).failing }
    ensures puts { S.takes source.new ≡ S.takes source.old }
{
    let count = room.len().min(most as usize);
    source.take(&mut room[..count])
}

/// Takes all that a source has left, if that is at most `limit` bytes.
pub fn read_whole<S: Source>(alloc: Global, source: &mut S, limit: usize) -> Mem<Whole>
    ensures whole { IfOk result (WholeIs (S.gives source.old).left (S.gives source.new).left limit) }
    ensures err { OnErr result (TakesFront (S.gives source.old).left (S.gives source.new).left) }
    ensures later { (S.gives source.old).faults ≤ (S.gives source.new).faults }
    ensures cause { IfOk result (WholeHasCause (S.gives source.old).faults (S.gives source.new).faults) }
    ensures same_whole { (S.gives source.new).whole ≡ (S.gives source.old).whole }
    ensures failing { (S.gives source.new).failing ≡ (S.gives source.old).failing }
    ensures puts { S.takes source.new ≡ S.takes source.old }
{
    let mut text = Vec::new(alloc);
    let mut room = [0; ROOM];
    'takes: while text.len() <= limit {
        match source.take(&mut room) {
            Take::Took(count) => text.extend_from_slice(&room[..count])?,
            Take::End => return Ok(Whole::Text(text)),
            Take::Failed => return Ok(Whole::Failed),
        }
    }
    Ok(Whole::TooMuch)
}

/// Puts all of the bytes, as one piece: a further put comes only for what the sink left of it. After a
/// fault a front of them was put.
pub fn put_all<K: Sink>(sink: &mut K, bytes: &[u8]) -> Result<(), WriteFault>
    ensures ok { OnOk result (Appends (K.takes sink.old).taken (K.takes sink.new).taken bytes.now) }
    ensures err { OnErr result (AppendsFront (K.takes sink.old).taken (K.takes sink.new).taken bytes.now) }
    ensures pieces { Offers (K.takes sink.old).pieces (K.takes sink.new).pieces bytes.now }
    ensures cause { HasCause (K.takes sink.old).faults (K.takes sink.new).faults result }
    ensures failing { (K.takes sink.new).failing ≡ (K.takes sink.old).failing }
    ensures takes { K.gives sink.new ≡ K.gives sink.old }
{
    let mut at = 0;
    'puts: while at < bytes.len() {
        match sink.put(&bytes[at..]) {
            Put::Put(count) => at += count,
            Put::Failed => return Err(WriteFault),
        }
    }
    Ok(())
}

/// Puts add up: what was put of two pieces, one after the other, is a front of both together.
pub fn puts_join()
    ensures all { (old middle new : Option (List ℕ)) (first second : List ℕ)
        → Appends old middle first → AppendsFront middle new second
        → AppendsFront old new (first ++ second) }
    ensures front { (old new : Option (List ℕ)) (first second : List ℕ)
        → AppendsFront old new first → AppendsFront old new (first ++ second) }
    ensures whole { (old new : Option (List ℕ)) (bytes : List ℕ)
        → Appends old new bytes → AppendsFront old new bytes }
{}
