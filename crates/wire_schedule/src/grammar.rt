ghost use Rattle.wire_schedule.specs.Grammar.{cancel_of, commit_of, consecutive_of, copy_of, copy_spec_of, crash_after_of, crash_of, crash_then_of, crash_now_of, deliver_of, directive_of, event_of, flows_of, lone_of, more_of, peek_of, rounds_of, side_of, status_of, tick_of, volume_of, work_of, write_of};
ghost use Rattle.wire_schedule.specs.Words.{words_of};
ghost use Rattle.std.specs.Prelude.{◌≡◌, IfOk};

use crate::numerals::{bytes, number, number_u8, number_u32};
use crate::words::{first_word, four, one, six, three, two};
use crate::{Directive, Event};
use nfs_base::{CopySpec, Side};
use outcome::Mem;
use std::alloc::Global;

/// Reads what a line gives, by its first word.
#[tactic(auto, using(crate::proofs::GrammarLemmas::directive_of_one, crate::proofs::GrammarLemmas::directive_of_more))]
pub(crate) fn read_directive(alloc: Global, line: &[u8]) -> Mem<Option<Directive>>
    ensures { IfOk result (λ directive. directive ≡ directive_of (words_of line.now)) }
{
    match first_word(line) {
        (kind, None) => Ok(read_lone(kind)),
        (kind, Some(words)) => read_more(alloc, kind, words),
    }
}

/// A line of one word: `retry` or `flow`.
#[tactic(auto, unfolding(crate::specs::Grammar::lone_of))]
fn read_lone(kind: &[u8]) -> Option<Directive>
    ensures { result ≡ lone_of kind.now }
{
    if kind == b"retry".as_slice() {
        Some(Directive::Once(Event::Retry))
    } else if kind == b"flow".as_slice() {
        Some(Directive::Once(Event::Flow))
    } else {
        None
    }
}

/// A line of more words, by the first and those after it.
#[tactic(auto, unfolding(crate::specs::Grammar::more_of))]
fn read_more(alloc: Global, kind: &[u8], words: &[u8]) -> Mem<Option<Directive>>
    ensures { IfOk result (λ directive. directive ≡ more_of kind.now (words_of words.now)) }
{
    if kind == b"flow".as_slice() {
        Ok(read_flows(words))
    } else if kind == b"rounds".as_slice() {
        Ok(read_rounds(words))
    } else {
        match read_event(alloc, kind, words)? {
            None => Ok(None),
            Some(event) => Ok(Some(Directive::Once(event))),
        }
    }
}

/// `flow K`, after its first word; the next functions read the other lines so.
#[tactic(auto, unfolding(crate::specs::Grammar::flows_of))]
fn read_flows(words: &[u8]) -> Option<Directive>
    ensures { result ≡ flows_of (words_of words.now) }
{
    let times = number_u32(one(words)?)?;
    Some(Directive::Flows { times })
}

/// `rounds K`.
#[tactic(auto, unfolding(crate::specs::Grammar::rounds_of))]
fn read_rounds(words: &[u8]) -> Option<Directive>
    ensures { result ≡ rounds_of (words_of words.now) }
{
    let times = number_u32(one(words)?)?;
    Some(Directive::Rounds { times })
}

/// A line of one event.
#[tactic(auto, unfolding(crate::specs::Grammar::event_of))]
fn read_event(alloc: Global, kind: &[u8], words: &[u8]) -> Mem<Option<Event>>
    ensures { IfOk result (λ event. event ≡ event_of kind.now (words_of words.now)) }
{
    if kind == b"volume".as_slice() {
        Ok(read_volume(words))
    } else if kind == b"write".as_slice() {
        read_write(alloc, words)
    } else if kind == b"commit".as_slice() {
        Ok(read_commit(words))
    } else if kind == b"copy".as_slice() {
        Ok(read_copy(words))
    } else if kind == b"status".as_slice() {
        Ok(read_status(words))
    } else if kind == b"cancel".as_slice() {
        Ok(read_cancel(words))
    } else if kind == b"deliver".as_slice() {
        Ok(read_deliver(words))
    } else if kind == b"work".as_slice() {
        Ok(read_work(words))
    } else if kind == b"tick".as_slice() {
        Ok(read_tick(words))
    } else if kind == b"peek".as_slice() {
        Ok(read_peek(words))
    } else if kind == b"crash".as_slice() {
        Ok(read_crash(words))
    } else {
        Ok(None)
    }
}

/// `volume X FILES BLOCKS`.
#[tactic(auto, unfolding(crate::specs::Grammar::volume_of))]
fn read_volume(words: &[u8]) -> Option<Event>
    ensures { result ≡ volume_of (words_of words.now) }
{
    let (side, files, blocks) = three(words)?;
    Some(Event::Volume {
        side: read_side(side)?,
        files: number_u32(files)?,
        blocks: number_u32(blocks)?,
    })
}

/// `write X FILE OFF HEX`.
#[tactic(auto, unfolding(crate::specs::Grammar::write_of))]
fn read_write(alloc: Global, words: &[u8]) -> Mem<Option<Event>>
    ensures { IfOk result (λ event. event ≡ write_of (words_of words.now)) }
{
    let Some((side, file, off, hex)) = four(words) else {
        return Ok(None);
    };
    let (Some(side), Some(file), Some(off)) = (read_side(side), number_u32(file), number(off))
    else {
        return Ok(None);
    };
    match bytes(alloc, hex)? {
        Some(bytes) => Ok(Some(Event::Write {
            side,
            file,
            off,
            bytes,
        })),
        None => Ok(None),
    }
}

/// `commit X FILE`.
#[tactic(auto, unfolding(crate::specs::Grammar::commit_of))]
fn read_commit(words: &[u8]) -> Option<Event>
    ensures { result ≡ commit_of (words_of words.now) }
{
    let (side, file) = two(words)?;
    Some(Event::Commit {
        side: read_side(side)?,
        file: number_u32(file)?,
    })
}

/// `copy J SFILE SOFF DFILE DOFF COUNT c`, or `n` at the end.
#[tactic(auto, using(crate::proofs::GrammarLemmas::copy_of_one), unfolding(crate::specs::Grammar::copy_of))]
fn read_copy(words: &[u8]) -> Option<Event>
    ensures { result ≡ copy_of (words_of words.now) }
{
    let (copy, Some(spec)) = first_word(words) else {
        return None;
    };
    Some(Event::Copy {
        copy: number_u8(copy)?,
        spec: read_copy_spec(spec)?,
    })
}

/// What a copy is asked for: `SFILE SOFF DFILE DOFF COUNT c`, or `n` at the end.
#[tactic(auto, unfolding(crate::specs::Grammar::copy_spec_of))]
fn read_copy_spec(words: &[u8]) -> Option<CopySpec>
    ensures { result ≡ copy_spec_of (words_of words.now) }
{
    let (src_file, src_off, dst_file, dst_off, count, consecutive) = six(words)?;
    Some(CopySpec {
        src_file: number_u32(src_file)?,
        src_off: number(src_off)?,
        dst_file: number_u32(dst_file)?,
        dst_off: number(dst_off)?,
        count: number(count)?,
        consecutive: read_consecutive(consecutive)?,
    })
}

/// `status J`.
#[tactic(auto, unfolding(crate::specs::Grammar::status_of))]
fn read_status(words: &[u8]) -> Option<Event>
    ensures { result ≡ status_of (words_of words.now) }
{
    let copy = number_u8(one(words)?)?;
    Some(Event::Status { copy })
}

/// `cancel J`.
#[tactic(auto, unfolding(crate::specs::Grammar::cancel_of))]
fn read_cancel(words: &[u8]) -> Option<Event>
    ensures { result ≡ cancel_of (words_of words.now) }
{
    let copy = number_u8(one(words)?)?;
    Some(Event::Cancel { copy })
}

/// `deliver N`.
#[tactic(auto, unfolding(crate::specs::Grammar::deliver_of))]
fn read_deliver(words: &[u8]) -> Option<Event>
    ensures { result ≡ deliver_of (words_of words.now) }
{
    let number = number(one(words)?)?;
    Some(Event::Deliver { number })
}

/// `work W`.
#[tactic(auto, unfolding(crate::specs::Grammar::work_of))]
fn read_work(words: &[u8]) -> Option<Event>
    ensures { result ≡ work_of (words_of words.now) }
{
    let worker = number_u8(one(words)?)?;
    Some(Event::Work { worker })
}

/// `tick N`.
#[tactic(auto, unfolding(crate::specs::Grammar::tick_of))]
fn read_tick(words: &[u8]) -> Option<Event>
    ensures { result ≡ tick_of (words_of words.now) }
{
    let seconds = number_u32(one(words)?)?;
    Some(Event::Tick { seconds })
}

/// `peek X FILE OFF LEN`.
#[tactic(auto, unfolding(crate::specs::Grammar::peek_of))]
fn read_peek(words: &[u8]) -> Option<Event>
    ensures { result ≡ peek_of (words_of words.now) }
{
    let (side, file, off, len) = four(words)?;
    Some(Event::Peek {
        side: read_side(side)?,
        file: number_u32(file)?,
        off: number(off)?,
        len: number_u8(len)?,
    })
}

/// `crash X P`, or `crash X after K P`.
#[tactic(auto, unfolding(crate::specs::Grammar::crash_of))]
fn read_crash(words: &[u8]) -> Option<Event>
    ensures { result ≡ crash_of (words_of words.now) }
{
    match read_crash_now(words) {
        Some(event) => Some(event),
        None => read_crash_after(words),
    }
}

/// `crash X P`.
#[tactic(auto, unfolding(crate::specs::Grammar::crash_now_of))]
fn read_crash_now(words: &[u8]) -> Option<Event>
    ensures { result ≡ crash_now_of (words_of words.now) }
{
    let (side, pick) = two(words)?;
    Some(Event::Crash {
        side: read_side(side)?,
        pick: number_u8(pick)?,
    })
}

/// `crash X after K P`.
#[tactic(auto, unfolding(crate::specs::Grammar::crash_after_of))]
fn read_crash_after(words: &[u8]) -> Option<Event>
    ensures { result ≡ crash_after_of (words_of words.now) }
{
    let (side, after, calls, pick) = four(words)?;
    if after == b"after".as_slice() {
        read_crash_then(side, calls, pick)
    } else {
        None
    }
}

/// Its words `X`, `K` and `P`.
#[tactic(auto, unfolding(crate::specs::Grammar::crash_then_of))]
fn read_crash_then(side: &[u8], calls: &[u8], pick: &[u8]) -> Option<Event>
    ensures { result ≡ crash_then_of side.now calls.now pick.now }
{
    Some(Event::CrashAfter {
        side: read_side(side)?,
        calls: number(calls)?,
        pick: number_u8(pick)?,
    })
}

/// `s` or `d`.
#[tactic(auto, unfolding(crate::specs::Grammar::side_of))]
fn read_side(word: &[u8]) -> Option<Side>
    ensures { result ≡ side_of word.now }
{
    if word == b"s".as_slice() {
        Some(Side::Source)
    } else if word == b"d".as_slice() {
        Some(Side::Dest)
    } else {
        None
    }
}

/// `c` where the copy has to be consecutive, else `n`.
#[tactic(auto, unfolding(crate::specs::Grammar::consecutive_of))]
fn read_consecutive(word: &[u8]) -> Option<bool>
    ensures { result ≡ consecutive_of word.now }
{
    if word == b"c".as_slice() {
        Some(true)
    } else if word == b"n".as_slice() {
        Some(false)
    } else {
        None
    }
}
