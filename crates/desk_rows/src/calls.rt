//! The calls of rows.

use crate::plan::{Copied, Links, Plan};
use crate::running::run;
use crate::telling::{tell, tell_landed};
use outcome::Mem;
use row_text::{number, word, words};
use std::alloc::Global;
use std::fmt::Write;
use std::sync::Wait;
use std::thread::Threads;
use two_ends::Wrong;

/// So many turns each worker has: more than it needs.
const TURNS: u32 = 100_000_000;

/// Adds what a call is answered by, or what it lacks.
pub fn answered<R: Threads + Wait + Sync>(
    rt: &R,
    alloc: Global,
    call: &str,
    text: &mut String,
) -> Mem<()> {
    if let Err(why) = answer(rt, alloc, call, text) {
        write!(text, "{why:?}")?;
    }
    Ok(())
}

fn answer<R: Threads + Wait + Sync>(
    rt: &R,
    alloc: Global,
    call: &str,
    text: &mut String,
) -> Result<(), Wrong> {
    let words = words(alloc, call)?;
    if word(&words, 0) == "bench" {
        return bench(rt, alloc, number(&words, 1), number(&words, 2), text);
    }
    row(rt, alloc, read_plan(&words), text)
}

/// Adds what a row with this plan is answered by.
fn row<R: Threads + Wait + Sync>(
    rt: &R,
    alloc: Global,
    plan: Plan,
    text: &mut String,
) -> Result<(), Wrong> {
    let ran = run(rt, alloc, plan)?;
    tell(&plan, &ran, text)?;
    Ok(())
}

/// The plan that a row asks for.
fn read_plan(words: &[&str]) -> Plan {
    Plan {
        workers: number(words, 1).min(8) as u8,
        turns: TURNS,
        size: number(words, 2),
        copied: copied(word(words, 3)),
        links: links(word(words, 0), number(words, 4)),
        compares: true,
    }
}

/// What a word says to copy.
fn copied(word: &str) -> Copied {
    match word {
        "consecutive" => Copied::Consecutive,
        "files" => Copied::Files,
        "halves" => Copied::Halves,
        _ => Copied::Whole,
    }
}

/// The links of a kind. Those that fail do so after so many answers.
fn links(kind: &str, answers: u32) -> Links {
    match kind {
        "together" => Links::Together,
        "breaking" => Links::Breaking,
        "failing" => Links::Failing(answers),
        _ => Links::Free,
    }
}

/// Adds how many bytes of a file of so many mebibytes land. Where there are no workers, the ends are made and the copy is taken
/// all the same.
fn bench<R: Threads + Wait + Sync>(
    rt: &R,
    alloc: Global,
    workers: u32,
    mebibytes: u32,
    text: &mut String,
) -> Result<(), Wrong> {
    let ran = run(rt, alloc, bench_plan(workers, mebibytes))?;
    tell_landed(workers, ran.seen.counts.landed, text)?;
    Ok(())
}

/// The plan of so many workers and mebibytes. For no workers it is that of one without turns.
fn bench_plan(workers: u32, mebibytes: u32) -> Plan {
    Plan {
        workers: workers.clamp(1, 8) as u8,
        turns: if workers == 0 { 0 } else { TURNS },
        size: mebibytes.min(64) * 1_048_576,
        copied: Copied::Whole,
        links: Links::Free,
        compares: false,
    }
}
