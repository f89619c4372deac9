//! Tables over workers, from standard input: a desk over a toy machine, links in memory, and what is reported. A line
//! is `CALL = ANSWER`; those that are answered otherwise are printed, and then how many there were.
//!
//! A link gives no reply before as many records were sent on all links as the line says. So workers that run one after the
//! other find their links failing, and the line is answered otherwise.
#![tactic(auto)]

mod crowd;
mod run;
mod toy;

use outcome::Mem;
use row_text::{number, word, words};
use std::alloc::Global;
use std::io;
use std::sync::Wait;
use std::thread::Threads;

/// The answer to `one`, `two` or `four RECORDS TOGETHER TURNS`.
fn answer<R: Threads + Wait + Sync>(rt: &R, alloc: Global, call: &str) -> Mem<String> {
    let words = words(alloc, call)?;
    let row = run::Row {
        records: number(&words, 1),
        together: number(&words, 2),
        turns: number(&words, 3),
    };
    let mut text = String::new(alloc);
    match word(&words, 0) {
        "one" => run::one(rt, alloc, row, &mut text)?,
        "two" => run::two(rt, alloc, row, &mut text)?,
        "four" => run::four(rt, alloc, row, &mut text)?,
        _ => text.push_str("no such call")?,
    }
    Ok(text)
}

fn main(rt: HostRuntime) -> io::Result<()> {
    let mut tried = 0_u32;
    let mut others = 0_u32;
    for line in rt.lines(rt.alloc()) {
        let line = line?;
        let Some((call, wanted)) = line.as_str().split_once(" = ") else {
            continue;
        };
        tried = tried.saturating_add(1);
        match answer(&rt, rt.alloc(), call) {
            Ok(given) if given.as_str() == wanted => {}
            Ok(given) => {
                others = others.saturating_add(1);
                println!(rt; "{line} BUT {given}")?;
            }
            Err(_) => {
                others = others.saturating_add(1);
                println!(rt; "{line} BUT out of memory")?;
            }
        }
    }
    println!(rt; "{tried} lines, {others} answered otherwise")
}
