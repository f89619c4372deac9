//! The lines of a client's cases.

use crate::lines::long;
use client_copies::Report;
use nfs_base::{CopySpec, Side};
use outcome::Mem;
use row_text::{number, word};
use std::fmt::Write;

/// Whether a word names a step of the client.
pub fn is_step(word: &str) -> bool {
    match word {
        "write" | "commit" | "copy" | "status" | "cancel" | "retry" | "record" | "tick" => true,
        _ => false,
    }
}

pub fn side_of(word: &str) -> Side {
    if word == "d" {
        Side::Dest
    } else {
        Side::Source
    }
}

/// The number of a copy, which is the first word behind the name of the step.
pub fn copy_number(words: &[&str]) -> u8 {
    (number(words, 1) % 256) as u8
}

pub fn copy_spec(words: &[&str]) -> CopySpec {
    CopySpec {
        src_file: number(words, 3),
        src_off: long(words, 4),
        dst_file: number(words, 5),
        dst_off: long(words, 6),
        count: long(words, 7),
        consecutive: word(words, 8) == "c",
    }
}

/// Adds what is told of a copy in the end.
pub fn tell_report(text: &mut String, j: u8, report: Option<Report>) -> Mem<()> {
    let (word, status) = report_words(report);
    write!(text, "report {j} {word}")?;
    if let Some(status) = status {
        write!(text, " {status}")?;
    }
    Ok(text.push_str("\n")?)
}

fn report_words(report: Option<Report>) -> (&'static str, Option<u32>) {
    match report {
        None => ("none", None),
        Some(Report::Stable) => ("stable", None),
        Some(Report::Exact) => ("exact", None),
        Some(Report::Unsure) => ("unsure", None),
        Some(Report::Cancelled) => ("cancelled", None),
        Some(Report::Failed(status)) => ("failed", Some(status.number)),
    }
}

/// Adds whether answers of a server are awaited.
pub fn tell_awaits(text: &mut String, side: &str, awaits: bool) -> Mem<()> {
    let told = if awaits { "yes" } else { "no" };
    Ok(writeln!(text, "awaits {side} {told}")?)
}
