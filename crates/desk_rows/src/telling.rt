//! What is told of workers that ran: only what doesn't depend on which of them did what, and when.

use crate::plan::{Links, Plan};
use crate::ran::{Ran, Seen};
use client_copies::Report;
use outcome::Mem;
use std::fmt::Write;

/// Adds what the workers landed, why they ended, what the client said of its copies, whether the files are the same then, and how
/// many calls it took to leave.
pub fn tell(plan: &Plan, ran: &Ran, text: &mut String) -> Mem<()> {
    tell_workers(text, plan.links, &ran.seen)?;
    tell_copies(text, ran.seen.reports)?;
    text.push_str(match ran.same {
        Some(true) => ", same",
        Some(false) | None => ", other",
    })?;
    tell_leave(text, &ran.seen)
}

/// What landed by the workers and by the book, if that doesn't depend on when a link breaks; how many READs were under way at once
/// where links waited for that; and how many workers ended by the desk, and by their links.
fn tell_workers(text: &mut String, links: Links, seen: &Seen) -> Mem<()> {
    let counts = seen.counts;
    if links != Links::Breaking {
        write!(text, "landed {} book {}, ", counts.landed, counts.book)?;
    }
    if links == Links::Together || links == Links::Breaking {
        write!(text, "{} at once, ", seen.most)?;
    }
    write!(text, "{} closed {} down", counts.closed, counts.down)?;
    Ok(())
}

/// What the client said of its copies last: those that are exact come first.
fn tell_copies(text: &mut String, reports: [Option<Report>; 2]) -> Mem<()> {
    for report in reports {
        if let Some(Report::Exact) = report {
            text.push_str(", exact")?;
        }
    }
    for report in reports {
        tell_other(text, report)?;
    }
    Ok(())
}

/// What the client said of a copy last, unless it was exact.
fn tell_other(text: &mut String, report: Option<Report>) -> Mem<()> {
    match report {
        None | Some(Report::Exact) => {}
        Some(Report::Failed(status)) => write!(text, ", failed {}", status.number)?,
        Some(Report::Stable) => text.push_str(", stable")?,
        Some(Report::Unsure) => text.push_str(", unsure")?,
        Some(Report::Cancelled) => text.push_str(", cancelled")?,
    }
    Ok(())
}

/// How many calls it took the client to leave, and how often an end did what no end does, where that was.
fn tell_leave(text: &mut String, seen: &Seen) -> Mem<()> {
    match seen.leave {
        Some(calls) => write!(text, ", {calls} calls to leave")?,
        None => text.push_str(", not left")?,
    }
    if seen.faults > 0 {
        write!(text, ", {} faults", seen.faults)?;
    }
    Ok(())
}

/// Adds how many bytes so many workers landed.
pub fn tell_landed(workers: u32, landed: u64, text: &mut String) -> Mem<()> {
    write!(text, "{workers} workers, {landed} bytes")?;
    Ok(())
}
