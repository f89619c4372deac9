//! The lines of notes.

ghost use Rattle.std.specs.Prelude.{◌≡◌, ◌++◌, Some, codes, decimal};
ghost use Rattle.std.specs.Fmt.{DisplaysOnOk};
ghost use Rattle.nfs_base.specs.Text.{job_text, side_text};
ghost use Rattle.wire_lines.specs.LineText.{count_text, dropped_text, noted_text, same_text, speaker_text};
ghost use Rattle.wire_lines.specs.declared.note.Count.{Count};

use crate::letters::{Speaker, speaker_letter};
use nfs_base::{JobName, Side};
use outbox::{Dropped, Note};
use std::fmt;

/// A note, and who tells it.
#[derive(Clone, Copy)]
pub(crate) struct Noted {
    pub(crate) by: Speaker,
    pub(crate) note: Note,
}

impl fmt::Display for Noted {
    ghost output = { λ noted. Some (noted_text noted.by noted.note) };

    fn fmt<W: fmt::Write>(&self, f: &mut fmt::Formatter<W>) -> fmt::Result {
        match self.note {
            Note::Dropped { why } => dropped(f, self.by, why),
            Note::Permit { cause } => write!(f, "permit {cause}"),
            Note::Privilege { cause } => write!(f, "privilege {cause}"),
            Note::Accepted {
                job,
                file,
                to,
                count,
            } => accepted(f, job, file, to, count),
            Note::Overlap { job } => of_job(f, "overlap", job),
            Note::Sized { job, len } => job_at(f, "sized", job, len),
            Note::Landed { job, off, len } => write!(f, "landed {job} {off} {len}"),
            Note::Held { job, off } => job_at(f, "held", job, off),
            Note::Late { job, off } => job_at(f, "late", job, off),
            Note::Stopped { job, cause } => write!(f, "stopped {job} {cause}"),
            Note::Committed { job } => of_job(f, "committed", job),
            Note::Reported { job } => of_job(f, "reported", job),
            Note::Written { side, file, count } => write!(f, "written {side} {file} {count}"),
            Note::Commit { side, file, same } => commit(f, side, file, same),
            Note::Refused { side, file, status } => write!(f, "refused {side} {file} {status}"),
            Note::Started { copy } => of_copy(f, "started", copy),
            Note::Copied { copy, count } => write!(f, "copied {copy} {count}"),
            Note::Stable { copy } => of_copy(f, "stable", copy),
            Note::Failed { copy, status } => write!(f, "failed {copy} {status}"),
            Note::Exact { copy } => of_copy(f, "exact", copy),
            Note::Unsure { copy } => of_copy(f, "unsure", copy),
            Note::Cancelled { copy } => of_copy(f, "cancelled", copy),
            Note::Idle { copy } => of_copy(f, "idle", copy),
            Note::Busy { copy } => of_copy(f, "busy", copy),
        }
    }
}

/// What is told of a copy.
fn of_copy<W: fmt::Write>(f: &mut fmt::Formatter<W>, word: &str, copy: u8) -> fmt::Result
    ensures { DisplaysOnOk W.write_str_gives f.old result (Some (word.now ++ codes " " ++ decimal copy)) f.new }
{
    write!(f, "{word} {copy}")
}

/// What is told of a job.
fn of_job<W: fmt::Write>(f: &mut fmt::Formatter<W>, word: &str, job: JobName) -> fmt::Result
    ensures { DisplaysOnOk W.write_str_gives f.old result (Some (word.now ++ codes " " ++ job_text job)) f.new }
{
    write!(f, "{word} {job}")
}

/// What is told of a job, with a length or a place.
fn job_at<W: fmt::Write>(
    f: &mut fmt::Formatter<W>,
    word: &str,
    job: JobName,
    at: u64,
) -> fmt::Result
    ensures { DisplaysOnOk W.write_str_gives f.old result (Some (word.now ++ codes " " ++ job_text job ++ codes " " ++ decimal at)) f.new }
{
    write!(f, "{word} {job} {at}")
}

fn dropped<W: fmt::Write>(f: &mut fmt::Formatter<W>, by: Speaker, why: Dropped) -> fmt::Result
    ensures { DisplaysOnOk W.write_str_gives f.old result (Some (codes "drop " ++ speaker_text by ++ codes " " ++ dropped_text why)) f.new }
{
    let by = speaker_letter(by);
    let why = dropped_word(why);
    write!(f, "drop {by} {why}")
}

fn accepted<W: fmt::Write>(
    f: &mut fmt::Formatter<W>,
    job: JobName,
    file: u32,
    to: u64,
    count: u64,
) -> fmt::Result
    ensures { DisplaysOnOk W.write_str_gives f.old result
        (Some (codes "accepted " ++ job_text job ++ codes " " ++ decimal file ++ codes " " ++ decimal to ++ codes " " ++ count_text count)) f.new }
{
    let count = Count { count };
    write!(f, "accepted {job} {file} {to} {count}")
}

fn commit<W: fmt::Write>(
    f: &mut fmt::Formatter<W>,
    side: Side,
    file: u32,
    same: bool,
) -> fmt::Result
    ensures { DisplaysOnOk W.write_str_gives f.old result
        (Some (codes "commit " ++ side_text side ++ codes " " ++ decimal file ++ codes " " ++ same_text same)) f.new }
{
    let same = same_word(same);
    write!(f, "commit {side} {file} {same}")
}

/// How many bytes were asked for: 0 goes to the end.
#[derive(Clone, Copy)]
struct Count {
    count: u64,
}

impl fmt::Display for Count {
    ghost output = { λ asked. Some (count_text asked.count) };

    fn fmt<W: fmt::Write>(&self, f: &mut fmt::Formatter<W>) -> fmt::Result {
        let count = self.count;
        if count == 0 {
            f.write_str("end")
        } else {
            write!(f, "{count}")
        }
    }
}

/// Why a record was dropped.
fn dropped_word(why: Dropped) -> &'static str
    ensures { result.now ≡ dropped_text why }
{
    match why {
        Dropped::Unread => "unread",
        Dropped::Repeat => "repeat",
        Dropped::Old => "old",
        Dropped::Unmatched => "unmatched",
    }
}

/// Whether a verifier is that of the writes before.
fn same_word(same: bool) -> &'static str
    ensures { result.now ≡ same_text same }
{
    if same { "same" } else { "other" }
}
