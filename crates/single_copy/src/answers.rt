//! How a copy ended, for whoever asked for it.

ghost use Rattle.std.specs.Prelude.{◌≡◌};
ghost use Rattle.single_copy.specs.LastReports as reports;
ghost use Rattle.single_copy.specs.Answers as spec;

use crate::phases::Phase;
use client_copies::Report;
use nfs_base::Status;

/// How a copy ended.
#[derive(Clone, Copy, PartialEq, Eq)]
pub enum Copied {
    /// It is stable at the destination. `exact`: the source file's change attribute stood still over all of it; else whether
    /// it did isn't known.
    Stable { exact: bool },

    /// It failed, with this status. Where a link ended before the copy's first report, that is BADSESSION.
    Failed(Status),

    /// A call of a link failed before the copy's last report. `stable`: the copy had been reported stable.
    LinkFault { stable: bool },

    /// A draw failed before the copy's last report.
    DrawFault,
}

/// A report of a copy behind which none comes.
#[derive(Clone, Copy, PartialEq, Eq)]
pub enum LastReport {
    Stable { exact: bool },
    Failed(Status),
}

impl LastReport {
    /// What it says of the copy.
    pub(crate) fn copied(self) -> Copied
        ensures { result ≡ spec.copied_by self }
    {
        match self {
            LastReport::Stable { exact } => Copied::Stable { exact },
            LastReport::Failed(status) => Copied::Failed(status),
        }
    }
}

/// What a copy's report says, where none comes behind it. A client that cancels nothing reports nothing as cancelled.
pub(crate) fn last_report(report: Option<Report>) -> Option<LastReport>
    ensures { result ≡ reports.last_of report }
{
    match report? {
        Report::Failed(status) => Some(LastReport::Failed(status)),
        Report::Exact => Some(LastReport::Stable { exact: true }),
        Report::Unsure => Some(LastReport::Stable { exact: false }),
        Report::Stable | Report::Cancelled => None,
    }
}

/// Whether a copy was reported stable, and not yet whether it is exact.
pub(crate) fn is_stable(report: Option<Report>) -> bool
    ensures { result ≡ reports.is_stable report }
{
    matches!(report, Some(Report::Stable))
}

/// The answer, by how far the client is, the copy's report, and whether a call of a link failed.
pub(crate) fn answer(phase: Phase, report: Option<Report>, faulty: bool) -> Copied
    ensures { result ≡ spec.answer_of phase report faulty }
{
    match phase {
        Phase::Told(last) | Phase::Parted(last) | Phase::Undrawn(Some(last)) => last.copied(),
        Phase::Undrawn(None) => Copied::DrawFault,
        Phase::Fresh | Phase::Asking => stopped(is_stable(report), faulty),
    }
}

/// The answer where a link is down, or brought all the records that are taken, before the last report.
fn stopped(stable: bool, faulty: bool) -> Copied
    ensures { result ≡ spec.stopped stable faulty }
{
    if faulty {
        Copied::LinkFault { stable }
    } else if stable {
        Copied::Stable { exact: false }
    } else {
        Copied::Failed(Status::BADSESSION)
    }
}
