//! How far a client is with its one copy, and what it does next.

ghost use Rattle.std.specs.Prelude.{◌≡◌};
ghost use Rattle.single_copy.specs.Phases as spec;

use crate::answers::{LastReport, last_report};
use client_copies::Report;
use nfs_base::Side;

/// The number of a client's one copy: the first of those from 1 to 15 that a client gives to its copies.
pub const COPY_NUMBER: u8 = 1;

/// How far a client is with its one copy.
#[derive(Clone, Copy)]
pub enum Phase {
    /// Nothing was begun.
    Fresh,

    /// The copy was begun, and has no last report yet.
    Asking,

    /// It has its last report.
    Told(LastReport),

    /// Leave was taken since.
    Parted(LastReport),

    /// A draw failed: nothing more is done. The copy's last report, where it has one.
    Undrawn(Option<LastReport>),
}

/// What a client does next.
#[derive(Clone, Copy)]
pub enum Due {
    /// It begins the copy.
    Begin,

    /// It takes a record from this server's link.
    Hear(Side),

    /// It takes leave of both servers.
    Leave,

    /// All is done.
    Nothing,
}

impl Phase {
    /// What is done next, where an answer of the source is awaited, or of the destination.
    pub(crate) fn due(self, source: bool, dest: bool) -> Due
        ensures { result ≡ spec.due_in self source dest }
    {
        match self {
            Phase::Fresh => Due::Begin,
            Phase::Asking => Due::Hear(next_side(source)),
            Phase::Told(_) => awaited_or(Due::Leave, source, dest),
            Phase::Parted(_) => awaited_or(Due::Nothing, source, dest),
            Phase::Undrawn(_) => Due::Nothing,
        }
    }

    /// Whether leave was taken.
    pub(crate) fn has_left(self) -> bool
        ensures { result ≡ spec.has_left self }
    {
        matches!(self, Phase::Parted(_))
    }

    /// The copy's last report, where it has one.
    fn last(self) -> Option<LastReport>
        ensures { result ≡ spec.last_in self }
    {
        match self {
            Phase::Fresh | Phase::Asking => None,
            Phase::Told(last) | Phase::Parted(last) => Some(last),
            Phase::Undrawn(last) => last,
        }
    }

    /// After the copy was begun, or a record was taken: whether a draw failed in that, and what the copy's report is now.
    pub(crate) fn after(self, undrawn: bool, report: Option<Report>) -> Phase
        ensures { result ≡ spec.went_on undrawn report self }
    {
        if undrawn {
            Phase::Undrawn(self.last())
        } else {
            self.told(report)
        }
    }

    fn told(self, report: Option<Report>) -> Phase
        ensures { result ≡ spec.told report self }
    {
        match self {
            Phase::Fresh | Phase::Asking => asked(last_report(report)),
            Phase::Told(_) | Phase::Parted(_) | Phase::Undrawn(_) => self,
        }
    }

    /// After leave was taken.
    pub(crate) fn parted(self) -> Phase
        ensures { result ≡ spec.parted self }
    {
        match self {
            Phase::Told(last) => Phase::Parted(last),
            Phase::Fresh | Phase::Asking | Phase::Parted(_) | Phase::Undrawn(_) => self,
        }
    }
}

fn next_side(source: bool) -> Side
    ensures { result ≡ spec.next_side source }
{
    if source { Side::Source } else { Side::Dest }
}

/// An answer that is awaited is taken, the source's first; else this.
fn awaited_or(other: Due, source: bool, dest: bool) -> Due
    ensures { result ≡ spec.awaited_or other source dest }
{
    if source {
        Due::Hear(Side::Source)
    } else if dest {
        Due::Hear(Side::Dest)
    } else {
        other
    }
}

fn asked(last: Option<LastReport>) -> Phase
    ensures { result ≡ spec.asked last }
{
    match last {
        None => Phase::Asking,
        Some(last) => Phase::Told(last),
    }
}
