//! Commits that a crash may find unfinished.

ghost use Rattle.std.specs.Prelude.{◌≡◌};
ghost use Rattle.volume_stops.specs.Stops.{kept_at, left_pending, met_pending, pending_after, pending_within};

use crate::kept::Kept;
use server_volume::{CallAnswer, Used, VolumeCall};

/// A commit that a crash may find unfinished: its file, and the home whose table it puts, 0 or 1.
#[derive(Clone, Copy, PartialEq, Eq)]
pub struct Pending {
    pub file: u32,
    pub home: u8,
}

impl Pending {
    /// The commit that a crash behind these calls may find unfinished, where one before them might have found this one: the
    /// last that failed.
    pub fn behind(before: Option<Pending>, used: &[Used]) -> Option<Pending>
        ensures { result ≡ pending_after before used.now }
    {
        used.iter()
            .fold(before, |pending, one| left_pending(pending, one))
    }

    /// The commit that a stop within these calls may find unfinished: the last that wasn't refused.
    pub fn within(before: Option<Pending>, used: &[Used]) -> Option<Pending>
        ensures { result ≡ pending_within before used.now }
    {
        used.iter()
            .fold(before, |pending, one| met_pending(pending, one))
    }

    /// What a crash kept of it, by the home that is in force then of its file's table.
    pub fn kept(self, home: u8) -> Kept
        ensures { result ≡ kept_at self.home home }
    {
        if home == self.home {
            Kept::New
        } else {
            Kept::Old
        }
    }
}

/// The commit that one call leaves unfinished: its own, if the disk failed in it.
fn left_pending(before: Option<Pending>, used: &Used) -> Option<Pending>
    ensures { result ≡ left_pending before used.now }
{
    match used.call {
        VolumeCall::Read { .. } | VolumeCall::Write { .. } => before,
        VolumeCall::Commit { file, home } => match used.answer {
            CallAnswer::DiskFailed => Some(Pending { file, home }),
            CallAnswer::Done | CallAnswer::Refused => before,
        },
    }
}

/// The commit that a stop within one call finds unfinished: its own, unless it was refused.
fn met_pending(before: Option<Pending>, used: &Used) -> Option<Pending>
    ensures { result ≡ met_pending before used.now }
{
    match used.call {
        VolumeCall::Read { .. } | VolumeCall::Write { .. } => before,
        VolumeCall::Commit { file, home } => match used.answer {
            CallAnswer::DiskFailed | CallAnswer::Done => Some(Pending { file, home }),
            CallAnswer::Refused => before,
        },
    }
}
