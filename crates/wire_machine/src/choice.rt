use volume_stops::Kept;

/// What the disks did in a small step of a run. No small step makes more than one call on a volume.
#[derive(Clone, Copy, Debug, PartialEq, Eq)]
pub enum Choice {
    /// Each call went through.
    Went,

    /// The call failed.
    Failed,

    /// A server stopped in it, or was stopped in it between two steps: what the crash of its disk kept of a commit.
    Stopped { kept: Kept },
}
