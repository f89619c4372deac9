//! A copy, and how far it is.

ghost use Rattle.std.specs.Prelude.{◌≡◌, None};
ghost use Rattle.client_copies.specs.Copies as copies;

use crate::told::Word;
use nfs_base::{CopySpec, Handle, Side, StateId, Status};

/// After how many seconds without a call a copy that goes on is asked how far it is.
const STATUS_AFTER: u64 = 30;

/// A session, and the root context under which it was made, by its handle (RFC 8881 section 2.10).
#[derive(Clone, Copy)]
pub struct Session {
    pub id: [u8; 16],
    pub root: [u8; 8],
}

/// What COPY_NOTIFY's answer told (RFC 7862 section 15.3).
#[derive(Clone, Copy)]
pub struct First {
    /// The source file, by its handle.
    pub file: Handle,

    /// Its change attribute.
    pub change: u64,

    /// In which session it was told.
    pub session: Session,

    /// With what stateid the destination reads.
    pub grant: StateId,
}

/// A step of a copy: what it has open, or what it asks for.
#[derive(Clone, Copy)]
pub enum Step {
    /// The source file is to be open: OPEN, where it isn't yet.
    OpenSource,

    /// CREATE of a child that carries copy_from_auth.
    AllowSource,

    /// GETATTR of the change attribute, and COPY_NOTIFY.
    Notify,

    /// The destination file is to be open.
    OpenDest,

    /// CREATE of a child that carries copy_to_auth.
    AllowDest,

    /// COPY.
    Copy,

    /// The copy is stable; the source file is to be open.
    OpenAgain,

    /// The copy is stable: GETATTR of the source file's change attribute.
    Last,
}

/// How a copy ended.
#[derive(Clone, Copy)]
pub enum Verdict {
    Failed(Status),
    Exact,
    Unsure,
    Cancelled,
}

/// How far a copy is.
#[derive(Clone, Copy)]
pub enum Stage {
    /// This step is due.
    Due(Step),

    /// The call of this step awaits its answer.
    Asked(Step),

    /// The destination has accepted it, and it goes on there.
    Accepted,

    /// It is over.
    Over(Verdict),
}

/// What is asked of the destination while a copy goes on there (RFC 7862 sections 15.8 and 15.9).
#[derive(Clone, Copy)]
pub enum Query {
    /// OFFLOAD_STATUS.
    Status,

    /// OFFLOAD_CANCEL.
    Cancel,
}

/// What was said of a copy last, where it is stable or over.
#[derive(Clone, Copy)]
pub enum Report {
    /// It is stable at the destination. Whether it is exact isn't known yet.
    Stable,

    /// It failed, with this status.
    Failed(Status),

    /// It is stable, and the source file's change attribute stood still over all of it.
    Exact,

    /// It is stable. Whether that stood still isn't known.
    Unsure,

    /// It was cancelled.
    Cancelled,
}

/// Whether a copy can be asked how far it is, or be cancelled.
#[derive(Clone, Copy)]
pub enum Asking {
    /// A call of it awaits its answer.
    Busy,

    /// It isn't accepted, or it is reported.
    Idle,

    /// It can.
    Ready,
}

/// One copy of a client.
#[derive(Clone, Copy)]
pub struct ClientCopy {
    pub spec: CopySpec,

    /// The secret that its privileges carry (RFC 7862 section 4.10.1).
    pub secret: [u8; 32],

    pub stage: Stage,

    /// What is asked of the destination, where that awaits its answer.
    pub query: Option<Query>,

    /// What COPY_NOTIFY told.
    pub first: Option<First>,

    /// The stateid that COPY's answer gave it.
    pub id: Option<StateId>,

    /// The second in which the last call to the destination that was answered went out.
    pub asked_at: u64,
}

impl Step {
    /// To which server the step belongs.
    pub fn side(self) -> Side
        ensures { result ≡ copies.side_of self }
    {
        match self {
            Step::OpenSource | Step::AllowSource | Step::Notify | Step::OpenAgain | Step::Last =>
                Side::Source,
            Step::OpenDest | Step::AllowDest | Step::Copy => Side::Dest,
        }
    }

    /// Whether the copy is stable.
    pub fn is_stable(self) -> bool
        ensures { result ≡ copies.is_stable self }
    {
        matches!(self, Step::OpenAgain | Step::Last)
    }
}

impl Verdict {
    /// What is told of it.
    pub fn word(self) -> Word
        ensures { result ≡ copies.word_of self }
    {
        match self {
            Verdict::Failed(status) => Word::Failed(status),
            Verdict::Exact => Word::Exact,
            Verdict::Unsure => Word::Unsure,
            Verdict::Cancelled => Word::Cancelled,
        }
    }

    fn report(self) -> Report
        ensures { result ≡ copies.report_of self }
    {
        match self {
            Verdict::Failed(status) => Report::Failed(status),
            Verdict::Exact => Report::Exact,
            Verdict::Unsure => Report::Unsure,
            Verdict::Cancelled => Report::Cancelled,
        }
    }
}

impl ClientCopy {
    /// A copy that was just begun, with its drawn secret.
    pub fn new(spec: CopySpec, secret: [u8; 32]) -> ClientCopy
        ensures { result ≡ copies.begun spec secret }
    {
        ClientCopy {
            spec,
            secret,
            stage: Stage::Due(Step::OpenSource),
            query: None,
            first: None,
            id: None,
            asked_at: 0,
        }
    }

    /// The step that is due.
    pub fn due(&self) -> Option<Step>
        ensures { result ≡ copies.due self.now.stage }
    {
        match self.stage {
            Stage::Due(step) => Some(step),
            Stage::Asked(_) | Stage::Accepted | Stage::Over(_) => None,
        }
    }

    /// Whether it can be asked how far it is, or be cancelled.
    pub fn asking(&self) -> Asking
        ensures { result ≡ copies.asking self.now }
    {
        if self.query.is_some() {
            return Asking::Busy;
        }
        match self.stage {
            Stage::Asked(_) => Asking::Busy,
            Stage::Accepted => Asking::Ready,
            Stage::Due(_) | Stage::Over(_) => Asking::Idle,
        }
    }

    /// Whether it goes on at the destination and none of its calls was sent in the last 30 seconds.
    pub fn is_overdue(&self, now: u64) -> bool
        ensures { result ≡ copies.is_overdue now self.now }
    {
        matches!(self.asking(), Asking::Ready) && now.saturating_sub(self.asked_at) >= STATUS_AFTER
    }

    /// What was said of it last, where it is stable or over.
    pub fn report(&self) -> Option<Report>
        ensures { result ≡ copies.reported self.now.stage }
    {
        match self.stage {
            Stage::Due(step) | Stage::Asked(step) => {
                if step.is_stable() {
                    Some(Report::Stable)
                } else {
                    None
                }
            }
            Stage::Accepted => None,
            Stage::Over(verdict) => Some(verdict.report()),
        }
    }

    /// Whether this is its stateid.
    pub fn is_called(&self, id: &StateId) -> bool
        ensures { result ≡ copies.is_called id.now self.now.id }
    {
        match &self.id {
            None => false,
            Some(own) => is_same_id(own, id),
        }
    }
}

/// Whether two stateids are the same.
pub(crate) fn is_same_id(a: &StateId, b: &StateId) -> bool
    ensures { result ≡ copies.is_same_id a.now b.now }
{
    a.seqid == b.seqid && a.kind == b.kind && a.boot == b.boot && a.number == b.number
}
