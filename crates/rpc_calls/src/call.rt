ghost use Rattle.std.specs.Prelude.{◌≡◌};
ghost use Rattle.rpc_calls.specs.Judging.{under_of};
ghost use Rattle.rpc_calls.specs.Answers.{accepted_seal, admitted_seal};

use gss_ctx::{Admit, Contexts, Verdict, Why};
use nfs_base::{CALLBACK_PROGRAM, CALLBACK_VERSION, NFS_PROGRAM, NFS_VERSION, Seal};
use rpc_msg::{CallHead, Denial, Stat};
use wire_xdr::Octets;

/// The RPC program that an end serves, in one version (RFC 5531 section 8.1). Both of its procedures are NULL and
/// COMPOUND.
#[derive(Clone, Copy, PartialEq, Eq)]
pub struct Program {
    pub number: u32,
    pub version: u32,
}

/// Under which context a call is answered, and with which sequence number (RFC 2203 section 5.3).
#[derive(Clone, Copy, PartialEq, Eq)]
pub struct Under {
    pub number: u32,
    pub seq: u32,
}

/// What becomes of a call.
#[derive(Drop)]
pub enum What {
    /// It is dropped without an answer.
    Dropped(Why),
    /// It is denied.
    Denied(Denial),
    /// It is accepted and fails, with another accept_stat than SUCCESS.
    Failed(Stat),
    /// NULL, which does nothing.
    Null,
    /// INIT, which makes a context of this token.
    Init { token: Octets },
    /// CREATE, which makes a child of the calling context with this privilege.
    Create { name: Octets, privilege: Octets },
    /// DESTROY, which ends the calling context.
    Destroy,
    /// COMPOUND, with these arguments.
    Compound { args: Octets },
}

/// A call: its head, what its context says of it where it is of an established one, under what it is answered, and what
/// becomes of it. The verdict is without the arguments; it serves to count the call.
#[derive(Drop)]
pub struct Call {
    pub head: CallHead,
    pub verdict: Option<Verdict>,
    pub under: Option<Under>,
    pub what: What,
}

/// What a record is.
#[derive(Drop)]
pub enum Judged {
    /// It has no head of a call or a reply that can be read.
    Unread,
    /// It is a reply, whose head can be read.
    Reply,
    /// It is a call.
    Call(Call),
}

impl Program {
    /// NFS of version 4, which servers serve.
    pub const NFS: Program = Program {
        number: NFS_PROGRAM,
        version: NFS_VERSION,
    };

    /// The callbacks of version 4.1 and above, which a client serves.
    pub const CALLBACK: Program = Program {
        number: CALLBACK_PROGRAM,
        version: CALLBACK_VERSION,
    };
}

impl Call {
    /// The seal under which the call was accepted: that of its admission. None where no context admitted it.
    pub fn accepted<P>(&self, contexts: &Contexts<P>) -> Option<Seal>
        ensures { result ≡ accepted_seal contexts.now self.now }
    {
        match &self.verdict {
            Some(verdict) => admitted_seal(contexts, &verdict.answer),
            None => None,
        }
    }
}

/// The seal of an admission.
fn admitted_seal<P>(contexts: &Contexts<P>, answer: &Admit) -> Option<Seal>
    ensures { result ≡ admitted_seal contexts.now answer.now }
{
    match answer {
        Admit::Admitted { number, seq, .. } => Some(contexts.seal(*number, *seq)),
        _ => None,
    }
}

/// Under what a call is answered: an admission, or a body that isn't right.
pub(crate) fn under_of(answer: &Admit) -> Option<Under>
    ensures { result ≡ under_of answer.now }
{
    match answer {
        Admit::Admitted { number, seq, .. } => Some(Under {
            number: *number,
            seq: *seq,
        }),
        Admit::BadBody { number, seq } => Some(Under {
            number: *number,
            seq: *seq,
        }),
        _ => None,
    }
}
