//! How a caller sets a server up.

ghost use Rattle.std.specs.Prelude.{◌≡◌, ◌≤◌, length, IfOk, IfSome};
ghost use Rattle.nfs_base.specs.declared.limits.TheConstants.{NAME_LIMIT};
ghost use Rattle.session_calls.specs.Calls.{SoleCallFits};
ghost use Rattle.session_client.specs.Setup as setup;

use file_ops::{CreateSessionDone, ExchangeIdDone, FileRes};
use nfs_base::{Answer, Status};
use nfs_compound::{Reply, Res};
use outcome::Mem;
use session_calls::{BackChannel, SoleCall};
use std::alloc::Global;
use wire_xdr::Octets;

/// How far a server is set up for a caller (RFC 8881 sections 18.35, 18.36 and 18.51).
#[derive(Clone, Copy)]
pub enum Setup {
    /// No context is there: INIT is next.
    Down,

    /// A context is there: EXCHANGE_ID with this verifier is next.
    Rooted { verifier: [u8; 8] },

    /// A client is there: CREATE_SESSION with this sequence is next.
    Registered { client: u64, sequence: u32 },

    /// A session is there: RECLAIM_COMPLETE is next.
    Joined { client: u64, session: [u8; 16] },

    /// All is there.
    Up { client: u64, session: [u8; 16] },
}

impl Setup {
    /// A context is there, which was begun with this nonce.
    pub fn rooted(nonce: &[u8; 32]) -> Setup
        ensures { result ≡ setup.rooted nonce.now }
    {
        let mut verifier = [0; 8];
        verifier.copy_from_slice(&nonce[..8]);
        Setup::Rooted { verifier }
    }

    /// The call that is next, where it stands alone in its compound: EXCHANGE_ID of this principal, or CREATE_SESSION
    /// with this back channel.
    pub fn next_call(
        &self,
        alloc: Global,
        principal: &[u8],
        back: Option<BackChannel>,
    ) -> Mem<Option<SoleCall>>
        ensures call { IfOk result (λ call. call ≡ setup.next_call principal.now back self.now) }
        ensures fits { length principal.now ≤ NAME_LIMIT → IfOk result (λ call. IfSome call (λ sole. SoleCallFits sole)) }
    {
        match *self {
            Setup::Rooted { verifier } => Ok(Some(SoleCall::ExchangeId {
                verifier,
                owner: Octets::from_slice(alloc, principal)?,
            })),
            Setup::Registered { client, sequence } => Ok(Some(SoleCall::CreateSession {
                client,
                sequence,
                back,
            })),
            Setup::Down | Setup::Joined { .. } | Setup::Up { .. } => Ok(None),
        }
    }

    /// What the answer to the setup call that was next leaves: the step behind it, or the status with which the setup
    /// goes down. `reclaims` says whether RECLAIM_COMPLETE is asked for.
    #[tactic(auto, unfolding(crate::specs::Setup::after_answer))]
    pub fn after_answer(&self, reply: &Reply, reclaims: bool) -> Result<Setup, Status>
        ensures { result ≡ setup.after_answer reclaims reply.now.status reply.now.results self.now }
    {
        match *self {
            Setup::Rooted { .. } => registered(reply.status, exchanged(reply.results.as_slice())),
            Setup::Registered { client, .. } => {
                let session = created(reply.results.as_slice());
                joined(reclaims, client, reply.status, session)
            }
            Setup::Joined { client, session } => {
                reclaimed(Setup::Up { client, session }, reply.status)
            }
            Setup::Down => Ok(Setup::Down),
            Setup::Up { client, session } => Ok(Setup::Up { client, session }),
        }
    }
}

fn registered(status: Status, client: Option<(u64, u32)>) -> Result<Setup, Status>
    ensures { result ≡ setup.registered status client }
{
    match client {
        None => Err(status),
        Some((client, sequence)) => Ok(Setup::Registered { client, sequence }),
    }
}

fn joined(
    reclaims: bool,
    client: u64,
    status: Status,
    session: Option<[u8; 16]>,
) -> Result<Setup, Status>
    ensures { result ≡ setup.joined reclaims client status session }
{
    match session {
        None => Err(status),
        Some(session) => {
            if reclaims {
                return Ok(Setup::Joined { client, session });
            }
            Ok(Setup::Up { client, session })
        }
    }
}

/// That reclaiming was said to be complete before does no harm.
fn reclaimed(up: Setup, status: Status) -> Result<Setup, Status>
    ensures { result ≡ setup.reclaimed up status }
{
    if status.number == 0 || status.number == Status::COMPLETE_ALREADY.number {
        Ok(up)
    } else {
        Err(status)
    }
}

/// The client's ID and its next sequence, where an EXCHANGE_ID was done.
fn exchanged(results: &[Res]) -> Option<(u64, u32)>
    ensures { result ≡ setup.exchanged results.now }
{
    match results {
        [] => None,
        [res, ..] => res_exchanged(res),
    }
}

fn res_exchanged(res: &Res) -> Option<(u64, u32)>
    ensures { result ≡ setup.res_exchanged res.now }
{
    match res {
        Res::File(FileRes::ExchangeId(answer)) => exchange_done(answer),
        _ => None,
    }
}

fn exchange_done(answer: &Answer<ExchangeIdDone>) -> Option<(u64, u32)>
    ensures { result ≡ setup.exchange_done answer.now }
{
    match answer {
        Answer::Done(done) => Some((done.client, done.sequence)),
        Answer::Refused(_) => None,
    }
}

/// The session's ID, where a CREATE_SESSION was done.
fn created(results: &[Res]) -> Option<[u8; 16]>
    ensures { result ≡ setup.created results.now }
{
    match results {
        [] => None,
        [res, ..] => res_created(res),
    }
}

fn res_created(res: &Res) -> Option<[u8; 16]>
    ensures { result ≡ setup.res_created res.now }
{
    match res {
        Res::File(FileRes::CreateSession(answer)) => create_done(answer),
        _ => None,
    }
}

fn create_done(answer: &Answer<CreateSessionDone>) -> Option<[u8; 16]>
    ensures { result ≡ setup.create_done answer.now }
{
    match answer {
        Answer::Done(done) => Some(done.session),
        Answer::Refused(_) => None,
    }
}
