ghost use Rattle.std.specs.Prelude.{◌≡◌, drop, map, vec_capacity, None, IfOk, IfSome, IsSome, OnErr};
ghost use Rattle.std.specs.Option.{option_copied};
ghost use Rattle.rpc_msg.specs.Heads.{call};
ghost use Rattle.rpc_msg.specs.Messages.{IsHead};
ghost use Rattle.gss_ctx.specs.Table.{context_of, is_named, live_entry, noted_on, used_on, is_number};
ghost use Rattle.gss_ctx.specs.Seals.{cred_of, header_of};
ghost use Rattle.gss_ctx.specs.Admission.{is_served, may_create, number_rows, service_rows, first_failing, seen_answer, parent_of, number_of, IsNamed, IsGranted, verdict_of, with_seen, with_use, after_verdict};

use crate::context::Entry;
use crate::contexts::{Contexts, entry_of, handle_of, is_live};
use crate::numbers::{RPCSEC_GSS_CREATE, RPCSEC_GSS_VERSION_1, RPCSEC_GSS_VERSION_3};
use crate::sealing::{is_code, read_cred, unsealed, write_header};
use gss_mech::{INITIATOR, Mechanism};
use outcome::Mem;
use rpc_msg::{
    AUTH_BADCRED, AUTH_TOOWEAK, CALL, CallHead, GssCred, RPC_GSS_SVC_NONE, RPC_GSS_SVC_PRIVACY,
    RPCSEC_GSS_CREDPROBLEM, RPCSEC_GSS_CTXPROBLEM, RPCSEC_GSS_DATA, RPCSEC_GSS_DESTROY,
};
use std::alloc::Global;
use wire_xdr::Octets;

/// Why a call was dropped without an answer (RFC 2203 section 5.3.3.1).
#[derive(Clone, Copy, Debug, PartialEq, Eq)]
pub enum Why {
    /// The number was seen.
    Repeat,
    /// The number is below the window.
    Old,
}

/// What becomes of a call of an established context.
#[derive(Drop)]
pub enum Admit {
    /// It is carried out, with these arguments, under this context and sequence number.
    Admitted { number: u32, seq: u32, args: Octets },
    /// It is dropped.
    Dropped { why: Why },
    /// It is denied with this auth_stat.
    Denied(u32),
    /// Its body isn't right, which is answered as GARBAGE_ARGS.
    BadBody { number: u32, seq: u32 },
}

/// What [`Contexts::weigh`] says of a call: the answer, and the context and the sequence number that are seen with
/// it once it is counted.
#[derive(Drop)]
pub struct Verdict {
    pub answer: Admit,
    pub seen: Option<(u32, u32)>,
}

/// An answer with which no number is seen.
fn unseen(answer: Admit) -> Verdict
    ensures { result ≡ record { answer = answer; seen = None } }
{
    Verdict { answer, seen: None }
}

/// Whether a credential is of a version, procedure and service that are served here.
fn is_served(cred: &GssCred) -> bool
    ensures { result ≡ is_served cred.now }
{
    (cred.version == RPCSEC_GSS_VERSION_1 || cred.version == RPCSEC_GSS_VERSION_3)
        && (cred.gss_proc == RPCSEC_GSS_DATA
            || cred.gss_proc == RPCSEC_GSS_DESTROY
            || cred.gss_proc == RPCSEC_GSS_CREATE)
        && RPC_GSS_SVC_NONE <= cred.service
        && cred.service <= RPC_GSS_SVC_PRIVACY
}

/// Whether CREATE may be called here: in version 3, and not under a child.
fn may_create<P>(cred: &GssCred, entry: &Entry<P>) -> bool
    ensures { result ≡ may_create cred.now entry.now }
{
    cred.gss_proc != RPCSEC_GSS_CREATE
        || (cred.version == RPCSEC_GSS_VERSION_3 && entry.context.parent.is_none())
}

/// The answer of the first row that fails, of those before the number is seen.
fn number_fault<P, M: Mechanism>(
    head: &CallHead,
    header: &[u8],
    cred: &GssCred,
    entry: &Entry<P>,
    mech: &M,
) -> Option<Admit>
    requires { header.now ≡ header_of CALL head.now }
    ensures { result ≡ first_failing (number_rows M.mic_of head.now cred.now entry.now) }
{
    if cred.seq_num >= 1 << 31 {
        return Some(Admit::Denied(RPCSEC_GSS_CTXPROBLEM));
    }
    if !is_code(&head.verf, &mech.mic(&entry.context.key, INITIATOR, header)) {
        return Some(Admit::Denied(RPCSEC_GSS_CREDPROBLEM));
    }
    if entry.window.is_below(cred.seq_num) {
        return Some(Admit::Dropped { why: Why::Old });
    }
    if entry.window.has(cred.seq_num) {
        return Some(Admit::Dropped { why: Why::Repeat });
    }
    None
}

/// The answer of the first row that fails, of those on the service.
fn service_fault<P>(cred: &GssCred, entry: &Entry<P>) -> Option<Admit>
    ensures { result ≡ first_failing (service_rows cred.now entry.now) }
{
    if cred.service == RPC_GSS_SVC_NONE {
        return Some(Admit::Denied(AUTH_TOOWEAK));
    }
    if cred.service == RPC_GSS_SVC_PRIVACY || !may_create(cred, entry) {
        return Some(Admit::Denied(AUTH_BADCRED));
    }
    None
}

/// The answer once the number is seen.
fn seen_answer<P, M: Mechanism>(
    alloc: Global,
    cred: &GssCred,
    body: &[u8],
    entry: &Entry<P>,
    mech: &M,
) -> Mem<Admit>
    ensures { IfOk result (λ answer. answer ≡ seen_answer M.mic_of cred.now body.now entry.now) }
{
    if let Some(denial) = service_fault(cred, entry) {
        return Ok(denial);
    }
    let number = entry.number;
    let seq = cred.seq_num;
    match unsealed(&entry.context.key, INITIATOR, seq, body, mech) {
        Some(args) => Ok(Admit::Admitted {
            number,
            seq,
            args: Octets::from_slice(alloc, args)?,
        }),
        None => Ok(Admit::BadBody { number, seq }),
    }
}

impl<P> Contexts<P> {
    /// Admits a call, or says what else becomes of it: the answer of the first row of the table that fails.
    /// `head` and `body` are what `read_call` gives for the record. Once the number is seen it stays seen;
    /// an admission is a use of the context and of its parent.
    pub fn admit<M: Mechanism>(
        &mut self,
        alloc: Global,
        head: &CallHead,
        record_: &[u8],
        body: usize,
        now: u64,
        mech: &M,
    ) -> Mem<Admit>
        requires { IsHead call record_.now head.now body }
        ensures answer { IfOk result (λ answer. answer ≡ (verdict_of M.mic_of now head.now (drop body record_.now) self.old).answer) }
        ensures table { IfOk result (λ answer. self.new ≡ after_verdict now (verdict_of M.mic_of now head.now (drop body record_.now) self.old) self.old) }
        ensures err { OnErr result (self.new ≡ self.old) }
    {
        let verdict = self.weigh(alloc, head, &record_[body..], now, mech)?;
        self.count(&verdict, now);
        Ok(verdict.answer)
    }

    /// The first half of [`Contexts::admit`]: the answer to a call, and what is to be seen with it. Nothing is
    /// changed yet. Where the answer is under a context, this is the live one that the call's handle names. An
    /// admission sees its number, and CREATE is admitted under a context that isn't a child.
    #[tactic(auto, unfolding(crate::specs::Admission::verdict_of))]
    pub fn weigh<M: Mechanism>(
        &self,
        alloc: Global,
        head: &CallHead,
        body: &[u8],
        now: u64,
        mech: &M,
    ) -> Mem<Verdict>
        requires { call.Fits head.now }
        ensures verdict { IfOk result (λ verdict. verdict ≡ verdict_of M.mic_of now head.now body.now self.now) }
        ensures there { IfOk result (λ verdict. IfSome (number_of verdict.answer) (λ number. IsSome (context_of number self.now.entries))) }
        ensures named { IfOk result (λ verdict. IfSome (number_of verdict.answer) (IsNamed now (cred_of head.now) self.now)) }
        ensures granted { IfOk result (λ verdict. IsGranted (cred_of head.now) self.now.entries verdict.seen verdict.answer) }
    {
        let Some(cred) = read_cred(alloc, head)? else {
            return Ok(unseen(Admit::Denied(AUTH_BADCRED)));
        };
        if !is_served(&cred) {
            return Ok(unseen(Admit::Denied(AUTH_BADCRED)));
        }
        let Some(entry) = live_entry(
            self.entries.as_slice(),
            self.boot,
            cred.handle.as_slice(),
            now,
        ) else {
            return Ok(unseen(Admit::Denied(RPCSEC_GSS_CREDPROBLEM)));
        };
        let header = write_header(alloc, CALL, head)?;
        if let Some(fault) = number_fault(head, header.as_slice(), &cred, entry, mech) {
            return Ok(unseen(fault));
        }
        Ok(Verdict {
            answer: seen_answer(alloc, &cred, body, entry, mech)?,
            seen: Some((entry.number, cred.seq_num)),
        })
    }

    /// The second half: sees the number of a verdict, and uses the context of an admission and its parent. It
    /// takes no memory.
    pub fn count(&mut self, verdict: &Verdict, now: u64)
        ensures { self.new ≡ after_verdict now verdict.now self.old }
    {
        note_verdict(&mut self.entries, verdict, now);
    }
}

/// Sees the number of a verdict, and uses the context of an admission and its parent.
fn note_verdict<P>(entries: &mut Vec<Entry<P>>, verdict: &Verdict, now: u64)
    ensures items { entries.new.items ≡ with_use now verdict.now.answer (with_seen verdict.now.seen entries.old.items) }
    ensures capacity { vec_capacity entries.new ≡ vec_capacity entries.old }
{
    if let Some((number, seq)) = verdict.seen {
        note_on(entries.as_mut_slice(), number, seq);
    }
    if let Admit::Admitted { number, .. } = verdict.answer {
        let parent = parent_of(entries.as_slice(), number);
        use_on(entries.as_mut_slice(), number, parent, now);
    }
}

/// The live context of a handle.
fn live_entry<'a, P>(
    entries: &'a [Entry<P>],
    boot: u32,
    handle: &[u8],
    now: u64,
) -> Option<&'a Entry<P>>
    ensures { option_copied result ≡ live_entry boot now handle.now entries.now }
{
    entries.iter().find(|e| is_named(e, boot, handle, now))
}

/// Whether a context is live and has this handle.
fn is_named<P>(entry: &Entry<P>, boot: u32, handle: &[u8], now: u64) -> bool
    ensures { result ≡ is_named boot now handle.now entry.now }
{
    handle_of(boot, entry.number).as_slice() == handle && is_live(entry, now)
}

/// The number of a context's parent, where it is a child.
fn parent_of<P>(entries: &[Entry<P>], number: u32) -> Option<u32>
    ensures { result ≡ parent_of number entries.now }
{
    entry_of(entries, number)?.context.parent
}

/// Sees a sequence number on a context.
fn note_on<P>(entries: &mut [Entry<P>], number: u32, seq: u32)
    ensures { entries.new ≡ map (noted_on number seq) entries.old }
{
    for entry in entries.iter_mut() {
        note_one(entry, number, seq);
    }
}

/// Sees a sequence number, where this is the context.
fn note_one<P>(entry: &mut Entry<P>, number: u32, seq: u32)
    ensures { entry.new ≡ noted_on number seq entry.old }
{
    if entry.number == number {
        entry.window.note(seq);
    }
}

/// Uses a context and its parent now.
fn use_on<P>(entries: &mut [Entry<P>], number: u32, parent: Option<u32>, now: u64)
    ensures { entries.new ≡ map (used_on number parent now) entries.old }
{
    for entry in entries.iter_mut() {
        use_one(entry, number, parent, now);
    }
}

/// Uses a context now, where it is the one or its parent.
fn use_one<P>(entry: &mut Entry<P>, number: u32, parent: Option<u32>, now: u64)
    ensures { entry.new ≡ used_on number parent now entry.old }
{
    if entry.number == number || is_number(parent, entry.number) {
        entry.context.used = now;
    }
}

/// Whether there is a number, and it is this one.
fn is_number(there: Option<u32>, number: u32) -> bool
    ensures { result ≡ is_number there number }
{
    match there {
        Some(other) => other == number,
        None => false,
    }
}
