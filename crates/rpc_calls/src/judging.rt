ghost use Rattle.std.specs.Prelude.{◌≡◌, IfOk, IfSome, Some, drop};
ghost use Rattle.rpc_msg.specs.Heads.{call, reply};
ghost use Rattle.rpc_msg.specs.Messages.{head_told};
ghost use Rattle.gss_ctx.specs.Admission.{verdict_of};
ghost use Rattle.gss_ctx.specs.Seals.{cred_of};
ghost use Rattle.rpc_calls.specs.Judging.{program_fault, procedure_fault, call_fault, with_none, IsFault, IsSayable, data_call, context_call, paired, admitted, by_answer, without_args, by_verdict, without_context, is_init, init_call, plain_call, flavor_call, other_call, gss_call, call_judged, reply_read, judged_of, IsSound, IsSoundWhere};

use crate::call::{Call, Judged, Program, What, under_of};
use gss_ctx::{
    Admit, Contexts, RPCSEC_GSS_CREATE, RPCSEC_GSS_VERSION_1, RPCSEC_GSS_VERSION_3, Verdict,
    read_create, read_init,
};
use gss_mech::Mechanism;
use nfs_base::{PROC_COMPOUND, PROC_NULL};
use outcome::Mem;
use rpc_msg::{
    AUTH_BADCRED, AUTH_NONE, AUTH_SYS, AUTH_TOOWEAK, CallHead, Denial, GssCred, RPC_VERSION,
    RPCSEC_GSS, RPCSEC_GSS_DATA, RPCSEC_GSS_DESTROY, RPCSEC_GSS_INIT, RpcFault, Stat, read_call,
    read_reply,
};
use std::alloc::Global;
use wire_xdr::{Octets, read_all};

/// Says what a record is to an end that serves a program, at this second: what can't be read, a reply, or a call and
/// what becomes of it. Nothing is changed yet. The tests come in this order: the version of RPC (RFC 5531 section 9);
/// the credential, of flavor 6 by RFC 2203 section 5.3.3 and RFC 7861 section 2; the program, its version and the
/// procedure; the arguments. A flavor other than 0, 1 and 6 is denied behind the procedure.
pub fn judge<P, M: Mechanism>(
    alloc: Global,
    contexts: &Contexts<P>,
    record_: &[u8],
    now: u64,
    mech: &M,
    program: Program,
) -> Mem<Judged>
    ensures judged { IfOk result (λ judged. judged ≡ judged_of M.mic_of now program record_.now contexts.now) }
    ensures sound { IfOk result (IsSoundWhere now contexts.now) }
{
    match read_call(alloc, record_)? {
        Ok((head, body)) => Ok(Judged::Call(judge_call(
            alloc,
            contexts,
            head,
            &record_[body..],
            now,
            mech,
            program,
        )?)),
        Err(RpcFault::OtherKind { .. }) => judge_reply(alloc, record_),
        Err(RpcFault::BadXdr { .. }) => Ok(Judged::Unread),
    }
}

/// A record whose message type is that of a reply.
fn judge_reply(alloc: Global, record_: &[u8]) -> Mem<Judged>
    ensures { IfOk result (λ judged. judged ≡ reply_read (head_told reply 0 record_.now)) }
{
    match read_reply(alloc, record_)? {
        Ok(_) => Ok(Judged::Reply),
        Err(_) => Ok(Judged::Unread),
    }
}

/// A call whose head was read.
#[tactic(auto, using(crate::proofs::JudgingLemmas::denied_sound, crate::proofs::JudgingLemmas::other_sound), unfolding(crate::specs::Judging::call_judged, rpc_msg::specs::Heads::denial))]
fn judge_call<P, M: Mechanism>(
    alloc: Global,
    contexts: &Contexts<P>,
    head: CallHead,
    body: &[u8],
    now: u64,
    mech: &M,
    program: Program,
) -> Mem<Call>
    requires { call.Fits head }
    ensures judged { IfOk result (λ told. told ≡ call_judged M.mic_of now program head body.now contexts.now) }
    ensures sound { IfOk result (IsSound now contexts.now) }
{
    if head.rpcvers != RPC_VERSION {
        return Ok(without_context(
            head,
            What::Denied(Denial::Mismatch {
                low: RPC_VERSION,
                high: RPC_VERSION,
            }),
        ));
    }
    if head.cred.flavor != RPCSEC_GSS {
        let what = other_call(program, &head, body);
        return Ok(without_context(head, what));
    }
    judge_gss(alloc, contexts, head, body, now, mech, program)
}

/// A call with a credential of RPCSEC_GSS.
#[tactic(auto, using(crate::proofs::JudgingLemmas::denied_sound, crate::proofs::JudgingLemmas::init_sound), unfolding(rpc_msg::specs::Heads::denial))]
fn judge_gss<P, M: Mechanism>(
    alloc: Global,
    contexts: &Contexts<P>,
    head: CallHead,
    body: &[u8],
    now: u64,
    mech: &M,
    program: Program,
) -> Mem<Call>
    requires fits { call.Fits head }
    requires flavor { head.cred.flavor ≡ RPCSEC_GSS }
    ensures judged { IfOk result (λ told. told ≡ gss_call M.mic_of now program head body.now contexts.now (cred_of head)) }
    ensures sound { IfOk result (IsSound now contexts.now) }
{
    let Some(cred) = read_all::<GssCred>(alloc, head.cred.body.as_slice())?.ok() else {
        return Ok(without_context(head, What::Denied(Denial::Auth(AUTH_BADCRED))));
    };
    if cred.gss_proc == RPCSEC_GSS_INIT {
        let what = init_call(alloc, program, &head, &cred, body)?;
        return Ok(without_context(head, what));
    }
    judge_under(alloc, contexts, head, &cred, body, now, mech, program)
}

/// A call of an established context.
fn judge_under<P, M: Mechanism>(
    alloc: Global,
    contexts: &Contexts<P>,
    head: CallHead,
    cred: &GssCred,
    body: &[u8],
    now: u64,
    mech: &M,
    program: Program,
) -> Mem<Call>
    requires fits { call.Fits head }
    requires cred { cred_of head ≡ Some cred.now }
    ensures judged { IfOk result (λ told. told ≡ by_verdict program head cred.now.gss_proc (verdict_of M.mic_of now head body.now contexts.now)) }
    ensures sound { IfOk result (IsSound now contexts.now) }
{
    let Verdict { answer, seen } = contexts.weigh(alloc, &head, body, now, mech)?;
    let under = under_of(&answer);
    let (answer, what) = parted(alloc, program, &head, cred.gss_proc, answer)?;
    Ok(Call {
        head,
        verdict: Some(Verdict { answer, seen }),
        under,
        what,
    })
}

/// What a context says of a call, without the arguments, and what becomes of it.
#[tactic(auto, unfolding(rpc_msg::specs::Heads::denial, rpc_msg::specs::Heads::stat))]
fn parted(
    alloc: Global,
    program: Program,
    head: &CallHead,
    gss_proc: u32,
    answer: Admit,
) -> Mem<(Admit, What)>
    ensures what { IfOk result (λ told. told ≡ (without_args answer, by_answer program head.now gss_proc answer)) }
    ensures said { IfOk result (λ told. IsSayable told.1) }
{
    match answer {
        Admit::Admitted { number, seq, args } => {
            let what = admitted(alloc, program, head, gss_proc, args)?;
            let args = Octets::from_vec(Vec::new(alloc));
            Ok((Admit::Admitted { number, seq, args }, what))
        }
        Admit::Dropped { why } => Ok((Admit::Dropped { why }, What::Dropped(why))),
        Admit::Denied(why) => Ok((Admit::Denied(why), What::Denied(Denial::Auth(why)))),
        Admit::BadBody { number, seq } => {
            Ok((Admit::BadBody { number, seq }, What::Failed(Stat::Garbage)))
        }
    }
}

/// A call that a context admitted.
fn admitted(
    alloc: Global,
    program: Program,
    head: &CallHead,
    gss_proc: u32,
    args: Octets,
) -> Mem<What>
    ensures what { IfOk result (λ what. what ≡ admitted program head.now gss_proc args) }
    ensures said { IfOk result IsSayable }
{
    match call_fault(program, head) {
        Some(fault) => Ok(What::Failed(fault)),
        None => paired(alloc, gss_proc, head.proc, args),
    }
}

/// An admitted call by its procedures, that of RPCSEC_GSS and that of the program.
#[tactic(auto, unfolding(rpc_msg::specs::Heads::stat))]
fn paired(alloc: Global, gss_proc: u32, proc: u32, args: Octets) -> Mem<What>
    ensures what { IfOk result (λ what. what ≡ paired gss_proc proc args) }
    ensures said { IfOk result IsSayable }
{
    if gss_proc == RPCSEC_GSS_DATA {
        return Ok(data_call(proc, args));
    }
    if proc != PROC_NULL {
        return Ok(What::Failed(Stat::ProcUnavail));
    }
    context_call(alloc, gss_proc, args.as_slice())
}

/// DATA: NULL or COMPOUND.
fn data_call(proc: u32, args: Octets) -> What
    ensures what { result ≡ data_call proc args }
    ensures said { IsSayable result }
{
    if proc == PROC_NULL {
        return with_none(args.as_slice(), What::Null);
    }
    What::Compound { args }
}

/// CREATE or DESTROY.
#[tactic(auto, unfolding(rpc_msg::specs::Heads::stat))]
fn context_call(alloc: Global, gss_proc: u32, args: &[u8]) -> Mem<What>
    ensures what { IfOk result (λ what. what ≡ context_call gss_proc args.now) }
    ensures said { IfOk result IsSayable }
{
    if gss_proc == RPCSEC_GSS_CREATE {
        return Ok(match read_create(alloc, args)? {
            Some((name, privilege)) => What::Create { name, privilege },
            None => What::Failed(Stat::Garbage),
        });
    }
    if gss_proc == RPCSEC_GSS_DESTROY {
        return Ok(with_none(args, What::Destroy));
    }
    Ok(What::Failed(Stat::ProcUnavail))
}

/// INIT, by its form, the program and the token.
#[tactic(auto, unfolding(rpc_msg::specs::Heads::denial, rpc_msg::specs::Heads::stat))]
fn init_call(
    alloc: Global,
    program: Program,
    head: &CallHead,
    cred: &GssCred,
    body: &[u8],
) -> Mem<What>
    ensures what { IfOk result (λ what. what ≡ init_call program head.now cred.now body.now) }
    ensures said { IfOk result IsSayable }
{
    if !is_init(head, cred) {
        return Ok(What::Denied(Denial::Auth(AUTH_BADCRED)));
    }
    if let Some(fault) = program_fault(program, head) {
        return Ok(What::Failed(fault));
    }
    Ok(match read_init(alloc, body)? {
        Some(token) => What::Init { token },
        None => What::Failed(Stat::Garbage),
    })
}

/// Whether a call has the form of INIT.
fn is_init(head: &CallHead, cred: &GssCred) -> bool
    ensures { result ≡ is_init head.now cred.now }
{
    (cred.version == RPCSEC_GSS_VERSION_1 || cred.version == RPCSEC_GSS_VERSION_3)
        && cred.handle.is_empty()
        && head.proc == PROC_NULL
        && head.verf.flavor == AUTH_NONE
        && head.verf.body.is_empty()
}

/// A call of another flavor than RPCSEC_GSS.
fn other_call(program: Program, head: &CallHead, body: &[u8]) -> What
    ensures what { result ≡ other_call program head.now body.now }
    ensures said { IsSayable result }
{
    match call_fault(program, head) {
        Some(fault) => What::Failed(fault),
        None => flavor_call(head, body),
    }
}

#[tactic(auto, unfolding(rpc_msg::specs::Heads::denial))]
fn flavor_call(head: &CallHead, body: &[u8]) -> What
    ensures what { result ≡ flavor_call head.now body.now }
    ensures said { IsSayable result }
{
    if head.cred.flavor != AUTH_NONE && head.cred.flavor != AUTH_SYS {
        return What::Denied(Denial::Auth(AUTH_BADCRED));
    }
    if head.proc == PROC_NULL {
        return with_none(body, What::Null);
    }
    What::Denied(Denial::Auth(AUTH_TOOWEAK))
}

/// What is called with no arguments, where there are none.
#[tactic(auto, unfolding(rpc_msg::specs::Heads::stat))]
fn with_none(args: &[u8], what: What) -> What
    ensures what { result ≡ with_none args.now what }
    ensures said { IsSayable what → IsSayable result }
{
    match args {
        [] => what,
        _ => What::Failed(Stat::Garbage),
    }
}

/// A call that no context is asked about.
fn without_context(head: CallHead, what: What) -> Call
    ensures { result ≡ without_context head what }
{
    Call {
        head,
        verdict: None,
        under: None,
        what,
    }
}

/// Why the program or its version isn't served.
#[tactic(auto, unfolding(rpc_msg::specs::Heads::stat))]
fn program_fault(program: Program, head: &CallHead) -> Option<Stat>
    ensures fault { result ≡ program_fault program head.now }
    ensures said { IfSome result IsFault }
{
    if head.prog != program.number {
        return Some(Stat::ProgUnavail);
    }
    if head.vers != program.version {
        return Some(Stat::ProgMismatch {
            low: program.version,
            high: program.version,
        });
    }
    None
}

/// The same, and why the procedure isn't.
#[tactic(auto, unfolding(rpc_msg::specs::Heads::stat))]
fn call_fault(program: Program, head: &CallHead) -> Option<Stat>
    ensures fault { result ≡ call_fault program head.now }
    ensures said { IfSome result IsFault }
{
    if let Some(fault) = program_fault(program, head) {
        return Some(fault);
    }
    if head.proc > PROC_COMPOUND {
        return Some(Stat::ProcUnavail);
    }
    None
}
