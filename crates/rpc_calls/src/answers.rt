ghost use Rattle.std.specs.Prelude.{◌≡◌, ◌≢◌, ◌++◌, ◌<◌, List, [], length, IfOk, IfSome, IsSome, OnOk, OnErr};
ghost use Rattle.rpc_msg.specs.Heads.{denial, stat};
ghost use Rattle.rpc_calls.specs.Judging.{HasSpelling, IsThere};
ghost use Rattle.rpc_calls.specs.Answers.{counted, denial_reply, ended, plain_front, failure_reply, result_reply};

use crate::call::Call;
use gss_ctx::Contexts;
use gss_mech::Mechanism;
use outcome::Mem;
use rpc_msg::{Auth, Denial, ReplyHead, Stat, write_reply};
use std::alloc::Global;
use wire_xdr::Octets;

/// Counts a call: sees its number, and uses the context that admitted it and its parent. A call without an established
/// context changes nothing. It takes no memory.
pub fn count<P>(contexts: &mut Contexts<P>, call: &Call, now: u64)
    ensures { contexts.new ≡ counted now call.now contexts.old }
{
    if let Some(verdict) = &call.verdict {
        contexts.count(verdict, now);
    }
}

/// Denies a call (RFC 5531 section 9), for what was judged or for a privilege that is refused
/// ([`RPCSEC_GSS_PRIVILEGE_PROBLEM`](crate::RPCSEC_GSS_PRIVILEGE_PROBLEM)), and counts it.
pub fn deny<P>(
    contexts: &mut Contexts<P>,
    alloc: Global,
    call: &Call,
    why: Denial,
    now: u64,
) -> Mem<Octets>
    requires { denial.Fits why }
    ensures reply { IfOk result (λ message. message ≡ denial_reply call.now.head.xid why) }
    ensures table { OnOk result (contexts.new ≡ counted now call.now contexts.old) }
    ensures err { OnErr result (contexts.new ≡ contexts.old) }
{
    let message = write_denial(alloc, call.head.xid, why)?;
    count(contexts, call, now);
    Ok(message)
}

/// Answers a call that fails with another accept_stat than SUCCESS (RFC 5531 section 9), and counts it. The verifier is
/// of flavor 6 with the code where the call is answered under a context (RFC 2203 section 5.3.3.2), else empty and of
/// flavor 0.
pub fn fail<P, M: Mechanism>(
    contexts: &mut Contexts<P>,
    alloc: Global,
    call: &Call,
    failure: Stat,
    now: u64,
    mech: &M,
) -> Mem<Octets>
    requires head { HasSpelling call.now }
    requires there { IsThere contexts.old call.now }
    requires failed { failure ≢ Stat.Success }
    requires fits { stat.Fits failure }
    ensures reply { IfOk result (λ message. message ≡ failure_reply M.mic_of contexts.old call.now failure) }
    ensures table { OnOk result (contexts.new ≡ counted now call.now contexts.old) }
    ensures err { OnErr result (contexts.new ≡ contexts.old) }
{
    let message = write_failure(alloc, contexts, call, failure, mech)?;
    count(contexts, call, now);
    Ok(message)
}

/// Answers NULL, which has no result (RFC 8881 sections 16.1 and 20.1), and counts it. The reply is sealed where the call
/// is answered under a context.
pub fn answer_null<P, M: Mechanism>(
    contexts: &mut Contexts<P>,
    alloc: Global,
    call: &Call,
    now: u64,
    mech: &M,
) -> Mem<Octets>
    requires head { HasSpelling call.now }
    requires there { IsThere contexts.old call.now }
    ensures reply { IfOk result (λ message. message ≡ result_reply M.mic_of contexts.old call.now []) }
    ensures table { OnOk result (contexts.new ≡ counted now call.now contexts.old) }
    ensures err { OnErr result (contexts.new ≡ contexts.old) }
{
    let message = write_result(alloc, contexts, call, &[], mech)?;
    count(contexts, call, now);
    Ok(message)
}

/// Answers DESTROY (RFC 2203 section 5.4), counts it, and ends the calling context and its children. The reply is sealed
/// under the context that it ends.
pub fn answer_destroy<P: Drop, M: Mechanism>(
    contexts: &mut Contexts<P>,
    alloc: Global,
    call: &Call,
    now: u64,
    mech: &M,
) -> Mem<Octets>
    requires head { HasSpelling call.now }
    requires there { IsThere contexts.old call.now }
    ensures reply { IfOk result (λ message. message ≡ result_reply M.mic_of contexts.old call.now []) }
    ensures table { OnOk result (contexts.new ≡ ended now call.now contexts.old) }
    ensures err { OnErr result (contexts.new ≡ contexts.old) }
{
    let message = answer_null(contexts, alloc, call, now, mech)?;
    if let Some(under) = &call.under {
        contexts.destroy(under.number);
    }
    Ok(message)
}

/// The reply that denies a call.
fn write_denial(alloc: Global, xid: u32, why: Denial) -> Mem<Octets>
    requires { denial.Fits why }
    ensures { IfOk result (λ message. message ≡ denial_reply xid why) }
{
    write_reply(alloc, &ReplyHead::Denied { xid, why }, &[])
}

/// A reply with an empty verifier of flavor 0, and then a result.
fn write_plain(alloc: Global, xid: u32, what: Stat, result_: &[u8]) -> Mem<Octets>
    requires { stat.Fits what }
    ensures { IfOk result (λ message. message ≡ plain_front xid what ++ result_.now) }
{
    let head = ReplyHead::Accepted {
        xid,
        verf: Auth::none(alloc),
        stat: what,
    };
    write_reply(alloc, &head, result_)
}

/// The reply to a call that failed.
fn write_failure<P, M: Mechanism>(
    alloc: Global,
    contexts: &Contexts<P>,
    call: &Call,
    failure: Stat,
    mech: &M,
) -> Mem<Octets>
    requires head { HasSpelling call.now }
    requires there { IsThere contexts.now call.now }
    requires failed { failure ≢ Stat.Success }
    requires fits { stat.Fits failure }
    ensures { IfOk result (λ message. message ≡ failure_reply M.mic_of contexts.now call.now failure) }
{
    match &call.under {
        Some(under) => {
            contexts.fail_reply(alloc, under.number, under.seq, &call.head, failure, mech)
        }
        None => write_plain(alloc, call.head.xid, failure, &[]),
    }
}

/// The reply to a call that was carried out, with this result.
#[tactic(auto, unfolding(rpc_msg::specs::Heads::stat))]
fn write_result<P, M: Mechanism>(
    alloc: Global,
    contexts: &Contexts<P>,
    call: &Call,
    result_: &[u8],
    mech: &M,
) -> Mem<Octets>
    requires head { HasSpelling call.now }
    requires there { IsThere contexts.now call.now }
    requires small { length result_.now < 4294967292 }
    ensures { IfOk result (λ message. message ≡ result_reply M.mic_of contexts.now call.now result_.now) }
{
    match &call.under {
        Some(under) => {
            contexts.seal_reply(alloc, under.number, under.seq, &call.head, result_, mech)
        }
        None => write_plain(alloc, call.head.xid, Stat::Success, result_),
    }
}
