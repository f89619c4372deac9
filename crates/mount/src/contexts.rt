//! The contexts that a caller has at a server.

ghost use Rattle.std.specs.Prelude.{◌≡◌, ◌≤◌, ◌==◌, IfOk, IfSome, OnErr, None, filter, find, length, position, option_copied};
ghost use Rattle.std.specs.List.{list_any};
ghost use Rattle.rpc_msg.specs.declared.records.TheConstants.{RECORD_LIMIT};
ghost use Rattle.session_client.specs.Asked.{AskedFits};
ghost use Rattle.mount.specs.Falling.{awaits_under, is_used};
ghost use Rattle.mount.specs.Sending.{sealed_by};
ghost use Rattle.mount.specs.State.{context_of, is_name, root_name};

use crate::places::awaits_under;
use crate::state::{Awaiting, Context, Standing};
use gss_mech::Mechanism;
use outcome::Mem;
use session_client::{Asked, SealedCall};
use std::alloc::Global;

/// The context of a name.
pub(crate) fn context_of(contexts: &[Context], name: u32) -> Option<&Context>
    ensures { option_copied result ≡ context_of name contexts.now }
{
    contexts.iter().find(|c| c.name == name)
}

fn place_of(contexts: &[Context], name: u32) -> Option<usize>
    ensures { result ≡ position (λ c. c.name == name) contexts.now }
{
    contexts.iter().position(|c| c.name == name)
}

/// Seals a call under the context of a name. None: there is none, or its numbers have run out; then, and without memory,
/// the contexts are as they were.
pub(crate) fn seal_by<M: Mechanism>(
    alloc: Global,
    contexts: &mut Vec<Context>,
    name: u32,
    xid: u32,
    asked: &Asked,
    mech: &M,
) -> Mem<Option<SealedCall>>
    requires { AskedFits asked.now }
    ensures told { IfOk result (λ told. told ≡ (sealed_by M.mic_of name xid asked.now contexts.old.items).0) }
    ensures after { IfOk result (λ told. contexts.new.items ≡ (sealed_by M.mic_of name xid asked.now contexts.old.items).1) }
    ensures none { IfOk result (λ told. told ≡ None → contexts.new.items ≡ contexts.old.items) }
    ensures fits { IfOk result (λ told. IfSome told (λ call. length call.bytes ≤ RECORD_LIMIT)) }
    ensures err { OnErr result (contexts.new.items ≡ contexts.old.items) }
{
    let Some(at) = place_of(contexts.as_slice(), name) else {
        return Ok(None);
    };
    asked.seal(alloc, &mut contexts[at].caller, xid, mech)
}

/// The name of the root's context.
pub(crate) fn root_name(standing: &Standing) -> Option<u32>
    ensures { result ≡ root_name standing.now }
{
    match standing {
        Standing::Down { .. } => None,
        Standing::Rooted(root) => Some(root.name),
    }
}

/// Takes out the contexts that are neither the root's nor a child's, and under which no answer is awaited.
pub(crate) fn keep_used(
    contexts: &mut Vec<Context>,
    root: Option<u32>,
    children: &[Option<u32>],
    places: &[Option<Awaiting>],
)
    ensures { contexts.new.items ≡ filter (λ c. is_used root children.now places.now c.name) contexts.old.items }
{
    contexts.retain(|c| is_used(c.name, root, children, places));
}

fn is_used(
    name: u32,
    root: Option<u32>,
    children: &[Option<u32>],
    places: &[Option<Awaiting>],
) -> bool
    ensures { result ≡ is_used root children.now places.now name }
{
    is_name(root, name) || is_child(children, name) || is_awaited(places, name)
}

fn is_child(children: &[Option<u32>], name: u32) -> bool
    ensures { result ≡ list_any (λ child. is_name child name) children.now }
{
    children.iter().any(|child| is_name(*child, name))
}

fn is_awaited(places: &[Option<Awaiting>], name: u32) -> bool
    ensures { result ≡ list_any (awaits_under name) places.now }
{
    places.iter().any(|place| awaits_under(place, name))
}

pub(crate) fn is_name(of: Option<u32>, name: u32) -> bool
    ensures { result ≡ is_name of name }
{
    match of {
        None => false,
        Some(n) => n == name,
    }
}
