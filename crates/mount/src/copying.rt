//! A mount once more.

ghost use Rattle.std.specs.Prelude.{◌≡◌, length, replicate, IfOk, None};
ghost use Rattle.mount.specs.declared.state.TheConstants.{PLACES};

use crate::machine::Mount;
use crate::state::{Awaiting, Context, PLACES, Pending, Root, Standing};
use outcome::Mem;
use session_client::PendingInit;
use std::alloc::Global;

impl Mount {
    /// The same mount once more, with all that it awaits: a step that sends several calls works on a copy, and puts it in
    /// the place of the mount once it has all its memory. Only one of the two is to go on, since both give the same numbers.
    /// What is asked isn't copied but shared, so this takes no more memory where a long WRITE is awaited.
    pub fn copy(&self, alloc: Global) -> Mem<Mount>
        ensures { IfOk result (λ copy. copy ≡ self.now) }
    {
        let contexts = copy_contexts(alloc, self.contexts.as_slice())?;
        let standing = copy_standing(&self.standing)?;
        let mut places = none_awaited();
        copy_places(&self.places, &mut places)?;
        let children = self.children;
        Ok(Mount {
            server: self.server,
            reclaims: self.reclaims,
            calls: self.calls,
            contexts,
            standing,
            children,
            places,
        })
    }
}

fn copy_contexts(alloc: Global, contexts: &[Context]) -> Mem<Vec<Context>>
    ensures { IfOk result (λ copies. copies.items ≡ contexts.now) }
{
    let mut copies = Vec::new(alloc);
    for context in contexts {
        copies.push(copy_context(context))?;
    }
    Ok(copies)
}

fn copy_context(context: &Context) -> Context
    ensures { result ≡ context.now }
{
    let root = context.root;
    let key = context.key;
    Context {
        name: context.name,
        mount: context.mount,
        root,
        key,
        caller: context.caller.copy(),
    }
}

fn copy_standing(standing: &Standing) -> Mem<Standing>
    ensures { IfOk result (λ copy. copy ≡ standing.now) }
{
    Ok(match standing {
        Standing::Down { kept } => Standing::Down {
            kept: copy_kept(kept)?,
        },
        Standing::Rooted(root) => Standing::Rooted(copy_root(root)),
    })
}

fn copy_kept(kept: &Option<PendingInit>) -> Mem<Option<PendingInit>>
    ensures { IfOk result (λ copy. copy ≡ kept.now) }
{
    match kept {
        None => Ok(None),
        Some(init) => Ok(Some(init.copy()?)),
    }
}

fn copy_root(root: &Root) -> Root
    ensures { result ≡ root.now }
{
    Root {
        name: root.name,
        setup: root.setup,
        numbers: root.numbers.copy(),
    }
}

/// At no place an answer is awaited.
pub(crate) fn none_awaited() -> [Option<Awaiting>; PLACES as usize]
    ensures { result ≡ replicate PLACES None }
{
    [
        None, None, None, None, None, None, None, None, None, None, None, None, None, None, None,
        None,
    ]
}

fn copy_places(places: &[Option<Awaiting>], copies: &mut [Option<Awaiting>]) -> Mem<()>
    requires { length copies.old ≡ length places.now }
    ensures { IfOk result (λ told. copies.new ≡ places.now) }
{
    for place in 0..places.len() {
        copies[place] = copy_place(&places[place])?;
    }
    Ok(())
}

fn copy_place(place: &Option<Awaiting>) -> Mem<Option<Awaiting>>
    ensures { IfOk result (λ copy. copy ≡ place.now) }
{
    match place {
        None => Ok(None),
        Some(awaiting) => Ok(Some(Awaiting {
            sent_at: awaiting.sent_at,
            pending: copy_pending(&awaiting.pending)?,
        })),
    }
}

fn copy_pending(pending: &Pending) -> Mem<Pending>
    ensures { IfOk result (λ copy. copy ≡ pending.now) }
{
    match pending {
        Pending::Init(init) => Ok(Pending::Init(init.copy()?)),
        Pending::Under { context, aim, call } => Ok(Pending::Under {
            context: *context,
            aim: *aim,
            call: call.copy()?,
        }),
    }
}
