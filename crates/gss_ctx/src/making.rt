ghost use Rattle.std.specs.Prelude.{◌≡◌, ◌<◌, ◌≤◌, ◌+◌, IfOk, OnErr, IsSome, is_some, replicate};
ghost use Rattle.std.specs.Option.{option_copied};
ghost use Rattle.outcome.specs.Causes.{Rose};
ghost use Rattle.gss_ctx.specs.Table.{handle_of, is_full, is_root, root_of, with_new};
ghost use Rattle.gss_ctx.specs.Making.{HasShortToken, Inits, Adds, MakesChild, MakesChildOf, callback_context};

use crate::context::{Context, Entry};
use crate::contexts::{Contexts, handle_of, is_live};
use crate::numbers::{CALLBACK_KEY, CHILD_KEY};
use gss_mech::{ACCEPTOR, Mechanism};
use nfs_base::WINDOW_SIZE;
use outcome::Mem;
use std::alloc::Global;
use streams::{Drawn, Draws};
use wire_xdr::Octets;

/// What INIT answers (RFC 2203 section 5.2.3).
#[derive(Drop)]
pub enum Inited {
    /// A context was made: its handle, its window in numbers, the token that goes back, and the verifier of
    /// the reply, which is the code of the window under the new key.
    Made {
        handle: [u8; 8],
        window: u32,
        token: Octets,
        verifier: [u8; 32],
    },
    /// None was made: 1, the draw failed; 2, 256 live contexts are held; 3, the token isn't one of the realm.
    Refused {
        minor: u32,
    },
}

impl<P: Drop> Contexts<P> {
    /// Makes a context of a token, and takes out the dead ones. The token is tested first, then the table,
    /// then the draw. The draws' count of faults never falls, and minor 1 comes only where it rose. The token that
    /// goes back has at most 4,096 bytes.
    #[tactic(auto, unfolding(wire_xdr::specs::Words::word_bytes))]
    pub fn init<M: Mechanism, W: Draws>(
        &mut self,
        alloc: Global,
        token: &[u8],
        now: u64,
        mech: &M,
        draws: &mut W,
    ) -> Mem<Inited>
        requires { self.old.made < 4294967295 }
        ensures ok { IfOk result (λ answer. Inits M.mic_of (M.accepted mech.now token.now) W.gives now (M.accepted mech.now token.now (replicate 32 0)) self.old self.new draws.old draws.new answer) }
        ensures err { OnErr result (self.new ≡ self.old) }
        ensures later { W.faults draws.old ≤ W.faults draws.new }
        ensures drawn { IfOk result (λ answer. answer ≡ Inited.Refused 1 → Rose (W.faults draws.old) (W.faults draws.new)) }
        ensures failing { W.failing draws.new ≡ W.failing draws.old }
        ensures token { IfOk result HasShortToken }
    {
        if mech.accept(alloc, token, &[0; 32])?.is_none() {
            return Ok(Inited::Refused { minor: 3 });
        }
        if self.is_full(now) {
            return Ok(Inited::Refused { minor: 2 });
        }
        let nonce = match draws.draw() {
            Drawn::Got(nonce) => nonce,
            Drawn::Failed => return Ok(Inited::Refused { minor: 1 }),
        };
        let Some(taken) = mech.accept(alloc, token, &nonce)? else {
            return Ok(Inited::Refused { minor: 3 });
        };
        let handle = handle_of(self.boot, self.made + 1);
        let verifier = mech.mic(&taken.key, ACCEPTOR, &WINDOW_SIZE.to_be_bytes());
        let context = Context {
            principal: taken.principal,
            parent: None,
            key: taken.key,
            carry: None,
            used: now,
        };
        self.insert(context, now);
        Ok(Inited::Made {
            handle,
            window: WINDOW_SIZE,
            token: taken.token,
            verifier,
        })
    }

    /// Makes a context for callbacks, whose key is derived from `from` and the new handle, and takes out
    /// the dead ones. None exactly where 256 live contexts are held.
    pub fn add<M: Mechanism>(
        &mut self,
        alloc: Global,
        principal: &[u8],
        from: &[u8; 32],
        now: u64,
        mech: &M,
    ) -> Mem<Option<u32>>
        requires { self.old.made < 4294967295 }
        ensures ok { IfOk result (λ answer. Adds (is_full now self.old.entries) now (callback_context M.derived (handle_of self.old.boot (self.old.made + 1)) principal.now from.now now) self.old self.new answer) }
        ensures err { OnErr result (self.new ≡ self.old) }
    {
        if self.is_full(now) {
            return Ok(None);
        }
        let number = self.made + 1;
        let context = Context {
            principal: Octets::from_slice(alloc, principal)?,
            parent: None,
            key: mech.derive(from, CALLBACK_KEY, &handle_of(self.boot, number)),
            carry: None,
            used: now,
        };
        self.insert(context, now);
        Ok(Some(number))
    }

    /// Whether a number is that of a live context that isn't a child, under which a child may be made.
    pub fn is_root(&self, number: u32, now: u64) -> bool
        ensures { result ≡ is_some (root_of now number self.now.entries) }
    {
        root_of(self.entries.as_slice(), number, now).is_some()
    }

    /// Makes a child that carries a privilege, and takes out the dead contexts. The privilege is handed
    /// back exactly where 256 live contexts are held.
    pub fn create_child<M: Mechanism>(
        &mut self,
        alloc: Global,
        parent: u32,
        carry: P,
        now: u64,
        mech: &M,
    ) -> Mem<Result<u32, P>>
        requires room { self.old.made < 4294967295 }
        requires parent { IsSome (root_of now parent self.old.entries) }
        ensures ok { IfOk result (λ answer. MakesChild M.derived now parent carry (is_full now self.old.entries) (root_of now parent self.old.entries) self.old self.new answer) }
        ensures err { OnErr result (self.new ≡ self.old) }
    {
        let root = root_of(self.entries.as_slice(), parent, now).unwrap();
        let principal = Octets::from_slice(alloc, root.context.principal.as_slice())?;
        Ok(self.create_child_taken(parent, principal, carry, now, mech))
    }

    /// The same with the child's principal, which is its parent's, as a value that it takes over. It takes no
    /// memory.
    pub fn create_child_taken<M: Mechanism>(
        &mut self,
        parent: u32,
        principal: Octets,
        carry: P,
        now: u64,
        mech: &M,
    ) -> Result<u32, P>
        requires room { self.old.made < 4294967295 }
        requires parent { IsSome (root_of now parent self.old.entries) }
        ensures { MakesChildOf M.derived now parent principal carry (is_full now self.old.entries) (root_of now parent self.old.entries) self.old self.new result }
    {
        if self.is_full(now) {
            return Err(carry);
        }
        let number = self.made + 1;
        let handle = handle_of(self.boot, number);
        let root = root_of(self.entries.as_slice(), parent, now).unwrap();
        let context = Context {
            principal,
            parent: Some(parent),
            key: mech.derive(&root.context.key, CHILD_KEY, &handle),
            carry: Some(carry),
            used: now,
        };
        self.insert(context, now);
        Ok(number)
    }
}

/// The live context of a number, where it isn't a child.
fn root_of<P>(entries: &[Entry<P>], number: u32, now: u64) -> Option<&Entry<P>>
    ensures { option_copied result ≡ root_of now number entries.now }
{
    entries.iter().find(|e| is_root(e, number, now))
}

/// Whether this is the live context of a number, and isn't a child.
fn is_root<P>(entry: &Entry<P>, number: u32, now: u64) -> bool
    ensures { result ≡ is_root now number entry.now }
{
    entry.number == number && is_live(entry, now) && entry.context.parent.is_none()
}
