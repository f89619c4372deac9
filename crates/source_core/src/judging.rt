//! Which privileges a source takes, and what it tells of a step.

ghost use Rattle.std.specs.Prelude.{◌≡◌, ◌&&◌, IfOk, option_copied};
ghost use Rattle.std.specs.List.{list_any};
ghost use Rattle.copy_privs.specs.Create.{confirm_refusal, confirmation, first_missing, is_coded, is_from, is_met, is_users, location_of, source_refusal};
ghost use Rattle.gss_ctx.specs.Table.{is_live};
ghost use Rattle.source_core.specs.Judging.{carried_by, granted, privilege_of};

use crate::carried::Carried;
use crate::source::Source;
use copy_privs::{
    Confirming, PrivFault, Privilege, confirm_matches, is_peer, location_of, read_privilege,
    refuse_from,
};
use gss_ctx::{Context, Contexts, Entry, is_live};
use gss_mech::Mechanism;
use nfs_base::{NetLoc, PrivCause};
use outbox::{Note, NoteList};
use outcome::Mem;
use session_server::{Extending, Judgement};
use std::alloc::Global;
use wire_xdr::Octets;

impl<M: Mechanism> Extending<Carried> for Source<M> {
    ghost use Rattle.std.specs.Prelude.{refl};
    ghost use Rattle.source_core.specs.Judging.{judges, silent, tells};
    ghost use Rattle.source_core.specs.Laws.{none_given};

    type Mech = M;

    ghost mech_of = { λ x. x.mech };

    ghost judges = { judges M.mic_of };

    ghost tells = { tells };

    ghost silent = { silent };

    ghost untold = { λ _. 0 };

    fn mech(&self) -> &M {
        &self.mech
    }

    fn judge(
        &self,
        alloc: Global,
        contexts: &Contexts<Carried>,
        number: u32,
        name: &[u8],
        privilege: &[u8],
        second: u64,
    ) -> Mem<Judgement<Carried>> {
        let parent = contexts.context(number).unwrap();
        match read_privilege(alloc, name, privilege)? {
            Err(PrivFault::UnknownName) => Ok(Judgement::Refused(PrivCause::Unknown)),
            Err(PrivFault::BadXdr { .. }) => Ok(Judgement::Misspelt),
            Ok(privilege) => {
                if let Some(cause) = self.refuses(contexts, parent, &privilege, second) {
                    return Ok(Judgement::Refused(cause));
                }
                self.grant(parent, privilege)
            }
        }
    }

    fn tell(&mut self, notes: &mut NoteList) {
        if let Some(cause) = self.refusal {
            notes.push(Note::Permit { cause });
        }
        self.refusal = None;
    }

    ghost by_telling = { λ x. none_given x };

    ghost telling_lands_none = { λ x. refl };

    ghost all_told = { λ x. refl };

    ghost lapsing_told = { λ second x. refl };
}

impl<M: Mechanism> Source<M> {
    /// Why a privilege is refused under a parent.
    fn refuses(
        &self,
        contexts: &Contexts<Carried>,
        parent: &Context<Carried>,
        privilege: &Privilege,
        second: u64,
    ) -> Option<PrivCause>
        ensures { result ≡ source_refusal M.mic_of self.now.peers parent.now.principal parent.now.key (carried_by second contexts.now.entries) privilege.now }
    {
        match privilege {
            Privilege::From {
                destination,
                user,
                ..
            } => refuse_from(
                self.peers.as_slice(),
                parent.principal.as_slice(),
                destination,
                user.as_slice(),
            ),
            Privilege::To { .. } => Some(PrivCause::Unknown),
            Privilege::Confirm { mic, user } => {
                let asked = confirming(parent, mic, user);
                self.refuses_confirm(contexts, &asked, second)
            }
        }
    }
}

impl<M: Mechanism> Source<M> {
    /// Why a copy_confirm_auth is refused, over what the live children among these contexts carry.
    fn refuses_confirm(
        &self,
        contexts: &Contexts<Carried>,
        asked: &Confirming,
        second: u64,
    ) -> Option<PrivCause>
        ensures { result ≡ confirm_refusal M.mic_of self.now.peers (confirmation asked.now) (carried_by second contexts.now.entries) }
    {
        let entries = contexts.entries();
        first_missing(
            is_any_from(entries, second),
            self.is_any_coded(entries, asked, second),
            self.is_any_users(entries, asked, second),
            self.is_any_met(entries, asked, second),
        )
    }

    fn is_any_coded(&self, entries: &[Entry<Carried>], asked: &Confirming, second: u64) -> bool
        ensures { result ≡ list_any (λ e. is_live second e && list_any (is_coded M.mic_of (confirmation asked.now)) (privilege_of e.context.carry)) entries.now }
    {
        entries.iter().any(|e| is_live(e, second) && self.is_coded(&e.context.carry, asked))
    }

    fn is_any_users(&self, entries: &[Entry<Carried>], asked: &Confirming, second: u64) -> bool
        ensures { result ≡ list_any (λ e. is_live second e && list_any (is_users M.mic_of (confirmation asked.now)) (privilege_of e.context.carry)) entries.now }
    {
        entries.iter().any(|e| is_live(e, second) && self.is_users(&e.context.carry, asked))
    }

    fn is_any_met(&self, entries: &[Entry<Carried>], asked: &Confirming, second: u64) -> bool
        ensures { result ≡ list_any (λ e. is_live second e && list_any (is_met M.mic_of self.now.peers (confirmation asked.now)) (privilege_of e.context.carry)) entries.now }
    {
        entries.iter().any(|e| is_live(e, second) && self.is_met(&e.context.carry, asked))
    }

    /// Whether a code is that of the secret of what a context carries.
    fn is_coded(&self, carry: &Option<Carried>, asked: &Confirming) -> bool
        ensures { result ≡ list_any (is_coded M.mic_of (confirmation asked.now)) (privilege_of carry.now) }
    {
        match carry {
            Some(Carried::From { secret, .. }) => {
                confirm_matches(asked.code, secret.as_slice(), asked.key, &self.mech)
            }
            Some(Carried::Confirm { .. }) => false,
            None => false,
        }
    }

    /// Whether it is that too, and for the same user.
    fn is_users(&self, carry: &Option<Carried>, asked: &Confirming) -> bool
        ensures { result ≡ list_any (is_users M.mic_of (confirmation asked.now)) (privilege_of carry.now) }
    {
        match carry {
            Some(Carried::From { secret, user, .. }) => {
                confirm_matches(asked.code, secret.as_slice(), asked.key, &self.mech)
                    && user.as_slice() == asked.user
            }
            Some(Carried::Confirm { .. }) => false,
            None => false,
        }
    }

    /// Whether it is both, and for a destination whose principal is the parent's.
    fn is_met(&self, carry: &Option<Carried>, asked: &Confirming) -> bool
        ensures { result ≡ list_any (is_met M.mic_of self.now.peers (confirmation asked.now)) (privilege_of carry.now) }
    {
        match carry {
            Some(
                Carried::From {
                    secret,
                    destination,
                    user,
                },
            ) => {
                confirm_matches(asked.code, secret.as_slice(), asked.key, &self.mech)
                    && user.as_slice() == asked.user
                    && is_peer(self.peers.as_slice(), asked.principal, destination)
            }
            Some(Carried::Confirm { .. }) => false,
            None => false,
        }
    }

    /// What a child carries to which a privilege is granted that isn't refused.
    fn grant(&self, parent: &Context<Carried>, privilege: Privilege) -> Mem<Judgement<Carried>>
        ensures { IfOk result (λ judgement. judgement ≡ granted (location_of self.now.peers parent.now.principal) parent.now.key privilege) }
    {
        match privilege {
            Privilege::From {
                secret,
                destination,
                user,
            } => Ok(Judgement::Granted(Carried::From {
                secret,
                destination,
                user,
            })),
            Privilege::To { .. } => Ok(Judgement::Refused(PrivCause::Unknown)),
            Privilege::Confirm { mic, user } => Ok(Judgement::Granted(Carried::Confirm {
                code: mic,
                user,
                peer: copied(location_of(self.peers.as_slice(), parent.principal.as_slice()))?,
                key: parent.key,
            })),
        }
    }
}

/// What a copy_confirm_auth comes with under a parent.
fn confirming<'a>(
    parent: &'a Context<Carried>,
    code: &'a Octets,
    user: &'a Octets,
) -> Confirming<'a>
    ensures { confirmation result ≡ record { principal = parent.now.principal; key = parent.now.key; code = code.now; user = user.now } }
{
    Confirming {
        principal: parent.principal.as_slice(),
        key: &parent.key,
        code: code.as_slice(),
        user: user.as_slice(),
    }
}

/// The cause of the first test that doesn't hold.
fn first_missing(from: bool, coded: bool, users: bool, met: bool) -> Option<PrivCause>
    ensures { result ≡ first_missing from coded users met }
{
    if !from {
        return Some(PrivCause::Unknown);
    }
    if !coded {
        return Some(PrivCause::NoMatch);
    }
    if !users {
        return Some(PrivCause::WrongUser);
    }
    if !met {
        return Some(PrivCause::WrongPeer);
    }
    None
}

/// Whether a live context carries a copy_from_auth.
fn is_any_from(entries: &[Entry<Carried>], second: u64) -> bool
    ensures { result ≡ list_any (λ e. is_live second e && list_any is_from (privilege_of e.context.carry)) entries.now }
{
    entries
        .iter()
        .any(|e| is_live(e, second) && is_from(&e.context.carry))
}

/// Whether a context carries a copy_from_auth.
fn is_from(carry: &Option<Carried>) -> bool
    ensures { result ≡ list_any is_from (privilege_of carry.now) }
{
    match carry {
        Some(Carried::From { .. }) => true,
        Some(Carried::Confirm { .. }) => false,
        None => false,
    }
}

fn copied(loc: Option<&NetLoc>) -> Mem<Option<NetLoc>>
    ensures { IfOk result (λ copy. copy ≡ option_copied loc.entry) }
{
    match loc {
        Some(loc) => Ok(Some(loc.copy()?)),
        None => Ok(None),
    }
}
