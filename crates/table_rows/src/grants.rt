//! The grants of a source (`copy_grants`).

use crate::creates;
use crate::fields::{key, location, octets, tell, tell_number, tell_status};
use copy_grants::{Ask, Full, Grants, Permit, status_of};
use gss_mech::Realm;
use nfs_base::{NetLoc, StateId};
use outcome::Mem;
use row_text::{number, word};
use std::alloc::Global;
use std::fmt::Write;

/// A table of grants, with the codes of a realm.
#[derive(Drop)]
pub struct GrantLines {
    grants: Grants,
    realm: Realm,
}

impl GrantLines {
    pub fn new(alloc: Global) -> Mem<GrantLines> {
        Ok(GrantLines {
            grants: Grants::new(alloc, 0)?,
            realm: Realm::new(alloc, &[])?,
        })
    }

    /// The answer to a call: `case BOOT`, which begins a table of its own, and `expire NOW`, both without an answer; `notify NOW FILE LOC USER SECRET`, whose answer is a number or `full`;
    /// `permit NOW BOOT NUMBER FILE LOC CONFIRMED USER CODE KEY`, whose answer is `permitted` or a cause and a status;
    /// `shows NOW FILE LOC USER CODE KEY`, whose answer is `yes` or `no`; `cancel BOOT NUMBER`, whose answer is a status;
    /// `made`, with how many grants were made; `notify_taken`, as `notify`, by the call that takes over what it keeps; and
    /// those of `src/creates.rt`.
    pub fn answer(&mut self, alloc: Global, words: &[&str], text: &mut String) -> Mem<()> {
        match word(words, 0) {
            "case" => self.begin(alloc, number(words, 1)),
            "expire" => self.expire(number(words, 1)),
            "notify" => self.notify(alloc, words, text),
            "notify_taken" => self.notify_taken(alloc, words, text),
            "permit" => self.permit(alloc, words, text),
            "shows" => self.shows(alloc, words, text),
            "cancel" => self.cancel(words, text),
            "made" => tell_number(self.grants.made(), text),
            _ => creates::answer(alloc, words, text),
        }
    }

    fn begin(&mut self, alloc: Global, boot: u32) -> Mem<()> {
        self.grants = Grants::new(alloc, boot)?;
        Ok(())
    }

    fn expire(&mut self, now: u32) -> Mem<()> {
        self.grants.expire(u64::from(now));
        Ok(())
    }

    fn notify(&mut self, alloc: Global, words: &[&str], text: &mut String) -> Mem<()> {
        let destination = location(alloc, words, 3)?;
        self.give(alloc, &destination, words, text)
    }

    fn give(
        &mut self,
        alloc: Global,
        destination: &NetLoc,
        words: &[&str],
        text: &mut String,
    ) -> Mem<()> {
        if self.grants.made() == u32::MAX {
            return tell(text, "worn");
        }
        let user = octets(alloc, words, 4)?;
        let secret = octets(alloc, words, 5)?;
        let now = u64::from(number(words, 1));
        let file = number(words, 2);
        let user = user.as_slice();
        let secret = secret.as_slice();
        let given = self.grants.notify(now, file, destination, user, secret)?;
        tell_given(given, text)
    }

    fn notify_taken(&mut self, alloc: Global, words: &[&str], text: &mut String) -> Mem<()> {
        if self.grants.made() == u32::MAX {
            return tell(text, "worn");
        }
        let destination = location(alloc, words, 3)?;
        let user = octets(alloc, words, 4)?;
        let secret = octets(alloc, words, 5)?;
        let now = u64::from(number(words, 1));
        let file = number(words, 2);
        let given = self
            .grants
            .notify_taken(now, file, destination, user, secret);
        tell_given(given, text)
    }

    fn permit(&mut self, alloc: Global, words: &[&str], text: &mut String) -> Mem<()> {
        let peer = peer(alloc, words, 5)?;
        self.permit_to(alloc, peer.as_ref(), words, text)
    }

    fn permit_to(
        &mut self,
        alloc: Global,
        peer: Option<&NetLoc>,
        words: &[&str],
        text: &mut String,
    ) -> Mem<()> {
        let user = octets(alloc, words, 7)?;
        let code = octets(alloc, words, 8)?;
        let ask = Ask {
            id: id(number(words, 2), number(words, 3)),
            file: number(words, 4),
            peer,
            confirmed: word(words, 6) == "yes",
            user: user.as_slice(),
            code: code.as_slice(),
            key: &key(words, 9),
        };
        let now = u64::from(number(words, 1));
        tell_permit(self.grants.permit(now, &ask, &self.realm), text)
    }

    fn shows(&self, alloc: Global, words: &[&str], text: &mut String) -> Mem<()> {
        let peer = peer(alloc, words, 3)?;
        self.shows_to(alloc, peer.as_ref(), words, text)
    }

    fn shows_to(
        &self,
        alloc: Global,
        peer: Option<&NetLoc>,
        words: &[&str],
        text: &mut String,
    ) -> Mem<()> {
        let user = octets(alloc, words, 4)?;
        let code = octets(alloc, words, 5)?;
        let ask = Ask {
            id: id(0, 0),
            file: number(words, 2),
            peer,
            confirmed: true,
            user: user.as_slice(),
            code: code.as_slice(),
            key: &key(words, 6),
        };
        let now = u64::from(number(words, 1));
        let is_shown = self.grants.shows(now, &ask, &self.realm);
        tell(text, if is_shown { "yes" } else { "no" })
    }

    fn cancel(&mut self, words: &[&str], text: &mut String) -> Mem<()> {
        let id = id(number(words, 1), number(words, 2));
        match self.grants.cancel(&id) {
            Ok(()) => tell(text, "0"),
            Err(status) => tell_status(status, text),
        }
    }
}

/// The location at a place; `-` is none.
fn peer(alloc: Global, words: &[&str], at: usize) -> Mem<Option<NetLoc>> {
    match word(words, at) {
        "-" => Ok(None),
        _ => location(alloc, words, at).map(Some),
    }
}

fn tell_permit(permit: Permit, text: &mut String) -> Mem<()> {
    match permit {
        Permit::Permitted => tell(text, "permitted"),
        Permit::Denied(cause) => Ok(write!(text, "{cause} {}", status_of(cause))?),
    }
}

/// Tells the number of the grant that was given.
fn tell_given(answer: Result<StateId, Full>, text: &mut String) -> Mem<()> {
    match answer {
        Ok(
            StateId {
                seqid: 1,
                kind: StateId::COPY_NOTIFY,
                number,
                ..
            },
        ) => tell_number(number, text),
        Ok(_) => tell(text, "another stateid"),
        Err(Full) => tell(text, "full"),
    }
}

/// A stateid of COPY_NOTIFY.
fn id(boot: u32, number: u32) -> StateId {
    StateId {
        seqid: 1,
        kind: StateId::COPY_NOTIFY,
        boot,
        number,
    }
}
