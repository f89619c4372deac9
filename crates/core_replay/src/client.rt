//! Cases of a client: the client, and its steps by the words of a line.

ghost use Rattle.std.specs.Prelude.{◌≡◌, ◌≤◌, ◌<◌, length};
ghost use Rattle.client_core.specs.declared.client.TheConstants.{MOST_STEPS};
ghost use Rattle.nfs_base.specs.Forms.{net_loc};
ghost use Rattle.nfs_base.specs.declared.limits.TheConstants.{DATA_LIMIT};

use crate::client_lines::{copy_number, copy_spec, is_step, side_of, tell_awaits, tell_report};
use crate::lines::{bytes_of, long};
use crate::outbox_lines::tell_step;
use crate::player::{Core, Player};
use crate::setting::{dest_place, realm, source_place};
use client_core::{Client, MOST_STEPS};
use gss_mech::{Mechanism, Realm};
use nfs_base::{DATA_LIMIT, NetLoc};
use outbox::Outbox;
use outcome::Mem;
use row_text::{number, word};
use std::alloc::Global;
use streams::CountDraws;
use wire_lines::Speaker;
use wire_xdr::Octets;

/// The client of a case, and what it draws from.
#[derive(Drop)]
pub struct Calling<M> {
    client: Client<M>,
    draws: CountDraws,
}

impl Player for Calling<Realm> {
    fn begin(alloc: Global, _core: Core, _words: &[&str]) -> Mem<Option<Calling<Realm>>> {
        new_calling(alloc, realm(alloc)?).map(Some)
    }

    fn event(&mut self, alloc: Global, words: &[&str], text: &mut String) -> Mem<bool> {
        self.take(alloc, words, text)
    }

    fn held(&mut self, words: &[&str], text: &mut String) -> Mem<()> {
        self.tell_held(words, text)
    }
}

impl<M: Mechanism> Calling<M> {
    /// Makes a step and adds the lines of its outcome: none where the client makes no step.
    fn take(&mut self, alloc: Global, words: &[&str], text: &mut String) -> Mem<bool> {
        if !is_step(word(words, 0)) {
            return Ok(false);
        }
        let given = self.step(alloc, words)?;
        let _is_made = tell_step(text, Speaker::Client, given)?;
        Ok(true)
    }

    /// Adds what the client tells of a copy, or whether it awaits an answer of a server.
    fn tell_held(&self, words: &[&str], text: &mut String) -> Mem<()> {
        if word(words, 0) == "report" {
            let j = copy_number(words);
            return tell_report(text, j, self.client.report(j));
        }
        let side = word(words, 1);
        tell_awaits(text, side, self.client.awaits(side_of(side)))
    }

    /// A step, by the words of its line. None where the client makes none.
    fn step(&mut self, alloc: Global, words: &[&str]) -> Mem<Option<Outbox>> {
        if self.client.calls() >= MOST_STEPS {
            return Ok(None);
        }
        match word(words, 0) {
            "copy" => self.copy(alloc, words),
            "write" => self.write(alloc, words),
            "record" => self.record(alloc, words).map(Some),
            _ => self.plain(alloc, words).map(Some),
        }
    }

    /// A copy is begun, where there is none yet with its number.
    fn copy(&mut self, alloc: Global, words: &[&str]) -> Mem<Option<Outbox>>
        requires { self.old.client.steps < MOST_STEPS }
    {
        let j = copy_number(words);
        if j == 0 || j > 15 || self.client.has_begun(j) {
            return Ok(None);
        }
        let now = long(words, 2);
        self.client
            .begin_copy(alloc, j, copy_spec(words), now, &mut self.draws)
            .map(Some)
    }

    fn write(&mut self, alloc: Global, words: &[&str]) -> Mem<Option<Outbox>>
        requires { self.old.client.steps < MOST_STEPS }
    {
        let bytes = bytes_of(alloc, word(words, 5));
        if bytes.len() > DATA_LIMIT as usize {
            return Ok(None);
        }
        self.write_bytes(alloc, words, bytes.as_slice()).map(Some)
    }

    fn write_bytes(&mut self, alloc: Global, words: &[&str], bytes: &[u8]) -> Mem<Outbox>
        requires steps { self.old.client.steps < MOST_STEPS }
        requires len { length bytes.now ≤ DATA_LIMIT }
    {
        let (file, off, now) = (number(words, 3), long(words, 4), long(words, 2));
        let at = side_of(word(words, 1));
        self.client
            .write(alloc, at, file, off, bytes, now, &mut self.draws)
    }

    fn record(&mut self, alloc: Global, words: &[&str]) -> Mem<Outbox>
        requires { self.old.client.steps < MOST_STEPS }
    {
        let record_ = bytes_of(alloc, word(words, 3));
        let (from, now) = (side_of(word(words, 1)), long(words, 2));
        self.client
            .on_record(alloc, from, record_.as_slice(), now, &mut self.draws)
    }

    /// A step that takes no bytes.
    fn plain(&mut self, alloc: Global, words: &[&str]) -> Mem<Outbox>
        requires { self.old.client.steps < MOST_STEPS }
    {
        let (first, second) = (long(words, 1), long(words, 2));
        match word(words, 0) {
            "tick" => self.client.tick(alloc, first),
            "retry" => self.client.retry(alloc, first, &mut self.draws),
            "status" => self.client.status(alloc, copy_number(words), second),
            "cancel" => self.client.cancel(alloc, copy_number(words), second),
            _ => self.client.commit(
                alloc,
                side_of(word(words, 1)),
                number(words, 3),
                second,
                &mut self.draws,
            ),
        }
    }
}

/// A client that has called nobody yet.
fn new_calling<M: Mechanism + Drop>(alloc: Global, mech: M) -> Mem<Calling<M>> {
    Ok(Calling {
        client: new_client(alloc, mech)?,
        draws: CountDraws::new(),
    })
}

fn new_client<M: Mechanism + Drop>(alloc: Global, mech: M) -> Mem<Client<M>> {
    let (source, dest) = (source_place(alloc)?, dest_place(alloc)?);
    new_client_of(alloc, mech, source, dest)
}

/// A client of servers at these places.
fn new_client_of<M: Mechanism + Drop>(
    alloc: Global,
    mech: M,
    source: NetLoc,
    dest: NetLoc,
) -> Mem<Client<M>>
    requires source { net_loc.Fits source }
    requires dest { net_loc.Fits dest }
{
    let me = Octets::from_slice(alloc, b"user")?;
    Client::new(alloc, mech, me, source, dest)
}
