//! Clients' answers to callbacks.

ghost use Rattle.std.specs.Prelude.{◌≡◌, IfOk};
ghost use Rattle.dest_jobs.specs.Counting.{KeepsLanded};
ghost use Rattle.dest_steps.specs.Hearing.{hearing_done, heard_client, is_there, of_book};

use crate::copier::Copier;
use dest_back::Hearing;
use dest_jobs::Book;
use gss_mech::Mechanism;
use nfs_base::{JobName, Seal};
use outbox::Dropped;
use outcome::Mem;
use std::alloc::Global;

impl Copier {
    /// What a reply is to the callbacks. One to that of a job that isn't in the book any more is none. Nothing changes by that.
    pub fn hear_client<M: Mechanism>(
        &self,
        alloc: Global,
        boot: u32,
        record_: &[u8],
        mech: &M,
    ) -> Mem<Hearing>
        ensures { IfOk result (λ hearing. hearing ≡ heard_client M.mic_of boot record_.now self.now) }
    {
        let hearing = self.back.hear(alloc, record_, mech)?;
        Ok(of_book(&self.copies.book, boot, hearing))
    }
}

fn of_book(book: &Book, boot: u32, hearing: Hearing) -> Hearing
    ensures { result ≡ of_book book.now.table boot hearing }
{
    match hearing {
        Hearing::Unmatched => Hearing::Unmatched,
        Hearing::Passed(number, accepted) => {
            if is_there(book, boot, number) {
                Hearing::Passed(number, accepted)
            } else {
                Hearing::Unmatched
            }
        }
        Hearing::Done(number, seal) => {
            if is_there(book, boot, number) {
                Hearing::Done(number, seal)
            } else {
                Hearing::Unmatched
            }
        }
    }
}

fn is_there(book: &Book, boot: u32, number: u32) -> bool
    ensures { result ≡ is_there book.now.table boot number }
{
    book.client(JobName { boot, number }).is_some()
}

/// Does what a reply does, and tells under which seal it was accepted.
#[tactic(auto, using(crate::proofs::Jobs::reports_made))]
pub fn take_hearing(copier: &mut Copier, boot: u32, hearing: Hearing) -> Option<Seal>
    ensures after { copier.new ≡ (hearing_done boot hearing copier.old).0 }
    ensures accepted { result ≡ (hearing_done boot hearing copier.old).1 }
    ensures given { copier.new.copies.book.table.made ≡ copier.old.copies.book.table.made }
    ensures keeps { KeepsLanded copier.old.copies copier.new.copies }
{
    match hearing {
        Hearing::Unmatched => {
            copier.drop_record(Dropped::Unmatched);
            None
        }
        Hearing::Passed(_, accepted) => accepted,
        Hearing::Done(number, seal) => {
            copier.copies.report(JobName { boot, number });
            Some(seal)
        }
    }
}
