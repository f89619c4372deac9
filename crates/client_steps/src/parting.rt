//! How leave is taken of a server.

ghost use Rattle.std.specs.Prelude.{◌≡◌, ◌<◌, ◌≤◌, IfOk, IfSome};
ghost use Rattle.client_site.specs.Sending.{ended_at};
ghost use Rattle.client_steps.specs.Acting.{acting};
ghost use Rattle.client_steps.specs.Desks.{site_at, with_site};
ghost use Rattle.client_steps.specs.Parting as spec;
ghost use Rattle.client_steps.specs.Setting.{IsFit};
ghost use Rattle.mount.specs.Taking.{is_lost};
ghost use Rattle.mount.specs.declared.state.TheConstants.{PLACES};
ghost use Rattle.session_calls.specs.Calls.{SlotCallFits};

use crate::acting::{Course, Queues};
use crate::desk::Desk;
use crate::setting::Setting;
use client_site::{Found, OpenFile};
use file_ops::{OP_DESTROY_CLIENTID, OP_DESTROY_SESSION};
use gss_mech::Mechanism;
use mount::{Ending, SendAt, Sent, Told, Under};
use nfs_base::{Side, Status};
use nfs_compound::Reply;
use outbox::{CallLabel, Dropped, Note};
use outcome::Mem;
use session_calls::{FileCall, SlotCall};
use std::alloc::Global;

/// What a server of which leave is taken was asked last, and has not answered.
#[derive(Clone, Copy)]
pub enum Parting {
    /// Nothing: no leave is taken of it, or the leave is over.
    Done,

    /// CLOSE of the file with this number (RFC 8881 section 18.2).
    Closes(u32),

    /// DESTROY_SESSION, DESTROY_CLIENTID or the context's DESTROY.
    Ends(Ending),
}

/// The lowest open file past one, if there is one.
fn next_file(files: &[OpenFile], last: Option<u32>) -> Option<u32>
    ensures { result ≡ spec.next_file last files.now }
{
    match files {
        [] => None,
        [first, more @ ..] => {
            let lower = next_file(more, last);
            if !is_past(last, first.file) {
                return lower;
            }
            match lower {
                None => Some(first.file),
                Some(lower) => Some(first.file.min(lower)),
            }
        }
    }
}

fn is_past(last: Option<u32>, file: u32) -> bool
    ensures { result ≡ spec.is_past last file }
{
    match last {
        None => true,
        Some(last) => last < file,
    }
}

fn closes(file: Option<u32>) -> Parting
    ensures { result ≡ spec.closes file }
{
    match file {
        None => Parting::Ends(Ending::Session),
        Some(file) => Parting::Closes(file),
    }
}

/// What comes next, once this is answered.
fn next_parting(parting: Parting, files: &[OpenFile]) -> Parting
    ensures { result ≡ spec.next_parting parting files.now }
{
    match parting {
        Parting::Done => Parting::Done,
        Parting::Closes(file) => closes(next_file(files, Some(file))),
        Parting::Ends(ending) => match ending {
            Ending::Session => Parting::Ends(Ending::Client),
            Ending::Client => Parting::Ends(Ending::Context),
            Ending::Context => Parting::Done,
        },
    }
}

fn close_call(opened_file: Option<OpenFile>) -> Option<SlotCall>
    ensures call { result ≡ spec.close_call opened_file }
    ensures fits { IfSome result (λ c. SlotCallFits c) }
{
    let opened_file = opened_file?;
    let file = opened_file.handle;
    let id = opened_file.id;
    Some(SlotCall::OnFile {
        file,
        call: FileCall::Close { id },
    })
}

fn ending_label(ending: Ending) -> CallLabel
    ensures { result ≡ spec.ending_label ending }
{
    match ending {
        Ending::Session => CallLabel::Operation(OP_DESTROY_SESSION),
        Ending::Client => CallLabel::Operation(OP_DESTROY_CLIENTID),
        Ending::Context => CallLabel::Destroy,
    }
}

fn is_last(parting: Parting) -> bool
    ensures { result ≡ spec.is_last parting }
{
    matches!(parting, Parting::Ends(Ending::Context))
}

/// Whether a status says that the session is gone, or the client.
fn is_lost(status: Status) -> bool
    ensures { result ≡ is_lost status }
{
    status.number == Status::BADSESSION.number || status.number == Status::STALE_CLIENTID.number
}

fn loses(parting: Parting, reply: &Reply) -> bool
    ensures { result ≡ spec.loses parting reply.now }
{
    match parting {
        Parting::Closes(_) => is_lost(reply.status),
        Parting::Done | Parting::Ends(_) => is_last(parting),
    }
}

/// Whether an answer takes the setup down.
fn takes_down(told: &Told, parting: Parting) -> bool
    ensures { result ≡ spec.takes_down told.now parting }
{
    match told {
        Told::Denied(_) => true,
        Told::Answer(reply) => loses(parting, reply),
        Told::Unmatched
        | Told::Rooted
        | Told::Child(_)
        | Told::Refused(_)
        | Told::Stepped
        | Told::Stopped(_)
        | Told::Misspelt
        | Told::Failed(_) => is_last(parting),
    }
}

impl Desk {
    /// Leave is taken of a server, where it is set up: its first call goes out. What it was asked then.
    pub fn leave<M: Mechanism>(&mut self, alloc: Global, side: Side, mech: &M) -> Mem<Parting>
        ensures told { IfOk result (λ told. told ≡ (spec.leave M.mic_of side self.old).0) }
        ensures after { IfOk result (λ told. self.new ≡ (spec.leave M.mic_of side self.old).1) }
    {
        if !self.is_up(side) {
            return Ok(Parting::Done);
        }
        let first = closes(next_file(self.site(side).files.as_slice(), None));
        self.part(alloc, side, first, mech)
    }

    /// The next call of a leave goes out. What was asked then.
    fn part<M: Mechanism>(
        &mut self,
        alloc: Global,
        side: Side,
        parting: Parting,
        mech: &M,
    ) -> Mem<Parting>
        ensures told { IfOk result (λ told. told ≡ (spec.parted M.mic_of side parting self.old).0) }
        ensures after { IfOk result (λ told. self.new ≡ (spec.parted M.mic_of side parting self.old).1) }
    {
        if self.send_parting(alloc, side, parting, mech)? {
            Ok(parting)
        } else {
            Ok(Parting::Done)
        }
    }

    fn send_parting<M: Mechanism>(
        &mut self,
        alloc: Global,
        side: Side,
        parting: Parting,
        mech: &M,
    ) -> Mem<bool>
        ensures told { IfOk result (λ told. told ≡ (spec.parting_sent M.mic_of side parting self.old).0) }
        ensures after { IfOk result (λ told. self.new ≡ (spec.parting_sent M.mic_of side parting self.old).1) }
    {
        match parting {
            Parting::Done => Ok(false),
            Parting::Closes(file) => {
                let call = close_call(self.file(side, file));
                self.send_call(alloc, side, 0, Under::Root, call, mech)
            }
            Parting::Ends(ending) => {
                let at = self.send_at(0);
                let sent = self.site_end(alloc, side, at, ending, mech)?;
                self.send_out(side, ending_label(ending), sent)
            }
        }
    }

    fn site_end<M: Mechanism>(
        &mut self,
        alloc: Global,
        side: Side,
        at: SendAt,
        ending: Ending,
        mech: &M,
    ) -> Mem<Option<Sent>>
        requires { at.place < PLACES }
        ensures sent { IfOk result (λ sent. sent ≡ (ended_at M.mic_of at ending (site_at side self.old)).0) }
        ensures after { IfOk result (λ sent. self.new ≡ with_site side (ended_at M.mic_of at ending (site_at side self.old)).1 self.old) }
    {
        match side {
            Side::Source => self.source.end(alloc, at, ending, mech),
            Side::Dest => self.dest.end(alloc, at, ending, mech),
        }
    }
}

impl Course {
    /// A reply comes from a server of which leave is taken. What it was asked last then.
    pub fn on_parting_reply<M: Mechanism>(
        &mut self,
        alloc: Global,
        setting: &Setting<M>,
        queues: &Queues,
        side: Side,
        parting: Parting,
        record_: &[u8],
    ) -> Mem<Parting>
        ensures told { IfOk result (λ told. told ≡ (spec.parting_replied (record { mic = M.mic_of; derived = M.derived; finished = M.finished setting.now.mech setting.now.me }) side record_.now parting (acting queues.now self.old)).0) }
        ensures after { IfOk result (λ _. acting queues.now self.new ≡ (spec.parting_replied (record { mic = M.mic_of; derived = M.derived; finished = M.finished setting.now.mech setting.now.me }) side record_.now parting (acting queues.now self.old)).1) }
    {
        let found = self.desk.take(alloc, setting, side, record_)?;
        self.on_parting_found(alloc, setting, queues, side, parting, found)
    }

    fn on_parting_found<M: Mechanism>(
        &mut self,
        alloc: Global,
        setting: &Setting<M>,
        queues: &Queues,
        side: Side,
        parting: Parting,
        found: Option<Found>,
    ) -> Mem<Parting>
        ensures told { IfOk result (λ told. told ≡ (spec.found_parting found M.mic_of side parting (acting queues.now self.old)).0) }
        ensures after { IfOk result (λ _. acting queues.now self.new ≡ (spec.found_parting found M.mic_of side parting (acting queues.now self.old)).1) }
    {
        let Some(found) = found else {
            self.desk.note(Note::Dropped {
                why: Dropped::Unmatched,
            })?;
            return Ok(parting);
        };
        let Found {
            place,
            told,
            accepted,
            ..
        } = found;
        self.desk.accept(accepted);
        if place != 0 {
            return Ok(parting);
        }
        self.after_parting(alloc, setting, queues, side, parting, &told)
    }

    fn after_parting<M: Mechanism>(
        &mut self,
        alloc: Global,
        setting: &Setting<M>,
        queues: &Queues,
        side: Side,
        parting: Parting,
        told: &Told,
    ) -> Mem<Parting>
        ensures told { IfOk result (λ next. next ≡ (spec.after_answer (spec.takes_down told.now parting) M.mic_of side parting (acting queues.now self.old)).0) }
        ensures after { IfOk result (λ _. acting queues.now self.new ≡ (spec.after_answer (spec.takes_down told.now parting) M.mic_of side parting (acting queues.now self.old)).1) }
    {
        if takes_down(told, parting) {
            self.go_down(alloc, queues, side, Status::BADSESSION)?;
            return Ok(Parting::Done);
        }
        let next = next_parting(parting, self.desk.site(side).files.as_slice());
        self.desk.part(alloc, side, next, &setting.mech)
    }
}
