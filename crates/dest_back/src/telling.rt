//! Telling a client how its copy ended.

ghost use Rattle.std.specs.Prelude.{◌≡◌, ◌<◌, ◌≤◌, IfOk, IfSome, Some, length};
ghost use Rattle.dest_back.specs.Callbacks.{line_for};
ghost use Rattle.dest_back.specs.Compounds.{offload_compound};
ghost use Rattle.dest_back.specs.Telling.{again_for, called_on, callback_head, new_on, sealed_with, told, told_again, told_to, FitsRecord};
ghost use Rattle.dest_tasks.specs.declared.seats.TheConstants.{SEATS};
ghost use Rattle.gss_ctx.specs.Init.{asked_cred};
ghost use Rattle.gss_ctx.specs.Seals.{cred_of};
ghost use Rattle.nfs_compound.specs.Compounds.{cb_compound_bytes};
ghost use Rattle.rpc_msg.specs.Heads.{call};
ghost use Rattle.rpc_msg.specs.declared.numbers.TheConstants.{RPCSEC_GSS_DATA};
ghost use Rattle.rpc_msg.specs.declared.records.TheConstants.{RECORD_LIMIT};
ghost use Rattle.sess_slots.specs.Table.{session_id};

use crate::callbacks::{Awaiting, Callbacks, Party, Post, awaiting_in};
use crate::compound::{Ended, offload_compound};
use crate::line::{Line, line_of, put_line};
use dest_tasks::SEATS;
use gss_ctx::{Caller, Sealed, call_head};
use gss_mech::Mechanism;
use nfs_base::{CALLBACK_VERSION, PROC_COMPOUND, Seal};
use nfs_compound::write_cb_compound;
use outcome::Mem;
use rpc_msg::{CallHead, RPCSEC_GSS_DATA};
use sess_slots::{Back, Sessions};
use session_calls::SlotUse;
use std::alloc::Global;
use wire_xdr::Octets;

/// At which seat a call is made, by which xid it goes out, and in which second; and the server's boot number.
#[derive(Clone, Copy)]
pub struct CallAt {
    pub seat: u32,
    pub xid: u32,
    pub now: u64,
    pub boot: u32,
}

/// A record that goes out on a connection, and its seal.
#[derive(Drop)]
pub struct Sent {
    pub conn: u32,
    pub bytes: Octets,
    pub seal: Seal,
}

impl Callbacks {
    /// The call that tells how the job at a seat ended, which then awaits its answer. None: no job sits there, its session is
    /// gone or has no back channel, or numbers have run out; then nothing changes.
    pub fn tell<M: Mechanism>(
        &mut self,
        alloc: Global,
        at: CallAt,
        ended: &Ended,
        sessions: &Sessions,
        mech: &M,
    ) -> Mem<Option<Sent>>
        requires { at.seat < SEATS }
        ensures sent { IfOk result (λ sent. sent ≡ (told M.mic_of M.derived sessions.now at ended.now self.old).0) }
        ensures after { IfOk result (λ sent. self.new ≡ (told M.mic_of M.derived sessions.now at ended.now self.old).1) }
        ensures fits { IfOk result FitsRecord }
    {
        let Some(post) = self.posts[at.seat as usize] else {
            return Ok(None);
        };
        match sessions.back_of(post.party.session) {
            None => Ok(None),
            Some(back) => self.tell_to(alloc, at, ended, post, back, sessions, mech),
        }
    }

    fn tell_to<M: Mechanism>(
        &mut self,
        alloc: Global,
        at: CallAt,
        ended: &Ended,
        post: Post,
        back: Back,
        sessions: &Sessions,
        mech: &M,
    ) -> Mem<Option<Sent>>
        requires { at.seat < SEATS }
        ensures sent { IfOk result (λ sent. sent ≡ (told_to M.mic_of M.derived sessions.now at ended.now post (Some back) self.old).0) }
        ensures after { IfOk result (λ sent. self.new ≡ (told_to M.mic_of M.derived sessions.now at ended.now post (Some back) self.old).1) }
        ensures fits { IfOk result FitsRecord }
    {
        let line = self.line(&post.party, &back, mech);
        self.tell_on(alloc, at, ended, post, back, line, sessions, mech)
    }

    fn tell_on<M: Mechanism>(
        &mut self,
        alloc: Global,
        at: CallAt,
        ended: &Ended,
        post: Post,
        back: Back,
        line: Line,
        sessions: &Sessions,
        mech: &M,
    ) -> Mem<Option<Sent>>
        requires { at.seat < SEATS }
        ensures sent { IfOk result (λ sent. sent ≡ (new_on M.mic_of sessions.now at post back ended.now line self.old).0) }
        ensures after { IfOk result (λ sent. self.new ≡ (new_on M.mic_of sessions.now at post back ended.now line self.old).1) }
        ensures fits { IfOk result FitsRecord }
    {
        let mut line = line;
        let number = line.numbers.next(at.seat);
        if number >= u32::MAX {
            return Ok(None);
        }
        line.numbers.note_new(at.seat);
        self.call(alloc, at, post, back, line, number, ended, sessions, mech)
    }

    /// The call that awaits its answer at a seat goes out again, with the number that it has in its slot. What was sent before
    /// is no longer awaited. None as of [`Callbacks::tell`], and where none is awaited.
    pub fn tell_again<M: Mechanism>(
        &mut self,
        alloc: Global,
        at: CallAt,
        sessions: &Sessions,
        mech: &M,
    ) -> Mem<Option<Sent>>
        requires { at.seat < SEATS }
        ensures sent { IfOk result (λ sent. sent ≡ (told_again M.mic_of M.derived sessions.now at self.old).0) }
        ensures after { IfOk result (λ sent. self.new ≡ (told_again M.mic_of M.derived sessions.now at self.old).1) }
        ensures fits { IfOk result FitsRecord }
    {
        let Some(post) = self.posts[at.seat as usize] else {
            return Ok(None);
        };
        match awaiting_in(&post) {
            None => Ok(None),
            Some(awaiting) => self.repeat(alloc, at, post, awaiting, sessions, mech),
        }
    }

    fn repeat<M: Mechanism>(
        &mut self,
        alloc: Global,
        at: CallAt,
        post: Post,
        awaiting: Awaiting,
        sessions: &Sessions,
        mech: &M,
    ) -> Mem<Option<Sent>>
        requires { at.seat < SEATS }
        ensures sent { IfOk result (λ sent. sent ≡ (again_for M.mic_of M.derived sessions.now at post (Some awaiting) self.old).0) }
        ensures after { IfOk result (λ sent. self.new ≡ (again_for M.mic_of M.derived sessions.now at post (Some awaiting) self.old).1) }
        ensures fits { IfOk result FitsRecord }
    {
        let Some(back) = sessions.back_of(post.party.session) else {
            return Ok(None);
        };
        let line = self.line(&post.party, &back, mech);
        let number = awaiting.number;
        self.call(
            alloc,
            at,
            post,
            back,
            line,
            number,
            &awaiting.told,
            sessions,
            mech,
        )
    }

    /// The line of a party's session.
    fn line<M: Mechanism>(&self, party: &Party, back: &Back, mech: &M) -> Line
        ensures { result ≡ line_for M.derived party.now back.now self.now.lines }
    {
        match line_of(self.lines.as_slice(), party.session) {
            Some(line) => line.copy(),
            None => Line::new(party, back, mech),
        }
    }

    fn call<M: Mechanism>(
        &mut self,
        alloc: Global,
        at: CallAt,
        post: Post,
        back: Back,
        line: Line,
        number: u32,
        told: &Ended,
        sessions: &Sessions,
        mech: &M,
    ) -> Mem<Option<Sent>>
        requires { at.seat < SEATS }
        ensures sent { IfOk result (λ sent. sent ≡ (called_on M.mic_of sessions.now at post back line number told.now self.old).0) }
        ensures after { IfOk result (λ sent. self.new ≡ (called_on M.mic_of sessions.now at post back line number told.now self.old).1) }
        ensures fits { IfOk result FitsRecord }
    {
        let Line {
            session,
            key,
            mut caller,
            numbers,
        } = line;
        let slot = SlotUse {
            session: session_id(at.boot, session),
            slot: at.seat,
            number,
        };
        let Some(sealed) = seal(alloc, at.xid, back.program, &mut caller, slot, told, mech)? else {
            return Ok(None);
        };
        let Sealed { bytes, awaited } = sealed;
        let seal = caller.seal(awaited.seq);
        let awaiting = Awaiting {
            sent_at: at.now,
            told: *told,
            number,
            key,
            seal,
            awaited,
        };
        let line = Line {
            session,
            key,
            caller,
            numbers,
        };
        put_line(&mut self.lines, line, sessions)?;
        self.calls = at.xid;
        self.posts[at.seat as usize] = Some(Post {
            job: post.job,
            party: post.party,
            awaiting: Some(awaiting),
        });
        Ok(Some(Sent {
            conn: back.conn,
            bytes,
            seal,
        }))
    }
}

/// The call as it goes out under the context for callbacks, with the context's next number. None where its numbers have run
/// out; then nothing changes.
fn seal<M: Mechanism>(
    alloc: Global,
    xid: u32,
    program: u32,
    caller: &mut Caller,
    slot: SlotUse,
    told: &Ended,
    mech: &M,
) -> Mem<Option<Sealed>>
    ensures sealed { IfOk result (λ sealed. sealed ≡ (sealed_with M.mic_of caller.old xid program slot told.now).0) }
    ensures after { IfOk result (λ sealed. caller.new ≡ (sealed_with M.mic_of caller.old xid program slot told.now).1) }
    ensures fits { IfOk result (λ sealed. IfSome sealed (λ s. length s.bytes ≤ RECORD_LIMIT)) }
{
    let args = offload_args(alloc, slot, told)?;
    let head = callback_head(alloc, xid, program)?;
    caller.seal_call(alloc, &head, args.as_slice(), mech)
}

/// The arguments of CB_COMPOUND.
#[tactic(auto, using(nfs_compound::specs::CallLengthLaws::cb_compound_sized))]
fn offload_args(alloc: Global, slot: SlotUse, told: &Ended) -> Mem<Octets>
    ensures bytes { IfOk result (λ bytes. bytes ≡ cb_compound_bytes (offload_compound slot told.now)) }
    ensures short { IfOk result (λ bytes. length bytes ≤ 2000) }
{
    let compound = offload_compound(alloc, slot, told)?;
    write_cb_compound(alloc, &compound)
}

/// The head of a CB_COMPOUND to a client's program.
#[tactic(auto, unfolding(rpc_msg::specs::Heads::call, rpc_msg::specs::Heads::auth))]
fn callback_head(alloc: Global, xid: u32, program: u32) -> Mem<CallHead>
    ensures head { IfOk result (λ head. head ≡ callback_head xid program) }
    ensures fits { IfOk result (λ head. call.Fits head) }
    ensures cred { IfOk result (λ head. cred_of head ≡ Some (asked_cred RPCSEC_GSS_DATA)) }
{
    let head = call_head(alloc, xid, PROC_COMPOUND, RPCSEC_GSS_DATA)?;
    Ok(CallHead {
        prog: program,
        vers: CALLBACK_VERSION,
        ..head
    })
}

/// The ID of a session by the server's boot number and its own.
fn session_id(boot: u32, number: u32) -> [u8; 16]
    ensures { result ≡ session_id boot number }
{
    let mut id = [0; 16];
    id[..4].copy_from_slice(&boot.to_be_bytes());
    id[4..8].copy_from_slice(&number.to_be_bytes());
    id
}
