//! The operations on clients and sessions that stand alone (RFC 8881 sections 18.35, 18.36, 18.37 and 18.50).

ghost use Rattle.std.specs.Prelude.{◌≡◌, ◌+◌, ◌-◌, ◌≤◌, ◌<◌, ◌^◌, ◌++◌, [], length, IfOk, OnErr, option_map, option_to_list, find, true};
ghost use Rattle.nfs_base.specs.declared.limits.TheConstants.{TEXT_LIMIT};
ghost use Rattle.sess_slots.specs.Table.{numbers_made};
ghost use Rattle.compound_server.specs.Clients.{exchange_id, create_session, destroy_session, destroy_clientid, by_exchanged, by_created, exchange_done, exchange_flags, create_done, channel, granted_flags, left_if, asks_back, back_handle, handle_in, is_usable};
ghost use Rattle.sess_slots.specs.Clients.{exchange_answer, exchange_table};
ghost use Rattle.file_ops.specs.Parms.{channel_attrs};
ghost use Rattle.compound_server.specs.State.{state_of, given_of, with_own, with_sessions, without_one, without_all, IsCounted, LeavesRest};
ghost use Rattle.nfs_compound.specs.declared.res.Res.TheVariants.{File};
ghost use Rattle.nfs_compound.specs.Results.{outcome};
ghost use Rattle.file_ops.specs.declared.results.FileRes.TheVariants as results;
ghost use Rattle.nfs_base.specs.declared.answer.Answer.TheVariants.{Done};
ghost use Rattle.wire_xdr.specs.Page.{Added};
ghost use Rattle.compound_server.specs.declared.client_end.ClientEnd.TheVariants.{Gone};
ghost use Rattle.wire_xdr.specs.Words.{hyper_bytes};

use crate::client_end::ClientEnd;
use crate::compounds::Reply;
use crate::replying::{HEAD_ROOM, REFUSAL_ROOM, put_head, put_refusal, put_session};
use crate::server::Server;
use crate::serving::Serving;
use crate::who::Who;
use disk_model::Disk;
use file_ops::{
    CONN_BACK_CHAN, CreateSessionArgs, ExchangeIdArgs, OP_CREATE_SESSION, OP_DESTROY_CLIENTID,
    OP_DESTROY_SESSION, OP_EXCHANGE_ID, Protection, SecParm,
};
use nfs_base::{MOST_OPERATIONS, SLOTS, Status};
use outcome::Mem;
use rpc_msg::{RECORD_LIMIT, RPC_GSS_SVC_INTEGRITY};
use server_volume::CallList;
use sess_slots::{Created, Exchanged, MOST_REPLY};
use std::alloc::Global;
use wire_xdr::Page;

/// The flag by which EXCHANGE_ID says that the server takes no part in pNFS (EXCHGID4_FLAG_USE_NON_PNFS).
pub const USE_NON_PNFS: u32 = 0x0001_0000;

/// The flag by which EXCHANGE_ID says that the client is confirmed (EXCHGID4_FLAG_CONFIRMED_R).
pub const CONFIRMED_R: u32 = 0x8000_0000;

/// How many bytes the result of EXCHANGE_ID has at most.
const MOST_EXCHANGED: usize = 70;

/// How many bytes the result of CREATE_SESSION has.
const MOST_CREATED: usize = 88;

impl<D: Disk, X> Server<D, X> {
    /// EXCHANGE_ID: makes a client known. No protection of state is served.
    #[tactic(auto, unfolding(crate::specs::Clients::exchange_id))]
    pub(crate) fn exchange_id<C>(
        &mut self,
        alloc: Global,
        who: &Who,
        principal: &[u8],
        tag: &[u8],
        args: &ExchangeIdArgs,
    ) -> Mem<Reply>
    where
        X: Serving<C>,
        requires tag { length tag.now ≤ TEXT_LIMIT }
        requires numbered { numbers_made self.old.sessions < 2 ^ 32 - 1 }
        ensures gives { IfOk result (λ told. given_of D.size self.new told ≡ exchange_id (record { leave = X.leaves; lapse = X.lapses }) who.now principal.now tag.now args.now (with_own (X.lapses who.now.second self.old.files.extra) (state_of D.size self.old))) }
        ensures short { IfOk result (λ told. length told.body ≤ MOST_REPLY) }
        ensures volume { self.new.files.volume ≡ self.old.files.volume }
        ensures err { OnErr result (self.new ≡ self.old) }
        ensures counted { IsCounted X.given X.landed self.old self.new }
    {
        match args.protection {
            Protection::Protected(_) => {
                self.refuse(alloc, who, tag, OP_EXCHANGE_ID, Status::NOTSUPP)
            }
            Protection::Unprotected(_) => self.exchange_client(alloc, who, principal, tag, args),
        }
    }

    fn exchange_client<C>(
        &mut self,
        alloc: Global,
        who: &Who,
        principal: &[u8],
        tag: &[u8],
        args: &ExchangeIdArgs,
    ) -> Mem<Reply>
    where
        X: Serving<C>,
        requires tag { length tag.now ≤ TEXT_LIMIT }
        requires numbered { numbers_made self.old.sessions < 2 ^ 32 - 1 }
        ensures gives { IfOk result (λ told. given_of D.size self.new told ≡ by_exchanged (exchange_answer self.old.sessions principal.now args.now.owner args.now.verifier who.now.second) (record { leave = X.leaves; lapse = X.lapses }) tag.now (with_sessions (exchange_table self.old.sessions principal.now args.now.owner args.now.verifier who.now.second) (with_own (X.lapses who.now.second self.old.files.extra) (state_of D.size self.old)))) }
        ensures short { IfOk result (λ told. length told.body ≤ MOST_REPLY) }
        ensures volume { self.new.files.volume ≡ self.old.files.volume }
        ensures err { OnErr result (self.new ≡ self.old) }
        ensures counted { IsCounted X.given X.landed self.old self.new }
    {
        let used = CallList::new(alloc)?;
        let page = Page::new(alloc, HEAD_ROOM + tag.len() + MOST_EXCHANGED)?;
        let answer = self.sessions.exchange(
            principal,
            args.owner.as_slice(),
            &args.verifier,
            who.second,
        )?;
        self.files.extra.lapse(who.second);
        Ok(self.tell_exchanged(tag, answer, page, used))
    }

    fn tell_exchanged<C>(
        &mut self,
        tag: &[u8],
        answer: Exchanged,
        mut page: Page,
        used: CallList,
    ) -> Reply
    where
        X: Serving<C>,
        requires tag { length tag.now ≤ TEXT_LIMIT }
        requires empty { page.bytes ≡ [] }
        requires room { HEAD_ROOM + length tag.now + MOST_EXCHANGED ≤ page.room }
        requires unused { used ≡ [] }
        ensures gives { given_of D.size self.new result ≡ by_exchanged answer (record { leave = X.leaves; lapse = X.lapses }) tag.now (state_of D.size self.old) }
        ensures short { length result.body ≤ HEAD_ROOM + length tag.now + MOST_EXCHANGED }
        ensures rest { LeavesRest X.given X.landed self.old self.new }
    {
        match answer {
            Exchanged::Refused(status) => {
                put_refusal(&mut page, status, tag, OP_EXCHANGE_ID);
            }
            Exchanged::Client {
                id,
                sequence,
                confirmed,
                ended,
            } => {
                self.end_clients(ended.as_slice(), ClientEnd::Lapsed);
                put_head(&mut page, Status::OK, tag, 1);
                put_exchanged(&mut page, self.files.volume.tag(), id, sequence, confirmed);
            }
        }
        Reply {
            body: page.finish(),
            used,
        }
    }

    /// CREATE_SESSION: makes a session of a client, with a back channel where one is asked for that can be used.
    #[tactic(auto, unfolding(crate::specs::Clients::create_session))]
    pub(crate) fn create_session<C>(
        &mut self,
        alloc: Global,
        who: &Who,
        tag: &[u8],
        args: &CreateSessionArgs,
    ) -> Mem<Reply>
    where
        X: Serving<C>,
        requires tag { length tag.now ≤ TEXT_LIMIT }
        requires numbered { numbers_made self.old.sessions < 2 ^ 32 - 1 }
        ensures gives { IfOk result (λ told. given_of D.size self.new told ≡ create_session (record { leave = X.leaves; lapse = X.lapses }) who.now tag.now args.now (with_own (X.lapses who.now.second self.old.files.extra) (state_of D.size self.old))) }
        ensures short { IfOk result (λ told. length told.body ≤ MOST_REPLY) }
        ensures volume { self.new.files.volume ≡ self.old.files.volume }
        ensures err { OnErr result (self.new ≡ self.old) }
        ensures counted { IsCounted X.given X.landed self.old self.new }
    {
        let used = CallList::new(alloc)?;
        let page = Page::new(alloc, HEAD_ROOM + tag.len() + MOST_CREATED)?;
        let answer = self.sessions.create(
            args.client,
            args.sequence,
            who.conn,
            args.program,
            asks_back(args.flags),
            back_handle(args),
            who.second,
        )?;
        self.files.extra.lapse(who.second);
        Ok(self.tell_created(tag, answer, page, used))
    }

    fn tell_created<C>(
        &mut self,
        tag: &[u8],
        answer: Created,
        mut page: Page,
        used: CallList,
    ) -> Reply
    where
        X: Serving<C>,
        requires tag { length tag.now ≤ TEXT_LIMIT }
        requires empty { page.bytes ≡ [] }
        requires room { HEAD_ROOM + length tag.now + MOST_CREATED ≤ page.room }
        requires unused { used ≡ [] }
        ensures gives { given_of D.size self.new result ≡ by_created answer (record { leave = X.leaves; lapse = X.lapses }) tag.now (state_of D.size self.old) }
        ensures short { length result.body ≤ HEAD_ROOM + length tag.now + MOST_CREATED }
        ensures rest { LeavesRest X.given X.landed self.old self.new }
    {
        match answer {
            Created::Refused(status) => {
                put_refusal(&mut page, status, tag, OP_CREATE_SESSION);
            }
            Created::Made {
                session,
                sequence,
                ended,
                asked,
            } => {
                self.end_client_if(ended);
                put_head(&mut page, Status::OK, tag, 1);
                put_created(&mut page, &session, sequence, asked);
            }
        }
        Reply {
            body: page.finish(),
            used,
        }
    }

    /// DESTROY_SESSION.
    #[tactic(auto, unfolding(crate::specs::Clients::destroy_session))]
    pub(crate) fn destroy_session<C>(
        &mut self,
        alloc: Global,
        who: &Who,
        tag: &[u8],
        session: &[u8; 16],
    ) -> Mem<Reply>
    where
        X: Serving<C>,
        requires tag { length tag.now ≤ TEXT_LIMIT }
        ensures gives { IfOk result (λ told. given_of D.size self.new told ≡ destroy_session tag.now session.now (with_own (X.lapses who.now.second self.old.files.extra) (state_of D.size self.old))) }
        ensures short { IfOk result (λ told. length told.body ≤ MOST_REPLY) }
        ensures volume { self.new.files.volume ≡ self.old.files.volume }
        ensures err { OnErr result (self.new ≡ self.old) }
        ensures counted { IsCounted X.given X.landed self.old self.new }
    {
        let used = CallList::new(alloc)?;
        let mut page = Page::new(alloc, HEAD_ROOM + tag.len() + REFUSAL_ROOM)?;
        let status = self.sessions.destroy(session);
        self.files.extra.lapse(who.second);
        put_refusal(&mut page, status, tag, OP_DESTROY_SESSION);
        Ok(Reply {
            body: page.finish(),
            used,
        })
    }

    /// DESTROY_CLIENTID.
    #[tactic(auto, unfolding(crate::specs::Clients::destroy_clientid))]
    pub(crate) fn destroy_clientid<C>(
        &mut self,
        alloc: Global,
        who: &Who,
        tag: &[u8],
        client: u64,
    ) -> Mem<Reply>
    where
        X: Serving<C>,
        requires tag { length tag.now ≤ TEXT_LIMIT }
        ensures gives { IfOk result (λ told. given_of D.size self.new told ≡ destroy_clientid (record { leave = X.leaves; lapse = X.lapses }) tag.now client (with_own (X.lapses who.now.second self.old.files.extra) (state_of D.size self.old))) }
        ensures short { IfOk result (λ told. length told.body ≤ MOST_REPLY) }
        ensures volume { self.new.files.volume ≡ self.old.files.volume }
        ensures err { OnErr result (self.new ≡ self.old) }
        ensures counted { IsCounted X.given X.landed self.old self.new }
    {
        let used = CallList::new(alloc)?;
        let mut page = Page::new(alloc, HEAD_ROOM + tag.len() + REFUSAL_ROOM)?;
        let holds = self.files.opens.holds(client);
        let status = self.sessions.destroy_client(client, holds);
        self.files.extra.lapse(who.second);
        self.leave_if(status.number == 0, client);
        put_refusal(&mut page, status, tag, OP_DESTROY_CLIENTID);
        Ok(Reply {
            body: page.finish(),
            used,
        })
    }

    fn leave_if<C>(&mut self, ended: bool, client: u64)
    where
        X: Serving<C>,
        ensures left { state_of D.size self.new ≡ left_if ended (record { leave = X.leaves; lapse = X.lapses }) client (state_of D.size self.old) }
        ensures rest { LeavesRest X.given X.landed self.old self.new }
    {
        if ended {
            self.end_client(client, ClientEnd::Gone);
        }
    }

    fn end_client<C>(&mut self, client: u64, why: ClientEnd)
    where
        X: Serving<C>,
        ensures left { state_of D.size self.new ≡ without_one (record { leave = X.leaves; lapse = X.lapses }) why client (state_of D.size self.old) }
        ensures rest { LeavesRest X.given X.landed self.old self.new }
    {
        self.files.opens.end(client);
        self.files.extra.leave(client, why);
    }

    #[tactic(auto, unfolding(crate::specs::State::without_all))]
    fn end_clients<C>(&mut self, clients: &[u64], why: ClientEnd)
    where
        X: Serving<C>,
        ensures left { state_of D.size self.new ≡ without_all (record { leave = X.leaves; lapse = X.lapses }) why clients.now (state_of D.size self.old) }
        ensures rest { LeavesRest X.given X.landed self.old self.new }
    {
        if let [client, rest @ ..] = clients {
            self.end_client(*client, why);
            self.end_clients(rest, why);
        }
    }

    #[tactic(auto, unfolding(crate::specs::State::without_all))]
    fn end_client_if<C>(&mut self, client: Option<u64>)
    where
        X: Serving<C>,
        ensures left { state_of D.size self.new ≡ without_all (record { leave = X.leaves; lapse = X.lapses }) Gone (option_to_list client) (state_of D.size self.old) }
        ensures rest { LeavesRest X.given X.landed self.old self.new }
    {
        if let Some(client) = client {
            self.end_client(client, ClientEnd::Gone);
        }
    }
}

/// EXCHANGE_ID is done: the client's ID, the sequence of its next CREATE_SESSION, and who the server is.
fn put_exchanged(page: &mut Page, volume_tag: u64, client: u64, sequence: u32, confirmed: bool)
    requires { length page.old.bytes + MOST_EXCHANGED ≤ page.old.room }
    ensures added { Added page.old (outcome.spell (File (results.ExchangeId (Done (exchange_done (hyper_bytes volume_tag) client sequence confirmed))))) page.new }
    ensures len { length page.new.bytes ≤ length page.old.bytes + MOST_EXCHANGED }
{
    let name = volume_tag.to_be_bytes();
    page.u32(OP_EXCHANGE_ID);
    page.u32(0);
    page.u64(client);
    page.u32(sequence);
    page.u32(exchange_flags(confirmed));
    page.u32(0);
    page.u64(0);
    page.opaque(&name);
    page.opaque(&name);
    page.u32(0);
}

fn exchange_flags(confirmed: bool) -> u32
    ensures { result ≡ exchange_flags confirmed }
{
    if confirmed {
        USE_NON_PNFS + CONFIRMED_R
    } else {
        USE_NON_PNFS
    }
}

/// CREATE_SESSION is done: the session's ID, the sequence that was asked with, what is granted, and both channels.
fn put_created(page: &mut Page, session: &[u8; 16], sequence: u32, asked: bool)
    requires { length page.old.bytes + MOST_CREATED ≤ page.old.room }
    ensures added { Added page.old (outcome.spell (File (results.CreateSession (Done (create_done session.now sequence asked))))) page.new }
    ensures len { length page.new.bytes ≤ length page.old.bytes + MOST_CREATED }
{
    page.u32(OP_CREATE_SESSION);
    page.u32(0);
    put_session(page, session);
    page.u32(sequence);
    page.u32(granted_flags(asked));
    put_channel(page);
    put_channel(page);
}

fn granted_flags(asked: bool) -> u32
    ensures { result ≡ granted_flags asked }
{
    if asked { CONN_BACK_CHAN } else { 0 }
}

/// The attributes of a channel.
fn put_channel(page: &mut Page)
    requires { length page.old.bytes + 28 ≤ page.old.room }
    ensures added { Added page.old (channel_attrs.spell channel) page.new }
    ensures len { length page.new.bytes ≡ length page.old.bytes + 28 }
{
    page.u32(0);
    page.u32(RECORD_LIMIT);
    page.u32(RECORD_LIMIT);
    page.u32(RECORD_LIMIT);
    page.u32(MOST_OPERATIONS);
    page.u32(SLOTS);
    page.u32(0);
}

/// Whether CREATE_SESSION asks for a back channel.
fn asks_back(flags: u32) -> bool
    ensures { result ≡ asks_back flags }
{
    flags & CONN_BACK_CHAN != 0
}

/// The handle of the context under which the server may call back.
fn back_handle(args: &CreateSessionArgs) -> Option<[u8; 8]>
    ensures { result ≡ back_handle args.now }
{
    if !asks_back(args.flags) {
        return None;
    }
    usable_handle(args.parms.as_slice())
}

/// The handle in the first that is usable.
fn usable_handle(parms: &[SecParm]) -> Option<[u8; 8]>
    ensures { result ≡ option_map handle_in (find is_usable parms.now) }
{
    match parms.iter().find(|parm| is_usable(parm)) {
        Some(parm) => Some(handle_in(parm)),
        None => None,
    }
}

fn is_usable(parm: &SecParm) -> bool
    ensures { result ≡ is_usable parm.now }
{
    match parm {
        SecParm::Gss(parm) => {
            parm.service == RPC_GSS_SVC_INTEGRITY && parm.handle_from_client.len() == 8
        }
        _ => false,
    }
}

fn handle_in(parm: &SecParm) -> [u8; 8]
    requires { is_usable parm.now ≡ true }
    ensures { result ≡ handle_in parm.now }
{
    match parm {
        SecParm::Gss(parm) => {
            let mut handle = [0; 8];
            handle.copy_from_slice(parm.handle_from_client.as_slice());
            handle
        }
        _ => unreachable!(),
    }
}
