ghost use Rattle.std.specs.Prelude.{◌≡◌, ◌≢◌, ◌<◌, ◌≤◌, ℕ, List, length, IfOk, IfSome, IsSome};
ghost use Rattle.rpc_msg.specs.Heads.{call, stat};
ghost use Rattle.gss_ctx.specs.Table.{context_of};
ghost use Rattle.gss_ctx.specs.Seals.{reply_front, sealed_reply, sealing_of, sealed_with};

use crate::contexts::Contexts;
use crate::sealing::{SEAL_ROOM, code_auth, put_sealed, reply_code};
use gss_mech::{ACCEPTOR, Mechanism};
use outcome::Mem;
use rpc_msg::{CallHead, ReplyHead, Stat};
use std::alloc::Global;
use std::marker::Model;
use wire_xdr::{Octets, Page, Writer, Xdr};

/// A reply whose result is yet to come. Its head is written, and all room is taken: once the call is carried out
/// nothing can fail any more.
#[derive(Drop)]
pub struct Sealer {
    page: Page,
    key: [u8; 32],
    seq: u32,
    most: usize,
}

impl Model for Sealer {
    ghost use Rattle.std.specs.Prelude.{length};
    ghost use Rattle.gss_ctx.specs.Seals.{Sealing, HasRoom};

    ghost Value = { Sealing };

    ghost view = { λ s. record { front = s.page.bytes; key = s.key; seq = s.seq; most = s.most } };

    ghost invariant = { λ s. HasRoom (length s.page.bytes) s.most s.page.room };
}

impl Sealer {
    /// How many bytes the result may have.
    pub fn most(&self) -> usize
        ensures { result ≡ self.now.most }
    {
        self.most
    }

    /// The whole reply with this result, which is copied once and hashed once. It takes no memory.
    pub fn seal<M: Mechanism>(self, result_: &[u8], mech: &M) -> Octets
        requires { length result_.now ≤ self.most }
        ensures { result ≡ sealed_with M.mic_of self result_.now }
    {
        let Sealer {
            mut page,
            key,
            seq,
            most: _,
        } = self;
        put_sealed(&mut page, &key, ACCEPTOR, seq, result_, mech);
        page.finish()
    }
}

impl<P> Contexts<P> {
    /// Takes all room of the reply to a call that was admitted, and writes its head, with the status SUCCESS.
    /// The result may have `most` bytes.
    #[tactic(auto, unfolding(crate::specs::Seals::sealed_reply, rpc_msg::specs::Heads::stat))]
    pub fn sealer<M: Mechanism>(
        &self,
        alloc: Global,
        number: u32,
        seq: u32,
        head: &CallHead,
        most: usize,
        mech: &M,
    ) -> Mem<Sealer>
        requires there { IsSome (context_of number self.now.entries) }
        requires small { most < 4294967292 }
        requires head { call.Fits head.now }
        ensures sealer { IfOk result (λ sealer. IfSome (context_of number self.now.entries) (λ context. sealer ≡ sealing_of M.mic_of context.key head.now seq most)) }
        ensures seals { IfOk result (λ sealer. IfSome (context_of number self.now.entries) (λ context. (result_ : List ℕ) → sealed_with M.mic_of sealer result_ ≡ sealed_reply M.mic_of context.key head.now seq result_)) }
    {
        let key = self.context(number).unwrap().key;
        let front = write_front(alloc, &key, head, seq, Stat::Success, mech)?;
        let mut page = Page::new(alloc, front.len() + most + SEAL_ROOM)?;
        page.append(front.as_slice());
        Ok(Sealer {
            page,
            key,
            seq,
            most,
        })
    }

    /// Seals the reply to a call that was admitted: the whole record, with the status SUCCESS.
    pub fn seal_reply<M: Mechanism>(
        &self,
        alloc: Global,
        number: u32,
        seq: u32,
        head: &CallHead,
        result_: &[u8],
        mech: &M,
    ) -> Mem<Octets>
        requires there { IsSome (context_of number self.now.entries) }
        requires small { length result_.now < 4294967292 }
        requires head { call.Fits head.now }
        ensures { IfOk result (λ message. IfSome (context_of number self.now.entries) (λ context. message ≡ sealed_reply M.mic_of context.key head.now seq result_.now)) }
    {
        let sealer = self.sealer(alloc, number, seq, head, result_.len(), mech)?;
        Ok(sealer.seal(result_, mech))
    }

    /// The reply to a call under a context that failed with another accept_stat than SUCCESS (RFC 5531 section
    /// 9): its verifier has the code, as that of a result, and nothing is sealed behind it.
    pub fn fail_reply<M: Mechanism>(
        &self,
        alloc: Global,
        number: u32,
        seq: u32,
        head: &CallHead,
        failure: Stat,
        mech: &M,
    ) -> Mem<Octets>
        requires there { IsSome (context_of number self.now.entries) }
        requires head { call.Fits head.now }
        requires failed { failure ≢ Stat.Success }
        requires fits { stat.Fits failure }
        ensures { IfOk result (λ message. IfSome (context_of number self.now.entries) (λ context. message ≡ reply_front M.mic_of context.key head.now seq failure)) }
    {
        let key = self.context(number).unwrap().key;
        write_front(alloc, &key, head, seq, failure, mech)
    }
}

/// A reply up to its result.
#[tactic(auto, unfolding(crate::specs::Seals::reply_front, rpc_msg::specs::Heads::reply, rpc_msg::specs::Heads::auth, rpc_msg::specs::Heads::stat))]
fn write_front<M: Mechanism>(
    alloc: Global,
    key: &[u8; 32],
    head: &CallHead,
    seq: u32,
    what: Stat,
    mech: &M,
) -> Mem<Octets>
    requires head { call.Fits head.now }
    requires fits { stat.Fits what }
    ensures { IfOk result (λ front. front ≡ reply_front M.mic_of key.now head.now seq what) }
{
    let reply = ReplyHead::Accepted {
        xid: head.xid,
        verf: code_auth(alloc, &reply_code(alloc, key, head, seq, mech)?)?,
        stat: what,
    };
    let mut writer = Writer::new(alloc)?;
    reply.put(&mut writer)?;
    Ok(writer.finish())
}
