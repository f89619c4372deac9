ghost use Rattle.std.specs.Prelude.{IfOk};
ghost use Rattle.rpc_msg.specs.Heads.{call};

use crate::Wrong;
use gss_ctx::{Admit, Contexts, Inited, Why};
use gss_mech::{Mechanism, Realm};
use nfs_base::End;
use outcome::Mem;
use rpc_msg::{CallHead, Stat, read_call};
use std::alloc::Global;
use streams::{CountDraws, Drawn, Draws};
use wire_xdr::Octets;

/// The realm of the recorded run: `user` and `dest`, whose keys repeat the bytes 1 and 2.
pub fn realm(alloc: Global) -> Mem<Realm> {
    let user = (Octets::from_slice(alloc, b"user")?, [1; 32]);
    let dest = (Octets::from_slice(alloc, b"dest")?, [2; 32]);
    Realm::new(alloc, &[user, dest])
}

/// The next draw, where it doesn't fail.
pub fn drawn(draws: &mut CountDraws) -> Result<[u8; 32], Wrong> {
    match draws.draw() {
        Drawn::Got(bytes) => Ok(bytes),
        Drawn::Failed => Err(Wrong::Lacks("a draw")),
    }
}

/// What became of a record: as `Admit` without the arguments, or no call was read.
#[derive(Clone, Copy, Debug, PartialEq, Eq)]
pub enum Told {
    Admitted { number: u32, seq: u32 },
    Dropped(Why),
    Denied(u32),
    BadBody { number: u32, seq: u32 },
    Unread,
}

/// What INIT answered: as `Inited` without the token and the verifier.
#[derive(Clone, Copy, Debug, PartialEq, Eq)]
pub enum Init {
    Made([u8; 8]),
    Refused(u32),
}

/// A call that was admitted.
#[derive(Drop)]
pub struct Call {
    pub head: CallHead,
    pub number: u32,
    pub seq: u32,
    pub args: Octets,
}

/// The source of the recorded run in its boot 1. Its first context is that of `user`.
#[derive(Drop)]
pub struct Server {
    pub mech: Realm,
    pub contexts: Contexts<u8>,
    pub draws: CountDraws,

    /// The token of `user`, made with the first draw.
    pub token: Octets,
}

impl Server {
    /// The source before it has any context. The first number was drawn, for the token.
    pub fn new(alloc: Global) -> Result<Server, Wrong> {
        let mech = realm(alloc)?;
        let mut draws = CountDraws::new();
        let nonce = drawn(&mut draws)?;
        let Some(token) = mech.start(alloc, b"user", &nonce)? else {
            return Err(Wrong::Lacks("a token"));
        };
        let contexts = Contexts::new(alloc, End::Source, 1)?;
        Ok(Server {
            mech,
            contexts,
            draws,
            token,
        })
    }

    /// The source with context 1, which was made at this second.
    pub fn with_context(alloc: Global, now: u64) -> Result<Server, Wrong> {
        let mut server = Server::new(alloc)?;
        let made = server.init(alloc, now)?;
        if made != Init::Made([0, 0, 0, 1, 0, 0, 0, 1]) {
            return Err(Wrong::Lacks("context 1"));
        }
        Ok(server)
    }

    /// INIT with the token of `user`.
    pub fn init(&mut self, alloc: Global, now: u64) -> Result<Init, Wrong> {
        if self.contexts.made() == u32::MAX {
            return Err(Wrong::Lacks("a number"));
        }
        let token = self.token.as_slice();
        let inited = self
            .contexts
            .init(alloc, token, now, &self.mech, &mut self.draws)?;
        match inited {
            Inited::Made { handle, .. } => Ok(Init::Made(handle)),
            Inited::Refused { minor } => Ok(Init::Refused(minor)),
        }
    }

    /// Makes a child of a context of `user`, which carries 77. The carry comes back where no room is left.
    pub fn create(
        &mut self,
        alloc: Global,
        parent: u32,
        now: u64,
    ) -> Result<Result<u32, u8>, Wrong> {
        if self.contexts.made() == u32::MAX || !self.contexts.is_root(parent, now) {
            return Err(Wrong::Lacks("a parent"));
        }
        let principal = Octets::from_slice(alloc, b"user")?;
        Ok(
            self.contexts
                .create_child_taken(parent, principal, 77, now, &self.mech),
        )
    }

    /// The key of a context.
    pub fn key(&self, number: u32) -> Result<[u8; 32], Wrong> {
        match self.contexts.context(number) {
            Some(context) => Ok(context.key),
            None => Err(Wrong::Lacks("a context")),
        }
    }

    /// What becomes of a record at this second. It is weighed twice, which changes nothing, and counted once.
    pub fn take(&mut self, alloc: Global, record_: &[u8], now: u64) -> Mem<Told> {
        let Ok((head, body)) = read_call(alloc, record_)? else {
            return Ok(Told::Unread);
        };
        let body = &record_[body..];
        self.contexts.weigh(alloc, &head, body, now, &self.mech)?;
        let verdict = self.contexts.weigh(alloc, &head, body, now, &self.mech)?;
        self.contexts.count(&verdict, now);
        Ok(match verdict.answer {
            Admit::Admitted { number, seq, .. } => Told::Admitted { number, seq },
            Admit::Dropped { why } => Told::Dropped(why),
            Admit::Denied(stat) => Told::Denied(stat),
            Admit::BadBody { number, seq } => Told::BadBody { number, seq },
        })
    }

    /// The call that a record is, where it is admitted at second 0.
    pub fn admit(&mut self, alloc: Global, record_: &[u8]) -> Result<Call, Wrong>
        ensures { IfOk result (λ told. call.Fits told.head) }
    {
        let Ok((head, body)) = read_call(alloc, record_)? else {
            return Err(Wrong::Lacks("a call"));
        };
        match self
            .contexts
            .admit(alloc, &head, record_, body, 0, &self.mech)?
        {
            Admit::Admitted { number, seq, args } => Ok(Call {
                head,
                number,
                seq,
                args,
            }),
            _ => Err(Wrong::Lacks("an admission")),
        }
    }

    /// The reply to a call with this result, for which more room is taken than it needs.
    pub fn reply(&self, alloc: Global, told: &Call, result_: &[u8]) -> Result<Octets, Wrong>
        requires { call.Fits told.now.head }
    {
        if result_.len() > 100_000 || self.contexts.context(told.number).is_none() {
            return Err(Wrong::Lacks("a short result of a context"));
        }
        let most = result_.len() + 5;
        let sealer = self
            .contexts
            .sealer(alloc, told.number, told.seq, &told.head, most, &self.mech)?;
        Ok(sealer.seal(result_, &self.mech))
    }

    /// The reply that says that the arguments of a call aren't spelled.
    #[tactic(auto, unfolding(rpc_msg::specs::Heads::stat))]
    pub fn garbage(&self, alloc: Global, told: &Call) -> Result<Octets, Wrong>
        requires { call.Fits told.now.head }
    {
        if self.contexts.context(told.number).is_none() {
            return Err(Wrong::Lacks("a context"));
        }
        Ok(
            self.contexts.fail_reply(
                alloc,
                told.number,
                told.seq,
                &told.head,
                Stat::Garbage,
                &self.mech,
            )?,
        )
    }
}
