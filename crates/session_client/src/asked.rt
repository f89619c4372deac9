//! What is asked of a server under a context.

ghost use Rattle.std.specs.Prelude.{◌≡◌, ◌≤◌, length, IfOk, IfSome, OnErr};
ghost use Rattle.nfs_base.specs.declared.limits.TheConstants.{NAME_LIMIT, PRIVILEGE_LIMIT};
ghost use Rattle.rpc_msg.specs.declared.records.TheConstants.{RECORD_LIMIT};
ghost use Rattle.session_client.specs.Asked.{AskedFits, called_under, create_args};

use crate::sealing::{CallKind, SealedCall, seal_compound, seal_under};
use gss_ctx::{Caller, write_create};
use gss_mech::Mechanism;
use nfs_compound::Compound;
use outcome::Mem;
use std::alloc::Global;
use std::sync::Arc;
use wire_xdr::Octets;

/// What is asked of a server under a context.
#[derive(Drop)]
pub enum Asked {
    /// A compound (RFC 8881 section 16.2).
    Compound(Compound),

    /// CREATE of a child: its arguments, as they are spelled (RFC 7861 section 2.7).
    Create(Octets),

    /// DESTROY of the context (RFC 2203 section 5.4).
    Destroy,
}

impl Asked {
    /// CREATE of a child that carries the privilege with this name.
    #[tactic(auto, using(crate::proofs::Short::create_short))]
    pub fn create(alloc: Global, name: &[u8], privilege: &[u8]) -> Mem<Asked>
        requires name { length name.now ≤ NAME_LIMIT }
        requires privilege { length privilege.now ≤ PRIVILEGE_LIMIT }
        ensures is { IfOk result (λ asked. asked ≡ Asked.Create (create_args name.now privilege.now)) }
        ensures fits { IfOk result (λ asked. AskedFits asked) }
    {
        let args = write_create(alloc, name, privilege)?;
        Ok(Asked::Create(args))
    }

    /// It is put where copies of a call share it.
    pub fn share(self, alloc: Global) -> Mem<Arc<Asked>>
        ensures { IfOk result (λ shared. shared.value ≡ self) }
    {
        Ok(Arc::new(alloc, self)?)
    }

    /// Seals it as a call with this xid, with the context's next number. None exactly where the context's numbers have
    /// run out, which is at 2^31; then, and without memory, the context is as it was.
    pub fn seal<M: Mechanism>(
        &self,
        alloc: Global,
        caller: &mut Caller,
        xid: u32,
        mech: &M,
    ) -> Mem<Option<SealedCall>>
        requires { AskedFits self.now }
        ensures told { IfOk result (λ told. told ≡ (called_under M.mic_of caller.old xid self.now).0) }
        ensures after { IfOk result (λ told. caller.new ≡ (called_under M.mic_of caller.old xid self.now).1) }
        ensures fits { IfOk result (λ told. IfSome told (λ call. length call.bytes ≤ RECORD_LIMIT)) }
        ensures err { OnErr result (caller.new ≡ caller.old) }
    {
        match self {
            Asked::Compound(compound) => seal_compound(alloc, caller, xid, compound, mech),
            Asked::Create(args) => {
                seal_under(alloc, caller, xid, CallKind::Create, args.as_slice(), mech)
            }
            Asked::Destroy => seal_under(alloc, caller, xid, CallKind::Destroy, &[], mech),
        }
    }
}
