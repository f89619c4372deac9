use crate::Wrong;
use gss_ctx::{Caller, Checked, Sealed, call_head};
use gss_mech::Realm;
use nfs_base::End;
use std::alloc::Global;

/// A client's side of one context of the source.
#[derive(Drop)]
pub struct Client {
    pub caller: Caller,
}

impl Client {
    /// The side of the context that has this handle and key.
    pub fn new(handle: [u8; 8], key: [u8; 32]) -> Client {
        Client {
            caller: Caller::new(End::Source, handle, key),
        }
    }

    /// Seals a call of NFS with the next number.
    pub fn seal(
        &mut self,
        alloc: Global,
        (xid, proc, gss_proc): (u32, u32, u32),
        args: &[u8],
        mech: &Realm,
    ) -> Result<Sealed, Wrong> {
        if args.len() > 100_000 {
            return Err(Wrong::Lacks("short arguments"));
        }
        let head = call_head(alloc, xid, proc, gss_proc)?;
        match self.caller.seal_call(alloc, &head, args, mech)? {
            Some(sealed) => Ok(sealed),
            None => Err(Wrong::Lacks("a number")),
        }
    }

    /// What a record is to a call that awaits its reply.
    pub fn check(
        &self,
        alloc: Global,
        sealed: &Sealed,
        record_: &[u8],
        mech: &Realm,
    ) -> Result<Checked, Wrong> {
        Ok(
            self.caller
                .check_reply(alloc, &sealed.awaited, record_, mech)?,
        )
    }
}
