//! What a client knows from the beginning.

ghost use Rattle.client_steps.specs.Setting as spec;
ghost use Rattle.std.specs.Prelude.{◌≡◌, ◌≤◌, ◌∷◌, [], length, decimal, IfOk, IfSome};
ghost use Rattle.copy_privs.specs.Forms.{PrivilegeFits};
ghost use Rattle.session_calls.specs.Calls.{SlotCallFits};

use client_copies::ClientCopy;
use client_site::Site;
use copy_privs::Privilege;
use gss_mech::Mechanism;
use nfs_base::{NetLoc, Side};
use outcome::Mem;
use session_calls::{CopyRange, FileCall, SlotCall};
use std::alloc::Global;
use wire_xdr::{Items, Octets};

/// The mechanism, the client's principal, and where the servers are.
#[derive(Drop)]
pub struct Setting<M> {
    pub mech: M,
    pub me: Octets,
    pub source: NetLoc,
    pub dest: NetLoc,
}

impl<M: Mechanism> Setting<M> {
    /// OPEN of a file, whose name is its number in decimal, where all is set up.
    pub fn open_call(&self, alloc: Global, site: &Site, file: u32) -> Mem<Option<SlotCall>>
        requires { spec.IsFit self.now }
        ensures is { IfOk result (λ call. call ≡ spec.open_call self.now.me file site.now) }
        ensures fits { IfOk result (λ call. IfSome call (λ c. SlotCallFits c)) }
    {
        let Some((client, _)) = site.up() else {
            return Ok(None);
        };
        Ok(Some(SlotCall::Open {
            client,
            owner: self.me.copy()?,
            name: name_of(alloc, file)?,
        }))
    }

    /// What a copy's privilege is at a server.
    pub fn privilege(&self, alloc: Global, side: Side, copy: &ClientCopy) -> Mem<Privilege>
        requires { spec.IsFit self.now }
        ensures is { IfOk result (λ p. p ≡ spec.privilege_at self.now side copy.now.secret) }
        ensures fits { IfOk result (λ p. PrivilegeFits p) }
    {
        let secret = Octets::from_slice(alloc, &copy.secret)?;
        match side {
            Side::Source => self.to_read(secret),
            Side::Dest => self.to_write(alloc, secret),
        }
    }

    #[tactic(auto, unfolding(copy_privs::specs::Forms::privilege))]
    fn to_read(&self, secret: Octets) -> Mem<Privilege>
        requires fit { spec.IsFit self.now }
        requires secret { length secret ≡ 32 }
        ensures is { IfOk result (λ p. p ≡ spec.to_read self.now secret) }
        ensures fits { IfOk result (λ p. PrivilegeFits p) }
    {
        Ok(Privilege::From {
            secret,
            destination: self.dest.copy()?,
            user: self.me.copy()?,
        })
    }

    #[tactic(auto, unfolding(copy_privs::specs::Forms::privilege))]
    fn to_write(&self, alloc: Global, secret: Octets) -> Mem<Privilege>
        requires fit { spec.IsFit self.now }
        requires secret { length secret ≡ 32 }
        ensures is { IfOk result (λ p. p ≡ spec.to_write self.now secret) }
        ensures fits { IfOk result (λ p. PrivilegeFits p) }
    {
        let mut sources = Items::new(alloc);
        sources.push(self.source.copy()?)?;
        Ok(Privilege::To {
            secret,
            sources,
            user: self.me.copy()?,
        })
    }

    /// COPY_NOTIFY of a copy, where its file is open at the source.
    pub fn notify_call(&self, copy: &ClientCopy, source: &Site) -> Mem<Option<SlotCall>>
        requires { spec.IsFit self.now }
        ensures is { IfOk result (λ call. call ≡ spec.notify_call self.now copy.now source.now) }
        ensures fits { IfOk result (λ call. IfSome call (λ c. SlotCallFits c)) }
    {
        let Some(opened_file) = source.file(copy.spec.src_file) else {
            return Ok(None);
        };
        Ok(Some(SlotCall::Notify {
            file: opened_file.handle,
            id: opened_file.id,
            destination: self.dest.copy()?,
        }))
    }

    /// COPY, where the copy's file is open at the destination and COPY_NOTIFY was answered.
    pub fn copy_call(&self, copy: &ClientCopy, dest: &Site) -> Mem<Option<SlotCall>>
        requires { spec.IsFit self.now }
        ensures is { IfOk result (λ call. call ≡ spec.copy_call self.now copy.now dest.now) }
        ensures fits { IfOk result (λ call. IfSome call (λ c. SlotCallFits c)) }
    {
        let Some(opened_file) = dest.file(copy.spec.dst_file) else {
            return Ok(None);
        };
        let Some(first) = copy.first else {
            return Ok(None);
        };
        Ok(Some(SlotCall::Copy {
            source_file: first.file,
            source_id: first.grant,
            file: opened_file.handle,
            id: opened_file.id,
            range: CopyRange {
                src_off: copy.spec.src_off,
                dst_off: copy.spec.dst_off,
                count: copy.spec.count,
                consecutive: copy.spec.consecutive,
            },
            source: self.source.copy()?,
        }))
    }
}

/// The last GETATTR of a copy, where COPY_NOTIFY was answered.
pub fn last_call(copy: &ClientCopy) -> Option<SlotCall>
    ensures is { result ≡ spec.last_call copy.now }
    ensures fits { IfSome result (λ c. SlotCallFits c) }
{
    let Some(first) = copy.first else {
        return None;
    };
    Some(SlotCall::OnFile {
        file: first.file,
        call: FileCall::Change,
    })
}

/// A file's name: its number in decimal.
#[tactic(auto, using(crate::proofs::Names::decimal_is_short))]
fn name_of(alloc: Global, file: u32) -> Mem<Octets>
    ensures is { IfOk result (λ name. name ≡ decimal file) }
    ensures short { IfOk result (λ name. length name ≤ 64) }
{
    let text = format!(in alloc; "{file}")?;
    Octets::from_slice(alloc, text.as_bytes())
}
