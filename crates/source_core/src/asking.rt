//! What a source says to what an operation asks.

ghost use Rattle.std.specs.Prelude.{◌≡◌, option_copied};
ghost use Rattle.copy_grants.specs.Permits.{asked};
ghost use Rattle.source_core.specs.Asking.{asked_by, attributes_gate, code_of, is_confirming, is_free, key_of, operation_gate, peer_of, read_by_grant, read_by_open, read_gate, user_of};

use crate::carried::Carried;
use crate::source::Source;
use copy_grants::{Permit, status_of};
use file_ops::{OP_CREATE_SESSION, OP_EXCHANGE_ID, OP_PUTFH, OP_SEQUENCE};
use file_server::{Ask, Caller, Extension, Gate};
use gss_mech::Mechanism;
use nfs_base::{NetLoc, StateId, Status};

/// The key of a context that confirms nothing.
const NO_KEY: &[u8; 32] = &[0; 32];

/// The stateid that is asked for where an operation has none.
const NO_ID: StateId = StateId {
    seqid: 0,
    kind: 0,
    boot: 0,
    number: 0,
};

impl<M: Mechanism> Extension<Option<Carried>> for Source<M> {
    ghost use Rattle.source_core.specs.Asking.{gated};

    ghost gated = { gated M.mic_of };

    fn gate(&mut self, caller: &Caller, carry: &Option<Carried>, ask: &Ask) -> Gate {
        match *ask {
            Ask::Operation { number } => operation_gate(carry, number),
            Ask::Read { file, id } => self.read_gate(caller.second, carry, file, &id),
            Ask::Attributes { file } => self.attributes_gate(caller.second, carry, file),
        }
    }
}

impl<M: Mechanism> Source<M> {
    fn read_gate(&mut self, second: u64, carry: &Option<Carried>, file: u32, id: &StateId) -> Gate
        ensures after { (read_gate M.mic_of second carry.now file id.now self.old).0 ≡ self.new }
        ensures gate { (read_gate M.mic_of second carry.now file id.now self.old).1 ≡ result }
    {
        if id.kind == StateId::COPY_NOTIFY {
            return self.read_by_grant(second, &ask_by(carry, *id, file));
        }
        read_by_open(carry)
    }

    fn read_by_grant(&mut self, second: u64, ask: &copy_grants::Ask) -> Gate
        ensures after { (read_by_grant M.mic_of second (asked ask.now) self.old).0 ≡ self.new }
        ensures gate { (read_by_grant M.mic_of second (asked ask.now) self.old).1 ≡ result }
    {
        match self.grants.permit(second, ask, &self.mech) {
            Permit::Permitted => Gate::Serve,
            Permit::Denied(cause) => {
                self.refusal = Some(cause);
                Gate::Refuse(status_of(cause))
            }
        }
    }

    fn attributes_gate(&self, second: u64, carry: &Option<Carried>, file: u32) -> Gate
        ensures { result ≡ attributes_gate M.mic_of second carry.now file self.now.grants }
    {
        if !is_confirming(carry) {
            return Gate::Usual;
        }
        if self
            .grants
            .shows(second, &ask_by(carry, NO_ID, file), &self.mech)
        {
            return Gate::Serve;
        }
        Gate::Refuse(Status::ACCESS)
    }
}

fn operation_gate(carry: &Option<Carried>, op: u32) -> Gate
    ensures { result ≡ operation_gate carry.now op }
{
    if is_confirming(carry) && !is_free(op) {
        return Gate::Refuse(Status::ACCESS);
    }
    Gate::Usual
}

/// A READ with a stateid that isn't one of COPY_NOTIFY goes by its open, unless its context confirms a copy.
fn read_by_open(carry: &Option<Carried>) -> Gate
    ensures { result ≡ read_by_open carry.now }
{
    if is_confirming(carry) {
        return Gate::Refuse(Status::ACCESS);
    }
    Gate::Usual
}

/// Whether an operation is served as always under a context that confirms a copy.
fn is_free(op: u32) -> bool
    ensures { result ≡ is_free op }
{
    op == OP_EXCHANGE_ID || op == OP_CREATE_SESSION || op == OP_SEQUENCE || op == OP_PUTFH
}

fn is_confirming(carry: &Option<Carried>) -> bool
    ensures { result ≡ is_confirming carry.now }
{
    match carry {
        Some(Carried::Confirm { .. }) => true,
        Some(Carried::From { .. }) => false,
        None => false,
    }
}

/// What is asked of the grants for a context that carries this.
fn ask_by<'a>(carry: &'a Option<Carried>, id: StateId, file: u32) -> copy_grants::Ask<'a>
    ensures { asked result ≡ asked_by carry.now id file }
{
    copy_grants::Ask {
        id,
        file,
        peer: peer_of(carry),
        confirmed: is_confirming(carry),
        user: user_of(carry),
        code: code_of(carry),
        key: key_of(carry),
    }
}

fn peer_of(carry: &Option<Carried>) -> Option<&NetLoc>
    ensures { option_copied result ≡ peer_of carry.now }
{
    match carry {
        Some(Carried::Confirm { peer, .. }) => peer.as_ref(),
        Some(Carried::From { .. }) => None,
        None => None,
    }
}

fn user_of(carry: &Option<Carried>) -> &[u8]
    ensures { result.now ≡ user_of carry.now }
{
    match carry {
        Some(Carried::Confirm { user, .. }) => user.as_slice(),
        Some(Carried::From { .. }) => &[],
        None => &[],
    }
}

fn code_of(carry: &Option<Carried>) -> &[u8]
    ensures { result.now ≡ code_of carry.now }
{
    match carry {
        Some(Carried::Confirm { code, .. }) => code.as_slice(),
        Some(Carried::From { .. }) => &[],
        None => &[],
    }
}

fn key_of(carry: &Option<Carried>) -> &[u8; 32]
    ensures { result.now ≡ key_of carry.now }
{
    match carry {
        Some(Carried::Confirm { key, .. }) => key,
        Some(Carried::From { .. }) => NO_KEY,
        None => NO_KEY,
    }
}
