ghost use Rattle.std.specs.Prelude.{◌≡◌, ◌+◌, ◌≤◌, ◌++◌, length, IfOk};
ghost use Rattle.wire_xdr.specs.All.{value_of};
ghost use Rattle.wire_xdr.specs.Words.{opaque_bytes};
ghost use Rattle.rpc_msg.specs.Heads.{call};
ghost use Rattle.gss_ctx.specs.Forms.{init_token, init_result};
ghost use Rattle.gss_ctx.specs.Init.{init_head, init_message};
ghost use Rattle.gss_ctx.specs.declared.caller.TheConstants.{CALL_ROOM};
ghost use Rattle.gss_ctx.specs.Replies.{begun_of, begun_with};

use crate::caller::call_head;
use crate::sealing::is_code;
use gss_mech::{ACCEPTOR, Mechanism};
use nfs_base::{PROC_NULL, TOKEN_LIMIT};
use outcome::Mem;
use rpc_msg::{Auth, Denial, RPCSEC_GSS_INIT, ReplyHead, Stat, read_reply};
use std::alloc::Global;
use wire_xdr::{Octets, ReadError, Reader, Writer, Xdr, read_all, write_all};

/// What became of INIT.
#[derive(Drop)]
pub enum Begun {
    /// A context was made: its handle and its key.
    Made { handle: [u8; 8], key: [u8; 32] },
    /// The acceptor refused with this major status, which isn't 0.
    Refused { major: u32 },
    /// The call failed.
    Failed(Stat),
    /// The call was denied.
    Denied(Denial),
    /// The record isn't a reply to this call.
    Unmatched,
}

/// The result of INIT (RFC 2203 section 5.2.3.1): the handle, a major and a minor status, the window, and the
/// token that goes back.
#[derive(Drop)]
pub struct InitResult {
    pub handle: Octets,
    pub major: u32,
    pub minor: u32,
    pub window: u32,
    pub token: Octets,
}

impl Xdr for InitResult {
    ghost form = { init_result };

    #[tactic(auto, unfolding(crate::specs::Forms::init_result))]
    fn parse(alloc: Global, reader: &mut Reader) -> Result<InitResult, ReadError> {
        Ok(InitResult {
            handle: Octets::parse(alloc, reader, u32::MAX)?,
            major: u32::parse(alloc, reader)?,
            minor: u32::parse(alloc, reader)?,
            window: u32::parse(alloc, reader)?,
            token: Octets::parse(alloc, reader, u32::MAX)?,
        })
    }

    #[tactic(auto, unfolding(crate::specs::Forms::init_result))]
    fn put(&self, writer: &mut Writer) -> Mem<()> {
        self.handle.put(writer)?;
        self.major.put(writer)?;
        self.minor.put(writer)?;
        self.window.put(writer)?;
        self.token.put(writer)
    }
}

/// Reads the argument of INIT, a token of at most 4,096 bytes. None exactly where all of the bytes don't
/// spell one.
#[tactic(auto, unfolding(crate::specs::Forms::init_token, wire_xdr::specs::All::all_of, wire_xdr::specs::WordReads::opaque_read))]
pub fn read_init(alloc: Global, args: &[u8]) -> Mem<Option<Octets>>
    ensures { IfOk result (λ told. told ≡ value_of init_token args.now) }
{
    let mut reader = Reader::new(args);
    let Ok(token) = reader.opaque(TOKEN_LIMIT) else {
        return Ok(None);
    };
    if !reader.rest().is_empty() {
        return Ok(None);
    }
    Ok(Some(Octets::from_slice(alloc, token)?))
}

/// Spells the result of INIT.
pub fn write_init_result(alloc: Global, result_: &InitResult) -> Mem<Octets>
    requires { init_result.Fits result_.now }
    ensures { IfOk result (λ body. body ≡ init_result.spell result_.now) }
{
    write_all(alloc, result_)
}

/// Reads the result of INIT. None exactly where all of the bytes don't spell one.
pub fn read_init_result(alloc: Global, body: &[u8]) -> Mem<Option<InitResult>>
    ensures { IfOk result (λ told. told ≡ value_of init_result body.now) }
{
    Ok(read_all(alloc, body)?.ok())
}

/// The call INIT to program 100003, version 4, with a token of at most 4,096 bytes.
#[tactic(auto, using(crate::proofs::CredLemmas::init_short))]
pub fn init_call(alloc: Global, xid: u32, token: &[u8]) -> Mem<Octets>
    requires { length token.now ≤ TOKEN_LIMIT }
    ensures message { IfOk result (λ message. message ≡ init_message xid token.now) }
    ensures len { IfOk result (λ message. length message ≤ length token.now + CALL_ROOM) }
{
    let head = call_head(alloc, xid, PROC_NULL, RPCSEC_GSS_INIT)?;
    let mut writer = Writer::new(alloc)?;
    head.put(&mut writer)?;
    writer.opaque(token)?;
    Ok(writer.finish())
}

/// Takes the reply to INIT. `principal` and `nonce` are those of the token. A context is made exactly where
/// the result has a handle of 8 bytes and a token that finishes with a key under which the verifier is the
/// code of the window.
#[tactic(auto, unfolding(crate::specs::Replies::begun_of))]
pub fn init_reply<M: Mechanism>(
    alloc: Global,
    xid: u32,
    principal: &[u8],
    nonce: &[u8; 32],
    record_: &[u8],
    mech: &M,
) -> Mem<Begun>
    ensures { IfOk result (λ begun. begun ≡ begun_of M.mic_of (M.finished mech.now principal.now nonce.now) xid record_.now) }
{
    let Ok((head, body)) = read_reply(alloc, record_)? else {
        return Ok(Begun::Unmatched);
    };
    match head {
        ReplyHead::Accepted {
            xid: of,
            verf,
            stat,
        } => {
            if of != xid {
                return Ok(Begun::Unmatched);
            }
            if stat != Stat::Success {
                return Ok(Begun::Failed(stat));
            }
            let made = read_init_result(alloc, &record_[body..])?;
            Ok(made_by(principal, nonce, &verf, made, mech))
        }
        ReplyHead::Denied { xid: of, why } => {
            if of != xid {
                return Ok(Begun::Unmatched);
            }
            Ok(Begun::Denied(why))
        }
    }
}

/// What the result of INIT makes.
#[tactic(auto, unfolding(wire_xdr::specs::Words::word_bytes))]
fn made_by<M: Mechanism>(
    principal: &[u8],
    nonce: &[u8; 32],
    verf: &Auth,
    made: Option<InitResult>,
    mech: &M,
) -> Begun
    ensures { result ≡ begun_with M.mic_of (M.finished mech.now principal.now nonce.now) verf.now made }
{
    let Some(made) = made else {
        return Begun::Unmatched;
    };
    if made.major != 0 {
        return Begun::Refused { major: made.major };
    }
    if made.handle.len() != 8 {
        return Begun::Unmatched;
    }
    let mut handle = [0; 8];
    handle.copy_from_slice(made.handle.as_slice());
    let Some(key) = mech.finish(principal, nonce, made.token.as_slice()) else {
        return Begun::Unmatched;
    };
    if !is_code(verf, &mech.mic(&key, ACCEPTOR, &made.window.to_be_bytes())) {
        return Begun::Unmatched;
    }
    Begun::Made { handle, key }
}
