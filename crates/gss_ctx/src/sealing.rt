ghost use Rattle.std.specs.Prelude.{◌≡◌, ◌+◌, ◌<◌, ◌≤◌, ◌++◌, length, take, drop, bytes_eq, if◌then◌else◌, replicate, IfOk, None, Some, MatchOption};
ghost use Rattle.std.specs.Option.{option_copied};
ghost use Rattle.rpc_msg.specs.Heads.{call};
ghost use Rattle.wire_xdr.specs.Words.{padding, word_bytes};
ghost use Rattle.wire_xdr.specs.All.{value_of};
ghost use Rattle.gss_ctx.specs.Seals.{cred_of, header_of, code_auth, is_code, sealed_body, two_opaques, unsealed, is_first_version, reply_code};

use gss_mech::{ACCEPTOR, Mechanism};
use outcome::Mem;
use rpc_msg::{Auth, CallHead, GssCred, REPLY, RPCSEC_GSS};
use std::alloc::Global;
use wire_xdr::{Octets, Page, Reader, Writer, Xdr, put_four, read_all};

/// How many bytes a seal adds to what is carried, at most: two lengths, the number, the padding and the code.
pub(crate) const SEAL_ROOM: usize = 47;

/// The RPCSEC_GSS credential of a head, where it has one.
pub(crate) fn read_cred(alloc: Global, head: &CallHead) -> Mem<Option<GssCred>>
    ensures { IfOk result (λ cred. cred ≡ cred_of head.now) }
{
    if head.cred.flavor != RPCSEC_GSS {
        return Ok(None);
    }
    Ok(read_all(alloc, head.cred.body.as_slice())?.ok())
}

/// The header of a call with this message type: from the xid through the credential.
#[tactic(auto, unfolding(crate::specs::Seals::header_of, rpc_msg::specs::Heads::call, rpc_msg::specs::Heads::auth))]
pub(crate) fn write_header(alloc: Global, kind: u32, head: &CallHead) -> Mem<Octets>
    requires { call.Fits head.now }
    ensures { IfOk result (λ header. header ≡ header_of kind head.now) }
{
    let mut writer = Writer::new(alloc)?;
    head.xid.put(&mut writer)?;
    kind.put(&mut writer)?;
    put_four(
        &mut writer,
        &head.rpcvers,
        &head.prog,
        &head.vers,
        &head.proc,
    )?;
    head.cred.put(&mut writer)?;
    Ok(writer.finish())
}

/// An auth of flavor 6 with a code.
pub(crate) fn code_auth(alloc: Global, code: &[u8; 32]) -> Mem<Auth>
    ensures { IfOk result (λ auth. auth ≡ code_auth code.now) }
{
    Ok(Auth {
        flavor: RPCSEC_GSS,
        body: Octets::from_slice(alloc, code)?,
    })
}

/// Whether an auth is of flavor 6 and has this code.
pub(crate) fn is_code(verf: &Auth, code: &[u8; 32]) -> bool
    ensures { result ≡ is_code verf.now code.now }
{
    verf.flavor == RPCSEC_GSS && verf.body.as_slice() == code.as_slice()
}

/// A message: its head, and what is carried under a seal.
pub(crate) fn seal_message<M: Mechanism>(
    alloc: Global,
    head: &[u8],
    key: &[u8; 32],
    side: u8,
    seq: u32,
    payload: &[u8],
    mech: &M,
) -> Mem<Octets>
    requires { length payload.now < 4294967292 }
    ensures { IfOk result (λ message. message ≡ head.now ++ sealed_body (M.mic_of key.now side) seq payload.now) }
{
    let mut page = Page::new(alloc, head.len() + payload.len() + SEAL_ROOM)?;
    page.append(head);
    put_sealed(&mut page, key, side, seq, payload, mech);
    Ok(page.finish())
}

/// Puts what is carried under a seal. It is copied once and hashed once.
pub(crate) fn put_sealed<M: Mechanism>(
    page: &mut Page,
    key: &[u8; 32],
    side: u8,
    seq: u32,
    payload: &[u8],
    mech: &M,
)
    requires small { length payload.now < 4294967292 }
    requires room { length page.old.bytes + length payload.now + SEAL_ROOM ≤ page.old.room }
    ensures { page.new.bytes ≡ page.old.bytes ++ sealed_body (M.mic_of key.now side) seq payload.now }
{
    page.u32(payload.len() as u32 + 4);
    let start = page.len();
    page.u32(seq);
    page.append(payload);
    let code = mech.mic(key, side, &page.as_slice()[start..]);
    page.append(zeros_behind(payload.len()));
    page.u32(32);
    page.append(&code);
}

/// The two parts of an integrity body: the sealed bytes and the code. They are lent.
#[tactic(auto, unfolding(crate::specs::Seals::two_opaques, wire_xdr::specs::All::all_of, wire_xdr::specs::WordReads::opaque_read))]
fn parts_of(body: &[u8]) -> Option<(&[u8], &[u8])>
    ensures { MatchOption result (value_of two_opaques body.now ≡ None) (λ parts. value_of two_opaques body.now ≡ Some (parts.0.now, parts.1.now)) }
{
    let mut reader = Reader::new(body);
    let Ok(sealed) = reader.opaque(u32::MAX) else {
        return None;
    };
    let Ok(code) = reader.opaque(u32::MAX) else {
        return None;
    };
    if !reader.rest().is_empty() {
        return None;
    }
    Some((sealed, code))
}

/// What stands behind a sequence number, where the bytes begin with it.
#[tactic(auto, unfolding(wire_xdr::specs::Words::word_bytes))]
fn after_number(sealed: &[u8], seq: u32) -> Option<&[u8]>
    ensures { option_copied result ≡ (if bytes_eq (take 4 sealed.now) (word_bytes seq) then Some (drop 4 sealed.now) else None) }
{
    let number = seq.to_be_bytes();
    match sealed.strip_prefix(number.as_slice()) {
        Some(carried) => Some(carried),
        None => None,
    }
}

/// What a body carries, where it has the right code and the right sequence number.
#[tactic(auto, unfolding(crate::specs::Seals::unsealed))]
pub(crate) fn unsealed<'a, M: Mechanism>(
    key: &[u8; 32],
    side: u8,
    seq: u32,
    body: &'a [u8],
    mech: &M,
) -> Option<&'a [u8]>
    ensures { option_copied result ≡ unsealed (M.mic_of key.now side) seq body.now }
{
    let (sealed, code) = parts_of(body)?;
    if code != mech.mic(key, side, sealed).as_slice() {
        return None;
    }
    after_number(sealed, seq)
}

/// The code of a reply's verifier.
#[tactic(auto, unfolding(crate::specs::Seals::reply_code, wire_xdr::specs::Words::word_bytes))]
pub(crate) fn reply_code<M: Mechanism>(
    alloc: Global,
    key: &[u8; 32],
    head: &CallHead,
    seq: u32,
    mech: &M,
) -> Mem<[u8; 32]>
    requires { call.Fits head.now }
    ensures { IfOk result (λ code. code ≡ reply_code M.mic_of key.now head.now seq) }
{
    if is_first_version(head) {
        return Ok(mech.mic(key, ACCEPTOR, &seq.to_be_bytes()));
    }
    let header = write_header(alloc, REPLY, head)?;
    Ok(mech.mic(key, ACCEPTOR, header.as_slice()))
}

/// Whether a call is of version 1 of RPCSEC_GSS.
fn is_first_version(head: &CallHead) -> bool
    ensures { result ≡ is_first_version head.now }
{
    match head.cred.body.as_slice().strip_prefix(&[0, 0, 0, 1]) {
        Some(_) => true,
        None => false,
    }
}

/// The zeros that stand behind `n` bytes, up to a multiple of four.
fn zeros_behind(n: usize) -> &'static [u8]
    ensures { result.now ≡ replicate (padding n) 0 }
{
    match n % 4 {
        0 => &[],
        1 => &[0, 0, 0],
        2 => &[0, 0],
        _ => &[0],
    }
}
