ghost use Rattle.std.specs.Prelude.{◌≡◌, ◌≤◌, ◌++◌, length};
ghost use Rattle.gss_mech.specs.Hmac.{hmac, masked, block_of};

use sha2::{Digest, Sha256};

/// HMAC (RFC 2104) over SHA-256, of a key of at most a block, 64 bytes.
pub fn hmac_sha256(key: &[u8], bytes: &[u8]) -> [u8; 32]
    requires { length key.now ≤ 64 }
    ensures { result ≡ hmac key.now bytes.now }
{
    hmac_of_parts(key, &[], &[], bytes)
}

/// The same of three pieces that are taken as one text. Nothing is copied.
#[tactic(auto, unfolding(crate::specs::Hmac::hmac))]
pub(crate) fn hmac_of_parts(key: &[u8], first: &[u8], second: &[u8], third: &[u8]) -> [u8; 32]
    requires { length key.now ≤ 64 }
    ensures { result ≡ hmac key.now (first.now ++ second.now ++ third.now) }
{
    let block = block_of(key);
    let inner_block = masked(block, 0x36);
    let outer_block = masked(block, 0x5c);
    let mut inner = Sha256::new();
    inner.update(inner_block.as_slice());
    inner.update(first);
    inner.update(second);
    inner.update(third);
    let digest = inner.finalize();
    let mut outer = Sha256::new();
    outer.update(outer_block.as_slice());
    outer.update(digest.as_slice());
    outer.finalize()
}

/// The key, filled up with zeros to a block.
fn block_of(key: &[u8]) -> [u8; 64]
    requires { length key.now ≤ 64 }
    ensures { result ≡ block_of key.now }
{
    let mut block = [0; 64];
    block[..key.len()].copy_from_slice(key);
    block
}

/// Each byte of a block with the bits of `pad` turned.
fn masked(block: [u8; 64], pad: u8) -> [u8; 64]
    ensures { result ≡ masked pad block }
{
    let mut turned = block;
    for byte in turned.iter_mut() {
        *byte ^= pad;
    }
    turned
}
