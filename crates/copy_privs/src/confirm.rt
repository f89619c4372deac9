ghost use Rattle.std.specs.Prelude.{◌≡◌, ◌↔◌, true, length};
ghost use Rattle.copy_privs.specs.Create.{confirms};

use gss_mech::{INITIATOR, Mechanism};

/// Whether a code is the initiator's code of a secret under a key, which is that of the confirming context's
/// parent. A shorter or longer code is none. It takes no memory.
pub fn confirm_matches<M: Mechanism>(mic: &[u8], secret: &[u8], key: &[u8; 32], mech: &M) -> bool
    ensures told { result ≡ confirms M.mic_of mic.now secret.now key.now }
    ensures matches { (result ≡ true) ↔ (mic.now ≡ M.mic_of key.now INITIATOR secret.now) }
    ensures whole { result ≡ true → length mic.now ≡ 32 }
{
    mic == mech.mic(key, INITIATOR, secret).as_slice()
}
