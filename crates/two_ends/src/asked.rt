use gss_mech::hmac_sha256;
use outcome::Mem;
use std::alloc::Global;

/// A call that is made by hand under a context of boot 1, with the codes of its key.
#[derive(Clone, Copy)]
pub struct Asked {
    pub version: u32,
    pub gss_proc: u32,
    pub seq: u32,
    pub service: u32,
    /// The context's number, which is the second word of its handle.
    pub number: u32,
    /// The sequence number in the body.
    pub inner: u32,
}

/// What every call by hand carries as arguments.
const ARGS: [u8; 4] = [1, 2, 3, 4];

impl Asked {
    /// DATA of version 3 with integrity under context 1.
    pub fn data(seq: u32) -> Asked {
        Asked {
            version: 3,
            gss_proc: 0,
            seq,
            service: 2,
            number: 1,
            inner: seq,
        }
    }

    /// The header, from the xid, which is 9, through the credential. `kind` is the message type.
    pub fn header(&self, alloc: Global, kind: u32) -> Mem<Vec<u8>> {
        let mut bytes = Vec::new(alloc);
        for word in [9, kind, 2, 100_003, 4, 1, 6, 28] {
            put(&mut bytes, word)?;
        }
        for word in [self.version, self.gss_proc, self.seq, self.service] {
            put(&mut bytes, word)?;
        }
        for word in [8, 1, self.number] {
            put(&mut bytes, word)?;
        }
        Ok(bytes)
    }

    /// The whole record (RFC 2203 section 5.3).
    pub fn record(&self, alloc: Global, key: &[u8; 32]) -> Mem<Vec<u8>> {
        let mut bytes = self.header(alloc, 0)?;
        let code = code_of(alloc, key, 0, bytes.as_slice())?;
        put(&mut bytes, 6)?;
        put_code(&mut bytes, &code)?;
        put(&mut bytes, 8)?;
        let mut sealed = Vec::new(alloc);
        put(&mut sealed, self.inner)?;
        sealed.extend_from_slice(&ARGS)?;
        bytes.extend_from_slice(sealed.as_slice())?;
        put_code(&mut bytes, &code_of(alloc, key, 0, sealed.as_slice())?)?;
        Ok(bytes)
    }
}

/// Adds a word.
fn put(bytes: &mut Vec<u8>, word: u32) -> Mem<()> {
    bytes.extend_from_slice(&word.to_be_bytes())?;
    Ok(())
}

/// Adds a code as an opaque.
fn put_code(bytes: &mut Vec<u8>, code: &[u8; 32]) -> Mem<()> {
    put(bytes, 32)?;
    bytes.extend_from_slice(code)?;
    Ok(())
}

/// The code of bytes: the HMAC of the side, which is 0 for the initiator, and the bytes.
fn code_of(alloc: Global, key: &[u8; 32], side: u8, bytes: &[u8]) -> Mem<[u8; 32]> {
    let mut text = vec![in alloc; side]?;
    text.extend_from_slice(bytes)?;
    Ok(hmac_sha256(key, text.as_slice()))
}
