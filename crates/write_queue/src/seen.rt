//! The verifiers of writes.

ghost use Rattle.std.specs.Prelude.{◌≡◌, ◌==◌, IfOk, not, filter};
ghost use Rattle.std.specs.List.{list_all, list_any};
ghost use Rattle.write_queue.specs.Queue.{agrees, cleared, is_pair, is_same, noted};

use outcome::Mem;

/// A write of this file was answered under this verifier since the last line of a commit of it.
#[derive(Clone, Copy)]
pub struct Seen {
    pub file: u32,
    pub verifier: [u8; 8],
}

/// Notes a write.
pub(crate) fn note(seen: &mut Vec<Seen>, one: Seen) -> Mem<()>
    ensures { IfOk result (λ _. seen.new.items ≡ noted one.file one.verifier seen.old.items) }
{
    if !has(seen.as_slice(), &one) {
        seen.push(one)?;
    }
    Ok(())
}

fn has(seen: &[Seen], one: &Seen) -> bool
    ensures { result ≡ list_any (is_pair one.now.file one.now.verifier) seen.now }
{
    seen.iter().any(|other| is_pair(other, one))
}

fn is_pair(other: &Seen, one: &Seen) -> bool
    ensures { result ≡ is_pair one.now.file one.now.verifier other.now }
{
    other.file == one.file && other.verifier == one.verifier
}

/// Whether each write of a file that is noted was answered under this verifier.
pub(crate) fn is_same(seen: &[Seen], file: u32, verifier: &[u8; 8]) -> bool
    ensures { result ≡ is_same file verifier.now seen.now }
{
    seen.iter().all(|one| agrees(one, file, verifier))
}

fn agrees(one: &Seen, file: u32, verifier: &[u8; 8]) -> bool
    ensures { result ≡ agrees file verifier.now one.now }
{
    one.file != file || one.verifier == *verifier
}

/// Forgets the writes of a file.
pub(crate) fn clear(seen: &mut Vec<Seen>, file: u32)
    ensures { seen.new.items ≡ cleared file seen.old.items }
{
    seen.retain(|one| is_of_another(one, file));
}

fn is_of_another(one: &Seen, file: u32) -> bool
    ensures { result ≡ not (one.now.file == file) }
{
    one.file != file
}
