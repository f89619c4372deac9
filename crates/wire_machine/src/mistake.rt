use nfs_base::Seal;

/// A record was accepted under a seal that isn't its own, or as the answer to another call: the seal under which it was
/// accepted, and that of the first record with its bytes.
#[derive(Clone, Copy, PartialEq, Eq)]
pub struct Mistake {
    pub accepted: Seal,
    pub sealed: Option<Seal>,
}
