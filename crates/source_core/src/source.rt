use crate::own_location::OwnLocation;
use copy_grants::Grants;
use copy_privs::Peer;
use nfs_base::Cause;
use wire_xdr::Items;

/// What a source has besides its files.
#[derive(Drop)]
pub struct Source<M> {
    /// What it granted by COPY_NOTIFY.
    pub grants: Grants,

    /// The servers that it knows.
    pub peers: Items<Peer>,

    /// Where it is found itself.
    pub own: OwnLocation,

    /// Why a READ under a grant was refused in this step, where one was.
    pub refusal: Option<Cause>,

    /// The mechanism of its contexts.
    pub mech: M,
}
