ghost use Rattle.nfs_base.specs.Forms.{state_id};

use outcome::Mem;
use std::alloc::Global;
use wire_xdr::{ReadError, Reader, Writer, Xdr};

/// A stateid (stateid4, RFC 8881 sections 3.3.12 and 8.2): which state is meant, and how often it had
/// changed. What stands in its twelve bytes is these servers' own: a kind, the boot that made the state,
/// and the state's number there.
#[derive(Clone, Copy, PartialEq, Eq)]
pub struct StateId {
    pub seqid: u32,
    pub kind: u32,
    pub boot: u32,
    pub number: u32,
}

impl StateId {
    /// The kind of an open file's state.
    pub const OPEN: u32 = 1;

    /// The kind of what COPY_NOTIFY grants.
    pub const COPY_NOTIFY: u32 = 2;

    /// The kind of a copy that is under way.
    pub const COPY_OFFLOAD: u32 = 3;
}

impl Xdr for StateId {
    ghost form = { state_id };

    #[tactic(auto, unfolding(crate::specs::Forms::state_id))]
    fn parse(alloc: Global, reader: &mut Reader) -> Result<StateId, ReadError> {
        let (seqid, (kind, (boot, number))) = <(u32, (u32, (u32, u32)))>::parse(alloc, reader)?;
        Ok(StateId {
            seqid,
            kind,
            boot,
            number,
        })
    }

    #[tactic(auto, unfolding(crate::specs::Forms::state_id))]
    fn put(&self, writer: &mut Writer) -> Mem<()> {
        (self.seqid, (self.kind, (self.boot, self.number))).put(writer)
    }
}
