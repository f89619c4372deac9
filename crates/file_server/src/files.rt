//! The files of a server, and the tests that its operations share.

ghost use Rattle.std.specs.Prelude.{◌≡◌, ◌+◌, ◌≤◌, ◌<◌, length, IfOk, MatchResult, Some, None};
ghost use Rattle.file_server.specs.Handles.{current_file, byte_file};
ghost use Rattle.file_server.specs.Answering.{open_refusal, meant_id, is_current};
ghost use Rattle.server_volume.specs.Store.{store_of};

use crate::handles::file_of;
use block_file::Volume;
use disk_model::Disk;
use nfs_base::{Handle, StateId, Status};
use state_ids::{Access, Opens};

/// The volume of a server, its opens, and what a particular server has besides.
#[derive(Drop)]
pub struct Files<D: Disk, X> {
    pub volume: Volume<D>,
    pub opens: Opens,
    pub extra: X,
}

impl<D: Disk, X> Files<D, X> {
    /// The file that is current.
    pub fn current_file(&self, current: &Option<Handle>) -> Result<u32, Status>
        ensures file { result ≡ current_file (store_of D.size self.now.volume) current.now }
        ensures there { IfOk result (λ file. file < length self.now.volume.volume.files) }
    {
        match current {
            None => Err(Status::NOFILEHANDLE),
            Some(handle) => file_of(self.volume.files(), self.volume.tag(), handle.as_slice()),
        }
    }

    /// The file that is current, where it isn't the root.
    pub(crate) fn byte_file(&self, current: &Option<Handle>) -> Result<u32, Status>
        ensures file { result ≡ byte_file (store_of D.size self.now.volume) current.now }
        ensures there { IfOk result (λ file. file < length self.now.volume.volume.files) }
        ensures no_root { IfOk result (λ file. 1 ≤ file) }
    {
        let file = self.current_file(current)?;
        if file == 0 {
            return Err(Status::ISDIR);
        }
        Ok(file)
    }

    /// Whether a stateid, or the current one where that is meant, allows an operation on a file.
    pub fn check_open(
        &self,
        current: &Option<StateId>,
        id: &StateId,
        file: u32,
        need: Access,
    ) -> Result<(), Status>
        ensures { MatchResult result (λ _. open_refusal self.now.opens (meant_id current.now id.now) file need ≡ None) (λ status. open_refusal self.now.opens (meant_id current.now id.now) file need ≡ Some status) }
    {
        match meant_id(current, id) {
            None => Err(Status::BAD_STATEID),
            Some(meant) => self.opens.check(&meant, file, need),
        }
    }
}

/// The stateid that is meant: the current one is asked for by seqid 1 and zeros.
pub(crate) fn meant_id(current: &Option<StateId>, id: &StateId) -> Option<StateId>
    ensures { result ≡ meant_id current.now id.now }
{
    if is_current(id) { *current } else { Some(*id) }
}

fn is_current(id: &StateId) -> bool
    ensures { result ≡ is_current id.now }
{
    id.seqid == 1 && id.kind == 0 && id.boot == 0 && id.number == 0
}
