use disk_model::Disk;
use file_server::Files;
use sess_slots::Sessions;

/// A server without its contexts: its files, with what a particular server has besides, and its clients.
#[derive(Drop)]
pub struct Server<D: Disk, X> {
    pub files: Files<D, X>,
    pub sessions: Sessions,
}
