//! LOOKUP (RFC 8881 section 18.13), and the names of files.

ghost use Rattle.std.specs.Prelude.{◌≡◌, ◌+◌, ◌<◌, ◌≤◌, length, IfOk};
ghost use Rattle.server_volume.specs.Store.{store_of};
ghost use Rattle.file_server.specs.Handles.{current_file};
ghost use Rattle.file_server.specs.Machine.{Does};
ghost use Rattle.file_server.specs.Answering.{Ready, Keeps, going_of};
ghost use Rattle.file_server.specs.Names.{lookup, root_refusal, file_named, number_named, is_digit};

use crate::files::Files;
use crate::handles::handle_of;
use crate::progress::Progress;
use disk_model::Disk;
use file_ops::OP_LOOKUP;
use nfs_base::{Handle, Status};

impl<D: Disk, X> Files<D, X> {
    /// LOOKUP: the file with a name in the root, which is current, becomes the current one.
    #[tactic(auto, unfolding(crate::specs::Names::lookup, file_ops::specs::Results::file_res, nfs_base::specs::Forms::status, wire_xdr::specs::Words::word_bytes))]
    pub fn lookup(&self, name: &[u8], p: &mut Progress) -> Status
        requires { Ready p.old 1 }
        ensures does { Does (λ choice. lookup name.now (going_of D.size self.now p.old)) p.old.page.bytes (going_of D.size self.now p.new) p.new.page.bytes result.number }
        ensures keeps { Keeps p.old p.new }
        ensures used { p.new.used ≡ p.old.used }
    {
        if let Some(status) = self.root_refusal(&p.held.current) {
            return p.refuse(OP_LOOKUP, status);
        }
        match file_named(self.volume.files(), name) {
            Err(status) => p.refuse(OP_LOOKUP, status),
            Ok(file) => {
                p.put_current(handle_of(self.volume.tag(), file));
                p.say_done(OP_LOOKUP)
            }
        }
    }

    /// Why a name can't be looked up at the current file.
    pub(crate) fn root_refusal(&self, current: &Option<Handle>) -> Option<Status>
        ensures { result ≡ root_refusal (current_file (store_of D.size self.now.volume) current.now) }
    {
        match self.current_file(current) {
            Err(status) => Some(status),
            Ok(0) => None,
            Ok(_) => Some(Status::INVAL),
        }
    }
}

/// The file with a name, at a volume with so many files, the root apart.
pub(crate) fn file_named(files: u32, name: &[u8]) -> Result<u32, Status>
    requires { files < 65536 }
    ensures file { result ≡ file_named (files + 1) name.now }
    ensures there { IfOk result (λ file. file < files + 1) }
    ensures no_root { IfOk result (λ file. 1 ≤ file) }
{
    let number = number_named(name);
    if number == 0 || number > files {
        return Err(Status::NOENT);
    }
    Ok(number)
}

/// The number that a name of one digit or two is, or 0.
fn number_named(name: &[u8]) -> u32
    ensures { result ≡ number_named name.now }
{
    match name {
        [d] if is_digit(*d) => u32::from(*d - b'0'),
        [d, e] if *d > b'0' && is_digit(*d) && is_digit(*e) => {
            u32::from(*d - b'0') * 10 + u32::from(*e - b'0')
        }
        _ => 0,
    }
}

fn is_digit(byte: u8) -> bool
    ensures { result ≡ is_digit byte }
{
    b'0' <= byte && byte <= b'9'
}
