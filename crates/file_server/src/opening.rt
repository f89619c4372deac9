//! OPEN (RFC 8881 section 18.16).

ghost use Rattle.std.specs.Prelude.{◌≡◌, ◌+◌, ◌-◌, ◌^◌, ◌<◌, ◌≤◌, ◌++◌, length, Ok, true};
ghost use Rattle.file_ops.specs.Opening.{open_done};
ghost use Rattle.nfs_base.specs.Forms.{state_id};
ghost use Rattle.wire_xdr.specs.Page.{Added};
ghost use Rattle.wire_xdr.specs.Words.{word_bytes, hyper_bytes, flag_bytes};
ghost use Rattle.file_server.specs.Machine.{Does};
ghost use Rattle.file_server.specs.Answering.{Ready, Keeps, Says, going_of};
ghost use Rattle.file_server.specs.Opening.{open_by_name, open_unless, open_file, file_opened, file_claimed, is_access, access_of, opened_as};

use crate::extension::Caller;
use crate::files::Files;
use crate::handles::handle_of;
use crate::names::file_named;
use crate::progress::Progress;
use disk_model::Disk;
use file_ops::{Claim, OP_OPEN, OpenArgs, OpenHow};
use nfs_base::{StateId, Status};
use state_ids::Full;
use wire_xdr::Page;

/// The bits of OPEN's access word that say what is done with the file. The others say which delegation is wanted
/// (OPEN4_SHARE_ACCESS_WANT_DELEG_MASK), and aren't looked at, since none is given.
pub const ACCESS_BITS: u32 = 0xffff_00ff;

impl<D: Disk, X> Files<D, X> {
    /// OPEN: the file with a name in the root, which is current, is open for an owner of the calling client, and
    /// becomes the current one with its stateid. The owner is taken over.
    #[tactic(auto, unfolding(crate::specs::Opening::open_by_name, file_ops::specs::Results::file_res, nfs_base::specs::Forms::answer, wire_xdr::specs::Words::word_bytes))]
    pub fn open_by_name(&mut self, caller: &Caller, args: OpenArgs, p: &mut Progress) -> Status
        requires ready { Ready p.old 1 }
        requires made { self.old.opens.made < 2 ^ 32 - 1 }
        ensures does { Does (λ choice. open_by_name caller.now args (going_of D.size self.old p.old)) p.old.page.bytes (going_of D.size self.new p.new) p.new.page.bytes result.number }
        ensures keeps { Keeps p.old p.new }
        ensures used { p.new.used ≡ p.old.used }
        ensures volume { self.new.volume ≡ self.old.volume }
        ensures extra { self.new.extra ≡ self.old.extra }
        ensures made { self.new.opens.made ≤ self.old.opens.made + 1 }
    {
        match self.root_refusal(&p.held.current) {
            Some(status) => p.refuse(OP_OPEN, status),
            None => self.open_in_root(caller.client, args, p),
        }
    }

    #[tactic(auto, unfolding(file_ops::specs::Results::file_res, nfs_base::specs::Forms::answer, wire_xdr::specs::Words::word_bytes))]
    fn open_in_root(&mut self, client: u64, args: OpenArgs, p: &mut Progress) -> Status
        requires ready { Ready p.old 1 }
        requires made { self.old.opens.made < 2 ^ 32 - 1 }
        ensures does { Does (λ choice. open_file client args (file_opened (length self.old.volume.volume.files) args) (going_of D.size self.old p.old)) p.old.page.bytes (going_of D.size self.new p.new) p.new.page.bytes result.number }
        ensures keeps { Keeps p.old p.new }
        ensures used { p.new.used ≡ p.old.used }
        ensures volume { self.new.volume ≡ self.old.volume }
        ensures extra { self.new.extra ≡ self.old.extra }
        ensures made { self.new.opens.made ≤ self.old.opens.made + 1 }
    {
        match file_opened(self.volume.files(), &args) {
            Err(status) => p.refuse(OP_OPEN, status),
            Ok(file) => self.open_file(client, args, file, p),
        }
    }

    #[tactic(auto, unfolding(file_ops::specs::Results::file_res, nfs_base::specs::Forms::answer, wire_xdr::specs::Words::word_bytes))]
    fn open_file(&mut self, client: u64, args: OpenArgs, file: u32, p: &mut Progress) -> Status
        requires ready { Ready p.old 1 }
        requires made { self.old.opens.made < 2 ^ 32 - 1 }
        ensures does { Does (λ choice. open_file client args (Ok file) (going_of D.size self.old p.old)) p.old.page.bytes (going_of D.size self.new p.new) p.new.page.bytes result.number }
        ensures keeps { Keeps p.old p.new }
        ensures used { p.new.used ≡ p.old.used }
        ensures volume { self.new.volume ≡ self.old.volume }
        ensures extra { self.new.extra ≡ self.old.extra }
        ensures made { self.new.opens.made ≤ self.old.opens.made + 1 }
    {
        let access = access_of(args.access);
        match self.opens.open_taken(client, args.owner, file, access) {
            Err(Full) => p.refuse(OP_OPEN, Status::DELAY),
            Ok(id) => {
                p.held.current = Some(handle_of(self.volume.tag(), file));
                p.held.id = Some(id);
                p.say_opened(&id)
            }
        }
    }
}

/// The file that OPEN's arguments name, at a volume with so many files, the root apart.
fn file_opened(files: u32, args: &OpenArgs) -> Result<u32, Status>
    requires { files < 65536 }
    ensures { result ≡ file_opened (files + 1) args.now }
{
    if !is_access(args.access, args.deny) {
        return Err(Status::INVAL);
    }
    file_claimed(files, &args.how)
}

fn file_claimed(files: u32, how: &OpenHow) -> Result<u32, Status>
    requires { files < 65536 }
    ensures { result ≡ file_claimed (files + 1) how.now }
{
    match how {
        OpenHow::NoCreate(Claim::Null(name)) => file_named(files, name.as_slice()),
        OpenHow::NoCreate(Claim::Other(_)) => Err(Status::NOTSUPP),
        OpenHow::Create(_) => Err(Status::NOTSUPP),
    }
}

/// Whether an access word and what is denied to others are ones that are served.
fn is_access(access: u32, deny: u32) -> bool
    ensures { result ≡ is_access access deny }
{
    let access = access_of(access);
    1 <= access && access <= 3 && deny == 0
}

/// What is to be done with the file: 1 to read, 2 to write, 3 both.
fn access_of(word: u32) -> u32
    ensures { result ≡ access_of word }
{
    word & ACCESS_BITS
}

impl Progress {
    /// OPEN is done: its stateid, and nothing else to tell.
    fn say_opened(&mut self, id: &StateId) -> Status
        requires { length self.old.page.bytes + 56 ≤ self.old.page.room }
        ensures says { Says self.old (word_bytes OP_OPEN ++ (word_bytes 0 ++ open_done.spell (opened_as id.now))) self.new }
        ensures len { length self.new.page.bytes ≤ length self.old.page.bytes + 56 }
        ensures status { result ≡ Status.OK }
    {
        self.page.u32(OP_OPEN);
        self.page.u32(0);
        put_opened(&mut self.page, id);
        Status::OK
    }
}

fn put_opened(page: &mut Page, id: &StateId)
    requires { length page.old.bytes + 48 ≤ page.old.room }
    ensures added { Added page.old (open_done.spell (opened_as id.now)) page.new }
    ensures len { length page.new.bytes ≤ length page.old.bytes + 48 }
{
    put_state_id(page, id);
    put_unchanged(page);
}

#[tactic(auto, unfolding(nfs_base::specs::Forms::state_id))]
pub(crate) fn put_state_id(page: &mut Page, id: &StateId)
    requires { length page.old.bytes + 16 ≤ page.old.room }
    ensures added { Added page.old (state_id.spell id.now) page.new }
    ensures len { length page.new.bytes ≤ length page.old.bytes + 16 }
{
    page.u32(id.seqid);
    page.u32(id.kind);
    page.u32(id.boot);
    page.u32(id.number);
}

/// What stands behind OPEN's stateid: the directory is as it was, no flag, no attribute set, and no delegation.
fn put_unchanged(page: &mut Page)
    requires { length page.old.bytes + 32 ≤ page.old.room }
    ensures added { Added page.old (flag_bytes true ++ (hyper_bytes 0 ++ (hyper_bytes 0 ++ (word_bytes 0 ++ (word_bytes 0 ++ word_bytes 0))))) page.new }
    ensures len { length page.new.bytes ≤ length page.old.bytes + 32 }
{
    page.flag(true);
    page.u64(0);
    page.u64(0);
    page.u32(0);
    page.u32(0);
    page.u32(0);
}
