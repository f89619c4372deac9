ghost use Rattle.std.specs.Prelude.{◌≡◌, ◌==◌, ◌-◌, ◌<◌, ◌^◌, All, filter, not, position, MatchResult, Some, None, vec_capacity};
ghost use Rattle.state_ids.specs.Opens.{is_open, is_same, seqid_refusal, access_refusal, first_refusal, opened_again};
ghost use Rattle.nfs_base.specs.Changed.{changed};

use crate::Access;
use nfs_base::Status;
use wire_xdr::Octets;

/// A file that a client's owner has open (RFC 8881 section 9.1).
#[derive(Drop)]
pub struct OpenFile {
    /// The ID of the client.
    pub client: u64,

    pub owner: Octets,
    pub file: u32,

    /// The bits of OPEN's access word: 1 to read, 2 to write.
    pub access: u32,

    pub seqid: u32,
    pub number: u32,
}

impl OpenFile {
    pub(crate) fn is_same(&self, client: u64, owner: &[u8], file: u32) -> bool
        ensures { result ≡ is_same client owner.now file self.now }
    {
        self.client == client && self.file == file && self.owner.as_slice() == owner
    }

    pub(crate) fn is_open(&self, number: u32, file: u32) -> bool
        ensures { result ≡ is_open number file self.now }
    {
        self.number == number && self.file == file
    }

    /// Whether a seqid is this open's; 0 always is.
    pub(crate) fn check_seqid(&self, seqid: u32) -> Result<(), Status>
        ensures { MatchResult result (λ _. seqid_refusal seqid self.now.seqid ≡ None) (λ status. seqid_refusal seqid self.now.seqid ≡ Some status) }
    {
        if seqid == 0 || seqid == self.seqid {
            return Ok(());
        }
        if seqid < self.seqid {
            return Err(Status::OLD_STATEID);
        }
        Err(Status::BAD_STATEID)
    }

    /// Whether this open's access has the bit that is needed.
    pub(crate) fn check_access(&self, need: Access) -> Result<(), Status>
        ensures { MatchResult result (λ _. access_refusal self.now.access need ≡ None) (λ status. access_refusal self.now.access need ≡ Some status) }
    {
        if self.access & need.bit() == 0 {
            return Err(Status::OPENMODE);
        }
        Ok(())
    }

    /// Both tests, the seqid's first.
    pub(crate) fn check(&self, seqid: u32, need: Access) -> Result<(), Status>
        ensures { MatchResult result (λ _. first_refusal (seqid_refusal seqid self.now.seqid) (access_refusal self.now.access need) ≡ None) (λ status. first_refusal (seqid_refusal seqid self.now.seqid) (access_refusal self.now.access need) ≡ Some status) }
    {
        self.check_seqid(seqid)?;
        self.check_access(need)
    }

    /// Adds to the access, and raises the seqid.
    pub(crate) fn open_again(&mut self, access: u32)
        requires { self.old.seqid < 2 ^ 32 - 1 }
        ensures { self.new ≡ opened_again access self.old }
    {
        self.access |= access;
        self.seqid += 1;
    }
}

/// Takes out the open with this number.
pub(crate) fn close_number(opens: &mut Vec<OpenFile>, number: u32)
    ensures items { opens.new.items ≡ filter (λ o. not (o.number == number)) opens.old.items }
    ensures capacity { vec_capacity opens.new ≡ vec_capacity opens.old }
{
    opens.retain(|o| o.number != number);
}

/// Takes out the opens of a client.
pub(crate) fn close_client(opens: &mut Vec<OpenFile>, client: u64)
    ensures items { opens.new.items ≡ filter (λ o. not (o.client == client)) opens.old.items }
    ensures capacity { vec_capacity opens.new ≡ vec_capacity opens.old }
{
    opens.retain(|o| o.client != client);
}

/// Opens the open of a client's owner on a file again.
pub(crate) fn open_again(
    opens: &mut Vec<OpenFile>,
    client: u64,
    owner: &[u8],
    file: u32,
    access: u32,
)
    requires { All (λ o. o.seqid < 2 ^ 32 - 1) opens.old.items }
    ensures items { opens.new.items ≡ changed (is_same client owner.now file) (opened_again access) opens.old.items }
    ensures capacity { vec_capacity opens.new ≡ vec_capacity opens.old }
{
    if let Some(at) = place_of(opens.as_slice(), client, owner, file) {
        opens[at].open_again(access);
    }
}

fn place_of(opens: &[OpenFile], client: u64, owner: &[u8], file: u32) -> Option<usize>
    ensures { result ≡ position (is_same client owner.now file) opens.now }
{
    opens.iter().position(|o| o.is_same(client, owner, file))
}
