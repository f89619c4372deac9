ghost use Rattle.std.specs.Prelude.{◌≡◌, ◌==◌, ◌+◌, ◌-◌, ◌<◌, ◌≤◌, ◌^◌, [], ℕ, Some, None, IfOk, OnOk, OnErr, MatchResult, IfSome, find, option_copied, length};
ghost use Rattle.nfs_base.specs.declared.limits.TheConstants.{MOST_OPENS};
ghost use Rattle.state_ids.specs.Opens.{check_refusal, close_refusal, is_open, named_open, same_open, reopened, open_answer, open_table, open_id, with_open, closed, closed_id, holds_open, without_client};

use crate::Access;
use crate::open_file::{OpenFile, close_client, close_number, open_again};
use nfs_base::{MOST_OPENS, StateId, Status};
use outcome::Mem;
use std::alloc::Global;
use std::marker::Model;
use wire_xdr::Octets;

/// There are as many opens as there may be.
#[derive(Clone, Copy, PartialEq, Eq)]
pub struct Full;

/// The opens of a server: each is of a client's owner and of a file, and has a stateid. All room is taken when it
/// is made: only [`Opens::open`], which copies the owner, can want memory afterwards.
#[derive(Drop)]
pub struct Opens {
    boot: u32,
    opens: Vec<OpenFile>,
    numbers: u32,
    made: u32,
}

impl Model for Opens {
    ghost use Rattle.std.specs.Prelude.{vec_capacity};
    ghost use Rattle.state_ids.specs.Opens.{OpenTable, IsGivenOut};

    ghost Value = { OpenTable };

    ghost view = { λ t. record { boot = t.boot; opens = t.opens.items; numbers = t.numbers; made = t.made } };

    ghost invariant = { λ t. IsGivenOut t.numbers t.made t.opens.items (vec_capacity t.opens) };
}

impl Opens {
    /// Nothing is open yet, at a server with this boot number.
    pub fn new(alloc: Global, boot: u32) -> Mem<Opens>
        ensures { IfOk result (λ t. t ≡ record { boot = boot; opens = []; numbers = 0; made = 0 }) }
    {
        Ok(Opens {
            boot,
            opens: Vec::with_capacity(alloc, MOST_OPENS)?,
            numbers: 0,
            made: 0,
        })
    }

    /// How many numbers and seqids were given out.
    pub fn made(&self) -> u32
        ensures { result ≡ self.now.made }
    {
        self.made
    }

    /// OPEN (RFC 8881 section 18.16): opens a file for a client's owner, with the bits of an access word. Where
    /// the owner has the file open already, the access is added and the seqid rises by one; otherwise the open
    /// is new, with seqid 1 and the next number. `Full` comes where it would be new and there are 64.
    pub fn open(
        &mut self,
        client: u64,
        owner: &[u8],
        file: u32,
        access: u32,
    ) -> Mem<Result<StateId, Full>>
        requires { self.old.made < 2 ^ 32 - 1 }
        ensures answer { IfOk result (λ answer. answer ≡ open_answer self.old client owner.now file) }
        ensures done { OnOk result (self.new ≡ open_table self.old client owner.now file access) }
        ensures err { OnErr result (self.new ≡ self.old) }
    {
        let owner = Octets::from_slice(*self.opens.allocator(), owner)?;
        Ok(self.open_taken(client, owner, file, access))
    }

    /// The same with an owner that it takes over. It takes no memory.
    pub fn open_taken(
        &mut self,
        client: u64,
        owner: Octets,
        file: u32,
        access: u32,
    ) -> Result<StateId, Full>
        requires { self.old.made < 2 ^ 32 - 1 }
        ensures answer { result ≡ open_answer self.old client owner file }
        ensures done { self.new ≡ open_table self.old client owner file access }
    {
        let table = &*self;
        if let Some(found) = table.same(client, owner.as_slice(), file) {
            let id = StateId {
                seqid: found.seqid + 1,
                kind: StateId::OPEN,
                boot: table.boot,
                number: found.number,
            };
            self.reopen(client, owner.as_slice(), file, access);
            return Ok(id);
        }
        if table.opens.len() >= MOST_OPENS {
            return Err(Full);
        }
        Ok(self.add(client, owner, file, access))
    }

    /// Whether a stateid allows an operation on a file. In this order: BAD_STATEID where its boot isn't this one,
    /// its kind isn't an open's, or no open of this file has its number; a seqid that is neither 0 nor the
    /// open's is OLD_STATEID where it is lower and BAD_STATEID where it is higher; OPENMODE where the access that
    /// is needed lacks (RFC 8881 section 8.2.4).
    pub fn check(&self, id: &StateId, file: u32, need: Access) -> Result<(), Status>
        ensures { MatchResult result (λ _. check_refusal self.now id.now file need ≡ None) (λ status. check_refusal self.now id.now file need ≡ Some status) }
    {
        let Some(named) = self.named(id, file) else {
            return Err(Status::BAD_STATEID);
        };
        named.check(id.seqid, need)
    }

    /// CLOSE (RFC 8881 section 18.2): ends an open, and answers a stateid that names nothing. The tests are those
    /// of [`Opens::check`], without that of the access.
    pub fn close(&mut self, id: &StateId, file: u32) -> Result<StateId, Status>
        ensures answer { MatchResult result (λ answer. answer ≡ closed_id) (λ status. close_refusal self.old id.now file ≡ Some status) }
        ensures done { OnOk result ((close_refusal self.old id.now file ≡ None) × (self.new ≡ closed id.now.number self.old)) }
        ensures err { OnErr result (self.new ≡ self.old) }
    {
        self.check_close(id, file)?;
        self.remove(id.number);
        Ok(StateId {
            seqid: u32::MAX,
            kind: 0,
            boot: 0,
            number: 0,
        })
    }

    /// Whether a client has an open.
    pub fn holds(&self, client: u64) -> bool
        ensures { result ≡ holds_open self.now client }
    {
        self.opens.iter().any(|o| o.client == client)
    }

    /// Closes all opens of a client.
    pub fn end(&mut self, client: u64)
        ensures { self.new ≡ without_client self.old client }
    {
        close_client(&mut self.opens, client);
    }

    fn named(&self, id: &StateId, file: u32) -> Option<&OpenFile>
        ensures { option_copied result ≡ named_open self.now id.now file }
    {
        if id.boot != self.boot || id.kind != StateId::OPEN {
            return None;
        }
        self.numbered(id.number, file)
    }

    fn numbered(&self, number: u32, file: u32) -> Option<&OpenFile>
        ensures { option_copied result ≡ find (is_open number file) self.now.opens }
    {
        self.opens.iter().find(|o| o.is_open(number, file))
    }

    fn check_close(&self, id: &StateId, file: u32) -> Result<(), Status>
        ensures { MatchResult result (λ _. close_refusal self.now id.now file ≡ None) (λ status. close_refusal self.now id.now file ≡ Some status) }
    {
        let Some(named) = self.named(id, file) else {
            return Err(Status::BAD_STATEID);
        };
        named.check_seqid(id.seqid)
    }

    fn remove(&mut self, number: u32)
        ensures { self.new ≡ closed number self.old }
    {
        close_number(&mut self.opens, number);
    }

    /// The open of a client's owner on a file. Its seqid was given out.
    fn same(&self, client: u64, owner: &[u8], file: u32) -> Option<&OpenFile>
        ensures found { option_copied result ≡ same_open self.now client owner.now file }
        ensures given_out { IfSome result (λ o. o.now.seqid ≤ self.now.made) }
    {
        self.opens.iter().find(|o| o.is_same(client, owner, file))
    }

    fn reopen(&mut self, client: u64, owner: &[u8], file: u32, access: u32)
        requires { self.old.made < 2 ^ 32 - 1 }
        ensures { self.new ≡ reopened self.old client owner.now file access }
    {
        open_again(&mut self.opens, client, owner, file, access);
        self.made += 1;
    }

    fn add(&mut self, client: u64, owner: Octets, file: u32, access: u32) -> StateId
        requires made { self.old.made < 2 ^ 32 - 1 }
        requires room { length self.old.opens < MOST_OPENS }
        ensures id { result ≡ open_id self.old.boot 1 (self.old.numbers + 1) }
        ensures done { self.new ≡ with_open self.old client owner file access }
    {
        let number = self.numbers + 1;
        self.opens
            .push(OpenFile {
                client,
                owner,
                file,
                access,
                seqid: 1,
                number,
            })
            .unwrap();
        self.numbers = number;
        self.made += 1;
        StateId {
            seqid: 1,
            kind: StateId::OPEN,
            boot: self.boot,
            number,
        }
    }
}
