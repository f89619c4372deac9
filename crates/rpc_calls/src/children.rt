ghost use Rattle.std.specs.Prelude.{◌≡◌, ◌+◌, ◌<◌, ◌≤◌, ◌++◌, ℕ, List, [], length, IfOk, IfSome, OnErr, IsSome, Some};
ghost use Rattle.wire_xdr.specs.Page.{Added};
ghost use Rattle.gss_ctx.specs.Forms.{create_result};
ghost use Rattle.rpc_calls.specs.Judging.{HasSpelling, IsThere, MayHaveChild};
ghost use Rattle.rpc_calls.specs.Making.{Created, create_told, created, create_answer};

use crate::answers::count;
use crate::call::Call;
use crate::numbers::{GSS_S_COMPLETE, GSS_S_FAILURE, MINOR_FULL};
use gss_ctx::{Contexts, handle_of};
use gss_mech::Mechanism;
use outcome::Mem;
use std::alloc::Global;
use wire_xdr::{Octets, Page};

/// The most bytes that the result of CREATE has.
const CREATE_ROOM: usize = 24;

/// How CREATE was answered: the record, and the number of the child that was made.
#[derive(Drop)]
pub struct CreateAnswer {
    pub bytes: Octets,

    /// The major status that the record says, 0 where a child was made.
    pub major: u32,

    pub made: Option<u32>,
}

/// Answers CREATE (RFC 7861 section 2.7) whose privilege was granted: counts it, and makes a child of the calling
/// context that carries `carry`, with the calling context's principal. Where 256 live contexts are held none is made,
/// and the major status says so.
pub fn answer_create<P: Drop, M: Mechanism>(
    contexts: &mut Contexts<P>,
    alloc: Global,
    call: &Call,
    carry: P,
    now: u64,
    mech: &M,
) -> Mem<CreateAnswer>
    requires made { contexts.old.made < 4294967295 }
    requires head { HasSpelling call.now }
    requires there { IsThere contexts.old call.now }
    requires parent { MayHaveChild contexts.old call.now }
    ensures reply { IfOk result (λ told. told ≡ create_answer M.mic_of contexts.old call.now (created M.derived now carry call.now contexts.old).made) }
    ensures table { IfOk result (λ told. contexts.new ≡ (created M.derived now carry call.now contexts.old).table) }
    ensures err { OnErr result (contexts.new ≡ contexts.old) }
{
    let under = call.under.unwrap();
    let sealer = contexts.sealer(
        alloc,
        under.number,
        under.seq,
        &call.head,
        CREATE_ROOM,
        mech,
    )?;
    let mut page = Page::new(alloc, CREATE_ROOM)?;
    let principal = contexts.context(under.number).unwrap().principal.copy()?;
    let boot = contexts.seal(under.number, under.seq).boot;
    count(contexts, call, now);
    let made = contexts
        .create_child_taken(under.number, principal, carry, now, mech)
        .ok();
    put_result(&mut page, boot, made);
    Ok(CreateAnswer {
        bytes: sealer.seal(page.as_slice(), mech),
        major: created_major(made),
        made,
    })
}

/// The major status of a CREATE, by the child that was made.
fn created_major(made: Option<u32>) -> u32
    ensures { (boot : ℕ) → result ≡ (create_told boot made).major }
{
    match made {
        Some(_) => GSS_S_COMPLETE,
        None => GSS_S_FAILURE,
    }
}

/// The result of CREATE, with the child that was made.
#[tactic(auto, unfolding(gss_ctx::specs::Forms::create_result))]
fn put_result(page: &mut Page, boot: u32, made: Option<u32>)
    requires { length page.old.bytes + CREATE_ROOM ≤ page.old.room }
    ensures added { Added page.old (create_result.spell (create_told boot made)) page.new }
    ensures len { length page.new.bytes ≤ length page.old.bytes + CREATE_ROOM }
{
    match made {
        Some(number) => {
            page.opaque(&handle_of(boot, number));
            page.u32(GSS_S_COMPLETE);
            page.u32(0);
        }
        None => {
            page.opaque(&[]);
            page.u32(GSS_S_FAILURE);
            page.u32(MINOR_FULL);
        }
    }
}
