//! Which privileges a destination takes, and what it tells of a step.

ghost use Rattle.std.specs.Prelude.{◌≡◌};
ghost use Rattle.copy_privs.specs.Create.{dest_refusal};
ghost use Rattle.dest_core.specs.Judging.{granted};

use crate::destination::Destination;
use copy_privs::{PrivFault, Privilege, read_privilege, refuse_to};
use dest_jobs::Carried;
use gss_ctx::{Context, Contexts};
use gss_mech::Mechanism;
use nfs_base::PrivCause;
use outbox::NoteList;
use outcome::Mem;
use session_server::{Extending, Judgement};
use std::alloc::Global;

impl<M: Mechanism> Extending<Carried> for Destination<M> {
    ghost use Rattle.std.specs.Prelude.{refl};
    ghost use Rattle.dest_core.specs.Judging.{judges, silent, tells};
    ghost use Rattle.dest_core.specs.Landing.{untold};
    ghost use Rattle.dest_core.specs.Laws.{same_given};

    type Mech = M;

    ghost mech_of = { λ x. x.mech };

    ghost judges = { judges };

    ghost tells = { tells };

    ghost silent = { silent };

    ghost untold = { untold };

    fn mech(&self) -> &M {
        &self.mech
    }

    fn judge(
        &self,
        alloc: Global,
        contexts: &Contexts<Carried>,
        number: u32,
        name: &[u8],
        privilege: &[u8],
        _second: u64,
    ) -> Mem<Judgement<Carried>> {
        let parent = contexts.context(number).unwrap();
        match read_privilege(alloc, name, privilege)? {
            Err(PrivFault::UnknownName) => Ok(Judgement::Refused(PrivCause::Unknown)),
            Err(PrivFault::BadXdr { .. }) => Ok(Judgement::Misspelt),
            Ok(privilege) => match self.refuses(parent, &privilege) {
                Some(cause) => Ok(Judgement::Refused(cause)),
                None => Ok(granted(&parent.key, privilege)),
            },
        }
    }

    fn tell(&mut self, notes: &mut NoteList) {
        std::mem::swap(notes, &mut self.copier.copies.told);
    }

    ghost by_telling = { λ x. same_given x };

    ghost telling_lands_none = { λ x. refl };

    ghost all_told = { λ x. refl };

    ghost lapsing_told = { λ second x. refl };
}

impl<M> Destination<M> {
    /// Why a privilege is refused under a parent.
    fn refuses(&self, parent: &Context<Carried>, privilege: &Privilege) -> Option<PrivCause>
        ensures { result ≡ dest_refusal self.now.copier.copies.source.loc parent.now.principal privilege.now }
    {
        match privilege {
            Privilege::To { sources, user, .. } => refuse_to(
                &self.copier.copies.source.loc,
                parent.principal.as_slice(),
                sources.as_slice(),
                user.as_slice(),
            ),
            Privilege::From { .. } => Some(PrivCause::Unknown),
            Privilege::Confirm { .. } => Some(PrivCause::Unknown),
        }
    }
}

/// What is said of a privilege that isn't refused.
fn granted(root: &[u8; 32], privilege: Privilege) -> Judgement<Carried>
    ensures { result ≡ granted root.now privilege }
{
    let root = *root;
    match privilege {
        Privilege::To {
            secret,
            sources,
            user,
        } => Judgement::Granted(Carried {
            secret,
            sources,
            user,
            root,
        }),
        Privilege::From { .. } => Judgement::Refused(PrivCause::Unknown),
        Privilege::Confirm { .. } => Judgement::Refused(PrivCause::Unknown),
    }
}
