ghost use Rattle.std.specs.Prelude.{◌≡◌, ℕ, ◌+◌, ◌<◌, List, length, slice_index, Some, false};
ghost use Rattle.nfs_base.specs.declared.state_id.StateId.{StateId};
ghost use Rattle.nfs_base.specs.declared.status.TheConstants.Status.{BAD_STATEID};
ghost use Rattle.state_ids.specs.declared.access.Access.{Access};
ghost use Rattle.state_ids.specs.Opens.{OpenTable, check_refusal, closed, holds_open, without_client};
ghost use Rattle.state_ids.specs.Runs.{OpenCall, no_opens, given};

/// What is closed is gone: a stateid of a closed open is BAD_STATEID for every file, seqid and access, and a
/// client that was ended has no open.
pub fn what_is_closed_is_gone()
    ensures closed { (table : OpenTable) (id : StateId) (file : ℕ) (need : Access) → check_refusal (closed id.number table) id file need ≡ Some BAD_STATEID }
    ensures ended { (table : OpenTable) (client : ℕ) → holds_open (without_client table client) client ≡ false }
{}

/// What holds of every list of calls on the opens of one opening of a server, whatever is closed and whoever
/// ends: the numbers that new opens get count from 1, one after the other. So a number is given once, and that
/// of a closed open names none again.
pub fn a_number_is_given_once()
    ensures counted { (boot : ℕ) (calls : List OpenCall) (k : ℕ) → k < length (given (no_opens boot) calls) → slice_index (given (no_opens boot) calls) k ≡ k + 1 }
    ensures once { (boot : ℕ) (calls : List OpenCall) (i j : ℕ) → i < length (given (no_opens boot) calls) → j < length (given (no_opens boot) calls) → slice_index (given (no_opens boot) calls) i ≡ slice_index (given (no_opens boot) calls) j → i ≡ j }
{}
