//! How many bytes the common types have where they are spelled.

ghost use Rattle.std.specs.Prelude.{ℕ, ◌+◌, ◌*◌};
ghost use Rattle.wire_xdr.specs.LengthLaws.{IsBounded};
ghost use Rattle.nfs_base.specs.declared.limits.TheConstants.{HANDLE_LIMIT, TEXT_LIMIT};
ghost use Rattle.nfs_base.specs.Forms.{status, state_id, handle, time, net_loc, stability, write_response, answer};

use wire_xdr::Xdr;

/// No spelling of these types has more bytes. `specs/LengthLaws.antt` has the laws, form by form.
#[tactic(auto, using(crate::specs::LengthLaws::status_bounded, crate::specs::LengthLaws::state_id_bounded, crate::specs::LengthLaws::handle_bounded, crate::specs::LengthLaws::time_bounded, crate::specs::LengthLaws::net_loc_bounded, crate::specs::LengthLaws::stability_bounded, crate::specs::LengthLaws::write_response_bounded))]
pub fn common_types_have_lengths()
    ensures status { IsBounded status 4 }
    ensures state_id { IsBounded state_id 16 }
    ensures handle { IsBounded handle (HANDLE_LIMIT + 7) }
    ensures time { IsBounded time 12 }
    ensures net_loc { IsBounded net_loc (4 + 2 * (TEXT_LIMIT + 7)) }
    ensures stability { IsBounded stability 4 }
    ensures write_response { IsBounded write_response 40 }
{}

/// An answer is a status, and with status 0 what was done.
pub fn answers_have_lengths<T: Xdr>()
    ensures { (n : ℕ) → IsBounded T.form n → IsBounded (answer T.form) (4 + n) }
{}
