//! How many bytes the arguments and results of a copy's operations have where they are spelled.

ghost use Rattle.std.specs.Prelude.{ℕ, ◌+◌};
ghost use Rattle.wire_xdr.specs.LengthLaws.{IsBounded};
ghost use Rattle.nfs_base.specs.declared.limits.TheConstants.{HANDLE_LIMIT};
ghost use Rattle.copy_ops.specs.Forms.{copy_arg, copy_res, cb_offload};
ghost use Rattle.copy_ops.specs.LengthLaws.{places_most};

/// No spelling has more bytes. `specs/LengthLaws.antt` has the laws, operation by operation.
#[tactic(auto, using(crate::specs::LengthLaws::copy_arg_bounded, crate::specs::LengthLaws::copy_res_bounded, crate::specs::LengthLaws::cb_offload_bounded))]
pub fn operations_have_lengths()
    ensures args { (op : ℕ) → IsBounded (copy_arg op) (64 + places_most) }
    ensures results { (op : ℕ) → IsBounded (copy_res op) (32 + places_most) }
    ensures callback { IsBounded cb_offload (HANDLE_LIMIT + 67) }
{}
