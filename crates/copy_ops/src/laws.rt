//! Laws of the operations' spellings.

ghost use Rattle.std.specs.Prelude.{◌≡◌, ℕ, List, [], ◌++◌};
ghost use Rattle.wire_xdr.specs.Form.{Spells};
ghost use Rattle.copy_ops.specs.Forms.{copy_arg, copy_res, cb_offload};

use crate::{CbOffload, CopyArg, CopyRes};
use wire_xdr::{no_prefix, no_prefix_by, one_spelling, one_spelling_by};

/// A list of bytes spells one value of an operation, and no spelling begins a longer one.
pub fn spelled_once()
    ensures args { (op : ℕ) (u v : CopyArg) (bytes : List ℕ) → Spells (copy_arg op) u bytes → Spells (copy_arg op) v bytes → u ≡ v }
    ensures args_end { (op : ℕ) (u v : CopyArg) (bytes rest : List ℕ) → Spells (copy_arg op) u bytes → Spells (copy_arg op) v (bytes ++ rest) → rest ≡ [] }
    ensures results { (op : ℕ) (u v : CopyRes) (bytes : List ℕ) → Spells (copy_res op) u bytes → Spells (copy_res op) v bytes → u ≡ v }
    ensures results_end { (op : ℕ) (u v : CopyRes) (bytes rest : List ℕ) → Spells (copy_res op) u bytes → Spells (copy_res op) v (bytes ++ rest) → rest ≡ [] }
    ensures callback { (u v : CbOffload) (bytes : List ℕ) → Spells cb_offload u bytes → Spells cb_offload v bytes → u ≡ v }
    ensures callback_end { (u v : CbOffload) (bytes rest : List ℕ) → Spells cb_offload u bytes → Spells cb_offload v (bytes ++ rest) → rest ≡ [] }
{
    one_spelling_by::<CopyArg>();
    no_prefix_by::<CopyArg>();
    one_spelling_by::<CopyRes>();
    no_prefix_by::<CopyRes>();
    one_spelling::<CbOffload>();
    no_prefix::<CbOffload>();
}
