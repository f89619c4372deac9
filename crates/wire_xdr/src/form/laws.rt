//! Laws of every form: a value is read exactly where it is spelled, one value has one spelling, and no spelling begins a longer one.

ghost use Rattle.std.specs.Prelude.{◌≡◌, ℕ, ℤ, ◌+◌, ◌<◌, ◌≤◌, ◌^◌, FitsSigned, Bool, List, [], ◌++◌, length, Err};
ghost use Rattle.std.specs.Int.{w64};
ghost use Rattle.wire_xdr.specs.Cursor.{Cursor, IsBytes};
ghost use Rattle.wire_xdr.specs.Form.{IsForm, IsWithin, Spells};
ghost use Rattle.wire_xdr.specs.WordReads.{word_read, hyper_read, signed_read, flag_read, count_read, fixed_read, opaque_read};
ghost use Rattle.wire_xdr.specs.Words.{padding, word_bytes, hyper_bytes, signed_bytes, flag_bytes, fixed_bytes, opaque_bytes};

use crate::form::chosen::XdrBy;
use crate::form::xdr::Xdr;

/// Each word is read exactly where the bytes begin with its spelling, and the bytes passed are that
/// spelling.
pub fn words_are_forms()
    ensures word { IsForm word_read word_bytes (λ n. n < 2 ^ 32) }
    ensures hyper { IsForm hyper_read hyper_bytes (λ n. n < 2 ^ 64) }
    ensures signed { IsForm signed_read signed_bytes (FitsSigned w64) }
    ensures flag { IsForm flag_read flag_bytes (λ b. Unit {0}) }
    ensures count { (max : ℕ) → max < 2 ^ 32 → IsForm (count_read max) word_bytes (λ n. n ≤ max) }
    ensures fixed { (n : ℕ) → IsForm (fixed_read n) fixed_bytes (λ bytes. length bytes ≡ n) }
    ensures opaque { (max : ℕ) → max < 2 ^ 32 → IsForm (opaque_read max) opaque_bytes (λ bytes. length bytes ≤ max) }
{}

/// So is each value of a type that has a form.
pub fn is_form<T: Xdr>()
    ensures { IsForm T.form.read T.form.spell T.form.Fits }
{}

/// How many bytes words have. `specs/LengthLaws.antt` has the bounds of what is made of them, form by form.
#[tactic(auto, using(crate::specs::LengthLaws::word_length, crate::specs::LengthLaws::hyper_length, crate::specs::LengthLaws::signed_length, crate::specs::LengthLaws::flag_length, crate::specs::LengthLaws::fixed_length, crate::specs::LengthLaws::opaque_length, crate::specs::LengthLaws::padding_below))]
pub fn word_lengths()
    ensures word { (n : ℕ) → length (word_bytes n) ≡ 4 }
    ensures hyper { (n : ℕ) → length (hyper_bytes n) ≡ 8 }
    ensures signed { (z : ℤ) → length (signed_bytes z) ≡ 8 }
    ensures flag { (b : Bool) → length (flag_bytes b) ≡ 4 }
    ensures fixed { (bytes : List ℕ) → length (fixed_bytes bytes) ≡ length bytes + padding (length bytes) }
    ensures opaque { (bytes : List ℕ) → length (opaque_bytes bytes) ≡ 4 + length bytes + padding (length bytes) }
    ensures padding { (n : ℕ) → padding n < 4 }
{}

/// What is refused of a value is refused at a place of the bytes that were left, or at their end.
pub fn refused_within<T: Xdr>()
    ensures { (old : Cursor) (place : ℕ) → IsBytes old.rest → T.form.read old ≡ Err place → IsWithin old place }
{}

/// A value has one spelling, and a list of bytes spells one value.
pub fn one_spelling<T: Xdr>()
    ensures spelling { (v : T) (a b : List ℕ) → Spells T.form v a → Spells T.form v b → a ≡ b }
    ensures value { (u v : T) (bytes : List ℕ) → Spells T.form u bytes → Spells T.form v bytes → u ≡ v }
{}

/// No spelling is a proper prefix of another of the same type.
pub fn no_prefix<T: Xdr>()
    ensures { (u v : T) (bytes rest : List ℕ) → Spells T.form u bytes → Spells T.form v (bytes ++ rest) → rest ≡ [] }
{}

/// Of each number, a value has one spelling, and a list of bytes spells one value.
pub fn one_spelling_by<T: XdrBy>()
    ensures spelling { (n : ℕ) (v : T) (a b : List ℕ) → Spells (T.form n) v a → Spells (T.form n) v b → a ≡ b }
    ensures value { (n : ℕ) (u v : T) (bytes : List ℕ) → Spells (T.form n) u bytes → Spells (T.form n) v bytes → u ≡ v }
{}

/// Of each number, no spelling is a proper prefix of another.
pub fn no_prefix_by<T: XdrBy>()
    ensures { (n : ℕ) (u v : T) (bytes rest : List ℕ) → Spells (T.form n) u bytes → Spells (T.form n) v (bytes ++ rest) → rest ≡ [] }
{}
