//! XDR, the external data representation of RFC 4506: words, and types that are spelled by combining them.
//!
//! [`Reader`] and [`Writer`] read and write the words of section 4; their contracts cite `specs/Words.antt`,
//! which tells each answer and each fault exactly. A type is spelled by a form (`specs/Form.antt`): what
//! spells a value, apart from it how that is read, and the law that the two agree. `specs/Forms.antt` is the
//! table of forms, and each brings its law. The contract to read first is that of [`read`]: a value is read
//! exactly where the bytes begin with its spelling, a refusal names the first place that fails, and the
//! reader then stands where it stood. [`one_spelling`] and [`no_prefix`] are the laws of every form.
//!
//! How to add a type T (`sample.rt` of crate `xdr_rows` and its forms have one of each kind):
//!
//! 1. Write the struct or enum with `#[derive(Drop)]`: u32, u64, i64, bool, `[u8; N]`, [`Octets`],
//!    [`Items`], `Option` and types that have a form.
//! 2. Struct, in `specs/`: `unfoldable pub t : Form T` is `seen_as TO FROM (λ v. refl) (λ v. refl)` of nested
//!    `both`, TO making the record from nested pairs and FROM the pairs from the record. The fields' forms are
//!    `word`, `hyper`, `signed`, `flag`, `count MAX`, `fixed N`, `opaque MAX`, `opaque_between MIN MAX`, `list
//!    MAX`, `option`, `such_that TEST FORM` and those of other types; a limit is followed by `(lit< tt)`.
//! 3. Enum: `t_case` says of each variant `holds NUMBER FORM MAKE BODY` (`void` and `tt` where it holds
//!    nothing), `t_arms` lists `arm NUMBER FORM MAKE (λ v. refl)`, and `t_listed` has two lines for all
//!    variants. The form is `union t_arms t_listed`; `union_or` where there is a default arm, whose variant
//!    `defaults`; `chosen` where the number stands elsewhere.
//! 4. `impl Xdr for T`: `ghost form = { t };`, and both methods have
//!    `#[tactic(auto, unfolding(crate::specs::FILE::t))]`, which names the form of T alone.
//! 5. `parse` reads the fields in their order: `X::parse(alloc, reader)?`, and with a limit `Octets::parse(alloc,
//!    reader, MAX)?`, `Octets::parse_between(..)?` and `Items::parse(alloc, reader, MAX)?`. A union begins with
//!    `let start = reader.at();` and a `match` on `u32::parse`, whose last arm is `Err(ReadError::at(start))`; a
//!    field of `such_that` is read and then tested in the same way. Fields without a limit are read as nested pairs
//!    where their forms are nested so, as those that stand last are: `<(u32, (u64, bool))>::parse(alloc, reader)?`.
//! 6. `put` writes each field by `self.x.put(writer)?`; a variant writes its number first, and one that holds
//!    nothing ends with `writer.void()`. Fields that can be copied are written as nested pairs too, wherever they
//!    stand: `(self.x, (self.y, self.z)).put(writer)?`. Where they can't, [`put_four`] writes four at a time.
//! 7. A type whose number stands elsewhere: `impl XdrBy`, with `number_of t_case` and a line for `own`.
//! 8. No proof file is needed. Callers use `read::<T>` and `write::<T>`, or `read_by` and `write_by`, and
//!    `read_all::<T>` and `write_all` where nothing stands before or behind the value.
#![tactic(auto)]

mod fault;
mod form;
mod octets;
mod page;
mod reader;
mod writer;

pub use fault::XdrFault;
pub use form::{
    BadXdr, Items, ReadError, Xdr, XdrBy, all_is_spelled, is_form, no_prefix, no_prefix_by,
    one_spelling, one_spelling_by, parse_count, put_four, read, read_all, read_by, refused_within,
    word_lengths, words_are_forms, write, write_all, write_by,
};
pub use octets::Octets;
pub use page::Page;
pub use reader::Reader;
pub use writer::Writer;
