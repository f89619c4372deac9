//! Types that have a form: read and written field by field, and their calls and laws.

mod all;
mod bad;
mod chosen;
mod items;
mod laws;
mod option;
mod pair;
mod words;
mod xdr;

pub use all::{all_is_spelled, read_all, write_all};
pub use bad::{BadXdr, ReadError};
pub use chosen::{XdrBy, read_by, write_by};
pub use items::Items;
pub use laws::{
    is_form, no_prefix, no_prefix_by, one_spelling, one_spelling_by, refused_within, word_lengths,
    words_are_forms,
};
pub use words::parse_count;
pub use xdr::{Xdr, put_four, read, write};
