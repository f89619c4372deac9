//! Tables of calls and their answers as text, for programs that try every row. A line is `CALL = ANSWER`; one
//! without ` = ` is a comment.
#![tactic(auto)]

mod fields;
mod table;

pub use fields::{bytes, number, word, words};
pub use table::{Rows, compare};
