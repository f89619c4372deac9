//! What a server answers (RFC 5531 section 9, RFC 2203 section 5.3.3).
//!
//! There is no code here. By [`servers_send_replies`] every server sends replies alone to a record on a connection, under its own
//! contexts (`specs/Answers.antt`).
#![tactic(auto)]

mod laws;

pub use laws::servers_send_replies;
