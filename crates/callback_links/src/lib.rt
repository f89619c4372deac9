//! A connection's way to its other end, which threads share: whole records go out on it, one after another.
//!
//! A [`Line`] stands under a lock. It has the way of the connection that is served, where one is, and a book of the failed puts that
//! the connection itself knows of. [`Sending`] is the connection's own handle, a sink; others put records by [`Line::post`]. Each
//! call holds the lock until all of a piece is out, so no two records mix. The contracts to read first are those of
//! [`Sending::open`] and [`Sending::close`], with `specs/Line.antt`. Nothing is said of what is put: others' records go between.
#![tactic(auto)]

mod line;
mod sending;

pub use line::Line;
pub use sending::Sending;
