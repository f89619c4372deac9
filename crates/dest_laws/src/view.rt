//! A destination as the laws of a wire and of copies see it.
//!
//! There is no code here. `specs/View/View.antt` says how a destination looks as a caller of its source, what its jobs may come to
//! need and what its workers hold; `specs/View/Steps.antt` what ties a system of machines (`wire_model`) to a step of it;
//! `specs/View/Dues.antt` what the laws of its parts take from one another. [`opened_destinations_show_nothing`] says how it begins.

mod laws;

pub use laws::opened_destinations_show_nothing;
