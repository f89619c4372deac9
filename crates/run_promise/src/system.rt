//! A run of three machines as a system that the promise speaks of (`wire_model`).
//!
//! There is no code here. `specs/System/System.antt` says what is seen of each end at each moment of a run (`wire_machine`), and what each
//! did in each step: by the copies of all openings of the destination (`system_of`), or by those of one opening alone (`opening_of`), for
//! a run in which it never stops. `specs/System/Moments.antt` says that the step from each moment is one of the machines' and leads to the
//! next. The history of the system is the run's ([`systems_show_histories`]), which lists the jobs that the destination has, and what was
//! seen of those before ([`histories_are_folds`]); by [`histories_show_jobs`] this is how copies go on that are linked to the jobs
//! (`dest_laws::histories`).

mod history;
mod laws;

pub use history::{histories_are_folds, histories_show_jobs};
pub use laws::{moments_are_steps, systems_show_histories};
