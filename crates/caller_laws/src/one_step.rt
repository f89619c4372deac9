//! Runs of a mount's steps as one step of a caller, for every machine above a mount.
//!
//! There is no code here. `specs/OneStep/Runs.antt` says what a run is, `specs/OneStep/Order.antt` in which order its steps go. By
//! [`runs_are_lawful`] such a run obeys the laws of its server's wire as one step. By [`others_go_beside`] it does so too with all
//! that the machine takes and sends besides, to other ends (`specs/OneStep/Besides.antt`). Both are one law
//! in [`whole_steps_are_lawful`] (`specs/OneStep/Whole.antt`).

mod runs;

pub use runs::{
    calls_have_their_xids, others_go_beside, runs_are_lawful, sends_are_counted, servers_stay,
    whole_steps_are_lawful,
};
