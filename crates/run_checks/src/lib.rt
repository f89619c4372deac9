//! A run in which no record is taken by mistake passes the check that the laws of a wire ask (`wire_model`'s `IsUnmistaken`).
//!
//! There is no code here. [`records_tell`] says it of one step and a list of records, each of which was sent as it is listed
//! (`specs/Listed.antt`). What holds of every run is in `specs/`, since no clause can speak of machines of any types:
//! `specs/Growing.antt` says what a small step leaves of the list, `specs/CheckLaws.antt` that in a run without a mistake no
//! end is mistaken in any step (`unmistaken`), and `specs/RunLaws.antt` that the small steps of a schedule that were done are
//! such a run (`runs_right`).
#![tactic(auto)]

mod laws;

pub use laws::records_tell;
