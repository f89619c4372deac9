//! What the calls of a server leave of its volume, in any step (RFC 8881 sections 18.3, 18.22 and 18.32).
//!
//! There is no code here. Whatever calls a step makes, the volume keeps its files, its opening and its tag
//! ([`steps_keep_the_files`]). The disk's count of faults rises for each call that is noted as failed
//! ([`counts_rise_where_calls_fail`]); where none is, each is answered as the volume alone decides
//! ([`sound_disks_have_no_faults`]). A volume breaks only in a call that failed, and then takes none
//! ([`volumes_break_where_calls_fail`]).
#![tactic(auto)]

mod laws;

pub use laws::{
    counts_rise_where_calls_fail, failed_calls_were_taken, sound_disks_have_no_faults,
    steps_keep_the_files, volumes_break_where_calls_fail,
};
