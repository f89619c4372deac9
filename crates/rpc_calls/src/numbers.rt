// Numbers of the answers to INIT and CREATE that lower crates don't have (RFC 2743 section 1.2.1.1 and RFC 2744 section 5;
// minor statuses are own).

/// The major status of what was done.
pub const GSS_S_COMPLETE: u32 = 0;
/// The major status of a token that isn't one.
pub const GSS_S_DEFECTIVE_TOKEN: u32 = 589_824;
/// The major status of what failed for another reason.
pub const GSS_S_FAILURE: u32 = 851_968;

/// The minor status of INIT where the draw of a nonce failed.
pub const MINOR_DRAW_FAILED: u32 = 1;
/// The minor status of INIT and CREATE where no more contexts can be held.
pub const MINOR_FULL: u32 = 2;
/// The minor status of INIT where the token isn't one of the realm.
pub const MINOR_BAD_TOKEN: u32 = 3;

/// auth_stat: a child context may not have the privilege that is asked for (RFC 7861 section 2.5).
pub const RPCSEC_GSS_PRIVILEGE_PROBLEM: u32 = 17;
