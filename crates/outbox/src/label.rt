/// What a call is called in a transcript.
#[derive(Clone, Copy, PartialEq, Eq)]
pub enum CallLabel {
    /// INIT of RPCSEC_GSS (RFC 2203 section 5.2.2).
    Init,

    /// CREATE of RPCSEC_GSSv3 (RFC 7861 section 2.7).
    Create,

    /// DESTROY of RPCSEC_GSS (RFC 2203 section 5.4).
    Destroy,

    /// The procedure that does nothing.
    Null,

    /// A COMPOUND of which no operation was read.
    Compound,

    /// A COMPOUND, by the number of its last operation that was read.
    Operation(u32),

    /// A CB_COMPOUND, by the number of its last operation that was read.
    Callback(u32),
}

/// What a record is called in a transcript.
#[derive(Clone, Copy, PartialEq, Eq)]
pub enum Label {
    Call(CallLabel),

    /// A result: the call's name and the status, of INIT and CREATE the major status, of DESTROY and NULL 0.
    Reply { to: CallLabel, status: u32 },

    /// A denial with this auth_stat (RFC 5531 section 9).
    Denied(u32),

    /// A denial for the version of RPC.
    Mismatch,

    /// A failed call, with this accept_stat.
    Fault(u32),
}
