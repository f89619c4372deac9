/// By whom a call is made, and when.
#[derive(Clone, Copy, PartialEq, Eq)]
pub struct Who {
    /// The number of the call's context.
    pub context: u32,

    /// The number of that context's parent where it is a child, and else its own.
    pub root: u32,

    /// The number of the connection.
    pub conn: u32,

    /// The second in which the call came.
    pub second: u64,
}
