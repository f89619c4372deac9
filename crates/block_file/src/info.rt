/// What a server tells of a file.
#[derive(Clone, Copy, Debug, PartialEq, Eq)]
pub struct FileInfo {
    /// Its length in bytes.
    pub size: u64,

    /// Its change attribute, which no other contents of the file has (RFC 8881 section 5.8.1.4).
    pub change: u64,
}
