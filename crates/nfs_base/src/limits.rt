/// The bytes of a block of a volume.
pub const BLOCK_SIZE: u64 = 4096;

/// The bytes of a whole chunk, which is what a copy reads and lands at once.
pub const CHUNK_SIZE: u64 = 65_536;

/// How many files a volume may have.
pub const MOST_FILES: u32 = 64;

/// How many blocks a file may have, and how many all files of a volume may have together.
pub const MOST_BLOCKS: u32 = 16_384;

/// How many bytes one READ or WRITE moves; one that asks for more moves so many.
pub const DATA_LIMIT: u32 = 65_536;

/// How many operations a COMPOUND may have.
pub const MOST_OPERATIONS: u32 = 16;

/// How many bytes a tag, an owner and each string of a network location may have.
pub const TEXT_LIMIT: u32 = 1_024;

/// How many network locations a list may have.
pub const MOST_NET_LOCS: u32 = 8;

/// How many bytes a file handle may have (RFC 8881 section 3.1, NFS4_FHSIZE); it has at least one.
pub const HANDLE_LIMIT: u32 = 128;

/// How many bytes the name of a principal or of a user may have.
pub const NAME_LIMIT: u32 = 64;

/// How many bytes the secret of a copy has at least.
pub const SECRET_LEAST: u32 = 16;

/// How many bytes the secret of a copy may have.
pub const SECRET_LIMIT: u32 = 64;

/// How many bytes a token of the security mechanism may have.
pub const TOKEN_LIMIT: u32 = 4_096;

/// How many bytes a structured privilege may have.
pub const PRIVILEGE_LIMIT: u32 = 2_048;

/// How many security contexts a server keeps.
pub const MOST_CONTEXTS: usize = 256;

/// After how many idle seconds a security context may go.
pub const CONTEXT_IDLE: u64 = 3_600;

/// How many sequence numbers of a security context are remembered; an older one is dropped.
pub const WINDOW_SIZE: u32 = 128;

/// How many clients a server keeps.
pub const MOST_CLIENTS: usize = 16;

/// How many sessions a server keeps.
pub const MOST_SESSIONS: usize = 32;

/// How many slots a session has.
pub const SLOTS: u32 = 16;

/// How many opens a server keeps.
pub const MOST_OPENS: usize = 64;

/// How many grants to copy a source keeps.
pub const MOST_GRANTS: usize = 64;

/// How many jobs a destination keeps, those that are done and not yet forgotten included.
pub const MOST_JOBS: usize = 16;

/// The seconds of a client's lease and of a grant's life.
pub const LEASE_SECONDS: u64 = 90;

/// How many bytes of input a run of the program takes.
pub const INPUT_LIMIT: u64 = 16_777_216;
