/// What the client asks of a copy (the arguments of COPY, RFC 7862 section 15.2): `count` bytes from
/// offset `src_off` of the source's file to offset `dst_off` of the destination's file. A count of 0 goes
/// to the end of the source file. A consecutive copy lands in order.
#[derive(Clone, Copy, Debug, PartialEq, Eq)]
pub struct CopySpec {
    pub src_file: u32,
    pub src_off: u64,
    pub dst_file: u32,
    pub dst_off: u64,
    pub count: u64,
    pub consecutive: bool,
}
