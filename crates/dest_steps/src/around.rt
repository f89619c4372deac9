/// Where a step is made: the server's boot number, the tag of its volume, and the second.
#[derive(Clone, Copy)]
pub struct Here {
    pub boot: u32,
    pub tag: u64,
    pub second: u64,
}
