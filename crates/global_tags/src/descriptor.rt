/// A global in memory: its first address without a tag, its size in bytes, its tag, and whether it is a constant.
#[derive(Clone, Copy)]
pub struct Descriptor {
    pub at: u64,
    pub size: u32,
    pub tag: u8,
    pub constant: bool,
}
