/// A heap block: its first address without a tag, the size in bytes that was asked for, its tag, the number of its birth,
/// and the chain of sites of the call that made it.
#[derive(Clone, Copy)]
pub struct Block {
    pub at: u64,
    pub size: u64,
    pub tag: u8,
    pub birth: u32,
    pub born: u32,
}

/// A block that was freed, and the chain of sites of the call that freed it.
#[derive(Clone, Copy)]
pub struct Freed {
    pub block: Block,
    pub died: u32,
}

/// What a free finds if it doesn't pass: the tag of its number, and the tag of the living block that begins at the
/// number's address, or none if no living block begins there.
#[derive(Clone, Copy)]
pub struct FreeMismatch {
    pub pointer: u8,
    pub block: Option<u8>,
}
