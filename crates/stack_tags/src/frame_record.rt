/// A frame with variables: the number of its function, the lowest address of its variables without a tag, its tag word,
/// the number of its birth, the chain of sites of the call that entered it, and for an ended frame the chain of the return
/// that left it.
#[derive(Clone, Copy)]
pub struct FrameRecord {
    pub func: u32,
    pub low: u64,
    pub word: u8,
    pub birth: u32,
    pub born: u32,
    pub died: Option<u32>,
}
