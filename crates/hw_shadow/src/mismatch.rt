/// What refuses an access: the first touched granule that isn't mapped, or whose memory tag doesn't agree with the
/// pointer's tag.
#[derive(Clone, Copy)]
pub enum Mismatch {
    /// The granule isn't mapped; this is the first address in it that the access touches.
    Unmapped(u64),
    /// The tags don't agree. The granule is named by its first address, and `end` is one more than the position of the
    /// last touched byte in it, 1 to 16.
    Tags {
        granule: u64,
        pointer: u8,
        memory: u8,
        last: u8,
        end: u8,
    },
}
