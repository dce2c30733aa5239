/// Why bytes of memory can't be read or written. Nothing has changed then.
#[derive(Clone, Copy)]
pub enum MemFault {
    /// A byte isn't mapped; this is the first such address, without a tag.
    Unmapped(u64),
    /// All bytes are mapped, and a written one is a constant's.
    ReadOnly,
}
