use hw_base::Access;
use hw_shadow::Mismatch;
use tag_alloc::FreeMismatch;

/// What a failing check found: in memory, or of the block that was to be freed.
#[derive(Clone, Copy)]
pub enum Found {
    Memory(Mismatch),
    Block(FreeMismatch),
}

/// A failing check. `size` is in bytes, and 0 for a free. `number` is the 64-bit pointer with its tag in the top byte.
/// `step` is the number of the step, counted from 1, and `chain` the number of the call chain.
#[derive(Clone, Copy)]
pub struct Raw {
    pub access: Access,
    pub size: u64,
    pub number: u64,
    pub task: u32,
    pub step: u64,
    pub chain: u32,
    pub found: Found,
}
