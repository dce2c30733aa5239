/// Where a register is defined: the number of the block, and of the instruction in its function.
#[derive(Clone, Copy)]
pub struct Home {
    pub block: usize,
    pub inst: usize,
}
