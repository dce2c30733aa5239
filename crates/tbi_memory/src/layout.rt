/// The parts of the address space that differ from run to run, in bytes; each number is a multiple of 16. The constants
/// begin at the first address of globals, the variables at `variables_at`; the heap's first address is fixed.
#[derive(Clone, Copy)]
pub struct Layout {
    /// The sum of the rounded sizes of all constants.
    pub constants: u64,
    /// The first address of the variables.
    pub variables_at: u64,
    /// The sum of the rounded sizes of all variables.
    pub variables: u64,
    /// The length of the heap.
    pub heap: u64,
}
