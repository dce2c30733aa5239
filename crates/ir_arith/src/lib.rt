//! Integer arithmetic at every width from 1 to 128 bits, as the LLVM Language Reference defines it: binary operators,
//! comparisons, conversions, the intrinsics on bits and those that report an overflow.
//! Each call computes one table of `specs/`, exactly, and takes no memory; the layers above rely on nothing else.
#![tactic(auto)]

mod binary_operations;
mod bit_intrinsics;
mod comparisons;
mod conversions;
mod overflow_intrinsics;
mod twos_complement;

pub use binary_operations::binary;
pub use bit_intrinsics::bits;
pub use comparisons::compare;
pub use conversions::cast;
pub use overflow_intrinsics::overflow;
pub use twos_complement::wrap;

#[cfg(test)]
mod tests;
