use hw_shadow::Mismatch;

/// What refuses the check of a string: the number of the byte, with its tag, and what was found in its granule.
#[derive(Clone, Copy)]
pub struct StringFault {
    pub at: u64,
    pub found: Mismatch,
}
