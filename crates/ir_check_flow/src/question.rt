use ir_core::Place;

/// A use of a register: in which block the register is defined, in which block it is asked for, and where the use is.
#[derive(Clone, Copy)]
pub struct Question {
    pub home: usize,
    pub at: usize,
    pub place: Place,
}
