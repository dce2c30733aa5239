use hw_base::{ByteList, Full, Status, Trap};
use ir_machine::Raw;

/// How the steps of a run came to an end: all that the bound allows were made; the program exits with a signed 32-bit value; it
/// traps, in a task and with the number of a call chain; a check failed; there is no room in the simulated memory.
#[derive(Clone, Copy)]
pub enum RunEnd {
    Spent,
    Exit(i32),
    Trap { trap: Trap, task: u32, chain: u32 },
    Mismatch(Raw),
    Full(Full),
}

/// What steps of a run printed, in order, and how they came to an end.
#[derive(Drop)]
pub struct StepsMade {
    pub output: ByteList,
    pub end: RunEnd,
}

/// What a whole run shows: the bytes that the program printed, the status, and the closing text.
#[derive(Drop)]
pub struct Gathered {
    pub output: ByteList,
    pub status: Status,
    pub text: ByteList,
}
