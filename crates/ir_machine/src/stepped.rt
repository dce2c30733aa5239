use crate::Raw;
use hw_base::{Full, Trap};

/// What a step of the machine returned: the task goes on; it wants a byte of input; it goes on and wrote so many bytes; the
/// program exits with a signed 32-bit value; it traps, in a task and with the number of a call chain; a check failed;
/// there is no room in the simulated memory.
#[derive(Clone, Copy)]
pub enum Stepped {
    Ran,
    WantsInput,
    Wrote(u64),
    Exit(i32),
    Trap { trap: Trap, task: u32, chain: u32 },
    Mismatch(Raw),
    Full(Full),
}
