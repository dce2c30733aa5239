use crate::Raw;
use hw_base::{Full, Trap};

/// What came of a step, in a word: the task goes on; it goes on and printed bytes; the last frame of the first task
/// returned; the run ended otherwise; or memory ran out. What was printed and how the run ended is kept in the run, so that
/// nothing large is handed on at each step.
#[derive(Clone, Copy)]
pub enum Progress {
    Ran,
    Printed,
    Returned,
    Ended,
    NoMemory,
}

/// How a run ended: the program exits with a 32-bit value; it traps, in a task and with the number of a call chain; a check
/// failed; or there is no room in the simulated memory.
#[derive(Clone, Copy)]
pub enum Ending {
    Exit(u32),
    Trap { trap: Trap, task: u32, chain: u32 },
    Report(Raw),
    Full(Full),
}
