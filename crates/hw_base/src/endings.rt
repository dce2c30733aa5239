/// What ends a run of the program under test like a signal would.
#[derive(Clone, Copy, Debug, PartialEq, Eq)]
pub enum Trap {
    DivZero,
    DivOverflow,
    Unreachable,
    /// A write to a constant.
    ReadOnly,
    /// A call in a task that has 4,096 frames.
    TooDeep,
    Abort,
}

/// What a read of one byte of input gives.
#[derive(Clone, Copy, Debug, PartialEq, Eq)]
pub enum Input {
    Byte(u8),
    End,
}

/// A part of the simulated memory in which room is asked for.
#[derive(Clone, Copy, Debug, PartialEq, Eq)]
pub enum Space {
    Heap,
    Stack,
}

/// There is no room in the simulated memory: where, how many bytes were asked for, and the sum in bytes of the rounded
/// sizes of what lives there.
#[derive(Clone, Copy, Debug, PartialEq, Eq)]
pub struct Full {
    pub space: Space,
    pub asked: u128,
    pub living: u64,
}

/// How the whole program ended. Each has a number, which is the process's exit status.
#[derive(Clone, Copy, Debug, PartialEq, Eq)]
pub enum Status {
    /// The program under test ran to its exit, or was judged clean.
    Ended,
    /// A check failed.
    Reported,
    /// The words of the command line are no command.
    BadWords,
    /// The text isn't an accepted module.
    Refused,
    /// The file couldn't be read.
    FileFault,
    /// The input couldn't be read.
    ReadFault,
    /// The output couldn't be written.
    WriteFault,
    /// The host's memory ran out.
    Memory,
    /// The program under test trapped.
    Trapped,
    /// The bound on steps was reached.
    Spent,
    /// The simulated memory was full.
    Full,
    /// The tag rule passes the first violation.
    Missed,
    /// The run left the profile.
    Outside,
}

impl Status {
    ghost use Rattle.std.specs.Prelude.{◌≡◌};
    ghost use Rattle.hw_base.specs.Status.{status_number};

    /// The exit status of the process, 0 to 12.
    pub fn number(self) -> u8
        ensures { result ≡ status_number self }
    {
        match self {
            Status::Ended => 0,
            Status::Reported => 1,
            Status::BadWords => 2,
            Status::Refused => 3,
            Status::FileFault => 4,
            Status::ReadFault => 5,
            Status::WriteFault => 6,
            Status::Memory => 7,
            Status::Trapped => 8,
            Status::Spent => 9,
            Status::Full => 10,
            Status::Missed => 11,
            Status::Outside => 12,
        }
    }
}
