ghost use Rattle.well_typed_runs.specs.Laws.{CheckedAreAccepted, RunsAreNeverStuck, WithoutCallocStaysSmall, StatesAreGood, RegistersAreTyped, LastRegistersAreTyped};

/// Laws of the runs of an accepted module, as each is that passed all checks, by the semantics of the source, under any input,
/// turn words and bound: none is stuck; in each state that a run comes to, each frame is at an instruction of its function to which
/// a path leads, and all pointers lead to what was born; and each register that holds a value holds one of its type, an integer, a
/// pointer or a pair, also in the last state of a run that ended. They are about runs in which each object has fewer than 2^64
/// bytes, as in all of a module that doesn't declare `calloc`, since the scan of a string in a larger block can go around for ever.
/// The function does nothing when it runs.
pub fn accepted_modules_run_well()
    ensures accepted { CheckedAreAccepted }
    ensures never_stuck { RunsAreNeverStuck }
    ensures without_calloc { WithoutCallocStaysSmall }
    ensures states { StatesAreGood }
    ensures registers { RegistersAreTyped }
    ensures last_registers { LastRegistersAreTyped }
{}
