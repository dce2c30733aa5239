ghost use Rattle.ir_check_types.specs.Passed.{InstructionsCanBeRun};

/// Does nothing: it says that in a module whose names are resolved, and in which no type rule is broken, each instruction is
/// one that a run can take: accesses are of integers and pointers at alignments that are powers of two, atomic ones of 8, 16, 32
/// or 64 bits, calls have as many arguments as parameters, and tasks start with functions that take a pointer and return one.
pub fn passed_instructions_can_be_run()
    ensures { InstructionsCanBeRun }
{}
