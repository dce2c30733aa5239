ghost use Rattle.ir_resolved.specs.Laws.{FunctionsAreResolved};

/// The law of functions: one in whose body no name has a fault, in a text that makes such a module, has all that a function with
/// its names resolved has. The function does nothing when it runs.
pub fn functions_are_resolved()
    ensures { FunctionsAreResolved }
{}
