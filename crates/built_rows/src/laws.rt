ghost use Rattle.built_rows.specs.Laws.{BuiltCanBeRun};

/// The law of the table: the machine runs all instructions of the code of an accepted module in which nothing is unbuilt, and its
/// globals can be loaded. The function does nothing when it runs.
pub fn built_modules_can_be_run()
    ensures { BuiltCanBeRun }
{}
