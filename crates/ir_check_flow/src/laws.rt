ghost use Rattle.ir_check_flow.specs.Checked.{AcceptedCanBeRun};

/// Does nothing: it says that a module whose names are resolved, in which no rule of types or flow is broken and no limit is
/// exceeded has all that a run needs.
pub fn accepted_modules_can_be_run()
    ensures { AcceptedCanBeRun }
{}
