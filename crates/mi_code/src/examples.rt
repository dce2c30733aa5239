ghost use Rattle.ir_core.specs.Examples.{overflows_a_block};
ghost use Rattle.mi_code.specs.ExampleCode.{code_with_one_check};
ghost use Rattle.mi_code.specs.Instrumentation.{instrumented};
ghost use Rattle.std.specs.Prelude.{◌≡◌};

/// The code of a module that writes one byte just past a heap block. One check is added, before the store.
pub fn an_example_of_instrumented_code()
    ensures { instrumented overflows_a_block ≡ code_with_one_check }
{}
