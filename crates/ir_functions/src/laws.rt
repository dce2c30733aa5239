ghost use Rattle.std.specs.Prelude.{◌≡◌, ℕ, ◌<◌, ◌^◌, length};
ghost use Rattle.ir_core.specs.declared.ir_module.Module.{Module};
ghost use Rattle.ir_core.specs.Resolved.{HasLayouts};
ghost use Rattle.ir_core.specs.ResolvedBodies.{HasRegisters, HasVariables};
ghost use Rattle.ir_first_values.specs.Tables.{Tables};
ghost use Rattle.ir_body_names.specs.BodyFaults.{Surroundings};
ghost use Rattle.ir_functions.specs.Functions.{Spelled, scope_of, function_of};
ghost use Rattle.ir_functions.specs.Promises.{HasTypes};

/// A function with its names resolved has the registers and the variables that it should have, in a module with these types:
/// each register after the parameters is the result of just one instruction, has the type of its value, and each value has one;
/// each variable has its size, and they are numbered in order of the text.
pub fn functions_have_registers_and_variables()
    ensures registers { (names : Surroundings) (tables : Tables) (built m : Module) (f : Spelled) → HasTypes (scope_of names tables built f) m
        → length (function_of names tables built f).regs < 2 ^ 30 → HasRegisters m (function_of names tables built f) }
    ensures variables { (names : Surroundings) (tables : Tables) (built m : Module) (f : Spelled) → HasLayouts built → m.types ≡ built.types → m.fields ≡ built.fields
        → HasVariables m (function_of names tables built f) }
{}
