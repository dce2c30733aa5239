ghost use Rattle.std.specs.Prelude.{◌≡◌, ℕ, List, Option};
ghost use Rattle.ir_core.specs.declared.lib_functions.Lib.{Lib};
ghost use Rattle.ir_core.specs.Externals.{IsExternal, IsThere, lib_name};

/// The law of names of functions. Two functions with one name are one, and a name means one function, or none.
pub fn each_function_has_its_own_name()
    ensures names { (f g : Lib) → IsThere f → IsThere g → lib_name f ≡ lib_name g → f ≡ g }
    ensures meanings { (name : List ℕ) (a b : Option Lib) → IsExternal name a → IsExternal name b → a ≡ b }
{}
