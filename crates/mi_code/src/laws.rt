ghost use Rattle.ir_core.specs.declared.ir_module.Block.{Block};
ghost use Rattle.ir_core.specs.declared.ir_module.Function.{Function};
ghost use Rattle.ir_core.specs.declared.ir_module.Inst.{Inst};
ghost use Rattle.ir_core.specs.declared.ir_module.Module.{Module};
ghost use Rattle.hw_base.specs.declared.pointers.Site.{Site};
ghost use Rattle.mi_code.specs.Instrumentation.{
  code_from,
  code_of_function,
  code_of_instruction,
  instruction_length,
  place_of,
  starts_of,
};
ghost use Rattle.mi_code.specs.TagChecks.{added_code, enter_code};
ghost use Rattle.ir_core.specs.declared.operations.Op.{Op};
ghost use Rattle.std.specs.Prelude.{◌≡◌, ℕ, ◌≤◌, List, ◌∷◌, length, drop, map};

/// The code of a source instruction is as long as its counted length, from an instruction's place on the code is that of
/// the instructions from it on, and each block starts at the place of its first instruction, but the entry block at the
/// first place of all.
pub fn each_instruction_has_its_place()
    ensures length { (m : Module) (f : Function) (site : Site) (inst : Inst)
        → length (code_of_instruction m f site inst) ≡ instruction_length m f.allocas inst }
    ensures place { (m : Module) (f : Function) (func i : ℕ)
        → drop (place_of m f i) (code_of_function m func f).insts ≡ code_from m f func i (drop i f.insts) }
    ensures starts { (m : Module) (f : Function) (entry : Block) (blocks : List Block) → f.blocks ≡ entry ∷ blocks
        → starts_of m f ≡ 0 ∷ map (λ block. place_of m f block.first) blocks }
{}

/// Two instructions at most are added before a source instruction, and one is the entry of a function.
pub fn few_instructions_are_added()
    ensures added { (m : Module) (sizes : List ℕ) (op : Op) → length (added_code m sizes op) ≤ 2 }
    ensures entry { (sizes : List ℕ) → length (enter_code sizes) ≤ 1 }
{}
