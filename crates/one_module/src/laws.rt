ghost use Rattle.std.specs.Prelude.{◌≡◌, ℕ, List};
ghost use Rattle.ir_core.specs.declared.ir_module.Module.{Module};
ghost use Rattle.ir_read_top.specs.Texts.{IsAccepted};

/// The law of modules. Two modules of one text that is accepted are equal, so `ir_read_top::read` has one answer to a text, unless
/// memory runs out.
pub fn a_text_has_one_module()
    ensures { (text : List ℕ) (m n : Module) → IsAccepted text m → IsAccepted text n → m ≡ n }
{}
