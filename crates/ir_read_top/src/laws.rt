ghost use Rattle.std.specs.Prelude.{◌≡◌, ℕ, List};
ghost use Rattle.ir_core.specs.declared.refusals.Refusal.{Refusal};
ghost use Rattle.ir_core.specs.declared.ir_module.Module.{Module};
ghost use Rattle.ir_read_top.specs.Texts.{IsAccepted, IsFaultOf};

/// The law of texts. A text that is accepted isn't refused, and a text that is refused has one fault and one place; so
/// `read` accepts exactly the texts that are accepted, unless memory runs out.
pub fn each_text_has_one_answer()
    ensures never_both { (text : List ℕ) (m : Module) (refusal : Refusal) → IsAccepted text m → IsFaultOf text refusal → ⊥ }
    ensures one_fault { (text : List ℕ) (a b : Refusal) → IsFaultOf text a → IsFaultOf text b → a ≡ b }
{}
