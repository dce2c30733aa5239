ghost use Rattle.std.specs.Prelude.{◌≡◌, ℕ, List};
ghost use Rattle.ir_core.specs.declared.refusals.Refusal.{Refusal};
ghost use Rattle.ir_core.specs.declared.ir_module.Module.{Module};
ghost use Rattle.ir_accept.specs.Accepted.{IsAcceptedAs, IsFaulty};

/// The law of accepting. A text that is accepted has one module and isn't refused, and a text that is refused has one fault and one
/// place; so `accept` has one answer to a text, unless memory runs out.
pub fn each_text_has_one_answer()
    ensures one_module { (text : List ℕ) (m n : Module) → IsAcceptedAs text m → IsAcceptedAs text n → m ≡ n }
    ensures never_both { (text : List ℕ) (m : Module) (refusal : Refusal) → IsAcceptedAs text m → IsFaulty text refusal → ⊥ }
    ensures one_fault { (text : List ℕ) (a b : Refusal) → IsFaulty text a → IsFaulty text b → a ≡ b }
{}
