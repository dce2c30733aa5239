ghost use Rattle.std.specs.Prelude.{◌≡◌, ℕ, ◌<◌, true, List, length, slice_get, Some};
ghost use Rattle.ir_core.specs.declared.token.Token.{Token};
ghost use Rattle.ir_core.specs.declared.types.TypeLayout.TheVariants.{Loop};
ghost use Rattle.ir_core.specs.Layout.{layout_at, layouts_of};
ghost use Rattle.ir_grammar.specs.declared.spelled.SpelledType.{SpelledType};
ghost use Rattle.ir_grammar.specs.declared.spelled.SpelledType.TheVariants.{Named};
ghost use Rattle.ir_type_numbers.specs.Numbering.{number_at, far_leads, is_no_name, stands_for, module_types, IsLeading};

/// What a name stands for. A type that leads to itself stands for itself. A name that leads to a type, by however many
/// names, stands for what the type in its definition stands for.
pub fn a_name_is_another_word()
    ensures itself { (types : List SpelledType) (leads : List ℕ) (n : ℕ) → n < length types → number_at leads n ≡ n
        → number_at (stands_for types leads) n ≡ n }
    ensures another { (types : List SpelledType) (leads : List ℕ) (n : ℕ) → IsLeading types leads → n < length types
        → is_no_name (slice_get types (number_at (far_leads leads) n)) ≡ true
        → number_at (stands_for types leads) n ≡ number_at (stands_for types leads) (number_at leads n) }
{}

/// A name that stands for itself holds itself.
pub fn a_name_of_no_type_holds_itself()
    ensures { (types : List SpelledType) (leads fields : List ℕ) (n : ℕ) (name : Token) → slice_get types n ≡ Some (Named name)
        → number_at (stands_for types leads) n ≡ n
        → layout_at (layouts_of (module_types types (stands_for types leads)) fields) n ≡ Loop }
{}
