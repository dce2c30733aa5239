ghost use Rattle.std.specs.Prelude.{◌≡◌, ◌↔◌, ℕ, ◌<◌, List, [], length, All, Contains, Some, None, IfSome, false};
ghost use Rattle.ir_core.specs.declared.token.Token.{Token};
ghost use Rattle.ir_grammar.specs.declared.spelled.SpelledItem.{SpelledItem};
ghost use Rattle.ir_grammar.specs.Spelled.{Store};
ghost use Rattle.ir_grammar.specs.SoundStore.{counts_of, IsSoundItem};
ghost use Rattle.ir_names.specs.declared.fault.NameFault.{NameFault};
ghost use Rattle.ir_names.specs.First.{first_fault, is_before};
ghost use Rattle.ir_names.specs.Keys.{type_key, global_key, item_key, item_keys, meant};
ghost use Rattle.ir_names.specs.Meanings.{leads_of, variables_of};
ghost use Rattle.ir_text.specs.Names.{name_key};
ghost use Rattle.ir_names.specs.OneName.{IsOneName};
ghost use Rattle.ir_names.specs.Sets.{DefinesType, DefinesGlobal, variables_in};

/// The first fault is one of the faults, none of them comes before it, and there is one wherever there are faults.
pub fn the_first_fault_is_before_all_others()
    ensures among { (faults : List NameFault) (fault : NameFault) → first_fault faults ≡ Some fault → Contains faults fault }
    ensures first { (faults : List NameFault) (fault : NameFault) → first_fault faults ≡ Some fault → All (λ other. is_before other fault ≡ false) faults }
    ensures none { (faults : List NameFault) → first_fault faults ≡ None → faults ≡ [] }
{}

/// An item that a key means has this key, so a type's name means only a type, and a global's name only a global variable or
/// a function.
pub fn a_name_means_what_has_it()
    ensures key { (source key : List ℕ) (items : List SpelledItem) (item : SpelledItem) → meant (item_keys source items) items key ≡ Some item → item_key source item ≡ key }
    ensures types { (source : List ℕ) (items : List SpelledItem) (token : Token) (item : SpelledItem) → meant (item_keys source items) items (type_key source token) ≡ Some item → DefinesType item }
    ensures globals { (source : List ℕ) (items : List SpelledItem) (token : Token) (item : SpelledItem) → meant (item_keys source items) items (global_key source token) ≡ Some item → DefinesGlobal item }
{}

/// What names stand for is there, for items whose own numbers name what is there: one type a spelled type, and one number of
/// a variable, or none, a constant.
pub fn what_names_stand_for_is_there()
    ensures one_a_type { (source : List ℕ) (items : List SpelledItem) (store : Store) → length (leads_of source items store) ≡ length store.types }
    ensures leads { (source : List ℕ) (items : List SpelledItem) (store : Store) → All (IsSoundItem (counts_of store)) items
        → All (λ n. n < length store.types) (leads_of source items store) }
    ensures one_a_constant { (source : List ℕ) (items : List SpelledItem) (store : Store) → length (variables_of source items store) ≡ length store.constants }
    ensures variables { (source : List ℕ) (items : List SpelledItem) (store : Store)
        → All (λ v. IfSome v (λ n. n < length (variables_in items))) (variables_of source items store) }
{}

/// Two names in one set have one key exactly if they are one name.
pub fn one_name_has_one_key()
    ensures { (name other : List ℕ) → (name_key name ≡ name_key other) ↔ IsOneName name other }
{}
