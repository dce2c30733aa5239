ghost use Rattle.std.specs.Prelude.{◌≡◌, ◌-◌, ◌^◌, true, false, [], ◌∷◌, Some};
ghost use Rattle.hw_base.specs.declared.accesses.Access.TheVariants.{Read, Write, Free};
ghost use Rattle.hw_base.specs.declared.accesses.Kind.TheVariants.{NoObject, DoubleFree, BadFree, UseAfterFree};
ghost use Rattle.ir_core.specs.Examples.{uses_a_freed_block, races_for_a_block};
ghost use Rattle.ir_meaning.specs.AccessRule.{Fine, Violates, WritesConstant, OnNull, OnObject, access_rule};
ghost use Rattle.ir_meaning.specs.Births.{Dead, Globals, Stack, Heap};
ghost use Rattle.ir_meaning.specs.SmallPrograms.{keeps_a_block, reads_twice};
ghost use Rattle.ir_meaning.specs.Shown.{site, object_of, shown_bytes, shown_end, shown_end_with, shown_input, shown_life, shown_news, shown_turns};
ghost use Rattle.ir_meaning.specs.State.{Exited, Born, Died};

/// The last state of a run is the one after its last step, shown by evaluation: the variables of `main` are dead and
/// without bytes after its `ret`, and the death is in the news; a block that only they led to lives on. At an end with two
/// tasks the turn word of the last step is counted. A block that was freed has no bytes. The function does nothing when it
/// runs.
pub fn states_after_the_last_step()
    ensures exit { shown_end keeps_a_block (0 ∷ []) ≡ Some (record { ending = Exited 0; step = 5; output = [] }) }
    ensures variable_died { shown_life keeps_a_block (0 ∷ []) (object_of 0 0) ≡ Some (Dead 0 (site 0 4 ∷ [])) }
    ensures variable_without_bytes { shown_bytes keeps_a_block (0 ∷ []) (object_of 0 0) ≡ Some 0 }
    ensures block_lives_on { shown_bytes keeps_a_block (0 ∷ []) (object_of 1 0) ≡ Some 1 }
    ensures news { shown_news keeps_a_block (0 ∷ [])
        ≡ Born 0 (Stack 0) 0 [] (8 ∷ 8 ∷ [])
        ∷ Born 1 Heap 0 (site 0 2 ∷ []) (1 ∷ [])
        ∷ Died 0 0 (site 0 4 ∷ [])
        ∷ [] }
    ensures turn_words { shown_turns races_for_a_block (0 ∷ []) ≡ Some 4 }
    ensures turn_words_at_a_violation { shown_turns races_for_a_block (1 ∷ []) ≡ Some 2 }
    ensures freed_block_without_bytes { shown_bytes uses_a_freed_block (0 ∷ []) (object_of 0 0) ≡ Some 0 }
{}

/// Input shown by evaluation: the second `getchar` meets the end of an input of one byte, and of the empty input the first
/// one meets the end, after which no more is read. The function does nothing when it runs.
pub fn end_of_the_input()
    ensures second { shown_end_with reads_twice (0 ∷ []) (65 ∷ [])
        ≡ Some (record { ending = Exited (2 ^ 32 - 1); step = 3; output = [] }) }
    ensures taken { shown_input reads_twice (0 ∷ []) (65 ∷ []) ≡ Some (record { taken = 1; at_end = true }) }
    ensures both { shown_input reads_twice (0 ∷ []) (65 ∷ 66 ∷ []) ≡ Some (record { taken = 2; at_end = false }) }
    ensures none { shown_input reads_twice (0 ∷ []) [] ≡ Some (record { taken = 0; at_end = true }) }
{}

/// The access rule for frees, beside reads and writes, shown by evaluation. The function does nothing when it runs.
pub fn frees_by_the_access_rule()
    ensures null { access_rule Free OnNull 0 0 1 ≡ Fine }
    ensures null_with_an_offset { access_rule Free OnNull 5 0 1 ≡ Violates BadFree }
    ensures living { access_rule Free (OnObject (record { region = Heap; size = 16; constant = false; living = true })) 0 0 1 ≡ Fine }
    ensures dead { access_rule Free (OnObject (record { region = Heap; size = 16; constant = false; living = false })) 0 0 1
        ≡ Violates DoubleFree }
    ensures inner { access_rule Free (OnObject (record { region = Heap; size = 16; constant = false; living = true })) 1 0 1
        ≡ Violates BadFree }
    ensures global { access_rule Free (OnObject (record { region = Globals; size = 16; constant = true; living = true })) 0 0 1
        ≡ Violates BadFree }
    ensures read_of_nothing { access_rule Read OnNull 3 0 2 ≡ Fine }
    ensures read_of_null { access_rule Read OnNull 0 1 1 ≡ Violates NoObject }
    ensures read_of_the_dead { access_rule Read (OnObject (record { region = Heap; size = 16; constant = false; living = false })) 0 1 1
        ≡ Violates UseAfterFree }
    ensures write_to_a_constant { access_rule Write (OnObject (record { region = Globals; size = 16; constant = true; living = true })) 15 1 1
        ≡ WritesConstant }
{}
