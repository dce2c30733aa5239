ghost use Rattle.hw_base.specs.declared.accesses.Access.TheVariants.{Read, Free};
ghost use Rattle.hw_base.specs.declared.accesses.Kind.TheVariants.{BadFree, DoubleFree, GlobalOverflow, HeapOverflow, UseAfterFree};
ghost use Rattle.hw_base.specs.declared.accesses.Reason.TheVariants.{IntegerOverPieces};
ghost use Rattle.ir_core.specs.FurtherExamples.{
  adds_with_overflow,
  compares_the_bytes_of_a_pointer,
  echoes_two_bytes,
  exchanges_twice,
  exits_in_a_task,
  frees_a_global,
  frees_an_inner_pointer,
  frees_null,
  frees_twice,
  goes_far_past_a_block,
  grows_a_block,
  grows_an_inner_pointer,
  joins_a_task,
  keeps_a_block_in_a_variable,
  prints_an_open_string,
  reads_a_new_block,
  reads_an_empty_block,
  switches_on_a_byte,
  unlocks_for_another_task,
};
ghost use Rattle.ir_meaning.specs.Births.{Heap};
ghost use Rattle.ir_meaning.specs.Shown.{site, object_of, pointer_to, shown_end, shown_end_with, shown_news, shown_spent};
ghost use Rattle.ir_meaning.specs.State.{Born, Died, Exited, Outside, Violated};
ghost use Rattle.std.specs.Prelude.{◌≡◌, ◌^◌, Some, [], ◌∷◌};

/// Accesses to blocks and frees of them. A read of a block of no bytes is an overflow, and so is one far past a block.
/// The second free of a block is a double free. The free or `realloc` of an inner pointer, and the free of a global, are
/// bad frees; a free of null does nothing. A free has the size 0.
pub fn blocks_are_checked()
    ensures no_bytes { shown_end reads_an_empty_block (0 ∷ [])
        ≡ Some (record {
          ending = Violated (record {
            kind = HeapOverflow;
            pointer = pointer_to (object_of 0 0) 0;
            size = 1;
            access = Read;
            task = 0;
            chain = site 0 1 ∷ [];
          });
          step = 2;
          output = [];
        }) }
    ensures twice { shown_end frees_twice (0 ∷ [])
        ≡ Some (record {
          ending = Violated (record {
            kind = DoubleFree;
            pointer = pointer_to (object_of 0 0) 0;
            size = 0;
            access = Free;
            task = 0;
            chain = site 0 2 ∷ [];
          });
          step = 3;
          output = [];
        }) }
    ensures inner { shown_end frees_an_inner_pointer (0 ∷ [])
        ≡ Some (record {
          ending = Violated (record {
            kind = BadFree;
            pointer = pointer_to (object_of 0 0) 1;
            size = 0;
            access = Free;
            task = 0;
            chain = site 0 2 ∷ [];
          });
          step = 3;
          output = [];
        }) }
    ensures global { shown_end frees_a_global (0 ∷ [])
        ≡ Some (record {
          ending = Violated (record {
            kind = BadFree;
            pointer = pointer_to (object_of 0 0) 0;
            size = 0;
            access = Free;
            task = 0;
            chain = site 0 0 ∷ [];
          });
          step = 1;
          output = [];
        }) }
    ensures null { shown_end frees_null (0 ∷ [])
        ≡ Some (record { ending = Exited 0; step = 2; output = [] }) }
    ensures inner_of_realloc { shown_end grows_an_inner_pointer (0 ∷ [])
        ≡ Some (record {
          ending = Violated (record {
            kind = BadFree;
            pointer = pointer_to (object_of 0 0) 1;
            size = 0;
            access = Free;
            task = 0;
            chain = site 0 2 ∷ [];
          });
          step = 3;
          output = [];
        }) }
    ensures far_past { shown_end goes_far_past_a_block (0 ∷ [])
        ≡ Some (record {
          ending = Violated (record {
            kind = HeapOverflow;
            pointer = pointer_to (object_of 0 0) (2 ^ 56);
            size = 1;
            access = Read;
            task = 0;
            chain = site 0 2 ∷ [];
          });
          step = 3;
          output = [];
        }) }
{}

/// A new block is zero. `realloc` makes a new block with the bytes of the old one, and then the old one dies: a read of it
/// is a use after free. The bytes of a stored pointer have no numbers, so their comparison leaves the profile. A variable
/// of `main` ends with it.
pub fn blocks_are_zero_and_grow()
    ensures new_block { shown_end reads_a_new_block (0 ∷ [])
        ≡ Some (record { ending = Exited 0; step = 8; output = 0 ∷ [] }) }
    ensures grown { shown_end grows_a_block (0 ∷ [])
        ≡ Some (record {
          ending = Violated (record {
            kind = UseAfterFree;
            pointer = pointer_to (object_of 0 0) 0;
            size = 1;
            access = Read;
            task = 0;
            chain = site 0 6 ∷ [];
          });
          step = 7;
          output = 65 ∷ [];
        }) }
    ensures grown_news { shown_news grows_a_block (0 ∷ [])
        ≡ Born 0 Heap 0 (site 0 0 ∷ []) (4 ∷ [])
        ∷ Born 1 Heap 0 (site 0 2 ∷ []) (20 ∷ [])
        ∷ Died 0 0 (site 0 2 ∷ [])
        ∷ [] }
    ensures compared { shown_end compares_the_bytes_of_a_pointer (0 ∷ [])
        ≡ Some (record {
          ending = Outside IntegerOverPieces 0 (site 0 2 ∷ []);
          step = 3;
          output = [];
        }) }
    ensures variable { shown_end keeps_a_block_in_a_variable (0 ∷ [])
        ≡ Some (record { ending = Exited 0; step = 4; output = [] }) }
{}

/// A string without a 0 is read byte by byte up to the first one past its end, and nothing of it is printed.
pub fn strings_are_checked()
    ensures open_string { shown_end prints_an_open_string (0 ∷ [])
        ≡ Some (record {
          ending = Violated (record {
            kind = GlobalOverflow;
            pointer = pointer_to (object_of 0 0) 2;
            size = 1;
            access = Read;
            task = 0;
            chain = site 0 0 ∷ [];
          });
          step = 1;
          output = [];
        }) }
{}

/// At the end of the input `getchar` gives -1, each time. A switch takes the case of a byte, or the other edge, and the
/// phi its value. An addition of bytes overflows. An exchange stores if it finds what it expects.
pub fn input_and_numbers()
    ensures one_byte { shown_end_with echoes_two_bytes (0 ∷ []) (65 ∷ [])
        ≡ Some (record { ending = Exited 0; step = 5; output = 65 ∷ 255 ∷ [] }) }
    ensures no_byte { shown_end_with echoes_two_bytes (0 ∷ []) []
        ≡ Some (record { ending = Exited 0; step = 5; output = 255 ∷ 255 ∷ [] }) }
    ensures case { shown_end_with switches_on_a_byte (0 ∷ []) (66 ∷ [])
        ≡ Some (record { ending = Exited 0; step = 5; output = 50 ∷ [] }) }
    ensures other { shown_end_with switches_on_a_byte (0 ∷ []) []
        ≡ Some (record { ending = Exited 0; step = 4; output = 48 ∷ [] }) }
    ensures overflow { shown_end adds_with_overflow (0 ∷ [])
        ≡ Some (record { ending = Exited 0; step = 5; output = 128 ∷ [] }) }
    ensures exchange { shown_end exchanges_twice (0 ∷ [])
        ≡ Some (record { ending = Exited 0; step = 12; output = 1 ∷ 0 ∷ 7 ∷ [] }) }
{}

/// A join takes a step more for each turn in which its task waits. A mutex of another task isn't unlocked. `exit` in a
/// task ends the run.
pub fn tasks_wait_and_end()
    ensures join { shown_end joins_a_task (1 ∷ [])
        ≡ Some (record { ending = Exited 0; step = 4; output = [] }) }
    ensures join_waits { shown_end joins_a_task (0 ∷ 1 ∷ [])
        ≡ Some (record { ending = Exited 0; step = 5; output = [] }) }
    ensures join_stays { shown_spent joins_a_task (0 ∷ [])
        ≡ Some 20 }
    ensures unlock { shown_end unlocks_for_another_task (1 ∷ [])
        ≡ Some (record { ending = Exited 0; step = 7; output = 1 ∷ [] }) }
    ensures exit { shown_end exits_in_a_task (1 ∷ [])
        ≡ Some (record { ending = Exited 5; step = 2; output = [] }) }
{}
