ghost use Rattle.hw_base.specs.declared.accesses.Access.TheVariants.{Read, Free};
ghost use Rattle.hw_base.specs.declared.endings.Trap.TheVariants.{ReadOnly};
ghost use Rattle.hw_shadow.specs.declared.mismatch.Mismatch.TheVariants.{Tags};
ghost use Rattle.tag_alloc.specs.declared.blocks.FreeMismatch.{FreeMismatch};
ghost use Rattle.ir_core.specs.FurtherExamples.{
  adds_with_overflow,
  compares_the_bytes_of_a_pointer,
  echoes_two_bytes,
  exchanges_twice,
  exits_in_a_task,
  frees_a_global,
  frees_an_inner_pointer,
  frees_null,
  frees_twice,
  goes_far_past_a_block,
  grows_a_block,
  grows_an_inner_pointer,
  joins_a_task,
  keeps_a_block_in_a_variable,
  locks_twice,
  prints_a_string,
  prints_an_open_string,
  reads_a_new_block,
  reads_an_empty_block,
  switches_on_a_byte,
  unlocks_for_another_task,
  writes_a_constant,
};
ghost use Rattle.ir_machine.specs.declared.found.Found.TheVariants.{Memory, Block};
ghost use Rattle.ir_machine.specs.Shown.{EndedAfter, SpentAfter, example_run, reported, shown_run};
ghost use Rattle.ir_machine.specs.State.{Exited, Trapped};
ghost use Rattle.std.specs.Prelude.{◌≡◌, ℕ, ◌+◌, ◌*◌, ◌^◌, None, [], ◌∷◌};

/// Accesses to blocks and frees of them. A read of a block of no bytes is reported, whatever its tag. The second free of
/// a block, the free or `realloc` of an inner pointer, and the free of a global meet no block; a free of null does
/// nothing. A pointer that goes 2 ^ 56 bytes further has another tag.
pub fn blocks_are_checked()
    ensures no_bytes { example_run reads_an_empty_block (41 ∷ [])
        ≡ reported [] Read 1 (42 * 2 ^ 56 + 536870912) 0 2 2 (Memory (Tags 536870912 42 0 0 1)) }
    ensures twice { example_run frees_twice (41 ∷ 0 ∷ [])
        ≡ reported [] Free 0 (42 * 2 ^ 56 + 536870912) 0 3 3 (Block (record { pointer = 42; block = None })) }
    ensures inner { example_run frees_an_inner_pointer (41 ∷ [])
        ≡ reported [] Free 0 (42 * 2 ^ 56 + 536870913) 0 3 2 (Block (record { pointer = 42; block = None })) }
    ensures global { example_run frees_a_global (41 ∷ [])
        ≡ reported [] Free 0 (57 * 2 ^ 56 + 65536) 0 1 1 (Block (record { pointer = 57; block = None })) }
    ensures null { example_run frees_null (41 ∷ [])
        ≡ EndedAfter [] 2 (Exited 0) }
    ensures inner_of_realloc { example_run grows_an_inner_pointer (41 ∷ [])
        ≡ reported [] Free 0 (42 * 2 ^ 56 + 536870913) 0 3 2 (Block (record { pointer = 42; block = None })) }
    ensures another_tag { example_run goes_far_past_a_block (41 ∷ [])
        ≡ reported [] Read 1 (43 * 2 ^ 56 + 536870912) 0 3 2 (Memory (Tags 536870912 43 42 0 1)) }
{}

/// A new block is zero where another one was. `realloc` copies the old block's bytes and frees it: a read of it is
/// reported. The bytes of a stored pointer are compared as numbers. A variable of `main` ends with it.
pub fn blocks_are_zero_and_grow()
    ensures new_block { example_run reads_a_new_block (41 ∷ [])
        ≡ EndedAfter (0 ∷ []) 8 (Exited 0) }
    ensures grown { example_run grows_a_block (41 ∷ 9 ∷ 0 ∷ [])
        ≡ reported (65 ∷ []) Read 1 (42 * 2 ^ 56 + 536870912) 0 7 3 (Memory (Tags 536870912 42 16 42 1)) }
    ensures compared { example_run compares_the_bytes_of_a_pointer (41 ∷ [])
        ≡ EndedAfter (0 ∷ []) 5 (Exited 0) }
    ensures variable { example_run keeps_a_block_in_a_variable (41 ∷ [])
        ≡ EndedAfter [] 4 (Exited 0) }
{}

/// A write to a constant traps. A string is printed with a line feed; one without a 0 is checked up to the first byte
/// past its end.
pub fn constants_and_strings()
    ensures constant { example_run writes_a_constant (3 ∷ [])
        ≡ EndedAfter [] 1 (Trapped ReadOnly 0 1) }
    ensures string { example_run prints_a_string (3 ∷ [])
        ≡ EndedAfter (104 ∷ 105 ∷ 10 ∷ []) 2 (Exited 0) }
    ensures open_string { example_run prints_an_open_string (3 ∷ [])
        ≡ reported [] Read 1 (19 * 2 ^ 56 + 65538) 0 1 1 (Memory (Tags 65536 19 2 19 3)) }
{}

/// At the end of the input `getchar` gives -1, each time. A switch takes the case of a byte, or the other edge, and the
/// phi its value. An addition of bytes overflows. An exchange stores if it finds what it expects.
pub fn input_and_numbers()
    ensures one_byte { shown_run echoes_two_bytes (0 ∷ []) (0 ∷ []) (65 ∷ []) 20
        ≡ EndedAfter (65 ∷ 255 ∷ []) 5 (Exited 0) }
    ensures no_byte { shown_run echoes_two_bytes (0 ∷ []) (0 ∷ []) [] 20
        ≡ EndedAfter (255 ∷ 255 ∷ []) 5 (Exited 0) }
    ensures case { shown_run switches_on_a_byte (0 ∷ []) (0 ∷ []) (66 ∷ []) 20
        ≡ EndedAfter (50 ∷ []) 5 (Exited 0) }
    ensures other { shown_run switches_on_a_byte (0 ∷ []) (0 ∷ []) [] 20
        ≡ EndedAfter (48 ∷ []) 4 (Exited 0) }
    ensures overflow { example_run adds_with_overflow (0 ∷ [])
        ≡ EndedAfter (128 ∷ []) 5 (Exited 0) }
    ensures exchange { example_run exchanges_twice (41 ∷ [])
        ≡ EndedAfter (1 ∷ 0 ∷ 7 ∷ []) 12 (Exited 0) }
{}

/// A join takes a step more for each turn in which its task waits. A mutex of another task isn't unlocked, and a held one
/// isn't locked again. `exit` in a task ends the run.
pub fn tasks_wait_and_end()
    ensures join { shown_run joins_a_task (0 ∷ []) (1 ∷ []) [] 20
        ≡ EndedAfter [] 4 (Exited 0) }
    ensures join_waits { shown_run joins_a_task (0 ∷ []) (0 ∷ 1 ∷ []) [] 20
        ≡ EndedAfter [] 5 (Exited 0) }
    ensures join_stays { shown_run joins_a_task (0 ∷ []) (0 ∷ []) [] 5
        ≡ SpentAfter [] 5 }
    ensures unlock { shown_run unlocks_for_another_task (0 ∷ []) (1 ∷ []) [] 20
        ≡ EndedAfter (1 ∷ []) 7 (Exited 0) }
    ensures lock { shown_run locks_twice (0 ∷ []) (0 ∷ []) [] 4
        ≡ SpentAfter [] 4 }
    ensures exit { shown_run exits_in_a_task (0 ∷ []) (1 ∷ []) [] 20
        ≡ EndedAfter [] 2 (Exited 5) }
{}
