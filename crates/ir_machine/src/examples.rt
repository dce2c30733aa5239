ghost use Rattle.hw_base.specs.declared.accesses.Access.TheVariants.{Read, Write};
ghost use Rattle.hw_base.specs.declared.endings.Trap.TheVariants.{DivZero, Unreachable};
ghost use Rattle.hw_shadow.specs.declared.mismatch.Mismatch.TheVariants.{Tags};
ghost use Rattle.ir_core.specs.Examples.{
  returns_zero,
  meets_unreachable,
  divides_by_zero,
  overflows_a_block,
  uses_a_freed_block,
  uses_a_returned_variable,
  writes_before_a_block,
  races_for_a_block,
};
ghost use Rattle.ir_machine.specs.declared.found.Found.TheVariants.{Memory};
ghost use Rattle.ir_machine.specs.Shown.{EndedAfter, SpentAfter, example_run, reported, shown_run};
ghost use Rattle.ir_machine.specs.State.{Exited, Trapped};
ghost use Rattle.std.specs.Prelude.{◌≡◌, ℕ, ◌+◌, ◌*◌, ◌^◌, [], ◌∷◌};

/// A run that exits, one that its bound ends, and two that trap. The trap's chain is the first in the table.
pub fn runs_exit_and_trap()
    ensures exit { example_run returns_zero (0 ∷ []) ≡ EndedAfter [] 1 (Exited 0) }
    ensures bound { shown_run returns_zero (0 ∷ []) (0 ∷ []) [] 0 ≡ SpentAfter [] 0 }
    ensures unreachable { example_run meets_unreachable (0 ∷ []) ≡ EndedAfter [] 1 (Trapped Unreachable 0 1) }
    ensures division { example_run divides_by_zero (0 ∷ []) ≡ EndedAfter [] 1 (Trapped DivZero 0 1) }
{}

/// A write of one byte just past a block of 10 bytes. With the tag word 41 the block's tag is 0x2a, and its one granule is
/// short: the memory tag is 10 and the last byte 0x2a, so that an access that ends at byte 11 fails. With the word 9 the
/// block's tag is 10, which equals the memory tag: the write is missed.
pub fn a_heap_overflow_is_reported()
    ensures reported { example_run overflows_a_block (41 ∷ [])
        ≡ reported [] Write 1 (42 * 2 ^ 56 + 536870922) 0 3 2 (Memory (Tags 536870912 42 10 42 11)) }
    ensures missed { example_run overflows_a_block (9 ∷ []) ≡ EndedAfter [] 4 (Exited 0) }
{}

/// A read of a block of 16 bytes after it was freed. The drawn free tag, for the word 26, is the block's tag 0x2a, so that
/// the memory gets the next one, 0x2b.
pub fn a_use_after_free_is_reported()
    ensures { example_run uses_a_freed_block (41 ∷ 26 ∷ [])
        ≡ reported [] Read 1 (42 * 2 ^ 56 + 536870912) 0 3 3 (Memory (Tags 536870912 42 43 0 1)) }
{}

/// A read of a variable after its function returned, in the frame of another function that has a variable at the same
/// place. With the words 9 and 10 the tags are 0x0a and 0x0b; with the word 9 for both the read is missed.
pub fn a_use_after_return_is_reported()
    ensures reported { example_run uses_a_returned_variable (9 ∷ 10 ∷ [])
        ≡ reported [] Read 1 (10 * 2 ^ 56 + 268435504) 0 6 4 (Memory (Tags 268435504 10 11 0 1)) }
    ensures missed { example_run uses_a_returned_variable (9 ∷ []) ≡ EndedAfter [] 8 (Exited 0) }
{}

/// A write before a block of tag 0x2a, at the first byte of a block of tag 5: 0x2a was written as that block's last byte, so
/// that its granule passes as a short one of 5 bytes.
pub fn a_written_last_byte_hides_an_overflow()
    ensures { example_run writes_before_a_block (4 ∷ 41 ∷ []) ≡ EndedAfter [] 7 (Exited 0) }
{}

/// Two tasks, of which the second frees a block of tag 0x2a that the first one reads. By turn words of 0 the first task goes
/// on: it reads and prints 0, and the run ends with its exit. By turn words of 1 the second task frees the block and
/// finishes, with no word drawn for the steps of a single task, and the read is reported: the memory has the tag 0x2b.
pub fn turn_words_decide_a_race()
    ensures first_task { shown_run races_for_a_block (3 ∷ 41 ∷ 26 ∷ []) (0 ∷ []) [] 20 ≡ EndedAfter (0 ∷ []) 6 (Exited 0) }
    ensures second_task { shown_run races_for_a_block (3 ∷ 41 ∷ 26 ∷ []) (1 ∷ []) [] 20
        ≡ reported [] Read 1 (42 * 2 ^ 56 + 536870912) 0 5 4 (Memory (Tags 536870912 42 43 0 1)) }
{}
