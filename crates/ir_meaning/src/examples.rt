ghost use Rattle.std.specs.Prelude.{◌≡◌, ◌-◌, ◌^◌, List, [], ◌∷◌, Some};
ghost use Rattle.hw_base.specs.declared.accesses.Access.TheVariants.{Read, Write};
ghost use Rattle.hw_base.specs.declared.accesses.Kind.TheVariants.{HeapOverflow, UseAfterFree, UseAfterReturn};
ghost use Rattle.hw_base.specs.declared.endings.Trap.TheVariants.{DivZero, Unreachable};
ghost use Rattle.ir_core.specs.Examples.{returns_zero, meets_unreachable, divides_by_zero, overflows_a_block, uses_a_freed_block, uses_a_returned_variable, writes_before_a_block, races_for_a_block};
ghost use Rattle.ir_meaning.specs.Births.{Dead};
ghost use Rattle.ir_meaning.specs.State.{Exited, Trapped, Violated};
ghost use Rattle.ir_meaning.specs.Shown.{site, object_of, pointer_to, shown_end, shown_life};

/// Runs that end without a violation, shown by evaluation: an exit with a value, and traps with the chain of the
/// instruction. The function does nothing when it runs.
pub fn exits_and_traps()
    ensures exit { shown_end returns_zero (0 ∷ [])
        ≡ Some (record { ending = Exited 0; step = 1; output = [] }) }
    ensures unreachable { shown_end meets_unreachable (0 ∷ [])
        ≡ Some (record { ending = Trapped Unreachable 0 (site 0 0 ∷ []); step = 1; output = [] }) }
    ensures division_by_zero { shown_end divides_by_zero (0 ∷ [])
        ≡ Some (record { ending = Trapped DivZero 0 (site 0 0 ∷ []); step = 1; output = [] }) }
{}

/// The first violation of a run, shown by evaluation: a write behind a block, a read of a freed block, a read of a
/// variable whose function has returned, and a write before a block. Each has its chain of sites, innermost first, and
/// what is dead has the chain of its death. The function does nothing when it runs.
pub fn violations()
    ensures heap_overflow { shown_end overflows_a_block (0 ∷ [])
        ≡ Some (record {
          ending = Violated (record {
            kind = HeapOverflow;
            pointer = pointer_to (object_of 0 0) 10;
            size = 1;
            access = Write;
            task = 0;
            chain = site 0 2 ∷ [];
          });
          step = 3;
          output = [];
        }) }
    ensures use_after_free { shown_end uses_a_freed_block (0 ∷ [])
        ≡ Some (record {
          ending = Violated (record {
            kind = UseAfterFree;
            pointer = pointer_to (object_of 0 0) 0;
            size = 1;
            access = Read;
            task = 0;
            chain = site 0 2 ∷ [];
          });
          step = 3;
          output = [];
        }) }
    ensures block_died { shown_life uses_a_freed_block (0 ∷ []) (object_of 0 0)
        ≡ Some (Dead 0 (site 0 1 ∷ [])) }
    ensures use_after_return { shown_end uses_a_returned_variable (0 ∷ [])
        ≡ Some (record {
          ending = Violated (record {
            kind = UseAfterReturn;
            pointer = pointer_to (object_of 0 0) 0;
            size = 1;
            access = Read;
            task = 0;
            chain = site 1 1 ∷ site 2 1 ∷ [];
          });
          step = 6;
          output = [];
        }) }
    ensures variable_died { shown_life uses_a_returned_variable (0 ∷ []) (object_of 0 0)
        ≡ Some (Dead 0 (site 0 1 ∷ site 2 0 ∷ [])) }
    ensures write_before_a_block { shown_end writes_before_a_block (0 ∷ [])
        ≡ Some (record {
          ending = Violated (record {
            kind = HeapOverflow;
            pointer = pointer_to (object_of 1 0) (2 ^ 64 - 16);
            size = 1;
            access = Write;
            task = 0;
            chain = site 0 5 ∷ [];
          });
          step = 6;
          output = [];
        }) }
{}

/// Two tasks, of which one frees a block that the other one reads, in both orders, shown by evaluation: with turn words
/// 0 the reader goes first and prints what it read, with turn words 1 the block is freed before it is read. The
/// function does nothing when it runs.
pub fn turns_of_two_tasks()
    ensures reader_first { shown_end races_for_a_block (0 ∷ [])
        ≡ Some (record { ending = Exited 0; step = 6; output = 0 ∷ [] }) }
    ensures freed_first { shown_end races_for_a_block (1 ∷ [])
        ≡ Some (record {
          ending = Violated (record {
            kind = UseAfterFree;
            pointer = pointer_to (object_of 1 0) 0;
            size = 1;
            access = Read;
            task = 0;
            chain = site 1 2 ∷ [];
          });
          step = 5;
          output = [];
        }) }
    ensures freed_by_the_other_task { shown_life races_for_a_block (1 ∷ []) (object_of 1 0)
        ≡ Some (Dead 1 (site 0 0 ∷ site 1 1 ∷ [])) }
{}
