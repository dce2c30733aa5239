ghost use Rattle.std.specs.Prelude.{◌≡◌, [], ◌∷◌, Some};
ghost use Rattle.hw_base.specs.declared.accesses.Reason.TheVariants.{IntegerOverPieces};
ghost use Rattle.hw_base.specs.declared.endings.Trap.TheVariants.{ReadOnly};
ghost use Rattle.ir_meaning.specs.SmallPrograms.{adds_in_a_loop, reads_a_piece, copies_a_pointer, prints_a_constant, writes_a_constant, locks_twice};
ghost use Rattle.ir_meaning.specs.State.{Exited, Trapped, Outside};
ghost use Rattle.ir_meaning.specs.Shown.{site, shown_end, shown_spent};

/// Runs of further small programs, shown by evaluation: a loop with phis, a string that is printed, a pointer copied as
/// bytes, an integer read over a piece of a pointer, a write to a constant, and a task that waits for itself until the
/// bound. The function does nothing when it runs.
pub fn small_programs()
    ensures loop_with_phis { shown_end adds_in_a_loop (0 ∷ [])
        ≡ Some (record { ending = Exited 6; step = 14; output = [] }) }
    ensures string { shown_end prints_a_constant (0 ∷ [])
        ≡ Some (record { ending = Exited 0; step = 2; output = 104 ∷ 105 ∷ 10 ∷ [] }) }
    ensures copied_pointer { shown_end copies_a_pointer (0 ∷ [])
        ≡ Some (record { ending = Exited 1; step = 9; output = [] }) }
    ensures piece { shown_end reads_a_piece (0 ∷ [])
        ≡ Some (record {
          ending = Outside IntegerOverPieces 0 (site 0 4 ∷ []);
          step = 5;
          output = [];
        }) }
    ensures constant { shown_end writes_a_constant (0 ∷ [])
        ≡ Some (record { ending = Trapped ReadOnly 0 (site 0 0 ∷ []); step = 1; output = [] }) }
    ensures waits { shown_spent locks_twice (0 ∷ []) ≡ Some 20 }
{}
