ghost use Rattle.std.specs.Prelude.{◌≡◌, ◌≢◌, ℕ, ◌+◌, ◌/◌, ◌^◌, ◌<◌, List, [], ◌∷◌, Some};
ghost use Rattle.hw_base.specs.declared.pointers.Base.{Base};
ghost use Rattle.hw_tags.specs.TaskRuns.{Next, Last, Spent, Ended, resumed};
ghost use Rattle.ir_core.specs.declared.ir_module.Module.{Module};
ghost use Rattle.ir_meaning.specs.Values.{Address};
ghost use Rattle.ir_meaning.specs.Births.{Birth, put_bytes};
ghost use Rattle.ir_meaning.specs.BirthChanges.{BirthsChange, KeepsDead, OnlyGrow, HaveTheirBytes, bare, after_news, all_news};
ghost use Rattle.ir_meaning.specs.Encoding.{int_from, pointer_from, number_bytes, pointer_bytes};
ghost use Rattle.ir_meaning.specs.Runs.{step_under, source_world_step, source_run_from, source_run};
ghost use Rattle.ir_meaning.specs.Start.{source_start};
ghost use Rattle.ir_meaning.specs.Strings.{NotEnded, base_size, string_at};
ghost use Rattle.ir_meaning.specs.State.{News, SourceEnding, SourceReport, SourceWorld, nothing_happened};

/// Laws of the encoding of values: an integer and a pointer read back what was written. The function does nothing when
/// it runs.
pub fn what_was_written_is_read()
    ensures integer { (width n : ℕ) → n < 2 ^ width
        → int_from width (number_bytes ((width + 7) / 8) n) ≡ Some n }
    ensures pointer { (base : Base) (off : ℕ) → off < 2 ^ 64
        → pointer_from (pointer_bytes base off) ≡ Some (Address base off) }
{}

/// Laws of runs under bounds: a run that ended other than by its bound stays so under a greater bound, and a run of
/// n + m steps is a run of m steps after one of n. The function does nothing when it runs.
pub fn runs_under_bounds()
    ensures ended { (program : Module) (input : List ℕ) (turns : ℕ → ℕ) (n m : ℕ)
        (last : SourceWorld) (reports : List SourceReport) (ending : SourceEnding)
        → source_run program input turns n ≡ Ended last reports ending
        → source_run program input turns (n + m) ≡ Ended last reports ending }
    ensures ended_from { (program : Module) (input : List ℕ) (turns : ℕ → ℕ) (n m : ℕ)
        (w last : SourceWorld) (reports : List SourceReport) (ending : SourceEnding)
        → source_run_from program input turns n w ≡ Ended last reports ending
        → source_run_from program input turns (n + m) w ≡ Ended last reports ending }
    ensures sum { (program : Module) (input : List ℕ) (turns : ℕ → ℕ) (n m : ℕ) (w : SourceWorld)
        → source_run_from program input turns (n + m) w
        ≡ resumed (step_under program input) nothing_happened turns m (source_run_from program input turns n w) }
{}

/// What a step of the run, and a run, may do to births: bytes are written, births come, and births end, and the reports
/// say so. The function does nothing when it runs.
pub fn what_steps_do_to_births()
    ensures step { (program : Module) (input : List ℕ) (turns : ℕ → ℕ) (w next : SourceWorld) (report : SourceReport)
        → source_world_step program input turns w ≡ Next next report
        → BirthsChange w.shared.births next.shared.births report.news }
    ensures last_step { (program : Module) (input : List ℕ) (turns : ℕ → ℕ) (w last : SourceWorld) (report : SourceReport)
        (ending : SourceEnding)
        → source_world_step program input turns w ≡ Last last report ending
        → BirthsChange w.shared.births last.shared.births report.news }
    ensures run { (program : Module) (input : List ℕ) (turns : ℕ → ℕ) (n : ℕ) (w last : SourceWorld)
        (reports : List SourceReport)
        → source_run_from program input turns n w ≡ Spent last reports
        → BirthsChange w.shared.births last.shared.births (all_news reports) }
    ensures run_that_ended { (program : Module) (input : List ℕ) (turns : ℕ → ℕ) (n : ℕ) (w last : SourceWorld)
        (reports : List SourceReport) (ending : SourceEnding)
        → source_run_from program input turns n w ≡ Ended last reports ending
        → BirthsChange w.shared.births last.shared.births (all_news reports) }
{}

/// What this means for births: what is dead stays as it is; births only grow, and each keeps its region, task, chain and
/// sizes; a living object has as many bytes as its size, and a dead one has none; and but for bytes the births are what
/// the news say. The function does nothing when it runs.
pub fn what_changes_keep()
    ensures dead { (before after : List Birth) (news : List News) → BirthsChange before after news → KeepsDead before after }
    ensures grow { (before after : List Birth) (news : List News) → BirthsChange before after news → OnlyGrow before after }
    ensures bytes { (before after : List Birth) (news : List News) → BirthsChange before after news
        → HaveTheirBytes before → HaveTheirBytes after }
    ensures news { (before after : List Birth) (news : List News) → BirthsChange before after news
        → bare after ≡ after_news (bare before) news }
    ensures nothing_written { (births : List Birth) (base : Base) (off : ℕ) → put_bytes births base off [] ≡ births }
{}

/// At the start of a run each object has as many bytes as its size. The function does nothing when it runs.
pub fn births_at_the_start()
    ensures { (program : Module) (w : SourceWorld) (report : SourceReport) → source_start program ≡ Next w report
        → HaveTheirBytes w.shared.births }
{}

/// The scan of a string ends, for a pointer into an object of fewer than 2^64 bytes: it finds a 0 byte, the access to a byte
/// is refused, or it meets a piece of a pointer. The function does nothing when it runs.
pub fn scans_of_strings_end()
    ensures { (births : List Birth) (base : Base) (off : ℕ) → HaveTheirBytes births
        → base_size births base < 2 ^ 64 → string_at births base off ≢ NotEnded }
{}
