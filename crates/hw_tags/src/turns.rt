ghost use Rattle.std.specs.Prelude.{◌≡◌, ℕ, ◌<◌, Bool, false, List, [], ◌∷◌, length, slice_get, Some, Contains};
ghost use Rattle.hw_tags.specs.Turn.{chosen_task, turn_words, unfinished_of};

/// Laws of the choice of the next task: it is one of the unfinished tasks, a single task is chosen whatever the turn
/// word, and it alone draws none. The function does nothing when it runs.
pub fn next_task_is_unfinished()
    ensures unfinished { (tasks : List ℕ) (x : ℕ) → 0 < length tasks
        → Contains tasks (chosen_task tasks x) }
    ensures single { (task x : ℕ) → chosen_task (task ∷ []) x ≡ task }
    ensures no_word { (task : ℕ) → turn_words (task ∷ []) ≡ 0 }
    ensures one_word { (tasks : List ℕ) → 1 < length tasks → turn_words tasks ≡ 1 }
{}

/// The list of unfinished tasks has the number of each task that isn't finished, and no other number. The function does
/// nothing when it runs.
pub fn unfinished_tasks_are_listed()
    ensures each { (finished : List Bool) (k : ℕ) → slice_get finished k ≡ Some false
        → (i : ℕ) × (slice_get (unfinished_of finished) i ≡ Some k) }
    ensures only { (finished : List Bool) (k i : ℕ) → slice_get (unfinished_of finished) i ≡ Some k
        → slice_get finished k ≡ Some false }
{}
