ghost use Rattle.std.specs.Prelude.{◌≡◌, ℕ, ◌+◌, ◌<◌, IsOk, IfOk};
ghost use Rattle.hw_tags.specs.TaskRuns.{finished_of};
ghost use Rattle.hw_tags.specs.Turn.{chosen_task, turn_words, unfinished_of};
ghost use Rattle.ir_tasks.specs.TaskFrames.{IsUnfinished, unfinished_count};

use crate::Tasks;
use hw_base::OutOfMemory;
use hw_tags::{Words, WordsSpec};
use std::alloc::Global;
use std::marker::Model;

/// The turn words that are still to come, by which the tasks take turns. Contracts see the words.
#[derive(Drop)]
pub struct Turns {
    words: Words,
}

impl Model for Turns {
    ghost use Rattle.hw_tags.specs.declared.words.Words.{Words};

    ghost Value = { Words };

    ghost view = { λ t. t.words };
}

impl Turns {
    ghost use Rattle.hw_tags.specs.declared.words_spec.WordsSpec.{WordsSpec};
    ghost use Rattle.hw_tags.specs.Word.{word, IsNotEmpty};
    ghost use Rattle.hw_tags.specs.Words.{AreWordsFrom};

    /// All the turn words of a specification. A list is copied, which takes memory; a seed takes none. The only error is that
    /// memory ran out.
    pub fn new(alloc: Global, spec: &WordsSpec) -> Result<Turns, OutOfMemory>
        requires { IsNotEmpty spec.now }
        ensures from_zero { IfOk result (λ turns. AreWordsFrom spec.now 0 turns) }
        ensures seed_takes_no_memory { (seed : ℕ) → spec.now ≡ WordsSpec.Seed seed → IsOk result }
    {
        let words = Words::new(alloc, spec)?;
        Ok(Turns { words })
    }

    /// The number of the task that makes the next step. One must be unfinished; if it is the only one, no word is drawn. It
    /// takes no memory.
    #[inline(always)]
    pub fn pick(&mut self, tasks: &Tasks) -> u32
        requires { 0 < unfinished_count tasks.now }
        ensures task { (spec : WordsSpec) (i : ℕ) → AreWordsFrom spec i self.old
            → result ≡ chosen_task (unfinished_of (finished_of tasks.now)) (word spec i) }
        ensures words { (spec : WordsSpec) (i : ℕ) → AreWordsFrom spec i self.old
            → AreWordsFrom spec (i + turn_words (unfinished_of (finished_of tasks.now))) self.new }
        ensures unfinished { IsUnfinished tasks.now result }
    {
        if tasks.unfinished() == 1 {
            tasks.first_unfinished()
        } else {
            self.draw(tasks)
        }
    }

    /// The task that the next turn word chooses, of two or more that are unfinished.
    #[inline(never)]
    fn draw(&mut self, tasks: &Tasks) -> u32
        requires { 1 < unfinished_count tasks.now }
        ensures task { (spec : WordsSpec) (i : ℕ) → AreWordsFrom spec i self.old
            → result ≡ chosen_task (unfinished_of (finished_of tasks.now)) (word spec i) }
        ensures words { (spec : WordsSpec) (i : ℕ) → AreWordsFrom spec i self.old → AreWordsFrom spec (i + 1) self.new }
        ensures unfinished { IsUnfinished tasks.now result }
    {
        let word = self.words.next();
        tasks.nth_unfinished(u32::from(word) % tasks.unfinished())
    }
}
