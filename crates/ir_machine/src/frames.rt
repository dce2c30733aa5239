ghost use Rattle.std.specs.Prelude.{◌≡◌, ℕ, ◌+◌, ◌-◌, ◌^◌, ◌<◌, ◌≤◌, All, OnOk, IfOk, Ok, Err, length};
ghost use Rattle.hw_base.specs.declared.endings.Full.{Full as NoRoom};
ghost use Rattle.hw_tags.specs.Words.{coming};
ghost use Rattle.stack_tags.specs.FrameSteps.{StacksAfter, entered};
ghost use Rattle.stack_tags.specs.declared.enter_error.EnterError.{EnterError};
ghost use Rattle.ir_machine.specs.AddressSteps.{alloca_step};
ghost use Rattle.ir_machine.specs.CallSteps.{with_variables};
ghost use Rattle.ir_machine.specs.RunStates.{RunState, HasRoom, IsPlainOutcome, left_at};

use crate::progress::Progress;
use crate::run::Run;
use hw_base::{OutOfMemory, Site, SizeList};
use hw_tags::Words;
use stack_tags::EnterError;

impl Run {
    /// The variables of a frame of a function get their memory and tags, with a chain. After an error the run and the words are as
    /// before.
    pub fn enter_variables(
        &mut self,
        words: &mut Words,
        func: u32,
        sizes: &SizeList,
        chain: u32,
    ) -> Result<(), EnterError>
        requires room { HasRoom self.old.seen.shared }
        requires sizes { All (λ size. size < 2 ^ 64) sizes.now }
        ensures ok { OnOk result ((after : StacksAfter) × (entered self.old.seen.shared.stacks self.old.seen.shared.memory 0 func (coming words.old 0) sizes.now self.old.seen.shared.births chain ≡ Ok after)
            × (self.new ≡ record self.old { seen = record self.old.seen { shared = with_variables self.old.seen.shared after } })) }
        ensures stack { OnOk result (length self.new.seen.shared.stacks.tasks ≡ length self.old.seen.shared.stacks.tasks) }
        ensures drawn { OnOk result ((k : ℕ) → coming words.new k ≡ coming words.old (k + 1)) }
        ensures full { (full : NoRoom) → result ≡ Err (EnterError.Full full)
            → (word : ℕ) → entered self.old.seen.shared.stacks self.old.seen.shared.memory 0 func word sizes.now self.old.seen.shared.births chain ≡ Err full }
        ensures stays { (error : EnterError) → result ≡ Err error → self.new ≡ self.old }
        ensures words_stay { (error : EnterError) → result ≡ Err error → words.new ≡ words.old }
    {
        match self.stacks.enter(&mut self.memory, words, 0, func, sizes, self.births, chain) {
            Ok(_) => {
                self.births += 1;
                self.drawn += 1;
                Ok(())
            }
            Err(error) => Err(error),
        }
    }

    /// The newest frame with variables ends at a site: its memory has the tag 0, and the task goes on at the next instruction.
    pub fn leave(&mut self, site: Site) -> Result<(), OutOfMemory>
        requires task { self.old.seen.task ≡ 0 }
        requires place { self.old.seen.frame.place + 1 < 2 ^ 64 }
        requires chains { length self.old.seen.shared.chains < 2 ^ 32 - 1 }
        ensures state { OnOk result (self.new ≡ record self.old { seen = left_at self.old.seen site }) }
        ensures stack { OnOk result (length self.new.seen.shared.stacks.tasks ≡ length self.old.seen.shared.stacks.tasks) }
    {
        let chain = self.push_chain(site)?;
        self.stacks.leave(&mut self.memory, 0, chain);
        self.go_to(self.place() + 1);
        Ok(())
    }

    /// The address of a variable of the newest frame ("'alloca' Instruction").
    #[tactic(auto, unfolding(crate::specs::AddressSteps::alloca_step))]
    pub fn alloca(&mut self, to: u32, variable: u32) -> Progress
        requires task { self.old.seen.task ≡ 0 }
        requires place { self.old.seen.frame.place + 1 < 2 ^ 64 }
        ensures { IsPlainOutcome (alloca_step self.old.seen to variable) result self.new }
    {
        let number = self.stacks.variable(0, variable);
        self.give(to, number as u128)
    }
}
