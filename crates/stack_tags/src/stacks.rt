ghost use Rattle.std.specs.Prelude.{◌≡◌, ℕ, ◌+◌, ◌^◌, ◌<◌, ◌≤◌, All, length, IfOk, OnOk, OnErr, Ok, Err, is_ok, true, option_map, slice_get};
ghost use Rattle.hw_base.specs.declared.endings.Full.{Full};
ghost use Rattle.hw_base.specs.declared.numbers.TheConstants.{MOST_TASKS};
ghost use Rattle.hw_base.specs.AddressMap.{program_map};
ghost use Rattle.hw_tags.specs.Words.{coming};
ghost use Rattle.stack_tags.specs.declared.enter_error.EnterError.{EnterError};
ghost use Rattle.stack_tags.specs.Frames.{stacks_at_start, with_task, frames_of, top_of_stack, variable_number};
ghost use Rattle.stack_tags.specs.FrameSteps.{entered, left};

use crate::task_stack::TaskStack;
use crate::{EnterError, FrameRecord};
use hw_base::{OutOfMemory, STACK_LENGTH, STACKS_AT, SizeList};
use hw_tags::Words;
use std::alloc::Global;
use std::marker::Model;
use tbi_memory::Memory;

/// The frames with variables of all tasks. Contracts see the definitions' stacks. A task is named by its number, counted from
/// 0 in order of start.
#[derive(Drop)]
pub struct Stacks {
    tasks: Vec<TaskStack>,
    ring: u32,
    alloc: Global,
}

impl Model for Stacks {
    ghost use Rattle.stack_tags.specs.Frames.{StacksState};
    ghost use Rattle.stack_tags.specs.KeptFrames.{stacks_of, AreTaskStacks};

    ghost Value = { StacksState };

    ghost view = { λ s. stacks_of s.tasks.items s.ring };

    ghost invariant = { λ s. AreTaskStacks s.tasks.items s.ring };
}

impl Stacks {
    /// Stacks of no task, each of which will remember the last `ring` of its ended frames, 1 to 2^32 - 1. It takes no memory.
    pub fn new(alloc: Global, ring: u32) -> Stacks
        requires { 1 ≤ ring }
        ensures { (heap : ℕ) → result ≡ stacks_at_start (program_map heap) ring }
    {
        Stacks {
            tasks: Vec::new(alloc),
            ring,
            alloc,
        }
    }

    /// One more task, without frames. Room for the ended frames that it will remember is taken here. The only error is that
    /// memory ran out, after which the stacks are as before.
    pub fn add_task(&mut self) -> Result<(), OutOfMemory>
        requires { length self.old.tasks < MOST_TASKS }
        ensures ok { OnOk result (self.new ≡ with_task self.old) }
        ensures err { OnErr result (self.new ≡ self.old) }
    {
        let end = STACKS_AT + (self.tasks.len() as u64 + 1) * STACK_LENGTH;
        let task = match TaskStack::new(self.alloc, end, self.ring) {
            Ok(task) => task,
            Err(error) => return Err(error),
        };
        match self.tasks.push(task) {
            Ok(()) => Ok(()),
            Err(_) => Err(OutOfMemory),
        }
    }

    /// A task enters a frame of a function, with variables of these sizes in bytes, each below 2^64: they are zero, and have
    /// tags of the next word, which is drawn. `birth` is the number of its birth and `born` the chain of sites of the call. The
    /// result is the frame's lowest address, without a tag. It fails if the task's stack has no room, or else if memory runs
    /// out. After an error stacks, memory and words are as before.
    pub fn enter(
        &mut self,
        mem: &mut Memory,
        words: &mut Words,
        task: u32,
        func: u32,
        sizes: &SizeList,
        birth: u32,
        born: u32,
    ) -> Result<u64, EnterError>
        requires started { task < length self.old.tasks }
        requires sizes { All (λ size. size < 2 ^ 64) sizes.now }
        ensures ok { OnOk result (entered self.old mem.old task func (coming words.old 0) sizes.now birth born
            ≡ Ok (record { stacks = self.new; space = mem.new })) }
        ensures low { IfOk result (λ low. low ≡ top_of_stack self.new task) }
        ensures drawn { OnOk result ((k : ℕ) → coming words.new k ≡ coming words.old (k + 1)) }
        ensures full { (full : Full) → result ≡ Err (EnterError.Full full)
            → (word : ℕ) → entered self.old mem.old task func word sizes.now birth born ≡ Err full }
        ensures memory_ran_out { result ≡ Err EnterError.OutOfMemory
            → (word : ℕ) → is_ok (entered self.old mem.old task func word sizes.now birth born) ≡ true }
        ensures stays { (error : EnterError) → result ≡ Err error → self.new ≡ self.old }
        ensures memory_stays { (error : EnterError) → result ≡ Err error → mem.new ≡ mem.old }
        ensures words_stay { (error : EnterError) → result ≡ Err error → words.new ≡ words.old }
        ensures tasks { length self.new.tasks ≡ length self.old.tasks }
    {
        self.tasks[task as usize].enter(mem, words, func, sizes, birth, born)
    }

    /// A task leaves its newest frame with variables: its granules have the tag 0, and it is remembered with the chain of sites
    /// of the return, `died`. If it has no such frame, or there is no such task, nothing changes. It takes no memory.
    pub fn leave(&mut self, mem: &mut Memory, task: u32, died: u32)
        ensures left { left self.old mem.old task died ≡ record { stacks = self.new; space = mem.new } }
        ensures tasks { length self.new.tasks ≡ length self.old.tasks }
    {
        let task = task as usize;
        if task < self.tasks.len() {
            self.tasks[task].leave(mem, died);
        }
    }

    /// The tagged address of a variable of a task's newest frame, counted from 0, or 0 if the task has no frame with variables.
    pub fn variable(&self, task: u32, k: u32) -> u64
        ensures { result ≡ variable_number self.now task k }
    {
        match self.tasks.get(task as usize) {
            Some(stack) => stack.variable(k),
            None => 0,
        }
    }

    /// A task's living frame that is number `i` from 0, counted from the newest, if there are so many.
    pub fn living(&self, task: u32, i: u32) -> Option<FrameRecord>
        ensures { result ≡ option_map (λ living. living.frame) (slice_get (frames_of self.now task).living i) }
    {
        match self.tasks.get(task as usize) {
            Some(stack) => stack.living(i),
            None => None,
        }
    }

    /// A task's ended frame that is number `i` from 0, counted from the newest, if so many are remembered.
    pub fn ended(&self, task: u32, i: u32) -> Option<FrameRecord>
        ensures { result ≡ slice_get (frames_of self.now task).ended i }
    {
        match self.tasks.get(task as usize) {
            Some(stack) => stack.ended(i),
            None => None,
        }
    }
}
