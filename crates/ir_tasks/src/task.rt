ghost use Rattle.std.specs.Prelude.{◌≡◌, ◌+◌, ◌^◌, ◌<◌, List, All, ◌∷◌, length, OnOk, OnErr, true, false};
ghost use Rattle.hw_tags.specs.TaskRuns.{is_finished};
ghost use Rattle.ir_tasks.specs.Frames.{Frame, with_register, at_place};
ghost use Rattle.ir_tasks.specs.CallStacks.{fresh_frame};
ghost use Rattle.ir_tasks.specs.TaskStates.{task_frames};

use crate::CallStack;
use hw_base::OutOfMemory;

/// A task: its frames, or that it is finished.
#[derive(Drop)]
pub(crate) enum Task {
    Running(CallStack),
    Finished,
}

impl Task {
    #[inline(always)]
    pub(crate) fn is_finished(&self) -> bool
        ensures { result ≡ is_finished (task_frames self.now) }
    {
        match self {
            Task::Running(_) => false,
            Task::Finished => true,
        }
    }

    /// How many frames it has.
    pub(crate) fn depth(&self) -> u64
        ensures { result ≡ length (task_frames self.now) }
    {
        match self {
            Task::Running(calls) => calls.depth(),
            Task::Finished => 0,
        }
    }

    /// The frames of a task that isn't finished.
    #[inline(always)]
    pub(crate) fn calls(&self) -> &CallStack
        requires { is_finished (task_frames self.now) ≡ false }
        ensures { task_frames self.now ≡ result.now.frame ∷ result.now.callers }
    {
        match self {
            Task::Running(calls) => calls,
            Task::Finished => unreachable!(),
        }
    }

    /// Sets a register of the newest frame.
    #[inline(always)]
    pub(crate) fn set_register(&mut self, r: usize, number: u128)
        ensures { (frame : Frame) (callers : List Frame) → task_frames self.old ≡ frame ∷ callers
            → task_frames self.new ≡ with_register frame r number ∷ callers }
    {
        match self {
            Task::Running(calls) => calls.set_register(r, number),
            Task::Finished => {}
        }
    }

    /// The newest frame goes on at a place.
    #[inline(always)]
    pub(crate) fn set_place(&mut self, place: usize)
        ensures { (frame : Frame) (callers : List Frame) → task_frames self.old ≡ frame ∷ callers
            → task_frames self.new ≡ at_place frame place ∷ callers }
    {
        match self {
            Task::Running(calls) => calls.set_place(place),
            Task::Finished => {}
        }
    }

    /// A function is called: the new frame is at place 0, and its registers are 0. After want of memory the task is as before.
    pub(crate) fn call(&mut self, func: u32, registers: u32, chain: u32) -> Result<(), OutOfMemory>
        requires unfinished { is_finished (task_frames self.old) ≡ false }
        requires places { All (λ frame. frame.place < 2 ^ 32) (task_frames self.old) }
        ensures ok { OnOk result (task_frames self.new ≡ fresh_frame func registers 0 chain ∷ task_frames self.old) }
        ensures err { OnErr result (task_frames self.new ≡ task_frames self.old) }
    {
        match self {
            Task::Running(calls) => calls.call(func, registers, 0, chain),
            Task::Finished => unreachable!(),
        }
    }

    /// The newest frame ends. The result is whether it was the last one, which finishes the task.
    pub(crate) fn end_call(&mut self) -> bool
        ensures frames { (frame : Frame) (callers : List Frame) → task_frames self.old ≡ frame ∷ callers
            → task_frames self.new ≡ callers }
        ensures last { result ≡ is_finished (task_frames self.new) }
    {
        if let Task::Running(calls) = self {
            if calls.end_call() {
                return false;
            }
        }
        *self = Task::Finished;
        true
    }
}
