ghost use Rattle.std.specs.Prelude.{◌≡◌, ◌+◌, ◌^◌, ◌<◌, ◌≤◌, false, List, [], ◌∷◌, ◌++◌, length, map, slice_get, slice_set, IfOk, OnOk, OnErr, Ok, Some, None};
ghost use Rattle.hw_base.specs.declared.numbers.TheConstants.{MOST_FRAMES, MOST_TASKS};
ghost use Rattle.hw_tags.specs.TaskRuns.{is_finished, finished_of};
ghost use Rattle.hw_tags.specs.Turn.{unfinished_of};
ghost use Rattle.ir_tasks.specs.TaskFrames.{IsUnfinished, HasFrames, unfinished_count};
ghost use Rattle.ir_tasks.specs.TaskStates.{task_frames};

use crate::CallStack;
use crate::task::Task;
use hw_base::{MOST_TASKS, OutOfMemory};
use std::alloc::Global;
use std::marker::Model;

/// All tasks of a run. Contracts see the frames of each task: tasks in order of start, each task's frames newest first, and a
/// finished task has none. A task is named by its number, counted from 0 in order of start.
#[derive(Drop)]
pub struct Tasks {
    tasks: Vec<Task>,
    unfinished: u32,
    alloc: Global,
}

impl Model for Tasks {
    ghost use Rattle.std.specs.Prelude.{List, map};
    ghost use Rattle.ir_tasks.specs.Frames.{Frame};

    ghost Value = { List (List Frame) };

    ghost use Rattle.ir_tasks.specs.TaskFrames.{AreTasks};
    ghost use Rattle.ir_tasks.specs.TaskStates.{task_frames};

    ghost view = { λ t. map task_frames t.tasks.items };

    ghost invariant = { λ t. AreTasks (map task_frames t.tasks.items) t.unfinished };
}

impl Tasks {
    ghost use Rattle.ir_tasks.specs.Frames.{Frame, register, with_register, at_place};
    ghost use Rattle.ir_tasks.specs.CallStacks.{Calls, fresh_frame};

    /// No task yet.
    pub fn new(alloc: Global) -> Tasks
        ensures { result ≡ [] }
    {
        Tasks {
            tasks: Vec::new(alloc),
            unfinished: 0,
            alloc,
        }
    }

    /// Starts a task with one frame, at place 0, whose registers are 0. The result is its number, or none exactly if as many
    /// tasks as there may be were started. The only error is that memory ran out, after which the tasks are as before.
    pub fn start(
        &mut self,
        func: u32,
        registers: u32,
        chain: u32,
    ) -> Result<Option<u32>, OutOfMemory>
        ensures started { length self.old < MOST_TASKS → IfOk result (λ number. (number ≡ Some (length self.old))
            × (self.new ≡ self.old ++ (fresh_frame func registers 0 chain ∷ []) ∷ [])) }
        ensures full { MOST_TASKS ≤ length self.old → (result ≡ Ok None) × (self.new ≡ self.old) }
        ensures err { OnErr result (self.new ≡ self.old) }
    {
        let number = self.tasks.len() as u32;
        if number == MOST_TASKS {
            return Ok(None);
        }
        let calls = match CallStack::new(self.alloc, func, registers, 0, chain) {
            Ok(calls) => calls,
            Err(error) => return Err(error),
        };
        match self.tasks.push(Task::Running(calls)) {
            Ok(()) => {}
            Err(_) => return Err(OutOfMemory),
        }
        self.unfinished += 1;
        Ok(Some(number))
    }

    /// A task calls a function: the new frame is at place 0, and its registers are 0. The caller stays at its call. The only
    /// error is that memory ran out, after which the tasks are as before.
    pub fn push(
        &mut self,
        task: u32,
        func: u32,
        registers: u32,
        chain: u32,
    ) -> Result<(), OutOfMemory>
        requires unfinished { IsUnfinished self.old task }
        requires room { (frames : List Frame) → slice_get self.old task ≡ Some frames → length frames < MOST_FRAMES }
        ensures ok { OnOk result ((frames : List Frame) → slice_get self.old task ≡ Some frames
            → self.new ≡ slice_set self.old task (fresh_frame func registers 0 chain ∷ frames)) }
        ensures err { OnErr result (self.new ≡ self.old) }
        ensures finished { finished_of self.new ≡ finished_of self.old }
    {
        self.tasks[task as usize].call(func, registers, chain)
    }

    /// A task's newest frame ends. The result is true exactly if it was the task's last one, which finishes the task.
    pub fn pop(&mut self, task: u32) -> bool
        requires { IsUnfinished self.old task }
        ensures frames { (frame : Frame) (callers : List Frame) → HasFrames self.old task frame callers
            → self.new ≡ slice_set self.old task callers }
        ensures last { (frame : Frame) (callers : List Frame) → HasFrames self.old task frame callers
            → result ≡ is_finished callers }
        ensures goes_on { result ≡ false → finished_of self.new ≡ finished_of self.old }
    {
        let last = self.tasks[task as usize].end_call();
        if last {
            self.unfinished -= 1;
        }
        last
    }

    /// The frames of a task.
    #[inline(always)]
    fn calls(&self, task: u32) -> &CallStack
        requires { IsUnfinished self.now task }
        ensures frames { HasFrames self.now task result.now.frame result.now.callers }
        ensures place { result.now.frame.place < 2 ^ 32 }
    {
        self.tasks[task as usize].calls()
    }

    /// The number in a register of a task's newest frame. A register past the end reads 0.
    #[inline(always)]
    pub fn reg(&self, task: u32, r: u32) -> u128
        requires { IsUnfinished self.now task }
        ensures { (frame : Frame) (callers : List Frame) → HasFrames self.now task frame callers → result ≡ register frame r }
    {
        self.calls(task).register(r as usize)
    }

    /// Sets a register of a task's newest frame. A write past the end changes nothing.
    #[inline(always)]
    pub fn set(&mut self, task: u32, r: u32, v: u128)
        requires { IsUnfinished self.old task }
        ensures frames { (frame : Frame) (callers : List Frame) → HasFrames self.old task frame callers
            → self.new ≡ slice_set self.old task (with_register frame r v ∷ callers) }
        ensures finished { finished_of self.new ≡ finished_of self.old }
    {
        self.tasks[task as usize].set_register(r as usize, v);
    }

    /// The place in its function's code at which a task's newest frame goes on.
    #[inline(always)]
    pub fn place(&self, task: u32) -> u32
        requires { IsUnfinished self.now task }
        ensures { (frame : Frame) (callers : List Frame) → HasFrames self.now task frame callers → result ≡ frame.place }
    {
        self.calls(task).place() as u32
    }

    /// A task's newest frame goes on at a place.
    #[inline(always)]
    pub fn set_place(&mut self, task: u32, place: u32)
        requires { IsUnfinished self.old task }
        ensures frames { (frame : Frame) (callers : List Frame) → HasFrames self.old task frame callers
            → self.new ≡ slice_set self.old task (at_place frame place ∷ callers) }
        ensures finished { finished_of self.new ≡ finished_of self.old }
    {
        self.tasks[task as usize].set_place(place as usize);
    }

    /// The number of the function of a task's newest frame.
    #[inline(always)]
    pub fn func(&self, task: u32) -> u32
        requires { IsUnfinished self.now task }
        ensures { (frame : Frame) (callers : List Frame) → HasFrames self.now task frame callers → result ≡ frame.func }
    {
        self.calls(task).func()
    }

    /// The number of the chain of sites at which a task's newest frame was called.
    #[inline(always)]
    pub fn chain(&self, task: u32) -> u32
        requires { IsUnfinished self.now task }
        ensures { (frame : Frame) (callers : List Frame) → HasFrames self.now task frame callers → result ≡ frame.chain }
    {
        self.calls(task).chain()
    }

    /// How many frames a task has: none if it is finished.
    pub fn depth(&self, task: u32) -> u32
        requires { task < length self.now }
        ensures { (frames : List Frame) → slice_get self.now task ≡ Some frames → result ≡ length frames }
    {
        self.tasks[task as usize].depth() as u32
    }

    /// Whether a task that was started is finished.
    pub fn is_finished(&self, task: u32) -> bool
        requires { task < length self.now }
        ensures { slice_get (finished_of self.now) task ≡ Some result }
    {
        self.tasks[task as usize].is_finished()
    }

    /// How many tasks were started.
    pub fn started(&self) -> u32
        ensures count { result ≡ length self.now }
        ensures most { result ≤ MOST_TASKS }
    {
        self.tasks.len() as u32
    }

    /// How many tasks are unfinished.
    #[inline(always)]
    pub fn unfinished(&self) -> u32
        ensures { result ≡ length (unfinished_of (finished_of self.now)) }
    {
        self.unfinished
    }

    /// The number of the first unfinished task. Task 0 is looked at first: it is unfinished as long as the run goes on.
    #[inline(always)]
    pub(crate) fn first_unfinished(&self) -> u32
        requires { 0 < unfinished_count self.now }
        ensures { slice_get (unfinished_of (finished_of self.now)) 0 ≡ Some result }
    {
        if self.tasks[0].is_finished() {
            nth_unfinished(self.tasks.as_slice(), 0)
        } else {
            0
        }
    }

    /// The number of the task that is number `n` of the unfinished ones, counted from 0 in order of start.
    pub(crate) fn nth_unfinished(&self, n: u32) -> u32
        requires { n < unfinished_count self.now }
        ensures { slice_get (unfinished_of (finished_of self.now)) n ≡ Some result }
    {
        nth_unfinished(self.tasks.as_slice(), n)
    }
}

/// The number of the task that is number `n` of the unfinished ones.
#[inline(never)]
fn nth_unfinished(tasks: &[Task], n: u32) -> u32
    requires some { n < unfinished_count (map task_frames tasks.now) }
    requires few { length tasks.now ≤ MOST_TASKS }
    ensures { slice_get (unfinished_of (finished_of (map task_frames tasks.now))) n ≡ Some result }
{
    let mut left = n;
    for task in 0..tasks.len() {
        if tasks[task].is_finished() {
            continue;
        }
        if left == 0 {
            return task as u32;
        }
        left -= 1;
    }
    unreachable!()
}
