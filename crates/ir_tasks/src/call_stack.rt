ghost use Rattle.std.specs.Prelude.{◌≡◌, ◌+◌, ◌^◌, ◌<◌, [], ◌∷◌, length, IfOk, OnOk, OnErr, true, false};

use crate::Activation;
use hw_base::OutOfMemory;
use std::alloc::Global;
use std::marker::Model;

/// The frames of an unfinished task. Contracts see the frame that runs and those of its callers, newest first. A register
/// is a number of up to 128 bits; one past the end reads 0, and a write there changes nothing.
#[derive(Drop)]
pub struct CallStack {
    registers: Vec<u128>,
    newest: Activation,
    older: Vec<Activation>,
}

impl Model for CallStack {
    ghost use Rattle.ir_tasks.specs.CallStacks.{Calls, calls_of, AreAtCalls};

    ghost Value = { Calls };

    ghost view = { λ s. calls_of s.registers.items s.newest s.older.items };

    ghost invariant = { λ s. AreAtCalls s.older.items };
}

impl CallStack {
    ghost use Rattle.ir_tasks.specs.Frames.{register, with_register, at_place};
    ghost use Rattle.ir_tasks.specs.CallStacks.{called, fresh_frame};

    /// A task with one frame, whose registers are 0.
    pub fn new(
        alloc: Global,
        func: u32,
        registers: u32,
        place: usize,
        chain: u32,
    ) -> Result<CallStack, OutOfMemory>
        ensures { IfOk result (λ s. s ≡ record { frame = fresh_frame func registers place chain; callers = [] }) }
    {
        let zeros = match vec![in alloc; 0u128; registers as usize] {
            Ok(zeros) => zeros,
            Err(_) => return Err(OutOfMemory),
        };
        Ok(CallStack {
            registers: zeros,
            newest: Activation {
                func,
                place,
                base: 0,
                chain,
            },
            older: Vec::new(alloc),
        })
    }

    /// The number in a register of the frame that runs.
    pub fn register(&self, r: usize) -> u128
        ensures { result ≡ register self.now.frame r }
    {
        match self.registers.get(self.newest.base.saturating_add(r)) {
            Some(number) => *number,
            None => 0,
        }
    }

    /// Sets a register of the frame that runs.
    pub fn set_register(&mut self, r: usize, number: u128)
        ensures { self.new ≡ record self.old { frame = with_register self.old.frame r number } }
    {
        let at = self.newest.base.saturating_add(r);
        if at < self.registers.len() {
            self.registers[at] = number;
        }
    }

    /// The function of the frame that runs.
    pub fn func(&self) -> u32
        ensures { result ≡ self.now.frame.func }
    {
        self.newest.func
    }

    /// The place of the next instruction of the frame that runs.
    pub fn place(&self) -> usize
        ensures { result ≡ self.now.frame.place }
    {
        self.newest.place
    }

    /// The frame that runs goes on at a place.
    pub fn set_place(&mut self, place: usize)
        ensures { self.new ≡ record self.old { frame = at_place self.old.frame place } }
    {
        self.newest.place = place;
    }

    /// The number of the chain of sites of the frame that runs.
    pub fn chain(&self) -> u32
        ensures { result ≡ self.now.frame.chain }
    {
        self.newest.chain
    }

    /// How many frames there are.
    pub fn depth(&self) -> u64
        ensures { result ≡ length self.now.callers + 1 }
    {
        self.older.len() as u64 + 1
    }

    /// A function is called: its frame runs, with registers that are 0. The caller stays at the call, after which the code goes
    /// on. After want of memory the task is as before.
    pub fn call(
        &mut self,
        func: u32,
        registers: u32,
        place: usize,
        chain: u32,
    ) -> Result<(), OutOfMemory>
        requires { self.old.frame.place + 1 < 2 ^ 64 }
        ensures ok { OnOk result (self.new ≡ called self.old (fresh_frame func registers place chain)) }
        ensures err { OnErr result (self.new ≡ self.old) }
    {
        let base = self.registers.len();
        match self.older.push(self.newest) {
            Ok(()) => {}
            Err(_) => return Err(OutOfMemory),
        }
        match self.registers.resize(base + registers as usize, 0) {
            Ok(()) => {}
            Err(_) => {
                let _ = self.older.pop();
                return Err(OutOfMemory);
            }
        }
        self.newest = Activation {
            func,
            place,
            base,
            chain,
        };
        Ok(())
    }

    /// The frame that runs ends: its caller runs, and the result is true. If it is the task's last frame nothing changes.
    pub fn end_call(&mut self) -> bool
        ensures last { result ≡ false → (self.old.callers ≡ []) × (self.new ≡ self.old) }
        ensures caller { result ≡ true → self.old.callers ≡ self.new.frame ∷ self.new.callers }
        ensures place { result ≡ true → self.new.frame.place + 1 < 2 ^ 64 }
    {
        match self.older.pop() {
            Some(caller) => {
                self.registers.truncate(self.newest.base);
                self.newest = caller;
                true
            }
            None => false,
        }
    }
}
