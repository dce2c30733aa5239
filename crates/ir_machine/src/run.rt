ghost use Rattle.std.specs.Prelude.{◌≡◌, ℕ, ◌+◌, ◌-◌, ◌^◌, ◌<◌, ◌≤◌, length, slice_get, [], ◌∷◌, OnOk, IfOk, true, false, unwrap_or};
ghost use Rattle.hw_tags.specs.Word.{word, IsNotEmpty};
ghost use Rattle.hw_tags.specs.Words.{AreWordsFrom, coming};
ghost use Rattle.global_tags.specs.GlobalPlaces.{global_words};
ghost use Rattle.ir_machine.specs.Start.{global_births};

use crate::arithmetic::argument_at;
use crate::found::{Found, Raw};
use crate::progress::{Ending, Progress};
use dbg_sites::Chains;
use global_tags::{Descriptors, global_number, layout, load};
use hw_base::{Access, HEAP_AT, OutOfMemory, Site, Trap};
use hw_tags::{Options, Words};
use ir_arith::wrap;
use ir_core::Module;
use ir_tasks::CallStack;
use mi_code::{MiOperand, MiOperandList};
use stack_tags::Stacks;
use std::alloc::Global;
use std::marker::Model;
use tag_alloc::Heap;
use tbi_memory::{MemFault, Memory, Mismatch};

/// What a run has in hand: the frames of its task, memory and where the globals lie in it, the heap's blocks, the frames with
/// variables, the numbers of births and of drawn words, the chains of sites, the number of the step, what the last step printed,
/// and how the run ended if it has.
#[derive(Drop)]
pub struct Run {
    pub(crate) calls: CallStack,
    pub(crate) memory: Memory,
    globals: Descriptors,
    pub(crate) heap: Heap,
    pub(crate) stacks: Stacks,
    pub(crate) births: u32,
    pub(crate) drawn: u64,
    pub(crate) chains: Chains,
    step: u64,
    pub(crate) printed: Vec<u8>,
    ending: Ending,
}

impl Model for Run {
    ghost use Rattle.ir_machine.specs.RunStates.{RunState, only_task, shared_of, ending_of};

    ghost Value = { RunState };

    ghost view = { λ r. record {
      seen = only_task (shared_of r.memory r.globals r.heap.state r.stacks r.births r.drawn r.chains) r.calls r.step;
      printed = r.printed.items;
      ending = ending_of r.ending;
    } };
}

/// The births before the first step: all globals are one, if there are any.
fn first_births(program: &Module) -> u32
    ensures { result ≡ global_births program.now.globals }
{
    if program.globals.is_empty() { 0 } else { 1 }
}

impl Run {
    ghost use Rattle.global_tags.specs.Loading.{CanBeLoaded};
    ghost use Rattle.ir_machine.specs.State.{MachineSeen};
    ghost use Rattle.ir_machine.specs.Operands.{number_in, int_argument, integer_in, long_argument, pointer_argument, pointer_in, second_part};
    ghost use Rattle.ir_tasks.specs.Frames.{at_place};
    ghost use Rattle.ir_machine.specs.StepEnds.{gives, goes_on, traps, ends, prints, with_number, with_result, chain_known, chain_at, report_at, refused_at};
    ghost use Rattle.ir_machine.specs.CallSteps.{last_left};
    ghost use Rattle.ir_tasks.specs.CallStacks.{fresh_frame};
    ghost use Rattle.ir_machine.specs.RunStates.{IsOutcome, IsPlainOutcome, with_frame, ending_of, first_state, loaded_module};

    /// A run of a module that begins with a function, whose frame has so many registers: its globals are in memory, for which
    /// a word was drawn if there are any. There is no block, no frame with variables was entered, and no step was made.
    pub fn new(
        alloc: Global,
        program: &Module,
        words: &mut Words,
        func: u32,
        registers: u32,
        options: &Options,
    ) -> Result<Run, OutOfMemory>
        requires globals { CanBeLoaded program.now }
        requires words { AreWordsFrom options.now.tags 0 words.old }
        ensures state { IfOk result (λ r. r ≡ first_state (loaded_module program.now options.now) (fresh_frame func registers 0 0)) }
        ensures words { OnOk result ((k : ℕ) → coming words.new k ≡ word options.now.tags (global_words program.now.globals + k)) }
    {
        let mut memory = Memory::new(alloc, &layout(program, options.heap))?;
        let globals = load(alloc, program, &mut memory, words)?;
        let mut heap = Heap::new(alloc, HEAP_AT, options.heap, options.ring)?;
        heap.add_task()?;
        let mut stacks = Stacks::new(alloc, options.ring);
        stacks.add_task()?;
        let births = first_births(program);
        Ok(Run {
            calls: CallStack::new(alloc, func, registers, 0, 0)?,
            memory,
            globals,
            heap,
            stacks,
            births,
            drawn: births as u64,
            chains: Chains::new(alloc),
            step: 0,
            printed: Vec::new(alloc),
            ending: Ending::Exit(0),
        })
    }

    /// The number that an operand is.
    pub fn number(&self, operand: &MiOperand) -> u128
        ensures { result ≡ number_in self.now.seen operand.now }
    {
        match *operand {
            MiOperand::Reg(r) => self.calls.register(r as usize),
            MiOperand::Num(n) => n,
            MiOperand::Global { global, off } => {
                global_number(&self.globals, global, off) as u128
            }
        }
    }

    /// The number that an operand is as a pointer.
    pub fn pointer(&self, operand: &MiOperand) -> u64
        ensures { result ≡ pointer_in self.now.seen operand.now }
    {
        (self.number(operand) % 0x1_0000_0000_0000_0000) as u64
    }

    /// The number that an operand is, in a width of 1 to 128 bits.
    pub fn integer(&self, width: u32, operand: &MiOperand) -> u128
        requires from_1 { 1 ≤ width }
        requires to_128 { width ≤ 128 }
        ensures value { result ≡ integer_in self.now.seen width operand.now }
        ensures below { result < 2 ^ width }
    {
        wrap(width, self.number(operand))
    }

    /// The second part of a pair.
    pub fn second(&self, operand: &MiOperand) -> u128
        ensures { result ≡ second_part self.now.seen.frame.registers operand.now }
    {
        match *operand {
            MiOperand::Reg(r) => self.calls.register(r as usize + 1),
            _ => 0,
        }
    }

    /// The argument of a call that is number `k`, from 0, in 64 bits.
    pub fn long_argument(&self, args: &MiOperandList, k: u64) -> u64
        ensures { result ≡ long_argument self.now.seen args.now k }
    {
        self.integer(64, &argument_at(args, k)) as u64
    }

    /// The argument of a call that is number `k`, from 0, as a pointer.
    pub fn pointer_argument(&self, args: &MiOperandList, k: u64) -> u64
        ensures { result ≡ pointer_argument self.now.seen args.now k }
    {
        self.pointer(&argument_at(args, k))
    }

    /// The argument of a call that is number `k`, from 0, in 32 bits.
    pub fn int_argument(&self, args: &MiOperandList, k: u64) -> u32
        ensures { result ≡ int_argument self.now.seen args.now k }
    {
        self.integer(32, &argument_at(args, k)) as u32
    }

    /// A register of the frame that runs has a number.
    pub fn set(&mut self, to: usize, n: u128)
        ensures { self.new ≡ record self.old { seen = with_number self.old.seen to n } }
    {
        self.calls.set_register(to, n);
    }

    /// The task goes on at the next instruction.
    pub fn go_on(&mut self) -> Progress
        requires { self.old.seen.frame.place + 1 < 2 ^ 64 }
        ensures { IsPlainOutcome (goes_on self.old.seen) result self.new }
    {
        self.calls.set_place(self.calls.place() + 1);
        Progress::Ran
    }

    /// A register has a number, and the task goes on.
    pub fn give(&mut self, to: u32, n: u128) -> Progress
        requires { self.old.seen.frame.place + 1 < 2 ^ 64 }
        ensures { IsPlainOutcome (gives self.old.seen to n) result self.new }
    {
        self.set(to as usize, n);
        self.go_on()
    }

    /// The task goes on at a place.
    pub fn go_to(&mut self, place: usize)
        ensures { self.new ≡ with_frame self.old (at_place self.old.seen.frame place) }
    {
        self.calls.set_place(place);
    }

    /// A byte is printed, the result of a call has its number, and the task goes on.
    pub fn print_byte(&mut self, to: Option<u32>, byte: u8) -> Progress
        requires { self.old.seen.frame.place + 1 < 2 ^ 64 }
        ensures { IsOutcome (prints self.old.seen to byte (byte ∷ [])) result self.new }
    {
        self.printed.clear();
        match self.printed.push(byte) {
            Ok(()) => {}
            Err(_) => return Progress::NoMemory,
        }
        self.set_result(to, byte as u128);
        self.calls.set_place(self.calls.place() + 1);
        Progress::Printed
    }

    /// The result of a call has a number, if it has a register.
    pub fn set_result(&mut self, to: Option<u32>, n: u128)
        ensures { self.new ≡ record self.old { seen = with_result self.old.seen to n } }
    {
        match to {
            Some(to) => self.set(to as usize, n),
            None => {}
        }
    }

    /// The run ends so.
    pub fn end(&mut self, ending: Ending) -> Progress
        ensures outcome { IsPlainOutcome (ends self.old.seen (ending_of ending)) result self.new }
        ensures seen { self.new.seen ≡ self.old.seen }
    {
        self.ending = ending;
        Progress::Ended
    }

    /// A step with a number begins. A run has one task.
    pub fn begin_step(&mut self, step: u64)
        ensures begun { self.new ≡ record self.old { seen = record self.old.seen { step = step } } }
        ensures task { self.old.seen.task ≡ 0 }
        ensures finished { self.old.seen.finished ≡ false ∷ [] }
    {
        self.step = step;
    }

    /// How many bytes the last step printed that printed any.
    pub fn printed_count(&self) -> u64
        ensures { result ≡ length self.now.printed }
    {
        self.printed.len() as u64
    }

    /// Byte number i of those that the last step printed that printed any.
    pub fn printed_at(&self, i: u64) -> Option<u8>
        ensures { result ≡ slice_get self.now.printed i }
    {
        self.printed.get(i as usize).copied()
    }

    /// The chains of sites.
    pub fn chains(&self) -> &Chains
        ensures { result.now ≡ self.now.seen.shared.chains }
    {
        &self.chains
    }

    /// How the run ended.
    pub fn ending(&self) -> Ending
        ensures { ending_of result ≡ self.now.ending }
    {
        self.ending
    }

    /// How many frames the task has.
    pub fn depth(&self) -> u64
        ensures { result ≡ length self.now.seen.callers + 1 }
    {
        self.calls.depth()
    }

    /// The function of the frame that runs.
    pub fn func(&self) -> u32
        ensures { result ≡ self.now.seen.frame.func }
    {
        self.calls.func()
    }

    /// The place of the frame that runs.
    pub fn place(&self) -> usize
        ensures { result ≡ self.now.seen.frame.place }
    {
        self.calls.place()
    }

    /// The chain of a site of the frame that runs, which the table has then.
    pub fn push_chain(&mut self, site: Site) -> Result<u32, OutOfMemory>
        requires { length self.old.seen.shared.chains < 2 ^ 32 - 1 }
        ensures state { OnOk result (self.new ≡ record self.old { seen = chain_known self.old.seen site }) }
        ensures chain { IfOk result (λ chain. chain ≡ chain_at self.old.seen site) }
    {
        self.chains.push(self.calls.chain(), site)
    }

    /// A new frame of a function runs, at a place of its code, with a chain.
    pub fn push_frame(
        &mut self,
        func: u32,
        registers: u32,
        place: usize,
        chain: u32,
    ) -> Result<(), OutOfMemory>
        requires { self.old.seen.frame.place + 1 < 2 ^ 64 }
        ensures { OnOk result (self.new ≡ record self.old {
          seen = record self.old.seen {
            frame = fresh_frame func registers place chain;
            callers = self.old.seen.frame ∷ self.old.seen.callers;
          };
        }) }
    {
        self.calls.call(func, registers, place, chain)
    }

    /// The frame that runs ends, and its caller runs. The result is false if there is none: then nothing changes.
    pub fn pop_frame(&mut self) -> bool
        ensures last { result ≡ false → (self.old.seen.callers ≡ []) × (self.new ≡ self.old) }
        ensures caller { result ≡ true → (self.old.seen.callers ≡ self.new.seen.frame ∷ self.new.seen.callers)
            × (self.new ≡ record self.old { seen = record self.old.seen { frame = self.new.seen.frame; callers = self.new.seen.callers } }) }
        ensures place { result ≡ true → self.new.seen.frame.place + 1 < 2 ^ 64 }
    {
        self.calls.end_call()
    }

    /// The last frame of the first task has returned a number, or nothing, and the run ends.
    pub fn finish(&mut self, n: Option<u128>) -> Progress
        requires { self.old.seen.task ≡ 0 }
        ensures { IsOutcome (last_left self.old.seen.task self.old.seen.shared (unwrap_or n 0)) result self.new }
    {
        let value = match n {
            Some(n) => (n % 4_294_967_296) as u32,
            None => 0,
        };
        self.ending = Ending::Exit(value);
        Progress::Returned
    }

    /// The run ends with a trap at a site.
    #[cold]
    pub fn trap(&mut self, site: Site, trap: Trap) -> Progress
        requires { length self.old.seen.shared.chains < 2 ^ 32 - 1 }
        ensures { IsPlainOutcome (traps self.old.seen site trap) result self.new }
    {
        match self.chains.push(self.calls.chain(), site) {
            Ok(chain) => {
                self.ending = Ending::Trap {
                    trap,
                    task: 0,
                    chain,
                };
                Progress::Ended
            }
            Err(_) => Progress::NoMemory,
        }
    }

    /// The run ends with a report of an access of so many bytes at a number, and what its check found.
    #[cold]
    pub fn report(
        &mut self,
        site: Site,
        access: Access,
        size: u64,
        number: u64,
        found: Found,
    ) -> Progress
        requires { length self.old.seen.shared.chains < 2 ^ 32 - 1 }
        ensures { IsPlainOutcome (report_at self.old.seen site access size number found) result self.new }
    {
        match self.chains.push(self.calls.chain(), site) {
            Ok(chain) => {
                self.ending = Ending::Report(Raw {
                    access,
                    size,
                    number,
                    task: 0,
                    step: self.step,
                    chain,
                    found,
                });
                Progress::Ended
            }
            Err(_) => Progress::NoMemory,
        }
    }

    /// The run ends since memory refuses an access: an address that isn't mapped is reported, and a write to a constant traps.
    #[cold]
    pub fn refused(
        &mut self,
        site: Site,
        access: Access,
        size: u64,
        number: u64,
        fault: MemFault,
    ) -> Progress
        requires { length self.old.seen.shared.chains < 2 ^ 32 - 1 }
        ensures { IsPlainOutcome (refused_at self.old.seen site access size number fault) result self.new }
    {
        match fault {
            MemFault::Unmapped(address) => {
                let found = Found::Memory(Mismatch::Unmapped(address));
                self.report(site, access, size, number, found)
            }
            MemFault::ReadOnly => self.trap(site, Trap::ReadOnly),
        }
    }
}
