ghost use Rattle.std.specs.Prelude.{◌≡◌, ◌≢◌, ℕ, ◌+◌, ◌-◌, ◌^◌, ◌<◌, ◌≤◌, [], ◌∷◌, length, IfOk, OnOk, Ok, Err, slice_get};
ghost use Rattle.std.specs.Option.{option_copied};
ghost use Rattle.hw_tags.specs.TaskRuns.{Goes};
ghost use Rattle.hw_base.specs.declared.endings.Full.{Full as NoRoom};
ghost use Rattle.hw_base.specs.declared.numbers.TheConstants.{MOST_FRAMES};
ghost use Rattle.stack_tags.specs.declared.enter_error.EnterError.{EnterError};
ghost use Rattle.ir_machine.specs.State.{MachineSetting, IsFull};
ghost use Rattle.ir_machine.specs.Operands.{number_in, numbers_in};
ghost use Rattle.ir_machine.specs.Programs.{AreSmall, HasProgram};
ghost use Rattle.ir_machine.specs.StepEnds.{chain_at, chain_known, ends};
ghost use Rattle.ir_machine.specs.RunStates.{AreNext, Grows, GrowsLittle, HasRoom, IsOutcome, with_frame};
ghost use Rattle.ir_machine.specs.CallSteps.{code_at, begins_with_entry, call_register, entry_of, frame_for, returned_to, entered_call, call_step, ret_step, returned_number, with_arguments};

use crate::program::Program;
use crate::progress::{Ending, Progress};
use crate::run::Run;
use hw_base::{MOST_FRAMES, OutOfMemory, Site, Trap};
use hw_tags::Words;
use mi_code::{Code, Mark, Mi, MiOp, MiOperand, MiOperandList};
use stack_tags::EnterError;

/// The register that the result of a call goes to, if the instruction is a call that has one.
fn call_register(mi: Option<&Mi>) -> Option<u32>
    ensures { result ≡ call_register (option_copied mi.entry) }
{
    match mi {
        Some(mi) => match &mi.op {
            MiOp::Call { to, .. } => *to,
            _ => None,
        },
        None => None,
    }
}

/// The register that the result of a call at a place goes to.
fn register_at(code: &Code, func: u32, place: usize) -> Option<u32>
    ensures { result ≡ call_register (slice_get (code_at code.now func).insts place) }
{
    match code.get(func as u64) {
        Some(function) => call_register(function.insts.get(place as u64)),
        None => None,
    }
}

/// How many registers a frame of a function has.
pub fn registers_of(code: &Code, func: u32) -> u32
    ensures { result ≡ (code_at code.now func).registers }
{
    match code.get(func as u64) {
        Some(function) => function.registers,
        None => 0,
    }
}

/// The instructions of a function, none if there is no such function.
pub fn instructions_of(code: &Code, func: u32) -> &[Mi]
    ensures { result.now ≡ (code_at code.now func).insts }
{
    match code.get(func as u64) {
        Some(function) => function.insts.as_slice(),
        None => &[],
    }
}

/// Whether instructions begin with an entry.
fn begins_with_entry(insts: &[Mi]) -> bool
    ensures { result ≡ begins_with_entry insts.now }
{
    let [first, ..] = insts else {
        return false;
    };
    match first.mark {
        Mark::Entry => true,
        Mark::Added(_) => false,
        Mark::Source(_) => false,
    }
}

impl Run {
    /// The numbers of arguments, in order.
    fn read_arguments(&self, args: &[MiOperand], numbers: &mut Vec<u128>) -> Result<(), OutOfMemory>
        ensures { OnOk result (numbers.new.items ≡ numbers_in self.now.seen args.now) }
    {
        numbers.clear();
        let mut rest = args;
        while let [operand, after @ ..] = rest {
            match numbers.push(self.number(operand)) {
                Ok(()) => rest = after,
                Err(_) => return Err(OutOfMemory),
            }
        }
        Ok(())
    }

    /// The parameters of the frame that runs get their numbers.
    #[tactic(auto, unfolding(crate::specs::CallSteps::with_arguments))]
    fn write_arguments(&mut self, numbers: &[u128])
        requires { length numbers.now < 2 ^ 32 }
        ensures { self.new ≡ with_frame self.old (record self.old.seen.frame { registers = with_arguments self.old.seen.frame.registers 0 numbers.now }) }
    {
        let mut rest = numbers;
        let mut k = 0usize;
        while let [n, after @ ..] = rest {
            self.set(2 * k, *n);
            rest = after;
            k += 1;
        }
    }

    /// The task begins a function, with a chain: if its code begins with an entry its variables get their memory and tags. The
    /// result is the place in the code after the entry. After an error the run and the words are as before.
    pub fn enter_if(
        &mut self,
        program: &Program,
        words: &mut Words,
        func: u32,
        chain: u32,
    ) -> Result<usize, EnterError>
        requires room { HasRoom self.old.seen.shared }
        requires small { AreSmall program.now }
        ensures entry { IfOk result (λ place. (setting : MachineSetting) → HasProgram setting program.now → AreNext setting words.old self.old.seen.shared.drawn
            → entry_of setting 0 func chain self.old.seen.shared ≡ Ok (record { shared = self.new.seen.shared; place = place })) }
        ensures shared { OnOk result (self.new ≡ record self.old { seen = record self.old.seen { shared = self.new.seen.shared } }) }
        ensures grows { OnOk result (Grows 0 1 1 words.old words.new self.old.seen.shared self.new.seen.shared) }
        ensures full { (full : NoRoom) → result ≡ Err (EnterError.Full full) → (setting : MachineSetting) → HasProgram setting program.now
            → AreNext setting words.old self.old.seen.shared.drawn → entry_of setting 0 func chain self.old.seen.shared ≡ Err full }
        ensures stays { (error : EnterError) → result ≡ Err error → self.new ≡ self.old }
        ensures words_stay { (error : EnterError) → result ≡ Err error → words.new ≡ words.old }
    {
        if !begins_with_entry(instructions_of(&program.code, func)) {
            return Ok(0);
        }
        match self.enter_variables(words, func, program.sizes(func), chain) {
            Ok(()) => Ok(1),
            Err(error) => Err(error),
        }
    }

    /// The frame of a function wasn't entered: the run ends, or memory ran out.
    fn not_entered(&mut self, error: EnterError) -> Progress
        ensures full { (full : NoRoom) → error ≡ EnterError.Full full → IsOutcome (ends self.old.seen (IsFull full)) result self.new }
        ensures memory { error ≡ EnterError.OutOfMemory → result ≡ Progress.NoMemory }
        ensures seen { self.new.seen ≡ self.old.seen }
    {
        match error {
            EnterError::Full(full) => self.end(Ending::Full(full)),
            EnterError::OutOfMemory => Progress::NoMemory,
        }
    }

    /// A new frame of a function runs, at a place of its code and with a chain. Its parameters have these numbers.
    fn start_frame(
        &mut self,
        code: &Code,
        func: u32,
        place: usize,
        chain: u32,
        numbers: &[u128],
    ) -> Progress
        requires few { length numbers.now < 2 ^ 32 }
        requires place { self.old.seen.frame.place + 1 < 2 ^ 64 }
        ensures step { IsOutcome (Goes (record self.old.seen {
          frame = frame_for code.now func place numbers.now chain;
          callers = self.old.seen.frame ∷ self.old.seen.callers;
        }) []) result self.new }
        ensures shared { result ≢ Progress.NoMemory → self.new.seen.shared ≡ self.old.seen.shared }
    {
        match self.push_frame(func, registers_of(code, func), place, chain) {
            Ok(()) => {}
            Err(OutOfMemory) => return Progress::NoMemory,
        }
        self.write_arguments(numbers);
        Progress::Ran
    }

    /// A defined function is called ("'call' Instruction"): the frame is new, and its chain has the call's site in front.
    fn enter(
        &mut self,
        program: &Program,
        words: &mut Words,
        site: Site,
        func: u32,
        args: &MiOperandList,
        numbers: &mut Vec<u128>,
    ) -> Progress
        requires few { length args.now < 2 ^ 32 }
        requires task { self.old.seen.task ≡ 0 }
        requires place { self.old.seen.frame.place + 1 < 2 ^ 64 }
        requires chains { length self.old.seen.shared.chains < 2 ^ 32 - 1 }
        requires room { HasRoom self.old.seen.shared }
        requires small { AreSmall program.now }
        ensures step { (setting : MachineSetting) → HasProgram setting program.now → AreNext setting words.old self.old.seen.shared.drawn
            → IsOutcome (entered_call setting (chain_known self.old.seen site) func (numbers_in self.old.seen args.now) (chain_at self.old.seen site)) result self.new }
        ensures grows { result ≢ Progress.NoMemory → GrowsLittle words.old words.new self.old.seen.shared self.new.seen.shared }
    {
        match self.read_arguments(args.as_slice(), numbers) {
            Ok(()) => {}
            Err(OutOfMemory) => return Progress::NoMemory,
        }
        let chain = match self.push_chain(site) {
            Ok(chain) => chain,
            Err(OutOfMemory) => return Progress::NoMemory,
        };
        match self.enter_if(program, words, func, chain) {
            Ok(place) => self.start_frame(&program.code, func, place, chain, numbers.as_slice()),
            Err(error) => self.not_entered(error),
        }
    }

    /// A defined function is called, or the run traps if the task has as many frames as it can ("'call' Instruction").
    #[inline(never)]
    #[tactic(auto, unfolding(crate::specs::CallSteps::call_step))]
    pub fn call(
        &mut self,
        program: &Program,
        words: &mut Words,
        site: Site,
        func: u32,
        args: &MiOperandList,
        numbers: &mut Vec<u128>,
    ) -> Progress
        requires few { length args.now < 2 ^ 32 }
        requires task { self.old.seen.task ≡ 0 }
        requires place { self.old.seen.frame.place + 1 < 2 ^ 64 }
        requires chains { length self.old.seen.shared.chains < 2 ^ 32 - 1 }
        requires room { HasRoom self.old.seen.shared }
        requires small { AreSmall program.now }
        ensures step { (setting : MachineSetting) → HasProgram setting program.now → AreNext setting words.old self.old.seen.shared.drawn
            → IsOutcome (call_step setting self.old.seen site func args.now) result self.new }
        ensures grows { result ≢ Progress.NoMemory → GrowsLittle words.old words.new self.old.seen.shared self.new.seen.shared }
    {
        if self.depth() >= MOST_FRAMES as u64 {
            return self.trap(site, Trap::TooDeep);
        }
        self.enter(program, words, site, func, args, numbers)
    }

    /// The number that is returned, if there is one.
    fn returned(&self, value: &Option<MiOperand>) -> Option<u128>
        ensures { result ≡ returned_number self.now.seen value.now }
    {
        match value {
            Some(operand) => Some(self.number(operand)),
            None => None,
        }
    }

    /// The frame that runs goes on after its call, whose result has a number if there are both.
    fn go_on_after_call(&mut self, code: &Code, n: Option<u128>) -> Progress
        requires { self.old.seen.frame.place + 1 < 2 ^ 64 }
        ensures { IsOutcome (Goes (with_frame self.old (returned_to code.now self.old.seen.frame n)).seen []) result self.new }
    {
        match (register_at(code, self.func(), self.place()), n) {
            (Some(to), Some(n)) => self.set(to as usize, n),
            _ => {}
        }
        self.go_on()
    }

    /// The frame that runs ends: its caller goes on, or it was the last one, which ends the run ("'ret' Instruction").
    #[tactic(auto, unfolding(crate::specs::CallSteps::ret_step))]
    pub fn ret(&mut self, code: &Code, value: &Option<MiOperand>) -> Progress
        requires { self.old.seen.task ≡ 0 }
        ensures { (setting : MachineSetting) → setting.code ≡ code.now → IsOutcome (ret_step setting self.old.seen value.now) result self.new }
    {
        let n = self.returned(value);
        if self.pop_frame() {
            return self.go_on_after_call(code, n);
        }
        self.finish(n)
    }
}
