ghost use Rattle.std.specs.Prelude.{◌≡◌, ℕ, ◌+◌, ◌-◌, ◌^◌, ◌<◌, length};
ghost use Rattle.ir_machine.specs.Operands.{int_argument};
ghost use Rattle.ir_machine.specs.RunStates.{IsOutcome, IsPlainOutcome};
ghost use Rattle.ir_machine.specs.TextFunctions.{putchar_step, exit_step, abort_step};

use crate::arithmetic::argument_at;
use crate::progress::{Ending, Progress};
use crate::run::Run;
use hw_base::{Site, Trap};
use mi_code::MiOperandList;

impl Run {
    /// `putchar` prints the low byte of its argument, which is the result.
    #[tactic(auto, unfolding(crate::specs::TextFunctions::putchar_step))]
    pub fn putchar(&mut self, to: Option<u32>, args: &MiOperandList) -> Progress
        requires { self.old.seen.frame.place + 1 < 2 ^ 64 }
        ensures { IsOutcome (putchar_step self.old.seen to (int_argument self.old.seen args.now 0)) result self.new }
    {
        let c = self.integer(32, &argument_at(args, 0));
        let byte = (c % 256) as u8;
        self.print_byte(to, byte)
    }

    /// `exit` ends the run with its argument.
    #[tactic(auto, unfolding(crate::specs::TextFunctions::exit_step))]
    pub fn exit(&mut self, args: &MiOperandList) -> Progress
        ensures { IsPlainOutcome (exit_step self.old.seen (int_argument self.old.seen args.now 0)) result self.new }
    {
        let value = self.integer(32, &argument_at(args, 0));
        self.end(Ending::Exit(value as u32))
    }

    /// `abort` and `llvm.trap` trap.
    #[tactic(auto, unfolding(crate::specs::TextFunctions::abort_step))]
    pub fn abort(&mut self, site: Site) -> Progress
        requires { length self.old.seen.shared.chains < 2 ^ 32 - 1 }
        ensures { IsPlainOutcome (abort_step self.old.seen site) result self.new }
    {
        self.trap(site, Trap::Abort)
    }
}
