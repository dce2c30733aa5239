ghost use Rattle.std.specs.Prelude.{◌≡◌, ℕ, ◌+◌, ◌-◌, ◌*◌, ◌^◌, ◌<◌, ◌≤◌, length};
ghost use Rattle.ir_core.specs.Externals.{IsWidth};
ghost use Rattle.ir_machine.specs.MemorySteps.{load_step, store_step};
ghost use Rattle.ir_machine.specs.Operands.{bits_in, bytes_in};
ghost use Rattle.ir_machine.specs.RunStates.{IsPlainOutcome};

use crate::arithmetic::bits_in;
use crate::progress::Progress;
use crate::run::Run;
use hw_base::{Access, Site};
use ir_arith::wrap;
use mi_code::{MiOperand, Width};

/// The bytes of a number in memory: its bits in whole bytes.
fn bytes_in(width: Width) -> u32
    requires { IsWidth (bits_in width) }
    ensures bytes { result ≡ bytes_in width }
    ensures some { 1 ≤ result }
    ensures at_most_16 { result ≤ 16 }
    ensures bits { bits_in width ≤ 8 * result }
{
    bits_in(width).div_ceil(8)
}

impl Run {
    /// A load of an integer or a pointer ("'load' Instruction").
    #[tactic(auto, unfolding(crate::specs::MemorySteps::load_step))]
    pub fn load(&mut self, site: Site, width: Width, to: u32, at: &MiOperand) -> Progress
        requires width { IsWidth (bits_in width) }
        requires place { self.old.seen.frame.place + 1 < 2 ^ 64 }
        requires chains { length self.old.seen.shared.chains < 2 ^ 32 - 1 }
        ensures { IsPlainOutcome (load_step self.old.seen site width to at.now) result self.new }
    {
        let number = self.pointer(at);
        let n = bytes_in(width);
        match self.memory.read(number, n) {
            Ok(x) => self.give(to, wrap(bits_in(width), x)),
            Err(fault) => self.refused(site, Access::Read, n as u64, number, fault),
        }
    }

    /// A store of an integer or a pointer ("'store' Instruction").
    #[tactic(auto, unfolding(crate::specs::MemorySteps::store_step))]
    pub fn store(&mut self, site: Site, width: Width, value: &MiOperand, at: &MiOperand) -> Progress
        requires width { IsWidth (bits_in width) }
        requires place { self.old.seen.frame.place + 1 < 2 ^ 64 }
        requires chains { length self.old.seen.shared.chains < 2 ^ 32 - 1 }
        ensures { IsPlainOutcome (store_step self.old.seen site width value.now at.now) result self.new }
    {
        let number = self.pointer(at);
        let n = bytes_in(width);
        let x = self.integer(bits_in(width), value);
        match self.memory.write(number, n, x) {
            Ok(()) => self.go_on(),
            Err(fault) => self.refused(site, Access::Write, n as u64, number, fault),
        }
    }
}
