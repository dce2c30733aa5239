ghost use Rattle.std.specs.Prelude.{◌≡◌, ℕ, ◌+◌, ◌-◌, ◌^◌, ◌<◌, ◌≤◌, length, None};
ghost use Rattle.std.specs.Option.{ForSome};
ghost use Rattle.hw_base.specs.declared.endings.Input.{Input};
ghost use Rattle.ir_machine.specs.Built.{IsOtherCheck};
ghost use Rattle.ir_machine.specs.CheckSteps.{free_check_step, one_step, sized_step, str_step};
ghost use Rattle.ir_machine.specs.InstructionStep.{operation_step};
ghost use Rattle.ir_machine.specs.Operands.{pointer_in};
ghost use Rattle.ir_machine.specs.RunStates.{IsPlainOutcome, passed};
ghost use Rattle.ir_machine.specs.State.{MachineOutcome, MachineSeen, MachineSetting};

use crate::found::Found;
use crate::progress::Progress;
use crate::run::Run;
use hw_base::{Access, Site};
use ir_lib::check_string;
use mi_code::{MiOp, MiOperand};

impl Run {
    /// The check of an access of so many bytes in the granule of its address ("Memory accesses"). The result is none if it passes,
    /// and the task is at the next instruction then.
    #[inline(always)]
    #[tactic(auto, unfolding(crate::specs::CheckSteps::one_step))]
    pub fn check_one(
        &mut self,
        site: Site,
        at: &MiOperand,
        n: u32,
        access: Access,
    ) -> Option<Progress>
        requires some { 1 ≤ n }
        requires place { self.old.seen.frame.place + 1 < 2 ^ 64 }
        requires chains { length self.old.seen.shared.chains < 2 ^ 32 - 1 }
        ensures passed { result ≡ None → self.new ≡ passed self.old }
        ensures passes { result ≡ None → (next : MachineSeen → MachineOutcome)
            → one_step self.old.seen site at.now n access next ≡ next self.new.seen }
        ensures fails { ForSome result (λ progress. (next : MachineSeen → MachineOutcome)
            → IsPlainOutcome (one_step self.old.seen site at.now n access next) progress self.new) }
    {
        let number = self.pointer(at);
        match self.memory.check_one(number, n as u64) {
            None => {
                self.go_to(self.place() + 1);
                None
            }
            Some(found) => {
                Some(self.report(site, access, n as u64, number, Found::Memory(found)))
            }
        }
    }

    /// The check of an access of so many bytes, granule by granule ("Memory accesses"). The result is none if it passes, and the task
    /// is at the next instruction then.
    #[tactic(auto, unfolding(crate::specs::CheckSteps::sized_step))]
    fn check_sized(
        &mut self,
        site: Site,
        at: &MiOperand,
        n: &MiOperand,
        access: Access,
    ) -> Option<Progress>
        requires place { self.old.seen.frame.place + 1 < 2 ^ 64 }
        requires chains { length self.old.seen.shared.chains < 2 ^ 32 - 1 }
        ensures passed { result ≡ None → self.new ≡ passed self.old }
        ensures passes { result ≡ None → (next : MachineSeen → MachineOutcome)
            → sized_step self.old.seen site at.now n.now access next ≡ next self.new.seen }
        ensures fails { ForSome result (λ progress. (next : MachineSeen → MachineOutcome)
            → IsPlainOutcome (sized_step self.old.seen site at.now n.now access next) progress self.new) }
    {
        let number = self.pointer(at);
        let size = self.integer(64, n) as u64;
        match self.memory.check(number, size) {
            Ok(()) => {
                self.go_to(self.place() + 1);
                None
            }
            Err(found) => Some(self.report(site, access, size, number, Found::Memory(found))),
        }
    }

    /// The check of the reads of a string, byte by byte up to its first 0. The result is none if it passes, and the task is at the
    /// next instruction then.
    #[tactic(auto, unfolding(crate::specs::CheckSteps::str_step))]
    fn check_text(&mut self, site: Site, at: &MiOperand) -> Option<Progress>
        requires place { self.old.seen.frame.place + 1 < 2 ^ 64 }
        requires chains { length self.old.seen.shared.chains < 2 ^ 32 - 1 }
        ensures passed { result ≡ None → self.new ≡ passed self.old }
        ensures passes { result ≡ None → (next : MachineSeen → MachineOutcome)
            → str_step self.old.seen site (pointer_in self.old.seen at.now) next ≡ next self.new.seen }
        ensures fails { ForSome result (λ progress. (next : MachineSeen → MachineOutcome)
            → IsPlainOutcome (str_step self.old.seen site (pointer_in self.old.seen at.now) next) progress self.new) }
    {
        let number = self.pointer(at);
        match check_string(&self.memory, number) {
            Ok(_) => {
                self.go_to(self.place() + 1);
                None
            }
            Err(fault) => {
                Some(self.report(site, Access::Read, 1, fault.at, Found::Memory(fault.found)))
            }
        }
    }

    /// The check of a free of a number: it passes if a free would. The result is none if it passes, and the task is at the next
    /// instruction then.
    #[inline(always)]
    #[tactic(auto, unfolding(crate::specs::CheckSteps::free_check_step))]
    fn check_free(&mut self, site: Site, at: &MiOperand) -> Option<Progress>
        requires place { self.old.seen.frame.place + 1 < 2 ^ 64 }
        requires chains { length self.old.seen.shared.chains < 2 ^ 32 - 1 }
        ensures passed { result ≡ None → self.new ≡ passed self.old }
        ensures passes { result ≡ None → (next : MachineSeen → MachineOutcome)
            → free_check_step self.old.seen site (pointer_in self.old.seen at.now) next ≡ next self.new.seen }
        ensures fails { ForSome result (λ progress. (next : MachineSeen → MachineOutcome)
            → IsPlainOutcome (free_check_step self.old.seen site (pointer_in self.old.seen at.now) next) progress self.new) }
    {
        let number = self.pointer(at);
        match self.heap.may_free(number) {
            Ok(()) => {
                self.go_to(self.place() + 1);
                None
            }
            Err(found) => Some(self.report(site, Access::Free, 0, number, Found::Block(found))),
        }
    }
}

/// A check other than that of one granule. The result is none if it passes, and the task is at the next instruction then.
pub fn other_check(run: &mut Run, site: Site, op: &MiOp) -> Option<Progress>
    requires check { IsOtherCheck op.now }
    requires place { run.old.seen.frame.place + 1 < 2 ^ 64 }
    requires chains { length run.old.seen.shared.chains < 2 ^ 32 - 1 }
    ensures passed { result ≡ None → run.new ≡ passed run.old }
    ensures passes { result ≡ None → (setting : MachineSetting) (given : Input) (next : MachineSeen → MachineOutcome)
        → operation_step setting given site next run.old.seen op.now ≡ next run.new.seen }
    ensures fails { ForSome result (λ progress. (setting : MachineSetting) (given : Input) (next : MachineSeen → MachineOutcome)
        → IsPlainOutcome (operation_step setting given site next run.old.seen op.now) progress run.new) }
{
    match op {
        MiOp::Sized { at, n, access } => run.check_sized(site, at, n, *access),
        MiOp::Str { at } => run.check_text(site, at),
        MiOp::FreeCheck { at } => run.check_free(site, at),
        _ => unreachable!(),
    }
}
