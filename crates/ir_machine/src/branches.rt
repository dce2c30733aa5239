ghost use Rattle.std.specs.Prelude.{◌≡◌, ℕ, ◌+◌, ◌-◌, ◌^◌, ◌<◌, ◌≤◌, length, map, OnOk, OnErr};
ghost use Rattle.hw_base.specs.Bits.{is_set as is_set_in};
ghost use Rattle.ir_machine.specs.State.{MachineSeen};
ghost use Rattle.ir_machine.specs.Operands.{number_in};
ghost use Rattle.ir_machine.specs.RunStates.{IsOutcome, IsPlainOutcome, moves_with, with_frame};
ghost use Rattle.ir_machine.specs.BranchSteps.{br_step, br_if_step, switch_step, unreachable_step, case_for, with_registers};

use crate::progress::Progress;
use crate::run::Run;
use hw_base::{OutOfMemory, Site, Trap};
use mi_code::{Edge, MiCase, MiCaseList, MiOperand, Move};

/// The edge of the first case with a number, or the other one.
#[tactic(auto, unfolding(crate::specs::BranchSteps::case_for))]
fn case_for<'a>(n: u128, other: &'a Edge, cases: &'a [MiCase]) -> &'a Edge
    ensures { result.now ≡ case_for n other.now cases.now }
{
    let mut rest = cases;
    while let [case, after @ ..] = rest {
        if case.value == n {
            return &case.edge;
        }
        rest = after;
    }
    other
}

impl Run {
    /// Whether the lowest bit of an operand is set.
    pub fn is_set(&self, operand: &MiOperand) -> bool
        ensures { result ≡ is_set_in (number_in self.now.seen operand.now) }
    {
        self.number(operand) % 2 == 1
    }

    /// The numbers that moves read, in order.
    fn read_moves(&self, moves: &[Move], numbers: &mut Vec<u128>) -> Result<(), OutOfMemory>
        ensures { OnOk result (numbers.new.items ≡ map (λ (m : Move). number_in self.now.seen m.value) moves.now) }
    {
        numbers.clear();
        let mut rest = moves;
        while let [m, after @ ..] = rest {
            match numbers.push(self.number(&m.value)) {
                Ok(()) => rest = after,
                Err(_) => return Err(OutOfMemory),
            }
        }
        Ok(())
    }

    /// The registers of moves get their numbers, one after the other.
    #[tactic(auto, unfolding(crate::specs::BranchSteps::with_registers))]
    fn write_moves(&mut self, moves: &[Move], numbers: &[u128])
        ensures { self.new ≡ with_frame self.old (with_registers self.old.seen.frame (moves_with moves.now numbers.now)) }
    {
        let mut rest = moves;
        let mut values = numbers;
        while let [m, after @ ..] = rest {
            let [n, others @ ..] = values else {
                return;
            };
            self.set(m.to as usize, *n);
            rest = after;
            values = others;
        }
    }

    /// The task goes along an edge, with its moves at once.
    #[tactic(auto, unfolding(crate::specs::BranchSteps::br_step))]
    pub fn jump(&mut self, edge: &Edge, numbers: &mut Vec<u128>) -> Progress
        ensures { IsOutcome (br_step self.old.seen edge.now) result self.new }
    {
        match self.read_moves(edge.moves.as_slice(), numbers) {
            Ok(()) => {}
            Err(OutOfMemory) => return Progress::NoMemory,
        }
        self.write_moves(edge.moves.as_slice(), numbers.as_slice());
        self.go_to(edge.place as usize);
        Progress::Ran
    }

    /// One of two edges, by a condition's lowest bit ("'br' Instruction").
    #[tactic(auto, unfolding(crate::specs::BranchSteps::br_step, crate::specs::BranchSteps::br_if_step))]
    pub fn branch(
        &mut self,
        cond: &MiOperand,
        yes: &Edge,
        no: &Edge,
        numbers: &mut Vec<u128>,
    ) -> Progress
        ensures { IsOutcome (br_if_step self.old.seen cond.now yes.now no.now) result self.new }
    {
        if self.is_set(cond) {
            self.jump(yes, numbers)
        } else {
            self.jump(no, numbers)
        }
    }

    /// The edge of the first case with the operand's number, or the other one ("'switch' Instruction").
    #[tactic(auto, unfolding(crate::specs::BranchSteps::br_step, crate::specs::BranchSteps::switch_step))]
    pub fn switch(
        &mut self,
        width: u32,
        on: &MiOperand,
        other: &Edge,
        cases: &MiCaseList,
        numbers: &mut Vec<u128>,
    ) -> Progress
        requires from_1 { 1 ≤ width }
        requires to_128 { width ≤ 128 }
        ensures { IsOutcome (switch_step self.old.seen width on.now other.now cases.now) result self.new }
    {
        let n = self.integer(width, on);
        let edge = case_for(n, other, cases.as_slice());
        self.jump(edge, numbers)
    }

    /// An `unreachable` traps.
    #[tactic(auto, unfolding(crate::specs::BranchSteps::unreachable_step))]
    pub fn unreachable(&mut self, site: Site) -> Progress
        requires { length self.old.seen.shared.chains < 2 ^ 32 - 1 }
        ensures { IsPlainOutcome (unreachable_step self.old.seen site) result self.new }
    {
        self.trap(site, Trap::Unreachable)
    }
}
