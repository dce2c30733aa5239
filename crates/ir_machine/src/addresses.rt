ghost use Rattle.std.specs.Prelude.{◌≡◌, ◌+◌, ◌%◌, ◌^◌, ◌<◌, ◌≤◌, All};
ghost use Rattle.ir_arith.specs.TwosComplement.{signed_of, unsigned_of};
ghost use Rattle.ir_machine.specs.AddressSteps.{gep_step, step_bytes, stepped_address};
ghost use Rattle.ir_machine.specs.Built.{IsBuiltStep};
ghost use Rattle.ir_machine.specs.RunStates.{IsPlainOutcome};

use crate::progress::Progress;
use crate::run::Run;
use hw_base::CastOp;
use ir_arith::{cast, wrap};
use mi_code::{IndexStep, IndexStepList, MiOperand};

/// A number of a width of 1 to 128 bits, with its sign, in 64 bits.
fn signed_index(width: u32, n: u128) -> u128
    requires from_1 { 1 ≤ width }
    requires to_128 { width ≤ 128 }
    requires below { n < 2 ^ width }
    ensures value { result ≡ unsigned_of 64 (signed_of width n) }
    ensures below { result < 2 ^ 64 }
{
    if width < 64 {
        cast(CastOp::SExt, width, 64, n)
    } else {
        wrap(64, n)
    }
}

impl Run {
    /// What an index adds to an address, modulo 2^64.
    fn step_bytes(&self, step: &IndexStep) -> u64
        requires { IsBuiltStep step.now }
        ensures { result ≡ step_bytes self.now.seen step.now % 2 ^ 64 }
    {
        match *step {
            IndexStep::Scaled { value, width, size } => {
                let index = signed_index(width, self.integer(width, &value)) as u64;
                index.wrapping_mul(size)
            }
            IndexStep::Offset(off) => off,
        }
    }

    /// An address after all steps, modulo 2^64.
    #[tactic(auto, unfolding(crate::specs::AddressSteps::stepped_address))]
    fn stepped_address(&self, base: u64, steps: &[IndexStep]) -> u64
        requires { All IsBuiltStep steps.now }
        ensures { result ≡ stepped_address self.now.seen base steps.now }
    {
        let mut at = base;
        let mut rest = steps;
        while let [step, after @ ..] = rest {
            at = at.wrapping_add(self.step_bytes(step));
            rest = after;
        }
        at
    }

    /// The address after the steps of a `getelementptr` ("'getelementptr' Instruction").
    #[tactic(auto, unfolding(crate::specs::AddressSteps::gep_step))]
    pub fn gep(&mut self, to: u32, base: &MiOperand, indices: &IndexStepList) -> Progress
        requires steps { All IsBuiltStep indices.now }
        requires place { self.old.seen.frame.place + 1 < 2 ^ 64 }
        ensures { IsPlainOutcome (gep_step self.old.seen to base.now indices.now) result self.new }
    {
        let address = self.stepped_address(self.pointer(base), indices.as_slice());
        self.give(to, address as u128)
    }
}
