ghost use Rattle.std.specs.Prelude.{◌≡◌, ℕ, ◌+◌, ◌-◌, ◌^◌, ◌<◌, ◌≤◌, length};
ghost use Rattle.ir_arith.specs.Conversion.{IsConversion};
ghost use Rattle.hw_base.specs.ByteSwap.{HasPairs};
ghost use Rattle.ir_machine.specs.Operands.{bits_in, argument_at};
ghost use Rattle.ir_machine.specs.RunStates.{IsPlainOutcome};
ghost use Rattle.ir_machine.specs.ArithmeticSteps.{binary_step, icmp_step, cast_step, bits_step, overflow_step, select_step, freeze_step, extract_step};

use crate::progress::Progress;
use crate::run::Run;
use hw_base::{BinOp, BitOp, CastOp, OverOp, Pred, Site};
use mi_code::{MiOperand, MiOperandList, Width};

/// The bits of a number, 64 for a pointer.
pub fn bits_in(width: Width) -> u32
    ensures { result ≡ bits_in width }
{
    match width {
        Width::Int(bits) => bits,
        Width::Ptr => 64,
    }
}

/// The argument at a place, or the number 0.
pub fn argument_at(args: &MiOperandList, k: u64) -> MiOperand
    ensures { result ≡ argument_at args.now k }
{
    match args.get(k) {
        Some(operand) => operand,
        None => MiOperand::Num(0),
    }
}

impl Run {
    /// A binary operator ("Binary Operations"); a division that has no result traps.
    #[tactic(auto, unfolding(crate::specs::ArithmeticSteps::binary_step))]
    pub fn binary(
        &mut self,
        site: Site,
        op: BinOp,
        width: u32,
        to: u32,
        a: &MiOperand,
        b: &MiOperand,
    ) -> Progress
        requires from_1 { 1 ≤ width }
        requires to_128 { width ≤ 128 }
        requires place { self.old.seen.frame.place + 1 < 2 ^ 64 }
        requires chains { length self.old.seen.shared.chains < 2 ^ 32 - 1 }
        ensures { IsPlainOutcome (binary_step self.old.seen site op width to a.now b.now) result self.new }
    {
        let x = self.integer(width, a);
        let y = self.integer(width, b);
        match ir_arith::binary(op, width, x, y) {
            Ok(n) => self.give(to, n),
            Err(trap) => self.trap(site, trap),
        }
    }

    /// A comparison of integers or of pointers as numbers ("'icmp' Instruction").
    #[tactic(auto, unfolding(crate::specs::ArithmeticSteps::icmp_step))]
    pub fn icmp(
        &mut self,
        pred: Pred,
        width: Width,
        to: u32,
        a: &MiOperand,
        b: &MiOperand,
    ) -> Progress
        requires from_1 { 1 ≤ bits_in width }
        requires to_128 { bits_in width ≤ 128 }
        requires place { self.old.seen.frame.place + 1 < 2 ^ 64 }
        ensures { IsPlainOutcome (icmp_step self.old.seen pred width to a.now b.now) result self.new }
    {
        let bits = bits_in(width);
        let x = self.integer(bits, a);
        let y = self.integer(bits, b);
        let holds = ir_arith::compare(pred, bits, x, y);
        self.give(to, if holds { 1 } else { 0 })
    }

    /// A conversion ("Conversion Operations").
    #[tactic(auto, unfolding(crate::specs::ArithmeticSteps::cast_step))]
    pub fn cast(&mut self, op: CastOp, from: u32, width: u32, to: u32, a: &MiOperand) -> Progress
        requires from_1 { 1 ≤ from }
        requires from_to_128 { from ≤ 128 }
        requires to_from_1 { 1 ≤ width }
        requires to_128 { width ≤ 128 }
        requires conversion { IsConversion op from width }
        requires place { self.old.seen.frame.place + 1 < 2 ^ 64 }
        ensures { IsPlainOutcome (cast_step self.old.seen op from width to a.now) result self.new }
    {
        let x = self.integer(from, a);
        self.give(to, ir_arith::cast(op, from, width, x))
    }

    /// An intrinsic on bits ("Bit Manipulation Intrinsics").
    #[tactic(auto, unfolding(crate::specs::ArithmeticSteps::bits_step))]
    pub fn bits(&mut self, op: BitOp, width: u32, to: u32, args: &MiOperandList) -> Progress
        requires from_1 { 1 ≤ width }
        requires to_128 { width ≤ 128 }
        requires pairs { HasPairs op width }
        requires place { self.old.seen.frame.place + 1 < 2 ^ 64 }
        ensures { IsPlainOutcome (bits_step self.old.seen op width to args.now) result self.new }
    {
        let x = self.integer(width, &argument_at(args, 0));
        let y = self.integer(width, &argument_at(args, 1));
        let z = self.integer(width, &argument_at(args, 2));
        self.give(to, ir_arith::bits(op, width, x, y, z))
    }

    /// An intrinsic with overflow: its number, and after it the bit ("Arithmetic with Overflow Intrinsics").
    #[tactic(auto, unfolding(crate::specs::ArithmeticSteps::overflow_step))]
    pub fn overflow(
        &mut self,
        op: OverOp,
        width: u32,
        to: u32,
        a: &MiOperand,
        b: &MiOperand,
    ) -> Progress
        requires from_1 { 1 ≤ width }
        requires to_128 { width ≤ 128 }
        requires place { self.old.seen.frame.place + 1 < 2 ^ 64 }
        ensures { IsPlainOutcome (overflow_step self.old.seen op width to a.now b.now) result self.new }
    {
        let x = self.integer(width, a);
        let y = self.integer(width, b);
        let pair = ir_arith::overflow(op, width, x, y);
        self.set(to as usize, pair.0);
        self.set(to as usize + 1, if pair.1 { 1 } else { 0 });
        self.go_on()
    }

    /// One of two operands, by a condition's lowest bit ("'select' Instruction").
    #[tactic(auto, unfolding(crate::specs::ArithmeticSteps::select_step))]
    pub fn select(&mut self, to: u32, cond: &MiOperand, a: &MiOperand, b: &MiOperand) -> Progress
        requires { self.old.seen.frame.place + 1 < 2 ^ 64 }
        ensures { IsPlainOutcome (select_step self.old.seen to cond.now a.now b.now) result self.new }
    {
        let chosen = if self.is_set(cond) { a } else { b };
        let n = self.number(chosen);
        self.give(to, n)
    }

    /// The operand as it is ("'freeze' Instruction").
    #[tactic(auto, unfolding(crate::specs::ArithmeticSteps::freeze_step))]
    pub fn freeze(&mut self, to: u32, a: &MiOperand) -> Progress
        requires { self.old.seen.frame.place + 1 < 2 ^ 64 }
        ensures { IsPlainOutcome (freeze_step self.old.seen to a.now) result self.new }
    {
        let n = self.number(a);
        self.give(to, n)
    }

    /// A part of a pair ("'extractvalue' Instruction").
    #[tactic(auto, unfolding(crate::specs::ArithmeticSteps::extract_step))]
    pub fn extract(&mut self, to: u32, of: &MiOperand, part: u8) -> Progress
        requires { self.old.seen.frame.place + 1 < 2 ^ 64 }
        ensures { IsPlainOutcome (extract_step self.old.seen to of.now part) result self.new }
    {
        let n = if part == 1 {
            self.second(of)
        } else {
            self.number(of)
        };
        self.give(to, n)
    }
}
