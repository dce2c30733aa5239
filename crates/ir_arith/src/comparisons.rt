//! The condition codes of integer comparisons.
ghost use Rattle.std.specs.Prelude.{◌≡◌, ◌^◌, ◌<◌, ◌≤◌};
ghost use Rattle.ir_arith.specs.Comparison.{compare_result};

use crate::twos_complement::signed;
use hw_base::Pred;

/// Whether a condition holds of two values of a width of 1 to 128 bits (LLVM Language Reference, "'icmp' Instruction").
pub fn compare(pred: Pred, width: u32, a: u128, b: u128) -> bool
    requires from_1 { 1 ≤ width }
    requires to_128 { width ≤ 128 }
    requires a_below { a < 2 ^ width }
    requires b_below { b < 2 ^ width }
    ensures { result ≡ compare_result pred width a b }
{
    match pred {
        Pred::Eq => a == b,
        Pred::Ne => a != b,
        Pred::Ugt => a > b,
        Pred::Uge => a >= b,
        Pred::Ult => a < b,
        Pred::Ule => a <= b,
        Pred::Sgt => signed(width, a) > signed(width, b),
        Pred::Sge => signed(width, a) >= signed(width, b),
        Pred::Slt => signed(width, a) < signed(width, b),
        Pred::Sle => signed(width, a) <= signed(width, b),
    }
}
