//! The conversions between integer types.
ghost use Rattle.std.specs.Prelude.{◌≡◌, ◌^◌, ◌<◌, ◌≤◌};
ghost use Rattle.ir_arith.specs.Conversion.{cast_result, IsConversion};

use crate::twos_complement::{signed, unsigned, wrap};
use hw_base::CastOp;

/// A value of a type of `from` bits in a type of `to` bits, both 1 to 128 (LLVM Language Reference, "Conversion
/// Operations"). Nothing is said of a `trunc` to a type that isn't narrower, nor of a `zext` or `sext` to one that isn't
/// wider.
#[tactic(auto, using(crate::proofs::Residues::below_wider))]
pub fn cast(op: CastOp, from: u32, to: u32, a: u128) -> u128
    requires from_1 { 1 ≤ from }
    requires from_to_128 { from ≤ 128 }
    requires to_from_1 { 1 ≤ to }
    requires to_128 { to ≤ 128 }
    requires a_below { a < 2 ^ from }
    ensures value { IsConversion op from to → result ≡ cast_result op from to a }
    ensures below { IsConversion op from to → result < 2 ^ to }
{
    match op {
        CastOp::Trunc => wrap(to, a),
        CastOp::ZExt => a,
        CastOp::SExt => unsigned(to, signed(from, a)),
    }
}
