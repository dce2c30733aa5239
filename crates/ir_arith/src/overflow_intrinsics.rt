//! The arithmetic intrinsics that report whether the exact result is out of range.
ghost use Rattle.std.specs.Prelude.{◌≡◌, ◌^◌, ◌<◌, ◌≤◌, not, true, pos, MatchOption};
ghost use Rattle.ir_arith.specs.TwosComplement.{fits_signed, fits_unsigned};
ghost use Rattle.hw_base.specs.declared.operators.OverOp.{OverOp};
ghost use Rattle.ir_arith.specs.Overflow.{overflow_result};

use crate::binary_operations::{add, mul, sub};
use crate::twos_complement::{is_in_signed_range, ones, signed};
use hw_base::OverOp;

/// What is left of the exact result in a width of 1 to 128 bits, and whether that result is out of range (LLVM Language
/// Reference, "Arithmetic with Overflow Intrinsics").
pub fn overflow(op: OverOp, width: u32, a: u128, b: u128) -> (u128, bool)
    requires from_1 { 1 ≤ width }
    requires to_128 { width ≤ 128 }
    requires a_below { a < 2 ^ width }
    requires b_below { b < 2 ^ width }
    ensures value { result ≡ overflow_result op width a b }
    ensures below { result.0 < 2 ^ width }
{
    match op {
        OverOp::SAdd => sadd(width, a, b),
        OverOp::UAdd => uadd(width, a, b),
        OverOp::SSub => ssub(width, a, b),
        OverOp::USub => usub(width, a, b),
        OverOp::SMul => smul(width, a, b),
        OverOp::UMul => umul(width, a, b),
    }
}

/// Whether a number is outside the signed range of the width. None stands for one that isn't even in that of 128 bits.
fn is_outside_signed(width: u32, exact: Option<i128>) -> bool
    requires from_1 { 1 ≤ width }
    requires to_128 { width ≤ 128 }
    ensures { MatchOption exact (result ≡ true) (λ z. result ≡ not (fits_signed width z)) }
{
    match exact {
        Some(z) => !is_in_signed_range(width, z),
        None => true,
    }
}

/// Whether a number is above the greatest value of the width. None stands for one that is above that of 128 bits.
#[tactic(auto, using(crate::proofs::OverflowLaws::above_ones))]
fn is_outside_unsigned(width: u32, exact: Option<u128>) -> bool
    requires from_1 { 1 ≤ width }
    requires to_128 { width ≤ 128 }
    ensures { MatchOption exact (result ≡ true) (λ n. result ≡ not (fits_unsigned width (pos n))) }
{
    match exact {
        Some(n) => n > ones(width),
        None => true,
    }
}

fn sadd(width: u32, a: u128, b: u128) -> (u128, bool)
    requires from_1 { 1 ≤ width }
    requires to_128 { width ≤ 128 }
    requires a_below { a < 2 ^ width }
    requires b_below { b < 2 ^ width }
    ensures value { result ≡ overflow_result OverOp.SAdd width a b }
    ensures below { result.0 < 2 ^ width }
{
    let is_outside = is_outside_signed(width, signed(width, a).checked_add(signed(width, b)));
    (add(width, a, b), is_outside)
}

fn uadd(width: u32, a: u128, b: u128) -> (u128, bool)
    requires from_1 { 1 ≤ width }
    requires to_128 { width ≤ 128 }
    requires a_below { a < 2 ^ width }
    requires b_below { b < 2 ^ width }
    ensures value { result ≡ overflow_result OverOp.UAdd width a b }
    ensures below { result.0 < 2 ^ width }
{
    let is_outside = is_outside_unsigned(width, a.checked_add(b));
    (add(width, a, b), is_outside)
}

fn ssub(width: u32, a: u128, b: u128) -> (u128, bool)
    requires from_1 { 1 ≤ width }
    requires to_128 { width ≤ 128 }
    requires a_below { a < 2 ^ width }
    requires b_below { b < 2 ^ width }
    ensures value { result ≡ overflow_result OverOp.SSub width a b }
    ensures below { result.0 < 2 ^ width }
{
    let is_outside = is_outside_signed(width, signed(width, a).checked_sub(signed(width, b)));
    (sub(width, a, b), is_outside)
}

fn usub(width: u32, a: u128, b: u128) -> (u128, bool)
    requires from_1 { 1 ≤ width }
    requires to_128 { width ≤ 128 }
    requires a_below { a < 2 ^ width }
    requires b_below { b < 2 ^ width }
    ensures value { result ≡ overflow_result OverOp.USub width a b }
    ensures below { result.0 < 2 ^ width }
{
    let is_outside = a < b;
    (sub(width, a, b), is_outside)
}

fn smul(width: u32, a: u128, b: u128) -> (u128, bool)
    requires from_1 { 1 ≤ width }
    requires to_128 { width ≤ 128 }
    requires a_below { a < 2 ^ width }
    requires b_below { b < 2 ^ width }
    ensures value { result ≡ overflow_result OverOp.SMul width a b }
    ensures below { result.0 < 2 ^ width }
{
    let is_outside = is_outside_signed(width, signed(width, a).checked_mul(signed(width, b)));
    (mul(width, a, b), is_outside)
}

fn umul(width: u32, a: u128, b: u128) -> (u128, bool)
    requires from_1 { 1 ≤ width }
    requires to_128 { width ≤ 128 }
    requires a_below { a < 2 ^ width }
    requires b_below { b < 2 ^ width }
    ensures value { result ≡ overflow_result OverOp.UMul width a b }
    ensures below { result.0 < 2 ^ width }
{
    let is_outside = is_outside_unsigned(width, a.checked_mul(b));
    (mul(width, a, b), is_outside)
}
