//! The binary operators on integers.
ghost use Rattle.std.specs.Prelude.{◌≡◌, ◌^◌, ◌<◌, ◌≤◌, IfOk};
ghost use Rattle.ir_arith.specs.Binary.{binary_result, add_result, sub_result, mul_result, udiv_result, urem_result, sdiv_result, srem_result, is_least_by_minus_one, shl_result, lshr_result, ashr_result};

use crate::twos_complement::{least, ones, signed, unsigned, wrap};
use hw_base::{BinOp, Trap};

/// The result of a binary operator on two values of a width of 1 to 128 bits (LLVM Language Reference, "Binary
/// Operations" and "Bitwise Binary Operations"; flags are ignored). `DivZero` comes exactly for a division or remainder
/// by 0, and `DivOverflow` exactly for `sdiv` or `srem` of the least number by -1.
#[tactic(auto, using(std::proofs::lemmas::Nat::or_lt, std::proofs::lemmas::Nat::xor_lt))]
pub fn binary(op: BinOp, width: u32, a: u128, b: u128) -> Result<u128, Trap>
    requires from_1 { 1 ≤ width }
    requires to_128 { width ≤ 128 }
    requires a_below { a < 2 ^ width }
    requires b_below { b < 2 ^ width }
    ensures value { result ≡ binary_result op width a b }
    ensures below { IfOk result (λ r. r < 2 ^ width) }
{
    match op {
        BinOp::Add => Ok(add(width, a, b)),
        BinOp::Sub => Ok(sub(width, a, b)),
        BinOp::Mul => Ok(mul(width, a, b)),
        BinOp::UDiv => udiv(width, a, b),
        BinOp::SDiv => sdiv(width, a, b),
        BinOp::URem => urem(width, a, b),
        BinOp::SRem => srem(width, a, b),
        BinOp::Shl => Ok(shl(width, a, b)),
        BinOp::LShr => Ok(lshr(width, a, b)),
        BinOp::AShr => Ok(ashr(width, a, b)),
        BinOp::And => Ok(a & b),
        BinOp::Or => Ok(a | b),
        BinOp::Xor => Ok(a ^ b),
    }
}

/// The sum modulo 2^width.
#[tactic(auto, using(crate::proofs::Residues::mod_128), unfolding(crate::specs::Binary::add_result))]
pub fn add(width: u32, a: u128, b: u128) -> u128
    requires from_1 { 1 ≤ width }
    requires to_128 { width ≤ 128 }
    requires a_below { a < 2 ^ width }
    requires b_below { b < 2 ^ width }
    ensures value { result ≡ add_result width a b }
    ensures below { result < 2 ^ width }
{
    wrap(width, a.wrapping_add(b))
}

/// The difference modulo 2^width.
#[tactic(auto, using(crate::proofs::BinaryLaws::mod_128_sub))]
pub fn sub(width: u32, a: u128, b: u128) -> u128
    requires from_1 { 1 ≤ width }
    requires to_128 { width ≤ 128 }
    requires a_below { a < 2 ^ width }
    requires b_below { b < 2 ^ width }
    ensures value { result ≡ sub_result width a b }
    ensures below { result < 2 ^ width }
{
    wrap(width, a.wrapping_sub(b))
}

/// The product modulo 2^width.
#[tactic(auto, using(crate::proofs::Residues::mod_128), unfolding(crate::specs::Binary::mul_result))]
pub fn mul(width: u32, a: u128, b: u128) -> u128
    requires from_1 { 1 ≤ width }
    requires to_128 { width ≤ 128 }
    ensures value { result ≡ mul_result width a b }
    ensures below { result < 2 ^ width }
{
    wrap(width, a.wrapping_mul(b))
}

#[tactic(auto, unfolding(crate::specs::Binary::udiv_result))]
fn udiv(width: u32, a: u128, b: u128) -> Result<u128, Trap>
    requires { a < 2 ^ width }
    ensures value { result ≡ udiv_result a b }
    ensures below { IfOk result (λ r. r < 2 ^ width) }
{
    if b == 0 {
        return Err(Trap::DivZero);
    }
    Ok(a / b)
}

#[tactic(auto, unfolding(crate::specs::Binary::urem_result))]
fn urem(width: u32, a: u128, b: u128) -> Result<u128, Trap>
    requires { a < 2 ^ width }
    ensures value { result ≡ urem_result a b }
    ensures below { IfOk result (λ r. r < 2 ^ width) }
{
    if b == 0 {
        return Err(Trap::DivZero);
    }
    Ok(a % b)
}

/// Whether the least number is divided by -1.
fn is_out_of_range(width: u32, a: u128, b: u128) -> bool
    requires from_1 { 1 ≤ width }
    requires to_128 { width ≤ 128 }
    requires a_below { a < 2 ^ width }
    requires b_below { b < 2 ^ width }
    ensures { result ≡ is_least_by_minus_one width a b }
{
    a == least(width) && b == ones(width)
}

fn sdiv(width: u32, a: u128, b: u128) -> Result<u128, Trap>
    requires from_1 { 1 ≤ width }
    requires to_128 { width ≤ 128 }
    requires a_below { a < 2 ^ width }
    requires b_below { b < 2 ^ width }
    ensures value { result ≡ sdiv_result width a b }
    ensures below { IfOk result (λ r. r < 2 ^ width) }
{
    if b == 0 {
        return Err(Trap::DivZero);
    }
    if is_out_of_range(width, a, b) {
        return Err(Trap::DivOverflow);
    }
    Ok(unsigned(width, signed(width, a) / signed(width, b)))
}

fn srem(width: u32, a: u128, b: u128) -> Result<u128, Trap>
    requires from_1 { 1 ≤ width }
    requires to_128 { width ≤ 128 }
    requires a_below { a < 2 ^ width }
    requires b_below { b < 2 ^ width }
    ensures value { result ≡ srem_result width a b }
    ensures below { IfOk result (λ r. r < 2 ^ width) }
{
    if b == 0 {
        return Err(Trap::DivZero);
    }
    if is_out_of_range(width, a, b) {
        return Err(Trap::DivOverflow);
    }
    Ok(unsigned(width, signed(width, a) % signed(width, b)))
}

#[tactic(auto, using(crate::proofs::BinaryLaws::mod_128_shl, crate::proofs::BinaryLaws::shl_result_past))]
fn shl(width: u32, a: u128, b: u128) -> u128
    requires from_1 { 1 ≤ width }
    requires to_128 { width ≤ 128 }
    ensures value { result ≡ shl_result width a b }
    ensures below { result < 2 ^ width }
{
    if b < width as u128 {
        wrap(width, a << b as u32)
    } else {
        0
    }
}

#[tactic(auto, using(crate::proofs::BinaryLaws::lshr_result_inside, crate::proofs::BinaryLaws::lshr_result_past))]
fn lshr(width: u32, a: u128, b: u128) -> u128
    requires from_1 { 1 ≤ width }
    requires to_128 { width ≤ 128 }
    requires a_below { a < 2 ^ width }
    ensures value { result ≡ lshr_result width a b }
    ensures below { result < 2 ^ width }
{
    if b < width as u128 { a >> b as u32 } else { 0 }
}

fn ashr(width: u32, a: u128, b: u128) -> u128
    requires from_1 { 1 ≤ width }
    requires to_128 { width ≤ 128 }
    requires a_below { a < 2 ^ width }
    ensures value { result ≡ ashr_result width a b }
    ensures below { result < 2 ^ width }
{
    let by = if b < width as u128 {
        b as u32
    } else {
        width - 1
    };
    unsigned(width, signed(width, a) >> by)
}
