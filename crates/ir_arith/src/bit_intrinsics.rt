//! The intrinsics on bits, and the integer intrinsics without overflow.
ghost use Rattle.std.specs.Prelude.{◌≡◌, ◌+◌, ◌-◌, ◌*◌, ◌/◌, ◌%◌, ◌^◌, ◌<◌, ◌≤◌};
ghost use Rattle.hw_base.specs.ByteSwap.{HasPairs};
ghost use Rattle.ir_arith.specs.BitIntrinsics.{bits_result, bswap_result, ctpop_result, ctlz_result, cttz_result, fshl_result, fshr_result, smin_result, smax_result, abs_result};

use crate::twos_complement::{signed, wrap};
use hw_base::BitOp;

/// The result of an intrinsic at a width of 1 to 128 bits (LLVM Language Reference, "Bit Manipulation Intrinsics",
/// "Standard C/C++ Library Intrinsics" and "'llvm.expect' Intrinsic"). Arguments that the intrinsic doesn't have, the
/// flag of `ctlz`, `cttz` and `abs`, and the second argument of `expect` are ignored. Nothing is said of `bswap` at a
/// width that isn't a multiple of 16.
pub fn bits(op: BitOp, width: u32, a: u128, b: u128, c: u128) -> u128
    requires from_1 { 1 ≤ width }
    requires to_128 { width ≤ 128 }
    requires a_below { a < 2 ^ width }
    requires b_below { b < 2 ^ width }
    requires c_below { c < 2 ^ width }
    ensures value { HasPairs op width → result ≡ bits_result op width a b c }
    ensures below { HasPairs op width → result < 2 ^ width }
{
    match op {
        BitOp::BSwap => bswap(width, a),
        BitOp::CtPop => ctpop(width, a),
        BitOp::CtLz => ctlz(width, a),
        BitOp::CtTz => cttz(width, a),
        BitOp::FShl => fshl(width, a, b, c),
        BitOp::FShr => fshr(width, a, b, c),
        BitOp::SMin => smin(width, a, b),
        BitOp::SMax => smax(width, a, b),
        BitOp::UMin => a.min(b),
        BitOp::UMax => a.max(b),
        BitOp::Abs => abs(width, a),
        BitOp::Expect => a,
    }
}

#[tactic(auto, using(crate::proofs::ByteLaws::swap_bytes_shr, crate::proofs::ByteLaws::shr_to_width))]
fn bswap(width: u32, a: u128) -> u128
    requires from_1 { 1 ≤ width }
    requires to_128 { width ≤ 128 }
    requires a_below { a < 2 ^ width }
    ensures value { width % 16 ≡ 0 → result ≡ bswap_result width a }
    ensures below { width % 16 ≡ 0 → result < 2 ^ width }
{
    a.swap_bytes() >> (128 - width)
}

#[tactic(auto, using(crate::proofs::CountLaws::ones_among))]
fn ctpop(width: u32, a: u128) -> u128
    requires { a < 2 ^ width }
    ensures value { result ≡ ctpop_result width a }
    ensures below { result < 2 ^ width }
{
    a.count_ones() as u128
}

#[tactic(auto, using(crate::proofs::CountLaws::leading_zeros_within, crate::proofs::CountLaws::leading_zeros_at, crate::proofs::CountLaws::leading_zeros_below))]
fn ctlz(width: u32, a: u128) -> u128
    requires to_128 { width ≤ 128 }
    requires a_below { a < 2 ^ width }
    ensures value { result ≡ ctlz_result width a }
    ensures below { result < 2 ^ width }
{
    (a.leading_zeros() - (128 - width)) as u128
}

#[tactic(auto, using(crate::proofs::CountLaws::trailing_zeros_among, crate::proofs::CountLaws::min_below_pow))]
fn cttz(width: u32, a: u128) -> u128
    requires { width ≤ 128 }
    ensures value { result ≡ cttz_result width a }
    ensures below { result < 2 ^ width }
{
    a.trailing_zeros().min(width) as u128
}

/// The low bits of a, moved up by a number of places, above the high bits of b.
#[tactic(auto, using(crate::proofs::FunnelLaws::joined_value, crate::proofs::FunnelLaws::joined_below))]
fn joined(width: u32, a: u128, b: u128, places: u32) -> u128
    requires to_128 { width ≤ 128 }
    requires b_below { b < 2 ^ width }
    requires from_1 { 1 ≤ places }
    requires inside { places < width }
    ensures value { result ≡ a * 2 ^ places % 2 ^ width + b / 2 ^ (width - places) }
    ensures below { result < 2 ^ width }
{
    wrap(width, a << places) | b >> (width - places)
}

#[tactic(auto, using(crate::proofs::FunnelLaws::fshl_result_none, crate::proofs::FunnelLaws::fshl_result_some))]
fn fshl(width: u32, a: u128, b: u128, c: u128) -> u128
    requires from_1 { 1 ≤ width }
    requires to_128 { width ≤ 128 }
    requires a_below { a < 2 ^ width }
    requires b_below { b < 2 ^ width }
    ensures value { result ≡ fshl_result width a b c }
    ensures below { result < 2 ^ width }
{
    let places = (c % width as u128) as u32;
    if places == 0 {
        a
    } else {
        joined(width, a, b, places)
    }
}

#[tactic(auto, using(crate::proofs::FunnelLaws::fshr_result_none, crate::proofs::FunnelLaws::fshr_result_some))]
fn fshr(width: u32, a: u128, b: u128, c: u128) -> u128
    requires from_1 { 1 ≤ width }
    requires to_128 { width ≤ 128 }
    requires a_below { a < 2 ^ width }
    requires b_below { b < 2 ^ width }
    ensures value { result ≡ fshr_result width a b c }
    ensures below { result < 2 ^ width }
{
    let places = (c % width as u128) as u32;
    if places == 0 {
        b
    } else {
        joined(width, a, b, width - places)
    }
}

fn smin(width: u32, a: u128, b: u128) -> u128
    requires from_1 { 1 ≤ width }
    requires to_128 { width ≤ 128 }
    requires a_below { a < 2 ^ width }
    requires b_below { b < 2 ^ width }
    ensures value { result ≡ smin_result width a b }
    ensures below { result < 2 ^ width }
{
    if signed(width, a) <= signed(width, b) {
        a
    } else {
        b
    }
}

fn smax(width: u32, a: u128, b: u128) -> u128
    requires from_1 { 1 ≤ width }
    requires to_128 { width ≤ 128 }
    requires a_below { a < 2 ^ width }
    requires b_below { b < 2 ^ width }
    ensures value { result ≡ smax_result width a b }
    ensures below { result < 2 ^ width }
{
    if signed(width, a) <= signed(width, b) {
        b
    } else {
        a
    }
}

fn abs(width: u32, a: u128) -> u128
    requires from_1 { 1 ≤ width }
    requires to_128 { width ≤ 128 }
    requires a_below { a < 2 ^ width }
    ensures value { result ≡ abs_result width a }
    ensures below { result < 2 ^ width }
{
    signed(width, a).unsigned_abs()
}
