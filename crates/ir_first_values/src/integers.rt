ghost use Rattle.std.specs.Prelude.{◌≡◌, ◌+◌, ◌-◌, ◌/◌, ◌%◌, ◌^◌, ◌<◌, ◌≤◌, Some, IfSome};
ghost use Rattle.ir_core.specs.Layout.{int_store_size};
ghost use Rattle.ir_arith.specs.TwosComplement.{signed_of, unsigned_of};
ghost use Rattle.ir_first_values.specs.Tables.{is_in_width, integer_modulo, integer_in, in_64_bits, index_by, i32_by};

use ir_core::IrType;
use ir_grammar::SpelledInteger;

/// The greatest value of a width.
#[tactic(auto, using(ir_arith::proofs::Residues::ones_of_width))]
fn ones(width: u32) -> u128
    requires from_1 { 1 ≤ width }
    requires to_128 { width ≤ 128 }
    ensures { result ≡ 2 ^ width - 1 }
{
    u128::MAX >> (128 - width)
}

/// The value of a width in which only the sign bit is 1.
fn least(width: u32) -> u128
    requires from_1 { 1 ≤ width }
    requires to_128 { width ≤ 128 }
    ensures { result ≡ 2 ^ (width - 1) }
{
    1 << (width - 1)
}

/// Whether an integer is in range for a width.
fn is_in_width(width: u32, integer: SpelledInteger) -> bool
    ensures { result ≡ is_in_width width integer }
{
    if width == 0 || width > 128 {
        return false;
    }
    if integer.negative {
        integer.magnitude <= least(width)
    } else {
        integer.magnitude <= ones(width)
    }
}

/// What an integer below 0 is modulo 2^width, by its magnitude.
fn negated(width: u32, magnitude: u128) -> u128
    requires from_1 { 1 ≤ width }
    requires to_128 { width ≤ 128 }
    requires in_range { magnitude ≤ 2 ^ (width - 1) }
    ensures { result ≡ (2 ^ width - magnitude) % 2 ^ width }
{
    if magnitude == 0 {
        0
    } else {
        ones(width) - (magnitude - 1)
    }
}

/// The value of an integer of a width, or none if it is out of range.
pub fn integer_in(width: u32, integer: SpelledInteger) -> Option<u128>
    ensures value { result ≡ integer_in width integer }
    ensures below { IfSome result (λ n. n < 2 ^ width) }
{
    if !is_in_width(width, integer) {
        return None;
    }
    if integer.negative {
        Some(negated(width, integer.magnitude))
    } else {
        Some(integer.magnitude)
    }
}

/// A number modulo 2^64.
fn low(n: u128) -> u64
    ensures { result ≡ n % 2 ^ 64 }
{
    (n % (1 << 64)) as u64
}

/// A value of a width, sign-extended or truncated to 64 bits.
fn extended(width: u32, n: u128) -> u64
    requires from_1 { 1 ≤ width }
    requires to_128 { width ≤ 128 }
    requires in_range { n < 2 ^ width }
    ensures { result ≡ unsigned_of 64 (signed_of width n) }
{
    if n < least(width) {
        low(n)
    } else {
        u64::MAX - low(ones(width) - n)
    }
}

/// An integer of a type in 64 bits, or none if the type is no integer type or the integer is out of range for it.
pub fn index_by(ty: Option<IrType>, integer: SpelledInteger) -> Option<u64>
    ensures { result ≡ index_by ty integer }
{
    match ty {
        Some(IrType::Int(width)) => match integer_in(width, integer) {
            Some(n) => Some(extended(width, n)),
            None => None,
        },
        _ => None,
    }
}

/// An integer in 32 bits, or none if it is out of range for them.
fn in_32_bits(integer: SpelledInteger) -> Option<u32>
    ensures { result ≡ integer_in 32 integer }
{
    match integer_in(32, integer) {
        Some(n) => Some(n as u32),
        None => None,
    }
}

/// An integer of the type `i32`, or none if it is another type or the integer is out of range for it.
pub fn i32_by(ty: Option<IrType>, integer: SpelledInteger) -> Option<u32>
    ensures { result ≡ i32_by ty integer }
{
    match ty {
        Some(IrType::Int(width)) => {
            if width == 32 {
                in_32_bits(integer)
            } else {
                None
            }
        }
        _ => None,
    }
}

/// The bytes of an integer of a width.
pub fn store_size(width: u32) -> u32
    ensures { result ≡ int_store_size width }
{
    ((width as u64 + 7) / 8) as u32
}
