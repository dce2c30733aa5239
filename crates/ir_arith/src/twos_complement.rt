//! Values of a width and the signed numbers that they stand for, as the machine's own 128 bits hold them.
ghost use Rattle.std.specs.Prelude.{◌≡◌, ◌+◌, ◌-◌, ◌%◌, ◌^◌, ◌<◌, ◌≤◌};
ghost use Rattle.ir_arith.specs.TwosComplement.{signed_of, unsigned_of, fits_signed};

/// The greatest value of the width, in which each bit is 1.
#[tactic(auto, using(crate::proofs::Residues::ones_of_width))]
pub fn ones(width: u32) -> u128
    requires from_1 { 1 ≤ width }
    requires to_128 { width ≤ 128 }
    ensures { result ≡ 2 ^ width - 1 }
{
    u128::MAX >> (128 - width)
}

/// The value in which only the sign bit is 1. It stands for the least number.
pub fn least(width: u32) -> u128
    requires from_1 { 1 ≤ width }
    requires to_128 { width ≤ 128 }
    ensures { result ≡ 2 ^ (width - 1) }
{
    1 << (width - 1)
}

/// The low bits of a number.
#[tactic(auto, using(crate::proofs::Residues::and_ones))]
pub fn wrap(width: u32, n: u128) -> u128
    requires from_1 { 1 ≤ width }
    requires to_128 { width ≤ 128 }
    ensures value { result ≡ n % 2 ^ width }
    ensures below { result < 2 ^ width }
{
    n & ones(width)
}

/// The signed number that a value stands for.
pub fn signed(width: u32, a: u128) -> i128
    requires from_1 { 1 ≤ width }
    requires to_128 { width ≤ 128 }
    requires a_below { a < 2 ^ width }
    ensures { result ≡ signed_of width a }
{
    if a < least(width) {
        a.cast_signed()
    } else {
        (a + (u128::MAX - ones(width))).cast_signed()
    }
}

/// What is left of a number in the width.
pub fn unsigned(width: u32, z: i128) -> u128
    requires from_1 { 1 ≤ width }
    requires to_128 { width ≤ 128 }
    ensures value { result ≡ unsigned_of width z }
    ensures below { result < 2 ^ width }
{
    wrap(width, z.cast_unsigned())
}

/// Whether a number is in the signed range of the width.
pub fn is_in_signed_range(width: u32, z: i128) -> bool
    requires from_1 { 1 ≤ width }
    requires to_128 { width ≤ 128 }
    ensures { result ≡ fits_signed width z }
{
    let bits = z.cast_unsigned();
    if z < 0 {
        u128::MAX - bits < least(width)
    } else {
        bits < least(width)
    }
}
