ghost use Rattle.std.specs.Prelude.{◌≡◌, ◌<◌, ◌≤◌, ◌+◌, ◌^◌};
ghost use Rattle.ir_functions.specs.Given.{void_number, integer_number, pair_of, part_number, part_of};

use ir_core::IrType;

/// The number of `void`, after so many spelled types.
pub(crate) fn void_number(spelled: u32) -> u32
    requires { spelled + 300 < 2 ^ 32 }
    ensures { result ≡ void_number spelled }
{
    spelled + 1
}

/// The number of the integer type of so many bits, up to 128.
pub(crate) fn integer_number(spelled: u32, width: u32) -> u32
    requires few { spelled + 300 < 2 ^ 32 }
    requires width { width ≤ 128 }
    ensures { result ≡ integer_number spelled width }
{
    spelled + 1 + width
}

/// The number of the pair of an integer of this type and an `i1`, or else that of `void`.
pub(crate) fn pair_of(spelled: u32, ty: Option<IrType>) -> u32
    requires { spelled + 300 < 2 ^ 32 }
    ensures { result ≡ pair_of spelled ty }
{
    match ty {
        Some(IrType::Int(width)) => {
            if width <= 128 {
                spelled + 129 + width
            } else {
                spelled + 1
            }
        }
        _ => spelled + 1,
    }
}

/// The number of the type of part 0 or 1 of such a pair, by the bits of its integer, up to 128.
fn part_number(spelled: u32, part: u8, width: u32) -> u32
    requires few { spelled + 300 < 2 ^ 32 }
    requires width { width ≤ 128 }
    ensures { result ≡ part_number spelled part width }
{
    if part == 0 {
        integer_number(spelled, width)
    } else {
        integer_number(spelled, 1)
    }
}

/// The number of the type of a part of such a pair, by the integer's type.
pub(crate) fn part_of(spelled: u32, part: Option<u8>, ty: Option<IrType>) -> u32
    requires { spelled + 300 < 2 ^ 32 }
    ensures { result ≡ part_of spelled part ty }
{
    match part {
        None => spelled + 1,
        Some(part) => match ty {
            Some(IrType::Int(width)) => {
                if width <= 128 {
                    part_number(spelled, part, width)
                } else {
                    spelled + 1
                }
            }
            _ => spelled + 1,
        },
    }
}
