ghost use Rattle.std.specs.Prelude.{◌≡◌, ◌<◌, ◌^◌, map, length, IfOk};
ghost use Rattle.std.specs.List.{position_from};
ghost use Rattle.ir_functions.specs.Resolution.{spelled_function};
ghost use Rattle.ir_read_top.specs.Functions.{is_i32, is_ptr, type_behind, are_of_main, is_main};

use crate::declared::{global_name, number_at};
use hw_base::OutOfMemory;
use ir_core::Tokens;
use ir_functions::SpelledFunction;
use ir_grammar::{SpelledParameter, SpelledType};
use std::alloc::Global;

fn is_i32(ty: Option<SpelledType>) -> bool
    ensures { result ≡ is_i32 ty }
{
    match ty {
        Some(SpelledType::Int(width)) => width == 32,
        _ => false,
    }
}

fn is_ptr(ty: Option<SpelledType>) -> bool
    ensures { result ≡ is_ptr ty }
{
    matches!(ty, Some(SpelledType::Ptr))
}

/// The spelled type that a spelled type stands for.
fn type_behind(types: &[SpelledType], numbers: &[u32], ty: usize) -> Option<SpelledType>
    ensures { result ≡ type_behind types.now numbers.now ty }
{
    types.get(number_at(numbers, ty) as usize).copied()
}

/// Whether there are no parameters, or an `i32` and a `ptr`.
fn are_of_main(types: &[SpelledType], numbers: &[u32], parameters: &[SpelledParameter]) -> bool
    ensures { result ≡ are_of_main types.now numbers.now parameters.now }
{
    match parameters {
        [] => true,
        [a, b] => {
            is_i32(type_behind(types, numbers, a.ty)) && is_ptr(type_behind(types, numbers, b.ty))
        }
        _ => false,
    }
}

/// Whether the function is the one at which a run begins.
fn is_main(
    alloc: Global,
    tokens: &Tokens,
    types: &[SpelledType],
    numbers: &[u32],
    function: &SpelledFunction,
) -> Result<bool, OutOfMemory>
    ensures { IfOk result (λ b. b ≡ is_main tokens.now.source types.now numbers.now (spelled_function function.now)) }
{
    let name = global_name(alloc, tokens, &function.name)?;
    Ok(
        name.as_slice() == b"main".as_slice()
            && is_i32(type_behind(types, numbers, function.result))
            && are_of_main(types, numbers, function.parameters),
    )
}

/// The number of the function at which a run begins.
pub(crate) fn main_of(
    alloc: Global,
    tokens: &Tokens,
    types: &[SpelledType],
    numbers: &[u32],
    functions: &[SpelledFunction],
) -> Result<Option<u32>, OutOfMemory>
    requires { length functions.now < 2 ^ 32 }
    ensures { IfOk result (λ main. main ≡ position_from (is_main tokens.now.source types.now numbers.now) 0 (map spelled_function functions.now)) }
{
    let mut number: u32 = 0;
    let mut rest = functions;
    while let [function, after @ ..] = rest {
        if is_main(alloc, tokens, types, numbers, function)? {
            return Ok(Some(number));
        }
        number += 1;
        rest = after;
    }
    Ok(None)
}
