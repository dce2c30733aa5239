ghost use Rattle.std.specs.Prelude.{◌≡◌, ℕ, ◌+◌, ◌%◌, ◌^◌, ◌<◌, ◌≤◌, List, sum_by};
ghost use Rattle.hw_base.specs.AddressMap.{program_map, rounded_size};
ghost use Rattle.hw_base.specs.declared.numbers.TheConstants.{GLOBALS_AT, MOST_GLOBALS, PAGE, STACKS_AT};
ghost use Rattle.ir_core.specs.Layout.{align_up, layout_at, layout_size};
ghost use Rattle.ir_core.specs.NumberTypes.{alloc_size};
ghost use Rattle.ir_core.specs.declared.ir_module.GlobalVar.{GlobalVar};
ghost use Rattle.global_tags.specs.GlobalPlaces.{constants_size, global_size, layout_of, variables_size};
ghost use Rattle.global_tags.specs.Loading.{HasRoomForGlobals};
ghost use Rattle.global_tags.specs.Sums.{taken_by, with_one};

use hw_base::{GLOBALS_AT, PAGE};
use ir_core::{GlobalVar, Module, TypeLayout};
use tbi_memory::Layout;

/// The size of a global in bytes, by the layouts of the module's types.
pub fn global_size(layouts: &[TypeLayout], global: &GlobalVar) -> u64
    ensures { result ≡ global_size layouts.now global.now }
{
    match layouts.get(global.ty as usize) {
        Some(TypeLayout::Known { size, .. }) => *size,
        _ => 0,
    }
}

/// The bytes that an object of so many bytes takes: whole granules, and one at least.
pub fn rounded_size(size: u64) -> u64
    requires { size < 2 ^ 63 }
    ensures { result ≡ rounded_size size }
{
    if size == 0 {
        16
    } else {
        size.div_ceil(16) * 16
    }
}

/// The bytes that some constants and variables take, each in its rounded size.
#[derive(Clone, Copy)]
pub(crate) struct Taken {
    pub constants: u64,
    pub variables: u64,
}

/// What is taken with one more global of so many bytes.
pub(crate) fn with_one(taken: Taken, size: u64, constant: bool) -> Taken
    requires few { taken.constants + taken.variables + size < 2 ^ 63 }
    ensures { result ≡ with_one taken size constant }
{
    Taken {
        constants: taken.constants + if constant { size } else { 0 },
        variables: taken.variables + if constant { 0 } else { size },
    }
}

/// What globals take.
pub(crate) fn taken_by(layouts: &[TypeLayout], globals: &[GlobalVar]) -> Taken
    requires { sum_by (λ (g : GlobalVar). rounded_size (global_size layouts.now g)) globals.now ≤ MOST_GLOBALS }
    ensures { result ≡ taken_by layouts.now globals.now }
{
    let mut taken = Taken {
        constants: 0,
        variables: 0,
    };
    for global in globals {
        taken = with_one(
            taken,
            rounded_size(global_size(layouts, global)),
            global.constant,
        );
    }
    taken
}

/// What the globals of a module take.
pub(crate) fn taken_in(program: &Module) -> Taken
    requires { HasRoomForGlobals program.now }
    ensures value { result ≡ taken_by program.now.layouts program.now.globals }
    ensures few { result.constants + result.variables ≤ MOST_GLOBALS }
{
    taken_by(program.layouts.as_slice(), program.globals.as_slice())
}

/// The first address of the variables: the first page at or after the end of the constants.
pub(crate) fn variables_at(taken: Taken) -> u64
    requires { taken.constants ≤ MOST_GLOBALS }
    ensures { result ≡ align_up (GLOBALS_AT + taken.constants) PAGE }
{
    (GLOBALS_AT + taken.constants).div_ceil(PAGE) * PAGE
}

/// What is mapped for the globals of a module, and a heap of so many bytes. The numbers are in bytes, multiples of 16 if that of the
/// heap is, and what is mapped for globals lies between the first address of globals and that of the stacks.
pub fn layout(program: &Module, heap: u64) -> Layout
    requires { HasRoomForGlobals program.now }
    ensures layout { result ≡ layout_of (program_map heap) program.now.layouts program.now.globals }
    ensures heap { result.heap ≡ heap }
    ensures constants_aligned { result.constants % 16 ≡ 0 }
    ensures variables_at_aligned { result.variables_at % 16 ≡ 0 }
    ensures variables_aligned { result.variables % 16 ≡ 0 }
    ensures constants_first { GLOBALS_AT + result.constants ≤ result.variables_at }
    ensures below_stacks { result.variables_at + result.variables ≤ STACKS_AT }
{
    let taken = taken_in(program);
    Layout {
        constants: taken.constants,
        variables_at: variables_at(taken),
        variables: taken.variables,
        heap,
    }
}
