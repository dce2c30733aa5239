ghost use Rattle.std.specs.Prelude.{◌≡◌, ℕ, ◌+◌, ◌<◌, ◌≤◌, length, slice_index, nat_le, if◌then◌else◌, Option, Some, None};
ghost use Rattle.std.specs.List.{list_all};
ghost use Rattle.hw_base.specs.AddressMap.{rounded_size};
ghost use Rattle.hw_base.specs.declared.numbers.TheConstants.{MOST_GLOBALS, MOST_SIZE};
ghost use Rattle.ir_core.specs.Layout.{layout_at, layout_size};
ghost use Rattle.ir_core.specs.NumberTypes.{alloc_size};
ghost use Rattle.ir_check_types.specs.Order.{first_among};
ghost use Rattle.ir_check_flow.specs.Limits.{at_most, count_limit, function_limit, globals_limit, is_small, is_small_size, has_small_variables, has_small_types, limit_fault};

use crate::numbers::{MOST_BLOCKS, MOST_FUNCTIONS, MOST_INSTRUCTIONS, MOST_NODES};
use hw_base::{MOST_GLOBALS, MOST_SIZE, SizeList};
use ir_check_types::{earlier, refusal_at, unless};
use ir_core::{Fault, Function, GlobalVar, Limit, Module, Place, Refusal, TypeLayout};

/// The refusal at a place if there are more than so many.
fn at_most(count: u64, most: u64, limit: Limit, place: Place) -> Option<Refusal>
    ensures { result ≡ at_most count most limit place }
{
    unless(count <= most, Fault::TooLarge(limit), place)
}

/// The refusal for too many functions, at the name of the first one too many.
fn count_limit(m: &Module) -> Option<Refusal>
    ensures { result ≡ count_limit m.now.functions }
{
    match m.functions.get(MOST_FUNCTIONS) {
        None => None,
        Some(f) => Some(refusal_at(Fault::TooLarge(Limit::Functions), f.place)),
    }
}

/// The refusal for too many blocks or instructions of a function.
fn function_limit(f: &Function) -> Option<Refusal>
    ensures { result ≡ function_limit f.now }
{
    let blocks = at_most(f.blocks.len(), MOST_BLOCKS, Limit::Blocks, f.place);
    let insts = at_most(
        f.insts.len(),
        MOST_INSTRUCTIONS,
        Limit::Instructions,
        f.place,
    );
    earlier(blocks, insts)
}

fn functions_limit(m: &Module) -> Option<Refusal>
    ensures { result ≡ first_among function_limit m.now.functions }
{
    m.functions
        .as_slice()
        .iter()
        .fold(None, |so_far, f| earlier(so_far, function_limit(f)))
}

fn layout_at(layouts: &[TypeLayout], n: usize) -> TypeLayout
    ensures { result ≡ layout_at layouts.now n }
{
    match layouts.get(n) {
        Some(layout) => *layout,
        None => TypeLayout::Loop,
    }
}

/// The bytes that a layout says, 0 if it says none.
fn layout_size(layout: TypeLayout) -> u64
    ensures { result ≡ layout_size layout }
{
    match layout {
        TypeLayout::Known { size, .. } => size,
        _ => 0,
    }
}

/// The bytes of a variable, as the module keeps them.
fn global_size(m: &Module, g: &GlobalVar) -> u64
    ensures { result ≡ alloc_size m.now g.now.ty }
{
    layout_size(layout_at(m.layouts.as_slice(), g.ty as usize))
}

/// The bytes of a variable rounded up to a multiple of 16, and at least 16.
fn rounded_size(size: u64) -> u64
    requires { size ≤ MOST_GLOBALS }
    ensures { result ≡ rounded_size size }
{
    if size == 0 { 16 } else { (size + 15) / 16 * 16 }
}

/// The sum of the rounded sizes with one more variable, or none if it is above the bound.
fn total_with(total: u64, size: u64) -> Option<u64>
    requires { total ≤ MOST_GLOBALS }
    ensures { result ≡ (if nat_le (total + rounded_size size) MOST_GLOBALS then Some (total + rounded_size size) else None) }
{
    if size > MOST_GLOBALS {
        return None;
    }
    let sum = total + rounded_size(size);
    if sum <= MOST_GLOBALS { Some(sum) } else { None }
}

/// The refusal for too many bytes of variables, at the name of the first one with which the sum is above the bound.
fn globals_in(m: &Module, globals: &[GlobalVar]) -> Option<Refusal>
    ensures { result ≡ globals_limit m.now 0 globals.now }
{
    let mut total = 0u64;
    for g in globals {
        match total_with(total, global_size(m, g)) {
            Some(sum) => total = sum,
            None => return Some(refusal_at(Fault::TooLarge(Limit::Globals), g.place)),
        }
    }
    None
}

/// Whether a type has no size, or one that isn't too large.
fn is_small(layout: &TypeLayout) -> bool
    ensures { result ≡ is_small layout.now }
{
    match layout {
        TypeLayout::Known { size, .. } => *size <= MOST_SIZE,
        _ => true,
    }
}

/// Whether a size among others isn't too large.
fn is_small_at(sizes: &SizeList, i: u64) -> bool
    requires { i < length sizes.now }
    ensures { result ≡ is_small_size (slice_index sizes.now i) }
{
    match sizes.get(i) {
        Some(size) => size <= MOST_SIZE as u128,
        None => true,
    }
}

/// Whether sizes in bytes are none too large.
fn are_small_sizes(sizes: &SizeList) -> bool
    ensures { result ≡ list_all is_small_size sizes.now }
{
    for i in 0..sizes.len() {
        if !is_small_at(sizes, i) {
            return false;
        }
    }
    true
}

fn has_small_variables(f: &Function) -> bool
    ensures { result ≡ has_small_variables f.now }
{
    are_small_sizes(&f.allocas)
}

fn are_small(layouts: &[TypeLayout]) -> bool
    ensures { result ≡ list_all is_small layouts.now }
{
    layouts.iter().all(|layout| is_small(layout))
}

fn have_small_variables(functions: &[Function]) -> bool
    ensures { result ≡ list_all has_small_variables functions.now }
{
    functions.iter().all(|f| has_small_variables(f))
}

/// Whether neither a type nor a variable of a frame is too large.
fn has_small_types(m: &Module) -> bool
    ensures { result ≡ has_small_types m.now }
{
    are_small(m.layouts.as_slice()) && have_small_variables(m.functions.as_slice())
}

/// The first limit that a module exceeds.
pub(crate) fn limit_fault(m: &Module) -> Option<Refusal>
    ensures { result ≡ limit_fault m.now }
{
    let start = Place { line: 1, column: 1 };
    let nodes = at_most(m.meta.len(), MOST_NODES, Limit::MetaNodes, start);
    let types = unless(has_small_types(m), Fault::TooLarge(Limit::TypeSize), start);
    let sizes = earlier(nodes, earlier(globals_in(m, m.globals.as_slice()), types));
    earlier(count_limit(m), earlier(functions_limit(m), sizes))
}
