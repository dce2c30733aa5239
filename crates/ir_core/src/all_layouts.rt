ghost use Rattle.std.specs.Prelude.{◌≡◌, ℕ, ◌<◌, ◌≤◌, ◌↔◌, List, map, length, IfOk, IsTrue, IsFalse};
ghost use Rattle.ir_core.specs.Layout.{layout_at, layouts_of};
ghost use Rattle.ir_core.specs.Holding.{IsCircular};
ghost use Rattle.ir_core.specs.declared.types.TypeLayout.TheVariants.{Loop};
ghost use Rattle.ir_core.specs.Progress.{is_loop, laid_out, IsPartial, IsClosedAt, IsClosed};

use crate::type_layouts::{field_types, layout_at, type_layout};
use crate::{IrType, LayoutList, TypeIdList, TypeLayout, TypeList};
use hw_base::OutOfMemory;
use std::alloc::Global;

/// What is left to do in a walk through the types.
#[derive(Clone, Copy)]
enum Visit {
    /// Look at what the type holds.
    Enter(u32),
    /// All that the type holds was looked at.
    Leave(u32),
}

/// One layout a type. A type holds the item of its array or its fields. `Loop` stands exactly for a type that holds
/// itself, or holds a type that does; `NoSize` for any other that is or holds `void` or an opaque type; `Known` has the
/// alignment and the alloc size in bytes, or 2^40 + 1 where it is greater than 2^40. A number that names no type counts
/// as one that holds itself. The time is in proportion to the types and what they hold.
pub fn layouts(
    alloc: Global,
    types: &TypeList,
    fields: &TypeIdList,
) -> Result<LayoutList, OutOfMemory>
    ensures layouts { IfOk result (λ layouts. layouts ≡ layouts_of types.now fields.now) }
    ensures circular { IfOk result (λ layouts. (n : ℕ) → (layout_at layouts n ≡ Loop) ↔ IsCircular types.now fields.now n) }
{
    let types = types.as_slice();
    let fields = fields.as_slice();
    let order = inner_first(alloc, types, fields)?;
    let mut layouts = vec![in alloc; TypeLayout::Loop; types.len()]?;
    settle_in_order(types, fields, &order, &mut layouts);
    settle_all(types, fields, &mut layouts);
    Ok(LayoutList::from_vec(layouts))
}

/// Lays a type out, if it isn't yet and all that it holds is. Whether it did.
fn settle(types: &[IrType], fields: &[u32], layouts: &mut [TypeLayout], n: usize) -> bool
    requires partial { IsPartial types.now fields.now layouts.old }
    requires within { n < length types.now }
    ensures partial { IsPartial types.now fields.now layouts.new }
    ensures more { IsTrue result → laid_out layouts.old < laid_out layouts.new }
    ensures same { IsFalse result → layouts.new ≡ layouts.old }
    ensures closed { IsFalse result → IsClosedAt types.now fields.now layouts.old n }
{
    match layout_at(layouts, n) {
        TypeLayout::Loop => {
            let layout = type_layout(fields, layouts, types[n]);
            layouts[n] = layout;
            match layout {
                TypeLayout::Loop => false,
                _ => true,
            }
        }
        _ => false,
    }
}

/// Tries each type once, in this order.
fn settle_in_order(types: &[IrType], fields: &[u32], order: &[u32], layouts: &mut [TypeLayout])
    requires { IsPartial types.now fields.now layouts.old }
    ensures { IsPartial types.now fields.now layouts.new }
{
    for n in order {
        let n = *n as usize;
        if n < types.len() {
            settle(types, fields, layouts, n);
        }
    }
}

/// Tries each type once. Whether any was laid out.
fn settle_once(types: &[IrType], fields: &[u32], layouts: &mut [TypeLayout]) -> bool
    requires { IsPartial types.now fields.now layouts.old }
    ensures partial { IsPartial types.now fields.now layouts.new }
    ensures more { IsTrue result → laid_out layouts.old < laid_out layouts.new }
    ensures closed { IsFalse result → IsClosed types.now fields.now layouts.new }
{
    let mut settled = false;
    for n in 0..types.len() {
        if settle(types, fields, layouts, n) {
            settled = true;
        }
    }
    settled
}

/// Tries all types until none can be laid out any more.
fn settle_all(types: &[IrType], fields: &[u32], layouts: &mut [TypeLayout])
    requires { IsPartial types.now fields.now layouts.old }
    ensures partial { IsPartial types.now fields.now layouts.new }
    ensures closed { IsClosed types.now fields.now layouts.new }
{
    while settle_once(types, fields, layouts) {}
}

/// The types in an order in which each comes behind all that it holds, as far as there is one. Only the time rests on
/// it: by this order every type that can be laid out is so the first time that it is tried.
pub fn inner_first(
    alloc: Global,
    types: &[IrType],
    fields: &[u32],
) -> Result<Vec<u32>, OutOfMemory> {
    let mut order = Vec::new(alloc);
    let mut seen = vec![in alloc; false; types.len()]?;
    let mut visits = Vec::new(alloc);
    for n in 0..types.len().min(u32::MAX as usize) as u32 {
        visits.push(Visit::Enter(n))?;
        walk(types, fields, &mut seen, &mut visits, &mut order)?;
    }
    Ok(order)
}

/// Makes all visits that are left, the last one first.
fn walk(
    types: &[IrType],
    fields: &[u32],
    seen: &mut [bool],
    visits: &mut Vec<Visit>,
    order: &mut Vec<u32>,
) -> Result<(), OutOfMemory> {
    for _ in 0..u64::MAX {
        match visits.pop() {
            Some(Visit::Enter(n)) => enter(types, fields, seen, visits, n)?,
            Some(Visit::Leave(n)) => order.push(n)?,
            None => break,
        }
    }
    Ok(())
}

/// Plans the visits of what a type holds, the first time that it is looked at.
fn enter(
    types: &[IrType],
    fields: &[u32],
    seen: &mut [bool],
    visits: &mut Vec<Visit>,
    n: u32,
) -> Result<(), OutOfMemory> {
    let Some(ty) = types.get(n as usize) else {
        return Ok(());
    };
    match seen.get_mut(n as usize) {
        Some(mark) if !*mark => *mark = true,
        _ => return Ok(()),
    }
    visits.push(Visit::Leave(n))?;
    match *ty {
        IrType::Array { item, .. } => visits.push(Visit::Enter(item))?,
        IrType::Struct { first, count, .. } => {
            for field in field_types(fields, first, count) {
                visits.push(Visit::Enter(*field))?;
            }
        }
        _ => {}
    }
    Ok(())
}
