ghost use Rattle.std.specs.Prelude.{◌≡◌, ◌++◌, IfOk, OnOk};
ghost use Rattle.ir_first_values.specs.Offsets.{IsReady};
ghost use Rattle.ir_first_values.specs.Tables.{tables_of};
ghost use Rattle.ir_read_top.specs.Globals.{global_of, globals_of};

use crate::declared::{global_name, number_at};
use hw_base::OutOfMemory;
use ir_core::{GlobalList, GlobalVar, Tokens};
use ir_first_values::Initializers;
use ir_grammar::SpelledItem;
use std::alloc::Global;

/// Adds the variable that an item defines, if it defines one.
fn push_global(
    globals: &mut GlobalList,
    alloc: Global,
    tokens: &Tokens,
    values: &Initializers,
    item: &SpelledItem,
) -> Result<(), OutOfMemory>
    requires source { values.now.source.now ≡ tokens.now.source }
    requires ready { IsReady values.now }
    ensures { OnOk result (globals.new ≡ globals.old ++ global_of (tables_of values.now) item.now) }
{
    match item {
        SpelledItem::Global {
            name,
            constant,
            ty,
            value,
        } => {
            let bytes = global_name(alloc, tokens, name)?;
            let ty = number_at(values.numbers, *ty);
            let first = values.first_value(alloc, ty, *value)?;
            globals.push(GlobalVar {
                name: bytes,
                ty,
                constant: *constant,
                fits: first.fits,
                init: first.init,
                place: name.place,
            })
        }
        _ => Ok(()),
    }
}

/// The global variables in order of the text.
pub(crate) fn globals_of(
    alloc: Global,
    tokens: &Tokens,
    values: &Initializers,
    items: &[SpelledItem],
) -> Result<GlobalList, OutOfMemory>
    requires source { values.now.source.now ≡ tokens.now.source }
    requires ready { IsReady values.now }
    ensures { IfOk result (λ globals. globals ≡ globals_of (tables_of values.now) items.now) }
{
    let mut globals = GlobalList::new(alloc);
    let mut rest = items;
    while let [item, after @ ..] = rest {
        push_global(&mut globals, alloc, tokens, values, item)?;
        rest = after;
    }
    Ok(globals)
}
