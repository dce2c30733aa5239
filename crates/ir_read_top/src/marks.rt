ghost use Rattle.std.specs.Prelude.{◌≡◌, false, replicate, IfOk};
ghost use Rattle.ir_read_top.specs.Module.{mark, marked};

use hw_base::OutOfMemory;
use ir_grammar::SpelledItem;
use std::alloc::Global;

/// Marks the type that an item defines.
fn mark(marks: &mut [bool], item: &SpelledItem)
    ensures { marks.new ≡ mark marks.old item.now }
{
    match item {
        SpelledItem::Type { ty, .. } => {
            if *ty < marks.len() {
                marks[*ty] = true;
            }
        }
        _ => {}
    }
}

/// Marks the types that items define.
fn mark_all(marks: &mut [bool], items: &[SpelledItem])
    ensures { marks.new ≡ marked marks.old items.now }
{
    let mut rest = items;
    while let [item, after @ ..] = rest {
        mark(marks, item);
        rest = after;
    }
}

/// One mark a spelled type, of which there are so many: whether it is the body of a named type.
pub(crate) fn named_marks(
    alloc: Global,
    items: &[SpelledItem],
    count: usize,
) -> Result<Vec<bool>, OutOfMemory>
    ensures { IfOk result (λ marks. marks.items ≡ marked (replicate count false) items.now) }
{
    let mut marks = vec![in alloc; false; count]?;
    mark_all(&mut marks, items);
    Ok(marks)
}
