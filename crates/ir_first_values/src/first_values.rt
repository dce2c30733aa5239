ghost use Rattle.std.specs.Prelude.{◌≡◌, ℕ, ◌<◌, IfOk, All};
ghost use Rattle.ir_core.specs.Resolved.{IsFitting, IsPartWithin};
ghost use Rattle.ir_first_values.specs.Offsets.{IsReady};
ghost use Rattle.ir_core.specs.Layout.{alloc_size_of};
ghost use Rattle.ir_grammar.specs.Grammar.{nesting_limit};
ghost use Rattle.ir_first_values.specs.Tables.{tables_of};
ghost use Rattle.ir_first_values.specs.FirstValues.{first_value};
ghost use Rattle.ir_first_values.specs.Answers.{IsFirstValue};
ghost use Rattle.ir_first_values.specs.Pieces.{AreNumbered};

use crate::Initializers;
use crate::no_value::NoValue;
use hw_base::{MOST_NESTING, OutOfMemory};
use ir_core::PartList;
use std::alloc::Global;

/// The first value of a variable. `fits` says that its initializer breaks no type rule, and then `init` has its pieces in
/// order of the text; else `init` is empty.
#[derive(Drop)]
pub struct FirstValue {
    pub fits: bool,
    pub init: PartList,
}

/// Does nothing: it says of a text that each of its bytes is below 256.
fn text_has_bytes(text: &[u8])
    ensures { All (λ b. b < 256) text.now }
{}

impl<'a> Initializers<'a> {
    /// The first value of a variable of a type, by the number of the type in the module and that of its initializer among
    /// the spelled constants. Bytes of no piece are 0. The only error is that memory ran out. The time is in proportion to the
    /// initializer.
    pub fn first_value(
        &self,
        alloc: Global,
        ty: u32,
        constant: usize,
    ) -> Result<FirstValue, OutOfMemory>
        requires { IsReady self.now }
        ensures value { IfOk result (λ v. IsFirstValue v (first_value nesting_limit (tables_of self.now) ty constant 0)) }
        ensures within { (globals : ℕ) → AreNumbered globals self.now.variables.now → IsFitting self.now.module.now ty → IfOk result (λ v. All (IsPartWithin globals (alloc_size_of self.now.module.now.types self.now.module.now.fields ty)) v.init) }
    {
        text_has_bytes(self.source);
        let mut init = PartList::new(alloc);
        match self.put_value(alloc, &mut init, MOST_NESTING, 0, ty, constant) {
            Ok(()) => Ok(FirstValue { fits: true, init }),
            Err(NoValue::RuleBroken) => Ok(FirstValue {
                fits: false,
                init: PartList::new(alloc),
            }),
            Err(NoValue::OutOfMemory) => Err(OutOfMemory),
        }
    }
}
