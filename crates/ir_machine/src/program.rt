ghost use Rattle.std.specs.Prelude.{◌≡◌, ◌^◌, ◌<◌, ℕ, All, IfOk, map};
ghost use Rattle.ir_core.specs.declared.ir_module.Function.{Function as SourceFunction};
ghost use Rattle.ir_machine.specs.CallSteps.{variables_of as variables_in};
ghost use Rattle.ir_machine.specs.Programs.{sizes_at};

use hw_base::{OutOfMemory, SizeList};
use ir_core::{Function, Module};
use mi_code::Code;
use std::alloc::Global;

/// Code, with the sizes in bytes of the variables of each of its functions. `none` are those of a function that isn't there.
#[derive(Drop)]
pub struct Program {
    pub(crate) code: Code,
    pub(crate) variables: Vec<SizeList>,
    pub(crate) none: SizeList,
}

/// A copy of a list of sizes.
fn copied(alloc: Global, sizes: &SizeList) -> Result<SizeList, OutOfMemory>
    ensures { IfOk result (λ copy. copy ≡ sizes.now) }
{
    let mut copy = SizeList::new(alloc);
    for k in 0..sizes.len() {
        match sizes.get(k) {
            Some(size) => copy.push(size)?,
            None => {}
        }
    }
    Ok(copy)
}

/// The sizes of the variables of functions, in order.
fn variables_of(alloc: Global, functions: &[Function]) -> Result<Vec<SizeList>, OutOfMemory>
    ensures { IfOk result (λ found. found.items ≡ map (λ (f : SourceFunction). f.allocas) functions.now) }
{
    let mut found = Vec::new(alloc);
    let mut rest = functions;
    while let [f, after @ ..] = rest {
        let sizes = copied(alloc, &f.allocas)?;
        match found.push(sizes) {
            Ok(()) => rest = after,
            Err(_) => return Err(OutOfMemory),
        }
    }
    Ok(found)
}

impl Program {
    /// The code of a module with the sizes of its functions' variables. The only error is that memory ran out.
    pub fn new(alloc: Global, module: &Module, code: Code) -> Result<Program, OutOfMemory>
        ensures code { IfOk result (λ p. p.code ≡ code) }
        ensures variables { IfOk result (λ p. (func : ℕ) → variables_in «module».now func ≡ sizes_at p func) }
    {
        let variables = variables_of(alloc, module.functions.as_slice())?;
        Ok(Program {
            code,
            variables,
            none: SizeList::new(alloc),
        })
    }

    /// The sizes in bytes of a function's variables.
    pub fn sizes(&self, func: u32) -> &SizeList
        ensures { result.now ≡ sizes_at self.now func }
    {
        match self.variables.get(func as usize) {
            Some(sizes) => sizes,
            None => &self.none,
        }
    }
}
