ghost use Rattle.std.specs.Prelude.{◌≡◌, ◌+◌, ◌<◌, ◌^◌, ◌++◌, length, All, OnOk, IfOk, map, [], ◌∷◌};
ghost use Rattle.ir_core.specs.Blocks.{block_holding};
ghost use Rattle.mi_code.specs.Instrumentation.{added_mi, source_mi, entry_mi, starts_of, code_of_instruction, code_from, code_of_function, functions_from, instrumented};
ghost use Rattle.mi_code.specs.TagChecks.{enter_code};
ghost use Rattle.tag_insert.specs.Additions.{added_ops};
ghost use Rattle.tag_insert.specs.Functions.{IsSmallFunction, IsSmallModule};
ghost use Rattle.tag_insert.specs.SmallRegisters.{IsSmallInst};
ghost use Rattle.tag_insert.specs.SmallSteps.{AreSmallSteps};

use crate::addition::Addition;
use crate::checks::added_code;
use crate::operands::registers_of;
use crate::places::{block_holding, places_of, starts_of};
use crate::source::source_code;
use hw_base::{OutOfMemory, Site, SizeList};
use ir_core::{Function, Inst, Module};
use mi_code::{Code, CodeFunction, IndexList, Mark, Mi, MiList, MiOp};
use std::alloc::Global;

/// The code goes on with an instruction that was added at a site.
fn push_added(insts: &mut MiList, site: Site, op: MiOp) -> Result<(), OutOfMemory>
    ensures { OnOk result (insts.new ≡ insts.old ++ added_mi site op ∷ []) }
{
    insts.push(Mi {
        mark: Mark::Added(site),
        op,
    })
}

/// The code goes on with what is added at a site.
fn push_additions(insts: &mut MiList, site: Site, addition: Addition) -> Result<(), OutOfMemory>
    ensures { OnOk result (insts.new ≡ insts.old ++ map (added_mi site) (added_ops addition)) }
{
    match addition {
        Addition::Nothing => Ok(()),
        Addition::One(op) => push_added(insts, site, op),
        Addition::Two(first, second) => {
            push_added(insts, site, first)?;
            push_added(insts, site, second)
        }
    }
}

/// The code goes on with the machine instruction of a source instruction, if it has one.
fn push_source(insts: &mut MiList, site: Site, made: Option<MiOp>) -> Result<(), OutOfMemory>
    ensures { OnOk result (insts.new ≡ insts.old ++ source_mi site made) }
{
    match made {
        Some(op) => insts.push(Mi {
            mark: Mark::Source(site),
            op,
        }),
        None => Ok(()),
    }
}

/// The code goes on with that of an instruction in block `here`.
#[tactic(auto, unfolding(mi_code::specs::Instrumentation::code_of_instruction))]
fn push_instruction(
    alloc: Global,
    m: &Module,
    f: &Function,
    starts: &[u32],
    here: u32,
    site: Site,
    inst: &Inst,
    insts: &mut MiList,
) -> Result<(), OutOfMemory>
    requires few { length f.now.regs < 2 ^ 30 }
    requires all { All IsSmallInst f.now.insts }
    requires small { IsSmallInst inst.now }
    requires steps { AreSmallSteps m.now inst.now.op }
    requires starts { starts.now ≡ starts_of m.now f.now }
    requires here { here ≡ block_holding f.now.blocks site.inst }
    ensures { OnOk result (insts.new ≡ insts.old ++ code_of_instruction m.now f.now site inst.now) }
{
    push_additions(insts, site, added_code(m, &f.allocas, &inst.op))?;
    let made = source_code(alloc, m, f, starts, here, inst.result, &inst.op)?;
    push_source(insts, site, made)
}

/// The entry of a function with these variables.
fn entry_code(alloc: Global, sizes: &SizeList) -> Result<MiList, OutOfMemory>
    ensures { IfOk result (λ insts. insts ≡ map entry_mi (enter_code sizes.now)) }
{
    let mut insts = MiList::new(alloc);
    if !sizes.is_empty() {
        insts.push(Mi {
            mark: Mark::Entry,
            op: MiOp::Enter,
        })?;
    }
    Ok(insts)
}

/// The machine instructions of the function with a number.
#[tactic(auto, unfolding(mi_code::specs::Instrumentation::code_of_function, mi_code::specs::Instrumentation::code_from))]
fn insts_of(
    alloc: Global,
    m: &Module,
    f: &Function,
    func: u32,
    starts: &[u32],
) -> Result<MiList, OutOfMemory>
    requires small { IsSmallFunction m.now f.now }
    requires starts { starts.now ≡ starts_of m.now f.now }
    ensures { IfOk result (λ insts. insts ≡ (code_of_function m.now func f.now).insts) }
{
    let mut insts = entry_code(alloc, &f.allocas)?;
    let mut here = 0usize;
    let mut i = 0u32;
    for inst in f.insts.as_slice() {
        here = block_holding(f.blocks.as_slice(), here, i);
        let site = Site { func, inst: i };
        push_instruction(alloc, m, f, starts, here as u32, site, inst, &mut insts)?;
        i += 1;
    }
    Ok(insts)
}

/// The code of the function with a number.
#[tactic(auto, unfolding(mi_code::specs::Instrumentation::code_of_function))]
fn code_of_function(
    alloc: Global,
    m: &Module,
    f: &Function,
    func: u32,
) -> Result<CodeFunction, OutOfMemory>
    requires { IsSmallFunction m.now f.now }
    ensures { IfOk result (λ code. code ≡ code_of_function m.now func f.now) }
{
    let places = places_of(alloc, m, f)?;
    let starts = starts_of(alloc, m, f, &places)?;
    let insts = insts_of(alloc, m, f, func, &starts)?;
    Ok(CodeFunction {
        registers: registers_of(f),
        params: f.params,
        insts,
        starts: IndexList::from_vec(starts),
    })
}

/// The instrumented code of a module whose functions have code that fits.
#[tactic(auto, unfolding(mi_code::specs::Instrumentation::functions_from))]
pub fn code_of_module(alloc: Global, m: &Module) -> Result<Code, OutOfMemory>
    requires { IsSmallModule m.now }
    ensures { IfOk result (λ code. code ≡ instrumented m.now) }
{
    let mut code = Code::new(alloc);
    let mut func = 0u32;
    for f in m.functions.as_slice() {
        code.push(code_of_function(alloc, m, f, func)?)?;
        func += 1;
    }
    Ok(code)
}
