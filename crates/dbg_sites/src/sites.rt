ghost use Rattle.std.specs.Prelude.{◌≡◌, Ok, IfOk};
ghost use Rattle.std.specs.Option.{option_map, option_and_then, option_copied};
ghost use Rattle.dbg_sites.specs.Frames.{function_name, instruction_at, frames_of};

use crate::frames::Frames;
use crate::locations::frames_by;
use hw_base::{OutOfMemory, Site};
use ir_core::{Inst, Module};
use std::alloc::Global;
use std::marker::Model;

/// Where the instructions of a module are in its source. It borrows the module and keeps the allocator that it was made with.
/// Contracts see the module.
#[derive(Drop)]
pub struct Sites<'a> {
    alloc: Global,
    program: &'a Module,
}

impl<'a> Model for Sites<'a> {
    ghost use Rattle.ir_core.specs.declared.ir_module.Module.{Module};

    ghost Value = { Module };

    ghost view = { λ s. s.program.now };
}

/// The name of a function.
fn function_name(program: &Module, func: u32) -> &[u8]
    ensures { result.now ≡ function_name program.now func }
{
    match program.functions.get(func as u64) {
        Some(function) => function.name.as_slice(),
        None => b"".as_slice(),
    }
}

fn instruction_at(program: &Module, site: Site) -> Option<&Inst>
    ensures { option_copied result ≡ instruction_at program.now site }
{
    match program.functions.get(site.func as u64) {
        Some(function) => function.insts.get(site.inst as u64),
        None => None,
    }
}

/// The number of the node of a site's debug location.
fn location_number(program: &Module, site: Site) -> Option<u32>
    ensures { result ≡ option_and_then (λ inst. option_map (λ dbg. dbg.node) inst.dbg) (instruction_at program.now site) }
{
    match instruction_at(program, site) {
        Some(inst) => match inst.dbg {
            Some(dbg) => Some(dbg.node),
            None => None,
        },
        None => None,
    }
}

impl<'a> Sites<'a> {
    /// The places of a module's instructions. It takes no memory, and no time that grows with the module.
    pub fn of(alloc: Global, module: &'a Module) -> Result<Sites<'a>, OutOfMemory>
        ensures { result ≡ Ok «module».now }
    {
        Ok(Sites {
            alloc,
            program: module,
        })
    }

    /// The frames of a site, innermost first; at least one. A site that no instruction has gives one frame without a place: the
    /// function's name, or no name if there is no such function. Time and memory are in proportion to the chains of scopes and
    /// of inlined calls from the instruction's location, and to their names. The only error is that memory ran out.
    #[tactic(auto, unfolding(crate::specs::Frames::frames_of))]
    pub fn frames(&self, site: Site) -> Result<Frames, OutOfMemory>
        ensures { IfOk result (λ frames. frames ≡ frames_of self.now site) }
    {
        let func = function_name(self.program, site.func);
        let location = location_number(self.program, site);
        frames_by(self.alloc, self.program.meta.as_slice(), func, location)
    }
}
