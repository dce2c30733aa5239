ghost use Rattle.std.specs.Prelude.{◌≡◌, ◌<◌, ◌^◌, length, replicate, IfOk};
ghost use Rattle.ir_check_flow.specs.Homes.{block_insts, set_home, homes_in, homes_from, no_home, homes_of, home_of};

use crate::home::Home;
use hw_base::OutOfMemory;
use ir_core::{Block, Function, Inst};
use std::alloc::Global;

/// The instructions of a block.
pub(crate) fn block_insts(insts: &[Inst], block: Block) -> &[Inst]
    ensures same { result.now ≡ block_insts insts.now block }
    ensures few { length result.now < 2 ^ 32 }
{
    let from = insts.len().min(block.first as usize);
    let rest = &insts[from..];
    let to = rest.len().min(block.count as usize);
    &rest[..to]
}

/// An instruction defines its result.
fn set_home(homes: &mut [Home], block: usize, inst: usize, register: Option<u32>)
    ensures { homes.new ≡ set_home homes.old block inst register }
{
    if let Some(register) = register {
        let at = register as usize;
        if at < homes.len() {
            homes[at] = Home { block, inst };
        }
    }
}

/// The instructions of a block, the first of which has the number `first`, define their results.
fn homes_in(homes: &mut [Home], block: usize, first: usize, insts: &[Inst])
    requires few { length insts.now < 2 ^ 32 }
    requires low { first < 2 ^ 32 }
    ensures { homes.new ≡ homes_in block first homes.old insts.now }
{
    for (i, inst) in insts.iter().enumerate() {
        set_home(homes, block, first + i, inst.result);
    }
}

fn no_home(f: &Function) -> Home
    ensures { result ≡ no_home f.now }
{
    Home {
        block: f.blocks.as_slice().len(),
        inst: 0,
    }
}

/// The instructions of all blocks define their results.
fn set_homes(homes: &mut [Home], insts: &[Inst], blocks: &[Block])
    ensures { homes.new ≡ homes_from insts.now 0 homes.old blocks.now }
{
    for (b, block) in blocks.iter().enumerate() {
        homes_in(homes, b, block.first as usize, block_insts(insts, *block));
    }
}

/// So many homes that no register has.
fn no_homes(alloc: Global, home: Home, count: usize) -> Result<Vec<Home>, OutOfMemory>
    ensures { IfOk result (λ homes. homes.items ≡ replicate count home) }
{
    Ok(vec![in alloc; home; count]?)
}

/// Where each register of a function is defined; one that nothing defines, as a parameter, after the last block. The only
/// error is that memory ran out.
pub(crate) fn homes_of(alloc: Global, f: &Function) -> Result<Vec<Home>, OutOfMemory>
    ensures { IfOk result (λ homes. homes.items ≡ homes_of f.now) }
{
    let mut homes = no_homes(alloc, no_home(f), f.regs.as_slice().len())?;
    set_homes(
        homes.as_mut_slice(),
        f.insts.as_slice(),
        f.blocks.as_slice(),
    );
    Ok(homes)
}

/// Where a register is defined.
pub(crate) fn home_of(f: &Function, homes: &[Home], register: u32) -> Home
    ensures { result ≡ home_of f.now homes.now register }
{
    match homes.get(register as usize) {
        Some(home) => *home,
        None => no_home(f),
    }
}
