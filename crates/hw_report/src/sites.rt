ghost use Rattle.std.specs.Prelude.{◌≡◌, ◌++◌, IfOk, OnOk};
ghost use Rattle.dbg_sites.specs.ChainTable.{chain_of};
ghost use Rattle.hw_report.specs.Sites.{function_name, site_line, chain_lines};

use dbg_sites::Chains;
use hw_base::{ByteList, OutOfMemory, Site};
use ir_core::Module;
use std::alloc::Global;

/// The name of a function, empty if there is none with this number.
fn function_name(program: &Module, func: u32) -> &[u8]
    ensures { result.now ≡ function_name program.now func }
{
    match program.functions.get(func as u64) {
        Some(function) => function.name.as_slice(),
        None => b"".as_slice(),
    }
}

/// Adds the line of a site.
fn push_line(text: &mut Vec<u8>, program: &Module, site: Site) -> Result<(), OutOfMemory>
    ensures { OnOk result (text.new.items ≡ text.old.items ++ site_line program.now site) }
{
    text.extend_from_slice(b"  at ".as_slice())?;
    text.extend_from_slice(function_name(program, site.func))?;
    text.extend_from_slice(b" ?\n".as_slice())?;
    Ok(())
}

/// The lines of a chain's sites, innermost first.
pub fn chain_text(
    alloc: Global,
    program: &Module,
    chains: &Chains,
    chain: u32,
) -> Result<ByteList, OutOfMemory>
    ensures { IfOk result (λ text. text ≡ chain_lines program.now (chain_of chains.now chain)) }
{
    let mut text = Vec::new(alloc);
    let mut number = chain;
    let mut left = chain;
    while left > 0 {
        left -= 1;
        match chains.part(number) {
            Some((site, rest)) => {
                push_line(&mut text, program, site)?;
                number = rest;
            }
            None => return Ok(ByteList::from_vec(text)),
        }
    }
    Ok(ByteList::from_vec(text))
}
