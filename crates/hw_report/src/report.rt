ghost use Rattle.std.specs.Prelude.{◌≡◌, IfOk};
ghost use Rattle.hw_report.specs.ReportText.{report_lines};

use crate::access::access_line;
use crate::found::found_line;
use crate::sites::chain_text;
use dbg_sites::Chains;
use hw_base::{ByteList, OutOfMemory};
use ir_core::Module;
use ir_machine::Raw;
use std::alloc::Global;

/// The lines of a failing check's report, each with a line feed at its end: what was done, by which task and in which step,
/// then the sites of the chain, innermost first, and at last what was found.
pub fn report_text(
    alloc: Global,
    program: &Module,
    chains: &Chains,
    raw: &Raw,
) -> Result<ByteList, OutOfMemory>
    ensures { IfOk result (λ text. text ≡ report_lines program.now chains.now raw.now) }
{
    let mut text = access_line(alloc, raw)?.into_bytes();
    text.extend_from_slice(chain_text(alloc, program, chains, raw.chain)?.as_slice())?;
    text.extend_from_slice(found_line(alloc, raw.found)?.as_bytes())?;
    Ok(ByteList::from_vec(text))
}
