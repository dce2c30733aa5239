ghost use Rattle.std.specs.Prelude.{◌≡◌, IfOk, string_bytes};
ghost use Rattle.hw_report.specs.ReportText.{access_line, access_text, number_text, place_text};

use hw_base::{Access, OutOfMemory};
use ir_machine::Raw;
use std::alloc::Global;

#[tactic(auto, unfolding(crate::specs::ReportText::access_text))]
fn access_text(alloc: Global, access: Access, size: u64) -> Result<String, OutOfMemory>
    ensures { IfOk result (λ text. string_bytes text ≡ access_text access size) }
{
    match access {
        Access::Read => Ok(format!(in alloc; "hwasan: read of {size}")?),
        Access::Write => Ok(format!(in alloc; "hwasan: write of {size}")?),
        Access::Free => Ok(format!(in alloc; "hwasan: free")?),
    }
}

#[tactic(auto, unfolding(crate::specs::ReportText::number_text))]
fn number_text(alloc: Global, number: u64) -> Result<String, OutOfMemory>
    ensures { IfOk result (λ text. string_bytes text ≡ number_text number) }
{
    Ok(format!(in alloc; " at {number:016x}")?)
}

#[tactic(auto, unfolding(crate::specs::ReportText::place_text))]
fn place_text(alloc: Global, task: u32, step: u64) -> Result<String, OutOfMemory>
    ensures { IfOk result (λ text. string_bytes text ≡ place_text task step) }
{
    Ok(format!(in alloc; " in task {task}, step {step}\n")?)
}

/// The line of the access that a check refused.
pub(crate) fn access_line(alloc: Global, raw: &Raw) -> Result<String, OutOfMemory>
    ensures { IfOk result (λ line. string_bytes line ≡ access_line raw.now.access raw.now.size raw.now.number raw.now.task raw.now.step) }
{
    let mut line = access_text(alloc, raw.access, raw.size)?;
    line.push_str(number_text(alloc, raw.number)?.as_str())?;
    line.push_str(place_text(alloc, raw.task, raw.step)?.as_str())?;
    Ok(line)
}
