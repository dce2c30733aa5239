ghost use Rattle.std.specs.Prelude.{◌≡◌, IfOk, string_bytes};
ghost use Rattle.hw_report.specs.ReportText.{block_line, end_text, found_line, granule_text, memory_text, mismatch_line, pointer_text, tags_line, unmapped_line};

use hw_base::OutOfMemory;
use hw_shadow::Mismatch;
use ir_machine::Found;
use std::alloc::Global;

#[tactic(auto, unfolding(crate::specs::ReportText::pointer_text))]
fn pointer_text(alloc: Global, pointer: u8) -> Result<String, OutOfMemory>
    ensures { IfOk result (λ text. string_bytes text ≡ pointer_text pointer) }
{
    Ok(format!(in alloc; "tags: pointer {pointer:02x}")?)
}

#[tactic(auto, unfolding(crate::specs::ReportText::memory_text))]
fn memory_text(alloc: Global, memory: u8) -> Result<String, OutOfMemory>
    ensures { IfOk result (λ text. string_bytes text ≡ memory_text memory) }
{
    Ok(format!(in alloc; ", memory {memory:02x}")?)
}

#[tactic(auto, unfolding(crate::specs::ReportText::end_text))]
fn end_text(alloc: Global, last: u8, end: u8) -> Result<String, OutOfMemory>
    ensures { IfOk result (λ text. string_bytes text ≡ end_text last end) }
{
    Ok(format!(in alloc; ", last {last:02x}, end {end}")?)
}

#[tactic(auto, unfolding(crate::specs::ReportText::granule_text))]
fn granule_text(alloc: Global, granule: u64) -> Result<String, OutOfMemory>
    ensures { IfOk result (λ text. string_bytes text ≡ granule_text granule) }
{
    Ok(format!(in alloc; ", granule {granule:016x}\n")?)
}

#[tactic(auto, unfolding(crate::specs::ReportText::unmapped_line))]
fn unmapped_line(alloc: Global, address: u64) -> Result<String, OutOfMemory>
    ensures { IfOk result (λ text. string_bytes text ≡ unmapped_line address) }
{
    Ok(format!(in alloc; "unmapped: {address:016x}\n")?)
}

/// The line of tags that don't agree.
fn tags_line(
    alloc: Global,
    granule: u64,
    pointer: u8,
    memory: u8,
    last: u8,
    end: u8,
) -> Result<String, OutOfMemory>
    ensures { IfOk result (λ line. string_bytes line ≡ tags_line granule pointer memory last end) }
{
    let mut line = pointer_text(alloc, pointer)?;
    line.push_str(memory_text(alloc, memory)?.as_str())?;
    line.push_str(end_text(alloc, last, end)?.as_str())?;
    line.push_str(granule_text(alloc, granule)?.as_str())?;
    Ok(line)
}

/// The line of what an access found in memory.
fn mismatch_line(alloc: Global, mismatch: Mismatch) -> Result<String, OutOfMemory>
    ensures { IfOk result (λ line. string_bytes line ≡ mismatch_line mismatch) }
{
    match mismatch {
        Mismatch::Unmapped(address) => unmapped_line(alloc, address),
        Mismatch::Tags {
            granule,
            pointer,
            memory,
            last,
            end,
        } => tags_line(alloc, granule, pointer, memory, last, end),
    }
}

/// The line of what a free found, by the tag of the living block that begins there, if one does.
#[tactic(auto, unfolding(crate::specs::ReportText::block_line))]
fn block_line(alloc: Global, block: Option<u8>) -> Result<String, OutOfMemory>
    ensures { IfOk result (λ line. string_bytes line ≡ block_line block) }
{
    match block {
        Some(tag) => Ok(format!(in alloc; "block: tag {tag:02x}\n")?),
        None => Ok(format!(in alloc; "block: none\n")?),
    }
}

/// The line of what a check found.
pub(crate) fn found_line(alloc: Global, found: Found) -> Result<String, OutOfMemory>
    ensures { IfOk result (λ line. string_bytes line ≡ found_line found) }
{
    match found {
        Found::Memory(mismatch) => mismatch_line(alloc, mismatch),
        Found::Block(mismatch) => block_line(alloc, mismatch.block),
    }
}
