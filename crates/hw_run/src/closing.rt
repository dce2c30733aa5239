ghost use Rattle.std.specs.Prelude.{◌≡◌, IfOk, string_bytes};
ghost use Rattle.hw_run.specs.Closing.{step_text, exit_text, ended_line, trap_word, trap_text, trapped_line, spent_line, space_word, asked_text, living_text, full_line, end_text};

use crate::ends::RunEnd;
use hw_base::{ByteList, Full, OutOfMemory, Space, Trap};
use hw_report::{chain_text, report_text};
use ir_core::Module;
use ir_machine::Machine;
use std::alloc::Global;

fn trap_word(trap: Trap) -> &'static str
    ensures { result.now ≡ trap_word trap }
{
    match trap {
        Trap::DivZero => "div-zero",
        Trap::DivOverflow => "div-overflow",
        Trap::Unreachable => "unreachable",
        Trap::ReadOnly => "read-only",
        Trap::TooDeep => "too-deep",
        Trap::Abort => "abort",
    }
}

fn space_word(space: Space) -> &'static str
    ensures { result.now ≡ space_word space }
{
    match space {
        Space::Heap => "heap",
        Space::Stack => "stack",
    }
}

#[tactic(auto, unfolding(crate::specs::Closing::step_text))]
fn step_text(alloc: Global, step: u64) -> Result<String, OutOfMemory>
    ensures { IfOk result (λ text. string_bytes text ≡ step_text step) }
{
    Ok(format!(in alloc; ", step {step}\n")?)
}

#[tactic(auto, unfolding(crate::specs::Closing::exit_text))]
fn exit_text(alloc: Global, value: i32) -> Result<String, OutOfMemory>
    ensures { IfOk result (λ text. string_bytes text ≡ exit_text value) }
{
    Ok(format!(in alloc; "ended: exit {value}")?)
}

pub(crate) fn ended_line(alloc: Global, value: i32, step: u64) -> Result<ByteList, OutOfMemory>
    ensures { IfOk result (λ text. text ≡ ended_line value step) }
{
    let mut text = exit_text(alloc, value)?;
    text.push_str(step_text(alloc, step)?.as_str())?;
    Ok(ByteList::from_vec(text.into_bytes()))
}

/// The closing text of a run that made all the steps that its bound allows.
#[tactic(auto, unfolding(crate::specs::Closing::spent_line))]
pub fn spent_line(alloc: Global, bound: u64) -> Result<ByteList, OutOfMemory>
    ensures { IfOk result (λ text. text ≡ spent_line bound) }
{
    let text = format!(in alloc; "spent: step {bound}\n")?;
    Ok(ByteList::from_vec(text.into_bytes()))
}

#[tactic(auto, unfolding(crate::specs::Closing::asked_text))]
fn asked_text(alloc: Global, space: Space, asked: u128) -> Result<String, OutOfMemory>
    ensures { IfOk result (λ text. string_bytes text ≡ asked_text space asked) }
{
    let space = space_word(space);
    Ok(format!(in alloc; "full: {space}, {asked} asked")?)
}

#[tactic(auto, unfolding(crate::specs::Closing::living_text))]
fn living_text(alloc: Global, living: u64) -> Result<String, OutOfMemory>
    ensures { IfOk result (λ text. string_bytes text ≡ living_text living) }
{
    Ok(format!(in alloc; ", {living} living")?)
}

pub(crate) fn full_line(alloc: Global, full: Full, step: u64) -> Result<ByteList, OutOfMemory>
    ensures { IfOk result (λ text. text ≡ full_line full step) }
{
    let mut text = asked_text(alloc, full.space, full.asked)?;
    text.push_str(living_text(alloc, full.living)?.as_str())?;
    text.push_str(step_text(alloc, step)?.as_str())?;
    Ok(ByteList::from_vec(text.into_bytes()))
}

#[tactic(auto, unfolding(crate::specs::Closing::trap_text))]
fn trap_text(alloc: Global, trap: Trap, task: u32) -> Result<String, OutOfMemory>
    ensures { IfOk result (λ text. string_bytes text ≡ trap_text trap task) }
{
    let trap = trap_word(trap);
    Ok(format!(in alloc; "trapped: {trap} in task {task}")?)
}

fn trapped_line(alloc: Global, trap: Trap, task: u32, step: u64) -> Result<Vec<u8>, OutOfMemory>
    ensures { IfOk result (λ text. text.items ≡ trapped_line trap task step) }
{
    let mut text = trap_text(alloc, trap, task)?;
    text.push_str(step_text(alloc, step)?.as_str())?;
    Ok(text.into_bytes())
}

/// The closing text of a machine's run under a bound that came to an end.
pub fn closing_text(
    alloc: Global,
    program: &Module,
    machine: &Machine,
    end: RunEnd,
    bound: u64,
) -> Result<ByteList, OutOfMemory>
    ensures { IfOk result (λ text. text ≡ end_text program.now machine.now.run.seen.shared.chains machine.now.steps bound end) }
{
    match end {
        RunEnd::Spent => spent_line(alloc, bound),
        RunEnd::Exit(value) => ended_line(alloc, value, machine.steps()),
        RunEnd::Trap { trap, task, chain } => {
            let mut text = trapped_line(alloc, trap, task, machine.steps())?;
            let chain = chain_text(alloc, program, machine.chains(), chain)?;
            text.extend_from_slice(chain.as_slice())?;
            Ok(ByteList::from_vec(text))
        }
        RunEnd::Mismatch(raw) => report_text(alloc, program, machine.chains(), &raw),
        RunEnd::Full(full) => full_line(alloc, full, machine.steps()),
    }
}
