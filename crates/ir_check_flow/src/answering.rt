ghost use Rattle.std.specs.Prelude.{◌≡◌, ◌≤◌, ◌<◌, length, replicate, IfOk};
ghost use Rattle.ir_check_flow.specs.Answering.{marked, all_marked, has_come, come_fault, IsOpenAmong};
ghost use Rattle.ir_check_flow.specs.First.{IsFirstOf};
ghost use Rattle.ir_check_flow.specs.Spreading.{AreWays, lists_of};

use crate::question::Question;
use crate::spreading::spread;
use hw_base::OutOfMemory;
use ir_check_types::{earlier, unless};
use ir_core::{Fault, Refusal};
use std::alloc::Global;

/// Marks a question in the block that answers it, if there is such a block.
fn mark_answer(answered: &mut [u128], k: usize, home: usize)
    requires { k < 128 }
    ensures { answered.new ≡ marked answered.old k home }
{
    if home < answered.len() {
        answered[home] |= 1u128 << k;
    }
}

/// For each block the questions that it answers.
fn mark_answers(answered: &mut [u128], questions: &[Question])
    requires few { length questions.now ≤ 128 }
    ensures { answered.new ≡ all_marked answered.old 0 questions.now }
{
    for (k, question) in questions.iter().enumerate() {
        mark_answer(answered, k, question.home);
    }
}

/// Whether a question has come to its block.
fn has_come(reach: &[u128], k: usize, question: &Question) -> bool
    requires { k < 128 }
    ensures { result ≡ has_come reach.now k question.now }
{
    match reach.get(question.at) {
        Some(set) => (*set >> k) & 1 == 1,
        None => false,
    }
}

/// The first refusal for questions that have come to their blocks.
fn come_fault(reach: &[u128], questions: &[Question]) -> Option<Refusal>
    requires { length questions.now ≤ 128 }
    ensures { result ≡ come_fault reach.now 0 questions.now }
{
    let mut first = None;
    for (k, question) in questions.iter().enumerate() {
        let holds = !has_come(reach, k, question);
        first = earlier(first, unless(holds, Fault::NotOnEveryPath, question.place));
    }
    first
}

/// For each of so many blocks the questions that it answers. The only error is that memory ran out.
fn answers_of(alloc: Global, count: usize, questions: &[Question]) -> Result<Vec<u128>, OutOfMemory>
    requires few { length questions.now ≤ 128 }
    ensures { IfOk result (λ answered. answered.items ≡ all_marked (replicate count 0) 0 questions.now) }
{
    let mut answered = vec![in alloc; 0u128; count]?;
    mark_answers(answered.as_mut_slice(), questions);
    Ok(answered)
}

/// The first refusal for an open question among up to 128. The only error is that memory ran out.
fn part_fault(
    alloc: Global,
    ways: &[Vec<u32>],
    questions: &[Question],
) -> Result<Option<Refusal>, OutOfMemory>
    requires some { 0 < length ways.now }
    requires inside { AreWays (length ways.now) (lists_of ways.now) }
    requires few { length questions.now ≤ 128 }
    ensures { IfOk result (λ found. IsFirstOf (IsOpenAmong (lists_of ways.now) questions.now) found) }
{
    let answered = answers_of(alloc, ways.len(), questions)?;
    let reach = spread(alloc, ways, &answered, u128::MAX)?;
    let found = come_fault(&reach, questions);
    Ok(found)
}

/// The first refusal for an open question. The only error is that memory ran out. The time is that of the ways for each 128
/// questions, and of the questions.
pub(crate) fn open_fault(
    alloc: Global,
    ways: &[Vec<u32>],
    questions: &[Question],
) -> Result<Option<Refusal>, OutOfMemory>
    requires some { 0 < length ways.now }
    requires inside { AreWays (length ways.now) (lists_of ways.now) }
    ensures { IfOk result (λ found. IsFirstOf (IsOpenAmong (lists_of ways.now) questions.now) found) }
{
    let mut first = None;
    let mut at = 0;
    while at < questions.len() {
        let to = questions.len().min(at.saturating_add(128));
        first = earlier(first, part_fault(alloc, ways, &questions[at..to])?);
        at = to;
    }
    Ok(first)
}
