ghost use Rattle.std.specs.Prelude.{◌≡◌, IfOk, [], None};
ghost use Rattle.built_rows.specs.Laws.{DeclaresAreThere};
ghost use Rattle.built_rows.specs.Unbuilt.{unbuilt};
ghost use Rattle.hw_ports.specs.Content.{AddsRead, failed_after};
ghost use Rattle.hw_driver.specs.Line.{line};
ghost use Rattle.hw_driver.specs.LineView.{texts, line_view};
ghost use Rattle.hw_driver.specs.Decided.{decision_view};
ghost use Rattle.hw_driver.specs.Answer.{Decides, files_change, JudgesFile, JudgesText, Whole, seen, too_long, IsRunOf, JudgesModule, refused_decision};

use crate::command::Command;
use crate::decision::{Decision, Text};
use crate::options::options_of;
use crate::words::line_of;
use built_rows::unbuilt;
use hw_base::{ByteList, MOST_TEXT, OutOfMemory, Status};
use hw_ports::{FileError, FileText, Files};
use hw_run::run_gathered;
use ir_accept::accept;
use ir_check_flow::Checked;
use ir_core::{Fault, Limit, ReadError, Refusal};
use std::alloc::Global;
use tag_insert::instrument;

// A decision without output that takes no memory.
fn plain_decision(alloc: Global, status: Status, text: Text) -> Decision
    ensures status { result.status ≡ status }
    ensures output { result.output ≡ [] }
    ensures text { result.text ≡ text }
{
    Decision {
        status,
        output: ByteList::new(alloc),
        text,
    }
}

// A text that is refused.
fn refused(alloc: Global, refusal: &Refusal) -> Result<Decision, OutOfMemory>
    ensures { IfOk result (λ d. decision_view d ≡ refused_decision refusal.now) }
{
    let text = Text::Own(refusal.text(alloc)?);
    Ok(plain_decision(alloc, Status::Refused, text))
}

// A text that is too long.
fn too_long(alloc: Global) -> Result<Decision, OutOfMemory>
    ensures { IfOk result (λ d. decision_view d ≡ refused_decision too_long) }
{
    let refusal = Refusal {
        fault: Fault::TooLarge(Limit::Text),
        line: 1,
        column: 1,
    };
    refused(alloc, &refusal)
}

// ---- texts

// What an accepted module that the machine runs comes to.
fn judge_module(
    alloc: Global,
    command: &Command<'_>,
    checked: &Checked,
) -> Result<Decision, OutOfMemory>
    requires declares { DeclaresAreThere checked.now }
    requires built { unbuilt checked.now ≡ None }
    ensures { IfOk result (λ d. IsRunOf (line_view command.now) checked.now (decision_view d)) }
{
    let code = instrument(alloc, checked)?;
    let options = options_of(alloc, command)?;
    let gathered = run_gathered(alloc, checked.module(), code, &options)?;
    Ok(Decision {
        status: gathered.status,
        output: gathered.output,
        text: Text::Own(gathered.text),
    })
}

// What an accepted module comes to.
fn judge_checked(
    alloc: Global,
    command: &Command<'_>,
    checked: &Checked,
) -> Result<Decision, OutOfMemory>
    requires { DeclaresAreThere checked.now }
    ensures { IfOk result (λ d. JudgesModule (line_view command.now) checked.now (decision_view d)) }
{
    match unbuilt(checked.module()) {
        Some(refusal) => refused(alloc, &refusal),
        None => judge_module(alloc, command, checked),
    }
}

// What a command and a text come to.
fn judge_text(alloc: Global, command: &Command<'_>, text: &[u8]) -> Result<Decision, OutOfMemory>
    ensures { IfOk result (λ d. JudgesText (line_view command.now) (Whole text.now) (decision_view d)) }
{
    match accept(alloc, text) {
        Ok(checked) => judge_checked(alloc, command, &checked),
        Err(ReadError::Refused(refusal)) => refused(alloc, &refusal),
        Err(ReadError::OutOfMemory) => Err(OutOfMemory),
    }
}

// What a command and a file that was read come to.
#[tactic(auto, using(crate::proofs::Judged::judged_too_long))]
fn judge_read(
    alloc: Global,
    command: &Command<'_>,
    read: FileText,
    text: &[u8],
) -> Result<Decision, OutOfMemory>
    ensures { IfOk result (λ d. JudgesText (line_view command.now) (seen read text.now) (decision_view d)) }
{
    match read {
        FileText::Whole => judge_text(alloc, command, text),
        FileText::Longer => too_long(alloc),
    }
}

// What a command and its file come to.
fn judge_file<F: Files>(
    alloc: Global,
    command: &Command<'_>,
    files: &mut F,
) -> Result<Decision, FileError>
    ensures judged { IfOk result (λ d. JudgesFile (files_change F.content F.reads F.failed files.old files.new) (line_view command.now) (decision_view d)) }
    ensures reads { AddsRead result (F.reads files.old) (F.reads files.new) command.now.file.now }
    ensures failed { F.failed files.new ≡ failed_after result (F.failed files.old) command.now.file.now }
{
    let mut text = Vec::new(alloc);
    let read = match files.read(alloc, command.file, MOST_TEXT, &mut text) {
        Ok(read) => read,
        Err(error) => return Err(error),
    };
    match judge_read(alloc, command, read, &text) {
        Ok(decision) => Ok(decision),
        Err(_) => Err(FileError::OutOfMemory),
    }
}

/// What the words come to.
pub fn decide<F: Files>(alloc: Global, words: &[String], files: &mut F) -> Decision
    ensures { Decides (files_change F.content F.reads F.failed files.old files.new) (line (texts words.now)) (decision_view result) }
{
    let Some(command) = line_of(words) else {
        return plain_decision(alloc, Status::BadWords, Text::Usage);
    };
    match judge_file(alloc, &command, files) {
        Ok(decision) => decision,
        Err(FileError::Failed) => plain_decision(alloc, Status::FileFault, Text::FileFault),
        Err(FileError::OutOfMemory) => plain_decision(alloc, Status::Memory, Text::Memory),
    }
}
