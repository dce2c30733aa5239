//! The reader of texts by itself: it reads the file that its one word names, and prints `accepted`, or the line of its
//! refusal. It is there to be measured, by scripts/reading-speed, until `run` reads by the same call.
#![tactic(auto)]

ghost use Rattle.std.specs.Prelude.{◌≡◌, Ok, Err, codes, IfOk};
ghost use Rattle.ir_core.specs.declared.ir_module.Module.{Module};
ghost use Rattle.ir_core.specs.declared.refusals.ReadError.{ReadError};
ghost use Rattle.read_text.specs.Answer.{answer_line};

use hw_base::{ByteList, OutOfMemory};
use ir_core::{Module, ReadError};
use ir_read_top::read;
use std::alloc::Global;
use std::process::ExitCode;
use std::{env, fs, io};

/// The line that says what reading a text returned.
fn answer_line(alloc: Global, answer: Result<Module, ReadError>) -> Result<ByteList, OutOfMemory>
    ensures { IfOk result (λ line. line ≡ answer_line answer) }
{
    match answer {
        Ok(_) => Ok(ByteList::from_vec(Vec::from_slice(alloc, b"accepted\n")?)),
        Err(ReadError::Refused(refusal)) => refusal.text(alloc),
        Err(ReadError::OutOfMemory) => Err(OutOfMemory),
    }
}

fn main(rt: HostRuntime) -> io::Result<ExitCode> {
    let alloc = rt.alloc();
    let Some(name) = env::args(&rt)?.nth(1) else {
        return Ok(ExitCode::from(2));
    };
    let text = fs::read(&rt, name.as_str())?;
    match answer_line(alloc, read(alloc, &text)) {
        Ok(line) => {
            rt.stdout().write_all(line.as_slice())?;
            Ok(ExitCode::SUCCESS)
        }
        Err(OutOfMemory) => Ok(ExitCode::from(7)),
    }
}
