//! The program: it makes the real files, input and output, calls `hwasan` with the words after its name, and ends with
//! the status that `hwasan` answers. Nothing else is done here.
#![tactic(auto)]

ghost use Rattle.std.specs.Prelude.{◌≡◌, IfOk, drop};
ghost use Rattle.std.specs.Vec.Iter.{into_iter_items};

use hw_base::Status;
use hw_driver::hwasan;
use hw_ports::{RealFiles, RealIn, RealOut};
use std::alloc::{AllocError, Global};
use std::env::Args;
use std::io::{ErrorKind, Stderr, Stdout};
use std::process::ExitCode;
use std::rt::Env;
use std::{env, io};

// The words after the first of all, which is the program's name.
fn words_after_name(alloc: Global, all: Args) -> Result<Vec<String>, AllocError>
    ensures { IfOk result (λ words. words.items ≡ drop 1 (into_iter_items all)) }
{
    all.skip(1).collect(alloc)
}

fn words_of<R: Env + Alloc<A = Global>>(rt: &R) -> io::Result<Vec<String>> {
    Ok(words_after_name(rt.alloc(), env::args(rt)?)?)
}

fn main(rt: HostRuntime) -> ExitCode {
    let status = match words_of(&rt) {
        Ok(words) => {
            let alloc = rt.alloc();
            let mut files = RealFiles::new(alloc, &rt);
            let mut input = RealIn::new(rt.stdin());
            let mut out = RealOut::new(rt.stdout());
            let mut err = RealOut::new(rt.stderr());
            // The types say which of the two is standard output.
            hwasan::<_, _, RealOut<Stdout>, RealOut<Stderr>>(
                alloc, &words, &mut files, &mut input, &mut out, &mut err,
            )
        }
        Err(error) if error.kind() == ErrorKind::OutOfMemory => Status::Memory,
        Err(_) => Status::BadWords,
    };
    ExitCode::from(status.number())
}

#[cfg(test)]
mod tests;
