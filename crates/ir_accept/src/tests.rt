use crate::accept;
use ir_core::ReadError;
use std::alloc::Global;
use std::process::Abort;
use std::test::Fail;

mod calls;
mod flow;
mod limits;
mod operands;
mod whole_module;

/// The line of a text's refusal, without its LF, or `accepted`.
fn refused(alloc: Global, text: &[u8]) -> Result<String, Fail> {
    match accept(alloc, text) {
        Ok(_) => Ok(String::from_str(alloc, "accepted")?),
        Err(ReadError::Refused(refusal)) => {
            let line = refusal.text(alloc)?;
            let text = std::str::from_utf8(line.as_slice())?;
            Ok(String::from_str(alloc, text.trim_end())?)
        }
        Err(ReadError::OutOfMemory) => Err(Fail::from("out of memory")),
    }
}

/// Each text is answered by its line.
fn check_rows(rt: &impl Abort, alloc: Global, rows: &[(&str, &str)]) -> Result<(), Fail> {
    for (text, want) in rows {
        let found = refused(alloc, text.as_bytes())?;
        assert_eq!(rt; found.as_str(), *want, "at {text:?}");
    }
    Ok(())
}
