use crate::read;
use ir_core::{
    Declare, Fault, GlobalVar, IrType, Module, Node, NodeKind, Operand, Part, ReadError, TypeLayout,
};
use std::alloc::Global;
use std::process::Abort;
use std::test::Fail;

mod functions;
mod large_texts;
mod metadata_module;
mod refusals;
mod spelled_modules;

/// The line that a refusal prints, without its LF.
fn refused(alloc: Global, text: &[u8]) -> Result<String, Fail> {
    match read(alloc, text) {
        Ok(_) => Ok(String::from_str(alloc, "accepted")?),
        Err(ReadError::Refused(refusal)) => {
            let line = refusal.text(alloc)?;
            let text = std::str::from_utf8(line.as_slice())?;
            Ok(String::from_str(alloc, text.trim_end())?)
        }
        Err(ReadError::OutOfMemory) => Err(Fail::from("out of memory")),
    }
}

/// The module of a text.
fn accepted(alloc: Global, text: &[u8]) -> Result<Module, Fail> {
    match read(alloc, text) {
        Ok(module) => Ok(module),
        Err(_) => Err(Fail::from("refused")),
    }
}

/// A type and its layout.
fn shown_type(alloc: Global, ty: IrType, layout: Option<TypeLayout>) -> Result<String, Fail> {
    let word = match ty {
        IrType::Void => String::from_str(alloc, "void")?,
        IrType::Int(width) => format!(in alloc; "i{width}")?,
        IrType::Ptr => String::from_str(alloc, "ptr")?,
        IrType::Array { count, item } => format!(in alloc; "[{count} x #{item}]")?,
        IrType::Struct {
            first,
            count,
            packed,
        } => format!(in alloc; "{first}+{count} packed {packed}")?,
        IrType::Opaque => String::from_str(alloc, "opaque")?,
        IrType::Pair(width) => format!(in alloc; "pair {width}")?,
    };
    let room = match layout {
        Some(TypeLayout::Known { size, align }) => format!(in alloc; "{size}/{align}")?,
        Some(TypeLayout::NoSize) => String::from_str(alloc, "no size")?,
        Some(TypeLayout::Loop) => String::from_str(alloc, "loop")?,
        None => String::from_str(alloc, "none")?,
    };
    Ok(format!(in alloc; "{word} {room}|")?)
}

/// A piece of a first value.
fn shown_part(alloc: Global, part: Part) -> Result<String, Fail> {
    let (at, size) = (part.at, part.size);
    let value = match part.value {
        Operand::Reg(n) => format!(in alloc; "%{n}")?,
        Operand::Int(n) => format!(in alloc; "{n}")?,
        Operand::Null => String::from_str(alloc, "null")?,
        Operand::Global { global, off } => format!(in alloc; "@{global}+{off}")?,
    };
    Ok(format!(in alloc; " {at}:{size}={value}")?)
}

/// A global variable as NAME #TYPE pieces.
fn shown_global(alloc: Global, global: &GlobalVar) -> Result<String, Fail> {
    let name = std::str::from_utf8(global.name.as_slice())?;
    let (ty, line, column) = (global.ty, global.place.line, global.place.column);
    let word = if global.constant {
        "constant"
    } else {
        "global"
    };
    let mut out = format!(in alloc; "{name} {word} #{ty} at {line}:{column}")?;
    if !global.fits {
        out.push_str(" breaks a rule")?;
    }
    for part in global.init.as_slice() {
        out.push_str(shown_part(alloc, *part)?.as_str())?;
    }
    out.push_str("|")?;
    Ok(out)
}

/// A declare as FUNCTION #RESULT (#PARAMETER ..).
fn shown_declare(alloc: Global, declare: &Declare) -> Result<String, Fail> {
    let (lib, ty, line, column) = (
        declare.lib,
        declare.result,
        declare.place.line,
        declare.place.column,
    );
    let mut out = format!(in alloc; "{lib:?} #{ty} at {line}:{column}")?;
    for parameter in declare.params.as_slice() {
        let n = *parameter;
        out.push_str(format!(in alloc; " #{n}")?.as_str())?;
    }
    out.push_str("|")?;
    Ok(out)
}

/// The types as they are spelled, the fields, the globals and the declares of a module.
fn shown_module(alloc: Global, module: &Module) -> Result<String, Fail> {
    let mut out = String::new(alloc);
    let mut n: u64 = 0;
    // without the 258 that no text spells
    for ty in module.types.as_slice() {
        if n.saturating_add(258) < module.types.len() {
            out.push_str(shown_type(alloc, *ty, module.layouts.get(n))?.as_str())?;
        }
        n = n.saturating_add(1);
    }
    out.push_str(" f")?;
    for field in module.fields.as_slice() {
        let field = *field;
        out.push_str(format!(in alloc; " {field}")?.as_str())?;
    }
    out.push_str(" g ")?;
    for global in module.globals.as_slice() {
        out.push_str(shown_global(alloc, global)?.as_str())?;
    }
    out.push_str(" d ")?;
    for declare in module.declares.as_slice() {
        out.push_str(shown_declare(alloc, declare)?.as_str())?;
    }
    Ok(out)
}
