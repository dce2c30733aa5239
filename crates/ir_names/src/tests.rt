use super::*;
use ir_core::{Token, Tokens};
use ir_grammar::{
    SpelledConstant, SpelledInstruction, SpelledItem, SpelledOperand, SpelledOperation,
    SpelledParameter, SpelledType, Spellings, TypedOperand,
};
use std::alloc::Global;
use std::process::Abort;
use std::test::Fail;

/// What was read of a text so far.
#[derive(Drop)]
struct Draft {
    items: Vec<SpelledItem>,
    found: Spellings,
}

/// One more parameter of the function declared last.
fn add_parameter(draft: &mut Draft, name: Option<Token>) -> Result<(), Fail> {
    draft
        .found
        .parameters
        .push(SpelledParameter { ty: 0, name })?;
    match draft.items.pop() {
        Some(
            SpelledItem::Declare {
                name,
                result,
                first,
                count,
            },
        ) => draft.items.push(SpelledItem::Declare {
            name,
            result,
            first,
            count: count.saturating_add(1),
        })?,
        _ => return Err(Fail::from("no function")),
    }
    Ok(())
}

/// A call of this function without arguments.
fn add_call(draft: &mut Draft, name: Token) -> Result<(), Fail> {
    let first = draft.found.bodies.operands.len();
    draft.found.bodies.instructions.push(SpelledInstruction {
        result: None,
        word: name,
        operation: SpelledOperation::Call {
            name,
            result: 0,
            first,
            count: 0,
        },
        first: 0,
        count: 0,
    })?;
    Ok(())
}

/// One more argument of the last call.
fn add_argument(draft: &mut Draft, value: SpelledOperand) -> Result<(), Fail> {
    let bodies = &mut draft.found.bodies;
    bodies.operands.push(TypedOperand { ty: 0, value })?;
    let Some(call) = bodies.instructions.pop() else {
        return Err(Fail::from("no call"));
    };
    let SpelledOperation::Call {
        name,
        result,
        first,
        count,
    } = call.operation
    else {
        return Err(Fail::from("no call"));
    };
    bodies.instructions.push(SpelledInstruction {
        operation: SpelledOperation::Call {
            name,
            result,
            first,
            count: count.saturating_add(1),
        },
        ..call
    })?;
    Ok(())
}

/// The constant, as one more argument of the last call.
fn add_constant_argument(
    draft: &mut Draft,
    first: Token,
    constant: SpelledConstant,
) -> Result<(), Fail> {
    let number = draft.found.constants.len();
    draft.found.constants.push(constant)?;
    add_argument(draft, SpelledOperand::Constant { first, number })
}

/// An address from this global on, as one more argument of the last call.
fn add_address_argument(draft: &mut Draft, token: Token) -> Result<(), Fail> {
    let base = draft.found.constants.len();
    draft.found.constants.push(SpelledConstant::Global(token))?;
    let address = SpelledConstant::Address {
        of: 0,
        base,
        first: 0,
        count: 0,
    };
    add_constant_argument(draft, token, address)
}

/// An item by this token.
fn item_of(draft: &Draft, letter: u8, token: Token) -> Result<SpelledItem, Fail> {
    match letter {
        b's' => Ok(SpelledItem::Skipped),
        b'x' => Ok(SpelledItem::Used),
        b't' => Ok(SpelledItem::Type {
            name: token,
            ty: draft.found.types.len(),
        }),
        b'g' => Ok(SpelledItem::Global {
            name: token,
            constant: false,
            ty: 0,
            value: 0,
        }),
        b'd' => Ok(SpelledItem::Declare {
            name: token,
            result: 0,
            first: draft.found.parameters.len(),
            count: 0,
        }),
        b'n' => Ok(SpelledItem::Node { number: token }),
        b'l' => Ok(SpelledItem::NodeList { name: token }),
        _ => Err(Fail::from("no such letter")),
    }
}

/// What a token stands for by its letter: `t` an item that names the next type, `g` a global variable, `d` a function
/// declared without parameters so far, `p` its next parameter by this name and `u` one without a name, `n` a node, `l` a list of
/// nodes, `x` one of the lists of what is used, `s` a skipped item, `P` the type `ptr` and `T` a type by this name, `L` and `G` a
/// local and a global in a constant, `Z` the constant `null`, `c` a call by this name without arguments so far, `r` its next
/// argument, a register, `a` a global as its next argument, `e` an address from that on, and `z` `null`.
fn add(draft: &mut Draft, letter: u8, token: Token) -> Result<(), Fail> {
    match letter {
        b'p' => add_parameter(draft, Some(token))?,
        b'u' => add_parameter(draft, None)?,
        b'P' => draft.found.types.push(SpelledType::Ptr)?,
        b'T' => draft.found.types.push(SpelledType::Named(token))?,
        b'L' => draft.found.constants.push(SpelledConstant::Local(token))?,
        b'G' => draft.found.constants.push(SpelledConstant::Global(token))?,
        b'Z' => draft.found.constants.push(SpelledConstant::Null)?,
        b'c' => add_call(draft, token)?,
        b'r' => add_argument(draft, SpelledOperand::Register(token))?,
        b'a' => add_constant_argument(draft, token, SpelledConstant::Global(token))?,
        b'e' => add_address_argument(draft, token)?,
        b'z' => add_constant_argument(draft, token, SpelledConstant::Null)?,
        _ => {
            let item = item_of(draft, letter, token)?;
            draft.items.push(item)?;
        }
    }
    Ok(())
}

/// The tokens of a text, each taken by its letter.
fn draft_of(alloc: Global, tokens: &Tokens, letters: &[u8]) -> Result<Draft, Fail> {
    let mut draft = Draft {
        items: Vec::new(alloc),
        found: Spellings::new(alloc),
    };
    for (token, letter) in tokens.as_slice().iter().zip(letters) {
        add(&mut draft, *letter, *token)?;
    }
    Ok(draft)
}

/// The leads, and behind a bar the numbers of variables, `-` for none.
fn shown_references(alloc: Global, found: &References) -> Result<String, Fail> {
    let mut out = String::new(alloc);
    for lead in found.leads.iter() {
        out = format!(in alloc; "{out}{lead} ")?;
    }
    out.push_str("|")?;
    for variable in found.variables.iter() {
        match variable {
            None => out.push_str(" -")?,
            Some(n) => out = format!(in alloc; "{out} {n}")?,
        }
    }
    Ok(out)
}

/// What the names stand for, or the fault as FAULT@OFFSET.
fn shown(alloc: Global, text: &[u8], letters: &[u8]) -> Result<String, Fail> {
    if text.len() > 16777216 {
        return Err(Fail::from("too long"));
    }
    let Ok(tokens) = ir_lex::lex(alloc, text) else {
        return Err(Fail::from("no tokens"));
    };
    if tokens.len() != letters.len() as u64 {
        return Err(Fail::from("a letter for each token"));
    }
    let draft = draft_of(alloc, &tokens, letters)?;
    if draft.items.len() >= 1 << 32 {
        return Err(Fail::from("too many items"));
    }
    match resolve_names(alloc, text, draft.items.as_slice(), &draft.found) {
        Ok(found) => match found.fault {
            None => shown_references(alloc, &found.references),
            Some(fault) => {
                let (word, from) = (fault.fault.word(), fault.at.from);
                Ok(format!(in alloc; "{word}@{from}")?)
            }
        },
        Err(_) => Err(Fail::from("memory")),
    }
}

fn check_rows(rt: &impl Abort, alloc: Global, rows: &[(&str, &str, &str)]) -> Result<(), Fail> {
    for (text, letters, want) in rows {
        let found = shown(alloc, text.as_bytes(), letters.as_bytes())?;
        assert_eq!(rt; found.as_str(), *want, "at {text:?}");
    }
    Ok(())
}

#[test]
fn names_are_compared_by_what_they_stand_for(rt: HostRuntime) -> Result<(), Fail> {
    let rows = [
        ("%a %b %a", "ttt", "Twice@6"),
        ("%a %\"a\"", "tt", "Twice@3"),
        ("@\"\\61\" @a", "gg", "Twice@7"),
        ("%1 %01", "tt", "Twice@3"),
        ("%1 %\"1\"", "tt", "|"),
        ("!1 !01", "nn", "Twice@3"),
        ("!a !b !a", "lll", "Twice@6"),
        ("@f @f", "gd", "Twice@3"),
        ("@f @f", "dg", "Twice@3"),
        ("%a @a !a !1", "tgln", "|"),
        ("@llvm.used @llvm.used a a", "xxss", "|"),
    ];
    check_rows(&rt, rt.alloc(), rows.as_slice())
}

#[test]
fn names_without_a_meaning_are_refused(rt: HostRuntime) -> Result<(), Fail> {
    let rows = [
        ("%a", "T", "Unknown@0"),
        ("@a %a", "gT", "Unknown@3"),
        ("%a %a", "tL", "Unknown@3"),
        ("@a", "G", "Unknown@0"),
        ("%a @a", "tG", "Unknown@3"),
        ("@f @f", "dG", "Unsupported@3"),
        ("@llvm.used @llvm.used", "xG", "Unknown@11"),
        ("@llvm.global_ctors", "g", "Unsupported@0"),
        ("@\"llvm.global_ctors\"", "d", "Unsupported@0"),
        ("%llvm.global_ctors", "t", "|"),
    ];
    check_rows(&rt, rt.alloc(), rows.as_slice())
}

#[test]
fn functions_are_named_where_tasks_start(rt: HostRuntime) -> Result<(), Fail> {
    let rows = [
        (
            "@pthread_create @w @pthread_create %t null @w null",
            "ddcrzaz",
            "| - - -",
        ),
        (
            "@\"pthread_create\" @w @pthread_create %t null @w null",
            "ddcrzaz",
            "| - - -",
        ),
        (
            "@pthread_create @w @\"\\70thread_create\" %t null @w null",
            "ddcrzaz",
            "| - - -",
        ),
        (
            "@pthread_create @w @pthread_create %t null @w null",
            "ddcrzez",
            "| - - - -",
        ),
        (
            "@pthread_create @w @pthread_create %t null @w",
            "ddcrza",
            "| - -",
        ),
        (
            "@pthread_create @pthread_create %t null @w null",
            "dcrzaz",
            "Unknown@40",
        ),
        (
            "@pthread_create @pthread_create %t null @w null",
            "dcrzez",
            "Unknown@40",
        ),
        (
            "@pthread_create @pthread_create %t null @llvm.global_ctors null",
            "dcrzaz",
            "Unsupported@40",
        ),
        (
            "@pthread_create @w @pthread_create %t @w null null",
            "ddcrazz",
            "Unsupported@38",
        ),
        (
            "@pthread_create @w @pthread_create %t null null @w",
            "ddcrzza",
            "Unsupported@48",
        ),
        (
            "@pthread_create @w @pthread_create %t null @w null @w",
            "ddcrzazG",
            "Unsupported@51",
        ),
        (
            "@pthread_create @w @pthread_create %t null @w @other %t null @w",
            "ddcrzacrza",
            "Unsupported@61",
        ),
        (
            "@other @w @other %t null @w null",
            "ddcrzaz",
            "Unsupported@25",
        ),
        (
            "@pthread_create @w @pthread_create %t null @w null",
            "gdcrzaz",
            "Unsupported@43",
        ),
        (
            "@w @pthread_create %t null @w null",
            "dcrzaz",
            "Unsupported@27",
        ),
    ];
    check_rows(&rt, rt.alloc(), rows.as_slice())
}

#[test]
fn the_first_fault_in_the_text_is_told(rt: HostRuntime) -> Result<(), Fail> {
    let rows = [
        ("@a %x @a", "gTg", "Unknown@3"),
        ("@a @a %x", "ggT", "Twice@3"),
        ("@a @a @llvm.global_ctors", "ggg", "Twice@3"),
        ("%x @llvm.global_ctors", "Lg", "Unknown@0"),
        ("@llvm.global_ctors", "G", "Unsupported@0"),
        ("@a @f %a %a @a", "gdppg", "Twice@9"),
    ];
    check_rows(&rt, rt.alloc(), rows.as_slice())
}

#[test]
fn parameters_share_a_counter(rt: HostRuntime) -> Result<(), Fail> {
    let rows = [
        ("@f %a %a", "dpp", "Twice@6"),
        ("@f %a @g %a", "dpdp", "|"),
        ("@f %0 %1", "dpp", "|"),
        ("@f %00 %0", "dpp", "Twice@7"),
        ("@f %\"0\" %0", "dpp", "|"),
        ("@f i32 %0", "dup", "Twice@7"),
        ("@f i32 %1", "dup", "|"),
        ("@f %a i32 %0", "dpup", "Twice@10"),
        ("@f %5 %3", "dpp", "Twice@6"),
        ("@f %5 i32 %6", "dpup", "Twice@10"),
        ("@f %5 i32 %7", "dpup", "|"),
        ("@f i32 @g %0", "dudp", "|"),
    ];
    check_rows(&rt, rt.alloc(), rows.as_slice())
}

#[test]
fn numbers_of_any_length_are_counted(rt: HostRuntime) -> Result<(), Fail> {
    let rows = [
        (
            "@f %9999999999999999999999999999999999999999 i32 %10000000000000000000000000000000000000000",
            "dpup",
            "Twice@49",
        ),
        (
            "@f %9999999999999999999999999999999999999999 i32 %10000000000000000000000000000000000000001",
            "dpup",
            "|",
        ),
        (
            "@f %1000000000000000000000000000000000000000 %0999999999999999999999999999999999999999",
            "dpp",
            "Twice@45",
        ),
        (
            "@f %1000000000000000000000000000000000000000 %1000000000000000000000000000000000000001",
            "dpp",
            "|",
        ),
        (
            "@f %1000000000000000000000000000000000000000 %7",
            "dpp",
            "Twice@45",
        ),
    ];
    check_rows(&rt, rt.alloc(), rows.as_slice())
}

#[test]
fn names_stand_for_the_first_that_they_mean(rt: HostRuntime) -> Result<(), Fail> {
    let rows = [
        ("%a %a ptr", "TtP", "1 1 |"),
        ("%a ptr %a", "tPT", "0 0 |"),
        ("%b ptr %a %b %a", "tPtTT", "0 0 1 |"),
        ("@g @g", "Gg", "| 0"),
        ("@a @f @b null @b @a", "gdgZGG", "| - 1 0"),
        ("@a ptr ptr @b @\"b\"", "gPPgG", "0 1 | 1"),
    ];
    check_rows(&rt, rt.alloc(), rows.as_slice())
}
