use super::*;
use hw_base::{ByteList, SizeList};
use ir_core::{
    BlockList, DbgRef, DeclareList, Function, FunctionList, GlobalList, Inst, InstList, LayoutList,
    Module, Op, Place, TypeIdList, TypeList,
};
use std::alloc::Global;
use std::process::Abort;
use std::test::Fail;

/// A function `f` of instructions with these debug locations, the k-th of them in line k.
fn function_of(alloc: Global, nodes: &[u32]) -> Result<Function, Fail> {
    let mut insts = InstList::new(alloc);
    let mut line: u32 = 1;
    for node in nodes {
        let place = Place { line, column: 7 };
        line = line.saturating_add(1);
        insts.push(Inst {
            op: Op::Fence,
            result: None,
            dbg: Some(DbgRef { node: *node, place }),
            place,
        })?;
    }
    Ok(Function {
        name: ByteList::from_vec(Vec::from_slice(alloc, b"f".as_slice())?),
        params: 0,
        result: 0,
        regs: TypeIdList::new(alloc),
        allocas: SizeList::new(alloc),
        blocks: BlockList::new(alloc),
        insts,
        place: Place { line: 1, column: 1 },
    })
}

/// A module with the metadata of a text and a function of these debug locations.
pub(crate) fn module_of(alloc: Global, text: &[u8], nodes: &[u32]) -> Result<Module, Fail> {
    if text.len() > 16777216 {
        return Err(Fail::from("too long"));
    }
    let Ok(tokens) = ir_lex::lex(alloc, text) else {
        return Err(Fail::from("no tokens"));
    };
    if tokens.len() >= 1 << 32 {
        return Err(Fail::from("too many tokens"));
    }
    let mut functions = FunctionList::new(alloc);
    functions.push(function_of(alloc, nodes)?)?;
    Ok(Module {
        types: TypeList::new(alloc),
        fields: TypeIdList::new(alloc),
        layouts: LayoutList::new(alloc),
        globals: GlobalList::new(alloc),
        declares: DeclareList::new(alloc),
        functions,
        main: 0,
        meta: read_meta(alloc, &tokens)?,
    })
}

fn shown(alloc: Global, module: &Module) -> Result<String, Fail> {
    match check_scopes(module) {
        Ok(()) => Ok(String::from_str(alloc, "ends")?),
        Err(refusal) => {
            let (fault, line, column) = (refusal.fault, refusal.line, refusal.column);
            Ok(format!(in alloc; "{fault} {line}:{column}")?)
        }
    }
}

#[test]
fn chains_that_never_end_are_refused_at_their_first_location(rt: HostRuntime) -> Result<(), Fail> {
    let alloc = rt.alloc();
    let rows = [
        ("", "", "ends"),
        (
            "!0 = !DILocation(scope: !1) !1 = !DISubprogram(name: \"f\")",
            "0",
            "ends",
        ),
        ("!0 = !DILocation(scope: !9)", "0", "ends"),
        (
            "!0 = !DILocation(scope: !1, inlinedAt: !0) !1 = !DISubprogram()",
            "0",
            "MetaCycle 1:7",
        ),
        ("!0 = !DILocation(scope: !0)", "0", "MetaCycle 1:7"),
        (
            "!0 = !DILocation(scope: !1) !1 = !DILexicalBlock(scope: !1)",
            "0",
            "MetaCycle 1:7",
        ),
        (
            "!0 = !DILocation(scope: !1) !1 = !DILexicalBlock(scope: !2) !2 = !DILexicalBlock(scope: !1)",
            "0",
            "MetaCycle 1:7",
        ),
        (
            "!0 = !DILocation(scope: !1) !1 = !DISubprogram(scope: !1)",
            "0",
            "ends",
        ),
        (
            "!0 = !DILocation(scope: !1, inlinedAt: !2) !1 = !DISubprogram() !2 = !DILocation(scope: !3) !3 = !N(scope: !3)",
            "0",
            "MetaCycle 1:7",
        ),
        (
            "!0 = !DILocation(scope: !1) !1 = !DISubprogram() !2 = !DILocation(scope: !3) !3 = !N(scope: !3)",
            "0",
            "ends",
        ),
        (
            "!0 = !DILocation(scope: !1) !1 = !DISubprogram() !2 = !DILocation(scope: !3) !3 = !N(scope: !3)",
            "002",
            "MetaCycle 3:7",
        ),
        (
            "!0 = !DILocation(scope: !1) !1 = !N(scope: !2) !2 = !N(scope: !3) !3 = !DISubprogram()",
            "0",
            "ends",
        ),
    ];
    for (text, digits, want) in rows {
        let mut nodes = Vec::new(alloc);
        for digit in digits.as_bytes() {
            nodes.push(u32::from(digit.saturating_sub(b'0')))?;
        }
        let module = module_of(alloc, text.as_bytes(), nodes.as_slice())?;
        let found = shown(alloc, &module)?;
        assert_eq!(&rt; found.as_str(), want, "at {text:?}");
    }
    Ok(())
}
