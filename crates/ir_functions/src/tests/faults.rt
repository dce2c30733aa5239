use super::*;
use ir_names::NameFault;

/// The first fault of a name in a body, by the keys of the functions and nodes that its names may mean.
fn first_fault<'k>(
    alloc: Global,
    text: &[u8],
    header: &Header,
    body: &Body,
    functions: &Index<'k>,
    declares: &Index<'k>,
    nodes: &Index<'k>,
) -> Result<Option<NameFault>, Fail> {
    let found = &body.raw.found;
    let mut numbers = Vec::new(alloc);
    let mut n: u32 = 0;
    for _ in found.types.iter() {
        numbers.push(n)?;
        n = n.saturating_add(1);
    }
    let names = Names {
        source: text,
        types: &found.types,
        numbers: &numbers,
        bodies: &found.bodies,
        functions: &*functions,
        declares: &*declares,
        nodes: &*nodes,
        kinds: &header.kinds,
    };
    Ok(beside_body(alloc, &names, &header.parameters, &body.raw.blocks, None)?)
}

/// The first fault of a name in a body as FAULT LINE:COLUMN, or `none`.
fn fault(alloc: Global, text: &[u8]) -> Result<String, Fail> {
    let tokens = tokens_of(alloc, text)?;
    let (header, at) = header_of(alloc, text, tokens.as_slice())?;
    let body = body_at(alloc, &tokens, text, at)?;
    let functions = Index::new(alloc, &header.functions)?;
    let declares = Index::new(alloc, &header.declares)?;
    let nodes = Index::new(alloc, &header.nodes)?;
    match first_fault(alloc, text, &header, &body, &functions, &declares, &nodes)? {
        None => Ok(String::from_str(alloc, "none")?),
        Some(fault) => {
            let (word, place) = (fault.fault.word(), fault.at.place);
            let (line, column) = (place.line, place.column);
            Ok(format!(in alloc; "{word} {line}:{column}")?)
        }
    }
}

fn check_rows(rt: &impl Abort, alloc: Global, rows: &[(&str, &str)]) -> Result<(), Fail> {
    for (text, want) in rows {
        let found = fault(alloc, text.as_bytes())?;
        assert_eq!(rt; found.as_str(), *want, "at {text:?}");
    }
    Ok(())
}

#[test]
fn unnamed_parameters_blocks_and_results_share_a_counter(rt: HostRuntime) -> Result<(), Fail> {
    let rows = [
        // the entry block is 0
        ("{ %1 = add i8 1, 2 ret i8 %1 }", "none"),
        ("{ %0 = add i8 1, 2 ret i8 %0 }", "Twice 1:3"),
        // two parameters, then the entry block is 2
        ("_ _ { %3 = add i8 %0, %1 ret i8 %3 }", "none"),
        ("_ _ { %2 = add i8 %0, %1 ret i8 0 }", "Twice 1:7"),
        ("_ _ { add i8 %0, %1 ret i8 %3 }", "none"),
        ("_ _ { add i8 %0, %1 ret i8 %4 }", "Unknown 1:28"),
        // a named parameter and a named block take no number
        ("%a _ { entry: %1 = add i8 %a, %0 ret i8 %1 }", "none"),
        // a label may be a number, and after a terminator a block without one takes the next
        ("{ br label %1 1: ret void }", "none"),
        ("{ br label %1 ret void }", "none"),
        ("{ br label %2 ret void }", "Unknown 1:12"),
        ("{ br label %2 2: ret void }", "none"),
        ("{ ret void 0: ret void }", "Twice 1:12"),
        // a call of type void and a store take no number, another call does
        ("@f { call void @f() %1 = call i8 @f() ret i8 %1 }", "none"),
        (
            "@f { call i8 @f() %1 = call i8 @f() ret i8 %1 }",
            "Twice 1:19",
        ),
        ("@f { call i8 @f() %2 = call i8 @f() ret i8 %1 }", "none"),
        (
            "_ { store i8 1, ptr %0 %2 = load i8, ptr %0 ret i8 %2 }",
            "none",
        ),
        // but with a name before it each of them does
        (
            "@f { %1 = call void @f() %2 = call i8 @f() ret i8 %2 }",
            "none",
        ),
        // a written number may skip some, and has no bound
        ("{ %7 = add i8 1, 2 %8 = add i8 1, 2 ret i8 %7 }", "none"),
        ("{ %7 = add i8 1, 2 add i8 1, 2 ret i8 %08 }", "none"),
        (
            "{ %7 = add i8 1, 2 %5 = add i8 1, 2 ret i8 %7 }",
            "Twice 1:20",
        ),
        (
            "{ %99999999999999999999999999999999999999999 = add i8 1, 2 add i8 1, 2 ret i8 %100000000000000000000000000000000000000000 }",
            "none",
        ),
        (
            "{ %99999999999999999999999999999999999999999 = add i8 1, 2 %99999999999999999999999999999999999999998 = add i8 1, 2 ret void }",
            "Twice 1:60",
        ),
        // a quoted number is a name
        ("{ %\"0\" = add i8 1, 2 ret i8 %\"0\" }", "none"),
    ];
    check_rows(&rt, rt.alloc(), rows.as_slice())
}

#[test]
fn registers_and_blocks_share_one_set_of_names(rt: HostRuntime) -> Result<(), Fail> {
    let rows = [
        ("%a { %a = add i8 1, 2 ret void }", "Twice 1:6"),
        (
            "{ %a = add i8 1, 2 %\"a\" = add i8 1, 2 ret void }",
            "Twice 1:20",
        ),
        (
            "{ ret void a: ret void b: ret void a: ret void }",
            "Twice 1:36",
        ),
        ("%a { ret void a: ret void }", "Twice 1:15"),
        ("{ %a = add i8 1, 2 br label %a }", "Unknown 1:29"),
        (
            "{ br label %a a: %b = add i8 %a, 1 ret void }",
            "Unknown 1:30",
        ),
        ("{ br label %entry }", "Unknown 1:12"),
        ("{ entry: br label %entry }", "Unknown 1:19"),
        (
            "{ entry: br label %a a: %x = phi i8 [ 1, %entry ], [ %x, %a ] br label %a }",
            "none",
        ),
        (
            "{ entry: br label %a a: %x = phi i8 [ 1, %b ] br label %a }",
            "Unknown 1:42",
        ),
        (
            "{ br label %a a: switch i8 1, label %a [ i8 2, label %0 ] }",
            "Unknown 1:54",
        ),
        (
            "{ br label %a a: switch i8 1, label %b [ i8 2, label %a ] }",
            "Unknown 1:37",
        ),
        // a register may be used before its definition, and in a block that nothing reaches
        ("{ %a = add i8 %b, 1 %b = add i8 1, 2 ret void }", "none"),
        (
            "{ %a = add i8 %c, 1 %b = add i8 %d, 2 ret void }",
            "Unknown 1:15",
        ),
        // the first place decides, whichever rule is broken
        (
            "{ %a = add i8 %c, 1 %a = add i8 1, 2 ret void }",
            "Unknown 1:15",
        ),
        (
            "{ %a = add i8 1, 1 %a = add i8 %c, 2 ret void }",
            "Twice 1:20",
        ),
    ];
    check_rows(&rt, rt.alloc(), rows.as_slice())
}

#[test]
fn called_functions_and_locations_are_there(rt: HostRuntime) -> Result<(), Fail> {
    let rows = [
        ("@f { call void @f() ret void }", "none"),
        ("declare @g { call void @g() ret void }", "none"),
        ("@f declare @g { call void @h() ret void }", "Unknown 1:27"),
        ("@f { call void @\"f\"() ret void }", "none"),
        (
            "{ call void @llvm.dbg.value(metadata i8 0) ret void }",
            "none",
        ),
        ("!7 { ret void, !dbg !7 }", "none"),
        ("!7 { ret void, !dbg !007, !x !9 }", "none"),
        ("!7 { ret void, !dbg !8 }", "Unknown 1:21"),
        ("other !7 { ret void, !dbg !7 }", "Unknown 1:27"),
        ("!7 { ret void, !dbg !DILocation(line: 1) }", "Unknown 1:21"),
        ("!7 { ret void, !dbg !{} }", "Unknown 1:21"),
        ("!7 { ret void, !dbg !7, !dbg !8 }", "Unknown 1:30"),
        ("!7 { ret void, !x !8 }", "none"),
    ];
    check_rows(&rt, rt.alloc(), rows.as_slice())
}
