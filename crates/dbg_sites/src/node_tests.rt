use super::*;
use ir_core::{Node, NodeKind};
use std::alloc::Global;
use std::process::Abort;
use std::test::Fail;

pub(crate) mod module_text;

/// A number of a node, or `-`.
fn shown_number(alloc: Global, number: Option<u32>) -> Result<String, Fail> {
    match number {
        None => Ok(String::from_str(alloc, "-")?),
        Some(n) => Ok(format!(in alloc; "{n}")?),
    }
}

/// A node as KIND LINE:COLUMN scope inlined file name.
fn shown_node(alloc: Global, node: &Node) -> Result<String, Fail> {
    let kind = match node.kind {
        NodeKind::Location => "L",
        NodeKind::Subprogram => "S",
        NodeKind::File => "F",
        NodeKind::Other => "O",
    };
    let (line, column) = (node.line, node.column);
    let scope = shown_number(alloc, node.scope)?;
    let inlined = shown_number(alloc, node.inlined)?;
    let file = shown_number(alloc, node.file)?;
    let name = std::str::from_utf8(node.name.as_slice())?;
    Ok(format!(in alloc; "{kind}{line}:{column} s{scope} i{inlined} f{file} {name}|")?)
}

/// The kept nodes of a text, one after the other.
fn shown(alloc: Global, text: &[u8]) -> Result<String, Fail> {
    if text.len() > 16777216 {
        return Err(Fail::from("too long"));
    }
    let Ok(tokens) = ir_lex::lex(alloc, text) else {
        return Err(Fail::from("no tokens"));
    };
    if tokens.len() >= 1 << 32 {
        return Err(Fail::from("too many tokens"));
    }
    let meta = read_meta(alloc, &tokens)?;
    let mut out = String::new(alloc);
    for node in meta.as_slice() {
        out.push_str(shown_node(alloc, node)?.as_str())?;
    }
    Ok(out)
}

fn check_rows(rt: &impl Abort, alloc: Global, rows: &[(&str, &str)]) -> Result<(), Fail> {
    for (text, want) in rows {
        let found = shown(alloc, text.as_bytes())?;
        assert_eq!(rt; found.as_str(), *want, "at {text:?}");
    }
    Ok(())
}

#[test]
fn kept_are_locations_subprograms_files_and_named_nodes_with_a_scope(
    rt: HostRuntime,
) -> Result<(), Fail> {
    let rows = [
        ("", ""),
        ("!0 = !DILocation(line: 4, column: 3)", "L4:3 s- i- f- |"),
        ("!0 = !DISubprogram(name: \"f\")", "S0:0 s- i- f- f|"),
        ("!0 = distinct !DISubprogram()", "S0:0 s- i- f- |"),
        ("!0 = !DIFile(filename: \"a.c\")", "F0:0 s- i- f- a.c|"),
        ("!0 = !DIBasicType(name: \"int\")", ""),
        ("!0 = !{!1}\n!1 = distinct !{!\"scope\"}", ""),
        ("!0 = !DILexicalBlock(scope: null)", "O0:0 s- i- f- |"),
        ("!0 = !DIX(a: (scope: !0))", ""),
        ("!llvm.dbg.cu = !{!0}\n!0 = !DIFile()", "F0:0 s- i- f- |"),
    ];
    check_rows(&rt, rt.alloc(), rows.as_slice())
}

#[test]
fn a_number_is_the_place_among_the_kept_nodes(rt: HostRuntime) -> Result<(), Fail> {
    let rows = [
        (
            "!5 = !{}\n!7 = !DIX(scope: !9)\n!8 = !DIX()\n!9 = !DIX(scope: !7)",
            "O0:0 s1 i- f- |O0:0 s0 i- f- |",
        ),
        (
            "!07 = !DIFile(filename: \"x\")\n!1 = !DIX(scope: !7, file: !007)\n!00 = !DIX(scope: !0)",
            "F0:0 s- i- f- x|O0:0 s0 i- f0 |O0:0 s2 i- f- |",
        ),
        (
            "!1 = !DIFile(filename: \"a\")\n!1 = !DIFile(filename: \"b\")\n!2 = !DIX(scope: !1)",
            "F0:0 s- i- f- a|F0:0 s- i- f- b|O0:0 s0 i- f- |",
        ),
        (
            "!340282366920938463463374607431768211456 = !DIFile()\n!0 = !DIFile()\n!4294967296 = !DIX(scope: !0, file: !340282366920938463463374607431768211456)",
            "F0:0 s- i- f- |F0:0 s- i- f- |O0:0 s1 i- f0 |",
        ),
    ];
    check_rows(&rt, rt.alloc(), rows.as_slice())
}

#[test]
fn what_stands_inside_brackets_defines_nothing(rt: HostRuntime) -> Result<(), Fail> {
    let rows = [
        (
            "define void @f() {\n ret void, !dbg !DILocation(line: 1)\n}\n@g = global i8 0, !dbg !0\n!0 = !DIFile()",
            "F0:0 s- i- f- |",
        ),
        (
            "attributes #0 = { !1 = !DIFile() }\n!2 = !DIX(scope: !1)",
            "O0:0 s- i- f- |",
        ),
        (
            "!0 = !DIX(scope: !DIFile(filename: \"z\"), file: !DIFile())",
            "O0:0 s- i- f- |",
        ),
        (
            "declare !dbg !3 void @f(ptr)\n!3 = !DIFile()",
            "F0:0 s- i- f- |",
        ),
    ];
    check_rows(&rt, rt.alloc(), rows.as_slice())
}

#[test]
fn a_field_is_a_label_outside_inner_brackets(rt: HostRuntime) -> Result<(), Fail> {
    let rows = [
        (
            "!0 = !DILocation(x: (line: 9, column: 8), line: 4, y: {column: 7}, column: 3)",
            "L4:3 s- i- f- |",
        ),
        (
            "!0 = !DILocation(line: 4, line: 5, column: 3, column: 2)",
            "L4:3 s- i- f- |",
        ),
        (
            "!0 = !DILocation(line: x, line: 5, column: 3)",
            "L0:3 s- i- f- |",
        ),
        (
            "!0 = !DILocation(line: 4 5, column: (3))",
            "L0:0 s- i- f- |",
        ),
        (
            "!0 = !DILocation(line: !{1, 2}, column: 3)",
            "L0:3 s- i- f- |",
        ),
        ("!0 = !DILocation(line: , column: 3)", "L0:3 s- i- f- |"),
        ("!0 = !DILocation(4, 3)", "L0:0 s- i- f- |"),
        (
            "!0 = !DILocation(\"line\": 4, \"col\\75mn\": 3)",
            "L4:3 s- i- f- |",
        ),
        ("!0 = !DILocation(Line: 4, lin: 5)", "L0:0 s- i- f- |"),
    ];
    check_rows(&rt, rt.alloc(), rows.as_slice())
}

#[test]
fn a_line_or_column_is_one_integer_in_range(rt: HostRuntime) -> Result<(), Fail> {
    let rows = [
        (
            "!0 = !DILocation(line: 4294967295, column: 4294967296)",
            "L4294967295:0 s- i- f- |",
        ),
        (
            "!0 = !DILocation(line: 340282366920938463463374607431768211455, column: 0)",
            "L0:0 s- i- f- |",
        ),
        (
            "!0 = !DILocation(line: -1, column: 00000000000007)",
            "L0:7 s- i- f- |",
        ),
        (
            "!0 = !DILocation(line: \"4\", column: 1.5)",
            "L0:0 s- i- f- |",
        ),
    ];
    check_rows(&rt, rt.alloc(), rows.as_slice())
}

#[test]
fn a_reference_that_names_nothing_fit_is_missing(rt: HostRuntime) -> Result<(), Fail> {
    let rows = [
        (
            "!0 = !{}\n!1 = !DIX(scope: !0, file: !9)",
            "O0:0 s- i- f- |",
        ),
        ("!1 = !DIX(scope: !1 !1, file: 1)", "O0:0 s- i- f- |"),
        (
            "!0 = !DIFile()\n!1 = !DILocation(inlinedAt: !0)\n!2 = !DILocation(inlinedAt: !1)",
            "F0:0 s- i- f- |L0:0 s- i- f- |L0:0 s- i1 f- |",
        ),
        (
            "!2 = !DILocation(scope: !2, inlinedAt: !2)",
            "L0:0 s0 i0 f- |",
        ),
    ];
    check_rows(&rt, rt.alloc(), rows.as_slice())
}

#[test]
fn a_name_is_one_string_with_its_escapes_resolved(rt: HostRuntime) -> Result<(), Fail> {
    let rows = [
        ("!0 = !DISubprogram(name: \"\")", "S0:0 s- i- f- |"),
        ("!0 = !DISubprogram(name: \"a\" \"b\")", "S0:0 s- i- f- |"),
        ("!0 = !DISubprogram(name: a)", "S0:0 s- i- f- |"),
        (
            "!0 = !DISubprogram(name: \"a\\5Cb\\\\c\\zd\")",
            "S0:0 s- i- f- a\\b\\c\\zd|",
        ),
        (
            "!0 = !DIFile(filename: \"\\\\41\\41\\6a\\4\")",
            "F0:0 s- i- f- \\41Aj\\4|",
        ),
        ("!0 = !DIFile(filename: \"\\\\\\\")", "F0:0 s- i- f- \\\\|"),
    ];
    check_rows(&rt, rt.alloc(), rows.as_slice())
}

#[test]
fn each_kind_has_its_own_fields(rt: HostRuntime) -> Result<(), Fail> {
    let rows = [(
        "!0 = !DIFile(filename: \"a\", name: \"n\", file: !0, scope: !0)\n\
         !1 = !DISubprogram(name: \"f\", scope: !0, file: !0, line: 7, filename: \"n\")\n\
         !2 = !DILocation(line: 1, scope: !1, file: !0, name: \"n\")\n\
         !3 = !DIX(scope: !1, file: !1, name: \"n\", line: 5, column: 6, inlinedAt: !2)",
        "F0:0 s- i- f- a|S0:0 s- i- f0 f|L1:0 s1 i- f- |O0:0 s1 i- f1 |",
    )];
    check_rows(&rt, rt.alloc(), rows.as_slice())
}

#[test]
fn the_nodes_of_a_whole_module(rt: HostRuntime) -> Result<(), Fail> {
    let want =
        "F0:0 s- i- f- list.c|S0:0 s- i- f0 main|L4:3 s1 i- f- |L5:21 s1 i- f- |L8:5 s1 i- f- |L9:5 s1 i- f- |L11:3 s1 i- f- |";
    let found = shown(rt.alloc(), module_text::LIST_MODULE.as_bytes())?;
    assert_eq!(rt; found.as_str(), want);
    Ok(())
}

#[test]
fn a_chain_of_a_thousand_locations(rt: HostRuntime) -> Result<(), Fail> {
    let alloc = rt.alloc();
    let mut text = String::new(alloc);
    let mut want = String::new(alloc);
    for k in 0..1000u32 {
        let next = k + 1;
        let line = format!(in alloc;
            "!{k} = !DILocation(line: {k}, scope: !0, inlinedAt: !{next})\n"
        )?;
        text.push_str(line.as_str())?;
        let inlined = if k == 999 { None } else { Some(next) };
        let inlined = shown_number(alloc, inlined)?;
        let node = format!(in alloc; "L{k}:0 s0 i{inlined} f- |")?;
        want.push_str(node.as_str())?;
    }
    let found = shown(alloc, text.as_bytes())?;
    assert_eq!(rt; found.as_str(), want.as_str());
    Ok(())
}
