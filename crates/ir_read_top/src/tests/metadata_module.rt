use super::*;

/// Declares, attributes and metadata in the manner of Clang's output with `-g`, shortened.
const TEXT: &str = r#"declare noalias noundef ptr @malloc(i64 noundef) local_unnamed_addr #1
declare noundef i32 @putchar(i32 noundef) local_unnamed_addr #1
declare void @free(ptr allocptr nocapture noundef) local_unnamed_addr #1

attributes #0 = { nounwind "frame-pointer"="non-leaf" "target-cpu"="generic" }
attributes #1 = { nounwind }
attributes #2 = { nounwind allocsize(0) }
attributes #3 = { nounwind }

!llvm.dbg.cu = !{!0}
!llvm.module.flags = !{!2, !3}

!0 = distinct !DICompileUnit(language: DW_LANG_C11, file: !1, producer: "clang", isOptimized: true, runtimeVersion: 0, emissionKind: FullDebug)
!1 = !DIFile(filename: "list.c", directory: "/src")
!2 = !{i32 7, !"Dwarf Version", i32 5}
!3 = !{i32 2, !"Debug Info Version", i32 3}
!10 = distinct !DISubprogram(name: "main", scope: !1, file: !1, line: 3, type: !11, scopeLine: 3, spFlags: DISPFlagDefinition, unit: !0)
!11 = !DISubroutineType(types: !12)
!12 = !{null}
!20 = !DILocation(line: 4, column: 3, scope: !10)
!21 = !DILocation(line: 5, column: 21, scope: !10)
!22 = !DILocation(line: 8, column: 5, scope: !10)
!23 = !DILocation(line: 9, column: 5, scope: !10)
!24 = !DILocation(line: 11, column: 3, scope: !10)
!30 = !{!33, !33, i64 0}
!31 = distinct !{!31, !20, !32}
!32 = !{!"llvm.loop.mustprogress"}
!33 = !{!"int"}
define i32 @main() { ret i32 0 }
"#;

/// A node as KIND LINE:COLUMN scope inlined file name.
fn shown_node(alloc: Global, node: &Node) -> Result<String, Fail> {
    let kind = match node.kind {
        NodeKind::Location => "L",
        NodeKind::Subprogram => "S",
        NodeKind::File => "F",
        NodeKind::Other => "O",
    };
    let (line, column) = (node.line, node.column);
    let scope = shown_number(alloc, node.scope)?;
    let inlined = shown_number(alloc, node.inlined)?;
    let file = shown_number(alloc, node.file)?;
    let name = std::str::from_utf8(node.name.as_slice())?;
    Ok(format!(in alloc; "{kind}{line}:{column} s{scope} i{inlined} f{file} {name}|")?)
}

/// A number of a node, or `-`.
fn shown_number(alloc: Global, number: Option<u32>) -> Result<String, Fail> {
    match number {
        None => Ok(String::from_str(alloc, "-")?),
        Some(n) => Ok(format!(in alloc; "{n}")?),
    }
}

#[test]
fn a_module_keeps_its_metadata_nodes(rt: HostRuntime) -> Result<(), Fail> {
    let module = accepted(rt.alloc(), TEXT.as_bytes())?;
    let mut found = String::new(rt.alloc());
    for node in module.meta.as_slice() {
        found.push_str(shown_node(rt.alloc(), node)?.as_str())?;
    }
    assert_eq!(rt;
        found.as_str(),
        "F0:0 s- i- f- list.c|S0:0 s- i- f0 main|L4:3 s1 i- f- |L5:21 s1 i- f- |L8:5 s1 i- f- |L9:5 s1 i- f- |L11:3 s1 i- f- |"
    );
    assert_eq!(rt; module.declares.len(), 3);
    assert!(rt; module.globals.is_empty());
    Ok(())
}
