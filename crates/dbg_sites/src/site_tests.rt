use super::node_tests::module_text::LIST_MODULE;
use super::scope_tests::module_of;
use super::*;
use hw_base::Site;
use ir_core::Module;
use std::alloc::Global;
use std::process::Abort;
use std::test::Fail;

/// A frame as FUNC FILE:LINE:COLUMN, or FUNC ? without a place.
fn shown_frame(alloc: Global, frame: &Frame) -> Result<String, Fail> {
    let func = std::str::from_utf8(frame.func.as_slice())?;
    match &frame.place {
        None => Ok(format!(in alloc; "{func} ?|")?),
        Some(spot) => {
            let file = std::str::from_utf8(spot.file.as_slice())?;
            let (line, column) = (spot.line, spot.column);
            Ok(format!(in alloc; "{func} {file}:{line}:{column}|")?)
        }
    }
}

/// The frames of a site, one after the other.
fn shown(alloc: Global, module: &Module, site: Site) -> Result<String, Fail> {
    let Ok(sites) = Sites::of(alloc, module) else {
        return Err(Fail::from("no sites"));
    };
    let frames = sites.frames(site)?;
    let mut out = String::new(alloc);
    for frame in frames.as_slice() {
        out.push_str(shown_frame(alloc, frame)?.as_str())?;
    }
    Ok(out)
}

#[test]
fn frames_of_the_first_location(rt: HostRuntime) -> Result<(), Fail> {
    let alloc = rt.alloc();
    let rows = [
        (
            "!0 = !DILocation(line: 3, column: 5, scope: !1) !1 = !DISubprogram(name: \"main\", file: !2) !2 = !DIFile(filename: \"a.c\")",
            "main a.c:3:5|",
        ),
        (
            "!0 = !DILocation(scope: !1) !1 = !DISubprogram(name: \"main\", file: !2) !2 = !DIFile(filename: \"a.c\")",
            "main a.c:0:0|",
        ),
        (
            "!0 = !DILocation(line: 3, column: 5, scope: !3, inlinedAt: !4) !1 = !DISubprogram(name: \"main\", file: !2) !2 = !DIFile(filename: \"a.c\") !3 = !DISubprogram(name: \"g\", file: !6) !4 = !DILocation(line: 8, column: 9, scope: !5) !5 = !DILexicalBlock(scope: !1) !6 = !DIFile(filename: \"g.h\")",
            "g g.h:3:5|main a.c:8:9|",
        ),
        (
            "!0 = !DILocation(line: 3, column: 5, scope: !1) !1 = !DILexicalBlockFile(scope: !2, file: !4) !2 = !DISubprogram(name: \"main\", file: !3) !3 = !DIFile(filename: \"a.c\") !4 = !DIFile(filename: \"a.inc\")",
            "main a.inc:3:5|",
        ),
        (
            "!0 = !DILocation(line: 3, column: 5, scope: !1) !1 = !DISubprogram(name: \"inner\", file: !2, scope: !3) !2 = !DIFile(filename: \"a.c\") !3 = !DISubprogram(name: \"outer\", file: !2)",
            "inner a.c:3:5|",
        ),
        (
            "!0 = !DILocation(line: 3, column: 5, scope: !1) !1 = !DISubprogram(name: \"main\", file: !9)",
            "f ?|",
        ),
        (
            "!0 = !DILocation(line: 3, column: 5, scope: !1) !1 = !DILexicalBlock(scope: !2, file: !2) !2 = !DISubprogram(name: \"main\", file: !3) !3 = !DIFile(filename: \"a.c\")",
            "f ?|",
        ),
        (
            "!0 = !DILocation(line: 3, column: 5, scope: !1) !1 = !DILexicalBlock(scope: !9, file: !2) !2 = !DIFile(filename: \"a.c\")",
            "f ?|",
        ),
        (
            "!0 = !DILocation(line: 3, column: 5, scope: !1, inlinedAt: !4) !1 = !DISubprogram(name: \"main\", file: !2) !2 = !DIFile(filename: \"a.c\") !3 = !DISubprogram(file: !2) !4 = !DILocation(line: 8, column: 9, scope: !3, inlinedAt: !5) !5 = !DILocation(line: 1, column: 2, scope: !1)",
            "main a.c:3:5|f ?|main a.c:1:2|",
        ),
    ];
    for (text, want) in rows {
        let module = module_of(alloc, text.as_bytes(), [0u32].as_slice())?;
        let found = shown(alloc, &module, Site { func: 0, inst: 0 })?;
        assert_eq!(&rt; found.as_str(), want, "at {text:?}");
    }
    Ok(())
}

#[test]
fn frames_of_each_site_of_a_module(rt: HostRuntime) -> Result<(), Fail> {
    let alloc = rt.alloc();
    let module = module_of(alloc, LIST_MODULE.as_bytes(), [2u32, 6, 99].as_slice())?;
    let rows = [
        (0, 0, "main list.c:4:3|"),
        (0, 1, "main list.c:11:3|"),
        (0, 2, "f ?|"),
        (0, 3, "f ?|"),
        (1, 0, " ?|"),
    ];
    for (func, inst, want) in rows {
        let found = shown(alloc, &module, Site { func, inst })?;
        assert_eq!(&rt; found.as_str(), want, "at {func} {inst}");
    }
    Ok(())
}
