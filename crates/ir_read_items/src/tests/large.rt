use super::*;

/// A front, a part so many times in a row, and a back.
fn repeated(
    alloc: Global,
    front: &str,
    part: &str,
    times: u32,
    back: &str,
) -> Result<String, Fail> {
    let mut text = String::from_str(alloc, front)?;
    for _ in 0..times {
        text.push_str(part)?;
    }
    text.push_str(back)?;
    Ok(text)
}

#[test]
fn a_million_tokens_at_one_level(rt: HostRuntime) -> Result<(), Fail> {
    let rows = [
        ("attributes #0 = { ", "a ", "}", "0 0 1"),
        ("!0 = !{", "!0,", "!0}", "0 0 1"),
        ("!foo = !{", "{}", "]", "BadSyntax 1:2000010"),
        (
            "@llvm.used = global ptr [",
            "a\n",
            "",
            "BadSyntax 1000001:1",
        ),
    ];
    let alloc = rt.alloc();
    for (front, part, back, want) in rows.as_slice() {
        let text = repeated(alloc, front, part, 1000000, back)?;
        let found = counts(alloc, text.as_bytes())?;
        assert_eq!(&rt; found.as_str(), *want, "at {front:?}");
    }
    Ok(())
}

#[test]
fn a_hundred_thousand_items_of_each_kind(rt: HostRuntime) -> Result<(), Fail> {
    let rows = [
        ("source_filename = \"a\"\n", "0 0 100000"),
        ("target datalayout = \"e-i64:64\"\n", "0 0 100000"),
        ("target triple = \"a\"\n", "0 0 100000"),
        ("%t = type { i8, ptr }\n", "300000 0 100000"),
        (
            "@g = global [2 x i8] [i8 1, i8 2], align 8\n",
            "400000 300000 100000",
        ),
        ("@llvm.used = global ptr [ptr @g]\n", "100000 0 100000"),
        (
            "declare !dbg !0 void @f(i8 noundef %a, ptr) #0 !x !1\n",
            "300000 0 100000",
        ),
        ("attributes #0 = { nounwind }\n", "0 0 100000"),
        ("!0 = distinct !{!1}\n", "0 0 100000"),
        ("!foo = !{!1}\n", "0 0 100000"),
    ];
    let alloc = rt.alloc();
    for (part, want) in rows.as_slice() {
        let text = repeated(alloc, "", part, 100000, "")?;
        let found = counts(alloc, text.as_bytes())?;
        assert_eq!(&rt; found.as_str(), *want, "at {part:?}");
    }
    Ok(())
}

#[test]
fn long_lists_in_one_item(rt: HostRuntime) -> Result<(), Fail> {
    let rows = [
        ("%t = type { i8", ", i8", "}", "100002 0 1"),
        (
            "@g = global [1 x i8] [ i8 0",
            ", i8 0",
            "]",
            "100003 100002 1",
        ),
        (
            "@g = global ptr getelementptr (i8, ptr @g",
            ", i8 0",
            ")",
            "100002 2 1",
        ),
        (
            "@g = global ptr getelementptr ",
            "nuw ",
            "(i8, ptr @g)",
            "2 2 1",
        ),
        ("@g = ", "private ", "global i8 0", "1 1 1"),
        ("@g = global i8 0", ", align 8", "", "1 1 1"),
        ("declare void @f(i8", ", i8", ")", "100002 0 1"),
        ("declare ", "!dbg !0 ", "void @f()", "1 0 1"),
        ("declare void @f()", " !dbg !0", "", "1 0 1"),
    ];
    let alloc = rt.alloc();
    for (front, part, back, want) in rows.as_slice() {
        let text = repeated(alloc, front, part, 100000, back)?;
        let found = counts(alloc, text.as_bytes())?;
        assert_eq!(&rt; found.as_str(), *want, "at {front:?} {part:?}");
    }
    Ok(())
}
