use super::*;

/// Times that a text stands in a row.
fn push_times(out: &mut String, part: &str, times: u32) -> Result<(), Fail> {
    for _ in 0..times {
        out.push_str(part)?;
    }
    Ok(())
}

/// Parts so many times in a row behind a front, what is inside, and closing parts as often before a back.
fn check_nested(
    rt: &impl Abort,
    alloc: Global,
    levels: u32,
    rows: &[(&str, &str, &str, &str, &str)],
) -> Result<(), Fail> {
    for (front, open, inner, close, want) in rows {
        let mut text = String::from_str(alloc, front)?;
        push_times(&mut text, open, levels)?;
        text.push_str(inner)?;
        push_times(&mut text, close, levels)?;
        let found = counts(alloc, text.as_bytes())?;
        assert_eq!(rt; found.as_str(), *want, "at {front:?} {open:?}");
    }
    Ok(())
}

#[test]
fn brackets_64_deep(rt: HostRuntime) -> Result<(), Fail> {
    let rows = [
        ("%t = type ", "[1 x ", "i8", "]", "65 0 1"),
        ("%t = type ", "{", "", "}", "64 0 1"),
        ("%t = type ", "<{", "", "}>", "64 0 1"),
        ("@g = global i8 ", "[i8 ", "0", "]", "65 65 1"),
        ("@g = global i8 ", "{i8 ", "0", "}", "65 65 1"),
        ("@g = global i8 ", "<{i8 ", "0", "}>", "65 65 1"),
        (
            "@g = global ptr ",
            "getelementptr (i8, ptr ",
            "@g",
            ")",
            "65 65 1",
        ),
        ("@g = x", "(", "", ")", "BadSyntax 1:135"),
        ("@llvm.used = global ptr ", "[", "", "]", "1 0 1"),
        ("!foo = !", "{", "", "}", "0 0 1"),
        ("!0 = !foo ", "(", "", ")", "0 0 1"),
    ];
    check_nested(&rt, rt.alloc(), 64, rows.as_slice())
}

#[test]
fn brackets_65_deep(rt: HostRuntime) -> Result<(), Fail> {
    let rows = [
        ("%t = type ", "[1 x ", "i8", "]", "TooLarge Nesting 1:331"),
        ("%t = type ", "{", "", "}", "TooLarge Nesting 1:75"),
        ("%t = type ", "<{", "", "}>", "TooLarge Nesting 1:140"),
        (
            "@g = global i8 ",
            "[i8 ",
            "0",
            "]",
            "TooLarge Nesting 1:272",
        ),
        (
            "@g = global i8 ",
            "{i8 ",
            "0",
            "}",
            "TooLarge Nesting 1:272",
        ),
        (
            "@g = global i8 ",
            "<{i8 ",
            "0",
            "}>",
            "TooLarge Nesting 1:337",
        ),
        (
            "@g = global ptr ",
            "getelementptr (i8, ptr ",
            "@g",
            ")",
            "TooLarge Nesting 1:1503",
        ),
        ("@g = x", "(", "", ")", "TooLarge Nesting 1:71"),
        (
            "@llvm.used = global ptr ",
            "[",
            "",
            "]",
            "TooLarge Nesting 1:89",
        ),
        (
            "@llvm.used = global ptr ",
            "{",
            "",
            "}",
            "TooLarge Nesting 1:89",
        ),
        ("!foo = !", "{", "", "}", "TooLarge Nesting 1:73"),
        ("!0 = !foo ", "(", "", ")", "TooLarge Nesting 1:75"),
        ("!0 = !foo ", "(", "", "", "TooLarge Nesting 1:75"),
    ];
    check_nested(&rt, rt.alloc(), 65, rows.as_slice())
}

#[test]
fn brackets_inside_other_brackets(rt: HostRuntime) -> Result<(), Fail> {
    let rows = [
        (
            "declare void @f(",
            "[1 x ",
            "i8",
            "]",
            "TooLarge Nesting 1:332",
        ),
        (
            "declare void @f(i8 x",
            "(",
            "",
            ")",
            "TooLarge Nesting 1:84",
        ),
        ("attributes #0 = { ", "(", "", ")", "TooLarge Nesting 1:82"),
        (
            "@g = global ptr getelementptr (",
            "[1 x ",
            "i8",
            "]",
            "TooLarge Nesting 1:347",
        ),
        (
            "@g = global ptr getelementptr inrange (",
            "(",
            "i8",
            ")",
            "TooLarge Nesting 1:103",
        ),
        // What may not stand at the 65th bracket, or is Unsupported there, is answered so.
        ("%t = type ", "[1 x ", "(", "]", "BadSyntax 1:331"),
        ("%t = type ", "[1 x ", "<4 x i8>", "]", "Unsupported 1:331"),
        (
            "%t = type ",
            "[1 x ",
            "<{i8}>",
            "]",
            "TooLarge Nesting 1:332",
        ),
        ("%t = type ", "[1 x ", "<[", "]", "BadSyntax 1:332"),
        ("%t = type ", "[1 x ", "i8 {", "]", "BadSyntax 1:334"),
        ("@g = global i8 ", "[i8 ", "(", "]", "BadSyntax 1:272"),
        ("@g = global i8 ", "[i8 ", "<4", "]", "Unsupported 1:272"),
        (
            "@g = global i8 ",
            "[i8 ",
            "<{",
            "]",
            "TooLarge Nesting 1:273",
        ),
        ("@g = global i8 ", "[i8 ", "add (", "]", "Unsupported 1:272"),
        (
            "@g = global i8 ",
            "[i8 ",
            "getelementptr (",
            "]",
            "TooLarge Nesting 1:286",
        ),
        ("!0 = !foo ", "(", "}", ")", "BadSyntax 1:75"),
        ("!0 = !foo ", "(", "<{", ")", "TooLarge Nesting 1:76"),
    ];
    check_nested(&rt, rt.alloc(), 64, rows.as_slice())
}
