use super::*;

const MAIN: &str = "define i32 @main() { ret i32 0 }\n";

/// So many functions of one line each, `main` after them, and a function that is declared alone.
fn functions(alloc: Global, count: u32) -> Result<String, Fail> {
    let mut text = String::new(alloc);
    for i in 0..count {
        let line = format!(in alloc; "define void @f{i}() {{ ret void }}\n")?;
        text.push_str(line.as_str())?;
    }
    text.push_str(MAIN)?;
    text.push_str("declare i32 @putchar(i32)\n")?;
    Ok(text)
}

/// `main` with so many blocks, each of which leads to the next one, and the last of which ends with this line.
fn blocks(alloc: Global, count: u32, end: &str) -> Result<String, Fail> {
    let mut text = String::from_str(alloc, "define i32 @main() {\n  %x = add i32 1, 2\n")?;
    for i in 1..count {
        let line = format!(in alloc; "  br label %b{i}\nb{i}:\n")?;
        text.push_str(line.as_str())?;
    }
    text.push_str(end)?;
    Ok(text)
}

/// `main` with so many instructions.
fn instructions(alloc: Global, count: u32) -> Result<String, Fail> {
    let mut text = String::from_str(alloc, "define i32 @main() {\n")?;
    for _ in 1..count {
        text.push_str("fence seq_cst\n")?;
    }
    text.push_str("ret i32 0\n}\n")?;
    Ok(text)
}

/// A type of so many literal structs, one in the other.
fn nested(alloc: Global, count: u32) -> Result<String, Fail> {
    let mut text = String::from_str(alloc, "%t = type ")?;
    for _ in 0..count {
        text.push_str("{")?;
    }
    text.push_str("i8")?;
    for _ in 0..count {
        text.push_str("}")?;
    }
    text.push_str("\n")?;
    text.push_str(MAIN)?;
    Ok(text)
}

#[test]
fn defined_functions(rt: HostRuntime) -> Result<(), Fail> {
    let most = functions(rt.alloc(), 4_095)?;
    let more = functions(rt.alloc(), 4_096)?;
    let rows = [
        (most.as_str(), "accepted"),
        (more.as_str(), "refused: 10 TooLarge Functions at 4097:12"),
    ];
    check_rows(&rt, rt.alloc(), rows.as_slice())
}

#[test]
fn blocks_of_a_function(rt: HostRuntime) -> Result<(), Fail> {
    let most = blocks(rt.alloc(), 16_384, "  ret i32 %x\n}\n")?;
    let more = blocks(rt.alloc(), 16_385, "  ret i32 %x\n}\n")?;
    let flow = blocks(
        rt.alloc(),
        16_385,
        "  %z = add i32 %y, %x\n  %y = add i32 1, 2\n  ret i32 %z\n}\n",
    )?;
    let rows = [
        (most.as_str(), "accepted"),
        (more.as_str(), "refused: 10 TooLarge Blocks at 1:12"),
        (flow.as_str(), "refused: 7 NotOnEveryPath at 32771:16"),
    ];
    check_rows(&rt, rt.alloc(), rows.as_slice())
}

#[test]
fn instructions_of_a_function(rt: HostRuntime) -> Result<(), Fail> {
    let most = instructions(rt.alloc(), 262_144)?;
    let more = instructions(rt.alloc(), 262_145)?;
    let rows = [
        (most.as_str(), "accepted"),
        (more.as_str(), "refused: 10 TooLarge Instructions at 1:12"),
    ];
    check_rows(&rt, rt.alloc(), rows.as_slice())
}

#[test]
fn nested_types(rt: HostRuntime) -> Result<(), Fail> {
    let most = nested(rt.alloc(), 64)?;
    let more = nested(rt.alloc(), 65)?;
    let rows = [
        (most.as_str(), "accepted"),
        (more.as_str(), "refused: 10 TooLarge Nesting at 1:75"),
    ];
    check_rows(&rt, rt.alloc(), rows.as_slice())
}

#[test]
fn bytes_of_global_variables(rt: HostRuntime) -> Result<(), Fail> {
    let rows = [
        (
            "@a = global [16777200 x i8] zeroinitializer\ndefine i32 @main() {\n  ret i32 0\n}\n",
            "accepted",
        ),
        (
            "@a = global [16777201 x i8] zeroinitializer\ndefine i32 @main() {\n  ret i32 0\n}\n",
            "refused: 10 TooLarge Globals at 1:1",
        ),
        (
            "@a = constant [16777169 x i8] zeroinitializer\n@b = global i8 0\ndefine i32 @main() {\n  ret i32 0\n}\n",
            "accepted",
        ),
        (
            "@a = constant [16777169 x i8] zeroinitializer\n@b = global i8 0\n@c = global [0 x i8] zeroinitializer\n@d = global [16777201 x i8] zeroinitializer\ndefine i32 @main() {\n  ret i32 0\n}\n",
            "refused: 10 TooLarge Globals at 3:1",
        ),
        (
            "@a = global i8 0\n@llvm.used = appending global [2097152 x ptr] [ptr @a]\ndefine i32 @main() {\n  ret i32 0\n}\n",
            "accepted",
        ),
    ];
    check_rows(&rt, rt.alloc(), rows.as_slice())
}

#[test]
fn sizes_of_types(rt: HostRuntime) -> Result<(), Fail> {
    let rows = [
        (
            "%t = type [1099511627776 x i8]\ndefine i32 @main() {\n  ret i32 0\n}\n",
            "accepted",
        ),
        (
            "define i32 @main() {\n  ret i32 0\n}\n%t = type [1099511627777 x i8]\n",
            "refused: 10 TooLarge TypeSize at 1:1",
        ),
        (
            "%t = type { [1099511627776 x i8], i8 }\ndefine i32 @main() {\n  ret i32 0\n}\n",
            "refused: 10 TooLarge TypeSize at 1:1",
        ),
        (
            "%t = type [0 x [549755813889 x i16]]\ndefine i32 @main() {\n  ret i32 0\n}\n",
            "refused: 10 TooLarge TypeSize at 1:1",
        ),
        (
            "%t = type [18446744073709551615 x [18446744073709551615 x i128]]\ndefine i32 @main() {\n  ret i32 0\n}\n",
            "refused: 10 TooLarge TypeSize at 1:1",
        ),
        (
            "%t = type [18446744073709551615 x {}]\ndefine i32 @main() {\n  ret i32 0\n}\n",
            "accepted",
        ),
        (
            "define i32 @main() {\n  %p = getelementptr [1099511627777 x i8], ptr null\n  ret i32 0\n}\n",
            "refused: 10 TooLarge TypeSize at 1:1",
        ),
        (
            "declare void @f([1099511627777 x i8])\ndefine i32 @main() {\n  ret i32 0\n}\n",
            "refused: 10 TooLarge TypeSize at 1:1",
        ),
    ];
    check_rows(&rt, rt.alloc(), rows.as_slice())
}

#[test]
fn bytes_of_variables_of_frames(rt: HostRuntime) -> Result<(), Fail> {
    let rows = [
        (
            "define i32 @main() {\n  %p = alloca i8, i64 1099511627776\n  %q = alloca i64, i64 137438953472\n  %r = alloca i8, i8 -1\n  ret i32 0\n}\n",
            "accepted",
        ),
        (
            "define i32 @main() {\n  %p = alloca i8, i64 1099511627777\n  ret i32 0\n}\n",
            "refused: 10 TooLarge TypeSize at 1:1",
        ),
        (
            "define i32 @main() {\n  %p = alloca i64, i64 137438953473\n  ret i32 0\n}\n",
            "refused: 10 TooLarge TypeSize at 1:1",
        ),
        (
            "define i32 @main() {\n  %p = alloca i8, i64 -1\n  ret i32 0\n}\n",
            "refused: 10 TooLarge TypeSize at 1:1",
        ),
    ];
    check_rows(&rt, rt.alloc(), rows.as_slice())
}

#[test]
fn the_first_of_several_limits(rt: HostRuntime) -> Result<(), Fail> {
    let rows = [
        (
            "@g = global [1099511627777 x i8] zeroinitializer\ndefine i32 @main() {\n  ret i32 0\n}\n",
            "refused: 10 TooLarge Globals at 1:1",
        ),
        (
            "\n@g = global [1099511627777 x i8] zeroinitializer\ndefine i32 @main() {\n  ret i32 0\n}\n",
            "refused: 10 TooLarge TypeSize at 1:1",
        ),
        (
            "@g = global [16777201 x i8] zeroinitializer\ndefine i32 @main() {\n  ret i32 %x\nb:\n  %x = add i32 1, 2\n  ret i32 %x\n}\n",
            "refused: 7 NotOnEveryPath at 3:11",
        ),
        (
            "@g = global [16777201 x i8] zeroinitializer\ndefine i32 @main() {\n  ret i64 0\n}\n",
            "refused: 4 BadType at 3:3",
        ),
    ];
    check_rows(&rt, rt.alloc(), rows.as_slice())
}
