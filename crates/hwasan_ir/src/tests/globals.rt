//! Modules with globals: what is stored in them, and what the tag rule says of each access.
use super::{NO_FAULT, TAG_13, expect, load, program, store, store_and_print};
use hw_base::OutOfMemory;
use std::alloc::Global;
use std::process::Abort;
use std::test::Fail;

/// A store at an offset of the first of two globals. With the tag word 3 their tags are 13 and 14. The second, at 10010, has
/// 3 bytes: its granule is short, and 14 is in its last byte.
fn overflowing(alloc: Global, offset: u64) -> Result<String, OutOfMemory> {
    Ok(format!(in alloc;
        "@a = global [16 x i8] zeroinitializer\n@b = global [3 x i8] zeroinitializer\ndefine i32 @main() {{\n  %q = getelementptr i8, ptr @a, i64 {offset}\n  store i8 7, ptr %q\n  ret i32 0\n}}\n"
    )?)
}

/// Asserts how a module ends with the tag word 3, and that it prints nothing.
fn expect_ending<R: AllocGlobal + Abort>(
    rt: &R,
    text: &str,
    status: u8,
    closing: &str,
) -> Result<(), Fail> {
    expect(
        rt,
        &TAG_13,
        text.as_bytes(),
        &NO_FAULT,
        (status, b"", closing.as_bytes()),
    )
}

/// Offsets from the first global, the status and the closing text. 72057594037927952 is 2^56 + 16: it changes the tag to 14, so the
/// access isn't refused, though it is out of bounds.
const OFFSETS: [(u64, u8, &str); 5] = [
    (15, 0, "ended: exit 0, step 3\n"),
    (
        16,
        1,
        "hwasan: write of 1 at 1300000000010010 in task 0, step 2\n  at main ?
tags: pointer 13, memory 03, last 14, end 1, granule 0000000000010010\n",
    ),
    (
        32,
        1,
        "hwasan: write of 1 at 1300000000010020 in task 0, step 2\n  at main ?\nunmapped: 0000000000010020\n",
    ),
    (72_057_594_037_927_952, 0, "ended: exit 0, step 3\n"),
    (
        72_057_594_037_927_955,
        1,
        "hwasan: write of 1 at 1400000000010013 in task 0, step 2\n  at main ?
tags: pointer 14, memory 03, last 14, end 4, granule 0000000000010010\n",
    ),
];

#[test]
fn an_access_is_checked_by_its_granule(rt: HostRuntime) -> Result<(), Fail> {
    for (offset, status, closing) in OFFSETS {
        let text = overflowing(rt.alloc(), offset)?;
        expect_ending(&rt, text.as_str(), status, closing)?;
    }
    Ok(())
}

/// Modules that use globals and pointers, and how they end.
const MODULES: [(&str, u8, &str); 6] = [
    (
        "@s = constant [3 x i8] c\"hi\\00\"\ndefine i32 @main() {\n  store i8 0, ptr @s\n  ret i32 0\n}\n",
        8,
        "trapped: read-only in task 0, step 1\n  at main ?\n",
    ),
    (
        "@s = constant [3 x i8] c\"hi\\00\"\ndefine i32 @main() {\n  %c = load i8, ptr @s\n  %v = zext i8 %c to i32\n  ret i32 %v\n}\n",
        0,
        "ended: exit 104, step 3\n",
    ),
    (
        "@x = global i32 40\ndefine i32 @main() {\n  %a = load i32, ptr @x\n  %b = add i32 %a, 2\n  store i32 %b, ptr @x\n  %c = load i32, ptr @x\n  ret i32 %c\n}\n",
        0,
        "ended: exit 42, step 5\n",
    ),
    (
        "@x = global i32 5\n@p = global ptr @x\ndefine i32 @main() {\n  %q = load ptr, ptr @p\n  %v = load i32, ptr %q\n  ret i32 %v\n}\n",
        0,
        "ended: exit 5, step 3\n",
    ),
    (
        "define i32 @main() {\n  %x = add i32 1, 2\n  %y = load i8, ptr null\n  ret i32 0\n}\n",
        1,
        "hwasan: read of 1 at 0000000000000000 in task 0, step 2\n  at main ?\nunmapped: 0000000000000000\n",
    ),
    (
        "@x = global i32 5\ndefine void @f(ptr %p) {\n  %q = getelementptr i32, ptr %p, i64 1\n  store i32 6, ptr %q\n  ret void\n}
define i32 @main() {\n  call void @f(ptr @x)\n  ret i32 0\n}\n",
        1,
        "hwasan: write of 4 at 1300000000010004 in task 0, step 3\n  at f ?\n  at main ?
tags: pointer 13, memory 04, last 13, end 8, granule 0000000000010000\n",
    ),
];

#[test]
fn modules_use_globals_by_pointers(rt: HostRuntime) -> Result<(), Fail> {
    for (text, status, closing) in MODULES {
        expect_ending(&rt, text, status, closing)?;
    }
    Ok(())
}

#[test]
fn a_global_has_any_size(rt: HostRuntime) -> Result<(), Fail> {
    let alloc = rt.alloc();
    for size in [0, 1, 24, 4112] {
        let text = program(alloc, size, &[])?;
        expect_ending(&rt, text.as_str(), 0, "ended: exit 0, step 1\n")?;
    }
    let far = program(alloc, 16, &[store(alloc, 1, 4_294_967_296)?])?;
    expect_ending(
        &rt,
        far.as_str(),
        1,
        "hwasan: write of 1 at 1300000100010000 in task 0, step 1\n  at main ?\nunmapped: 0000000100010000\n",
    )
}

/// Another number of the first load, and a line after the end.
#[test]
fn registers_have_any_names(rt: HostRuntime) -> Result<(), Fail> {
    let alloc = rt.alloc();
    let first = program(alloc, 16, &[load(alloc, 1, 0)?])?;
    let expected = (0, b"\0".as_slice(), b"ended: exit 0, step 4\n".as_slice());
    expect(&rt, &TAG_13, first.as_bytes(), &NO_FAULT, expected)?;
    let longer = format!(in alloc; "{}\n", store_and_print(alloc)?)?;
    let expected = (0, b"A".as_slice(), b"ended: exit 0, step 5\n".as_slice());
    expect(&rt, &TAG_13, longer.as_bytes(), &NO_FAULT, expected)
}
