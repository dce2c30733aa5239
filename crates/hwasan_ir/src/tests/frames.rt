//! Functions with variables: uses after return, full stacks, and the ring of ended frames. A stack ends at 10040000, and the frames
//! follow each other downwards.
use super::{NO_FAULT, expect};
use std::process::Abort;
use std::test::Fail;

/// Asserts how a run with one more option ends, and that it prints nothing.
fn expect_ending<R: AllocGlobal + Abort>(
    rt: &R,
    option: (&str, &str),
    text: &str,
    ending: (u8, &str),
) -> Result<(), Fail> {
    let (name, value) = option;
    let (status, closing) = ending;
    expect(
        rt,
        &["run", "t.ll", name, value],
        text.as_bytes(),
        &NO_FAULT,
        (status, b"", closing.as_bytes()),
    )
}

/// `f` returns the address of its variable, and `g`, which has one of its own, loads from there.
const STALE: &str = "define ptr @f() {\n%a = alloca [16 x i8]\nret ptr %a\n}
define i8 @g(ptr %p) {\n%b = alloca [16 x i8]\n%v = load i8, ptr %p\nret i8 %v\n}
define i32 @main() {\n%p = call ptr @f()\n%v = call i8 @g(ptr %p)\nret i32 0\n}\n";

/// The same, but `main` loads.
const ENDED: &str = "define ptr @f() {\n%a = alloca [16 x i8]\nret ptr %a\n}
define i32 @main() {\n%p = call ptr @f()\n%v = load i8, ptr %p\nret i32 0\n}\n";

/// A use after return is reported if the frame that stands there now has another tag, and if none stands there.
#[test]
fn a_use_after_return_is_reported(rt: HostRuntime) -> Result<(), Fail> {
    let taken = "hwasan: read of 1 at 0a0000001003fff0 in task 0, step 6\n  at g ?\n  at main ?
tags: pointer 0a, memory 0b, last 00, end 1, granule 000000001003fff0\n";
    expect_ending(&rt, ("--tags", "9,10"), STALE, (1, taken))?;
    expect_ending(&rt, ("--tags", "9"), STALE, (0, "ended: exit 0, step 8\n"))?;
    let free = "hwasan: read of 1 at 0a0000001003fff0 in task 0, step 4\n  at main ?
tags: pointer 0a, memory 00, last 00, end 1, granule 000000001003fff0\n";
    expect_ending(&rt, ("--tags", "9"), ENDED, (1, free))
}

/// A stack has 256 KiB. A frame that is larger doesn't fit, and neither does a fifth frame of a quarter of that.
#[test]
fn a_stack_is_full(rt: HostRuntime) -> Result<(), Fail> {
    let whole = "define i32 @main() { %a = alloca [262144 x i8] ret i32 0 }\n";
    expect_ending(&rt, ("--tags", "1"), whole, (0, "ended: exit 0, step 2\n"))?;
    let more = "define i32 @main() { %a = alloca [262145 x i8] ret i32 0 }\n";
    let full = "full: stack, 262160 asked, 0 living, step 0\n";
    expect_ending(&rt, ("--tags", "1"), more, (10, full))?;
    let deep = "define void @f() { %a = alloca [65536 x i8] call void @f() ret void }
define i32 @main() { call void @f() ret i32 0 }\n";
    let full = "full: stack, 65536 asked, 262144 living, step 9\n";
    expect_ending(&rt, ("--tags", "1"), deep, (10, full))
}

/// Two variables, of 3 and of 16 bytes, which are zero at the entry. With the tag word 0 their tags are 01 and 02.
const TWO: &str = "declare i32 @putchar(i32)
define i32 @main() {\n%a = alloca [3 x i8]\n%b = alloca [16 x i8]
%q = getelementptr i8, ptr %a, i64 2\n%v = load i8, ptr %q\n%x = zext i8 %v to i32
%p = getelementptr i8, ptr %a, i64 16\nstore i8 7, ptr %p\nret i32 %x\n}\n";

/// The second variable lies above the first one.
#[test]
fn a_variable_overflows_into_the_next(rt: HostRuntime) -> Result<(), Fail> {
    let report = "hwasan: write of 1 at 010000001003fff0 in task 0, step 7\n  at main ?
tags: pointer 01, memory 02, last 00, end 1, granule 000000001003fff0\n";
    expect_ending(&rt, ("--tags", "0"), TWO, (1, report))
}

/// The lifetime functions do nothing.
#[test]
fn lifetimes_do_nothing(rt: HostRuntime) -> Result<(), Fail> {
    let text = "declare void @llvm.lifetime.start.p0(ptr)\ndeclare void @llvm.lifetime.end.p0(ptr)
define i32 @main() {\n%a = alloca [10 x i8]\ncall void @llvm.lifetime.start.p0(ptr %a)\nstore i8 7, ptr %a
call void @llvm.lifetime.end.p0(ptr %a)\n%v = load i8, ptr %a\nret i32 0\n}\n";
    expect_ending(&rt, ("--tags", "9"), text, (0, "ended: exit 0, step 6\n"))
}

/// The ring of ended frames has from 1 to 65,536.
#[test]
fn the_ring_has_a_range(rt: HostRuntime) -> Result<(), Fail> {
    let text = "define i32 @main() { %a = alloca i8 ret i32 0 }\n";
    for ring in ["1", "65536"] {
        expect_ending(&rt, ("--ring", ring), text, (0, "ended: exit 0, step 2\n"))?;
    }
    for ring in ["0", "65537", "x"] {
        let usage = "usage: hwasan_ir MODE FILE [options]\n";
        expect_ending(&rt, ("--ring", ring), text, (2, usage))?;
    }
    Ok(())
}
