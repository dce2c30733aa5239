//! Modules of LLVM IR without globals and memory: how their runs end, and where other modules are refused.
use super::{NO_FAULT, expect};
use hw_base::OutOfMemory;
use std::alloc::Global;
use std::process::Abort;
use std::test::Fail;

const RUN: [&str; 2] = ["run", "t.ll"];

/// Asserts how the run of this module without options ends, where it prints nothing.
fn expect_ending<R: AllocGlobal + Abort>(
    rt: &R,
    text: &str,
    status: u8,
    line: &str,
) -> Result<(), Fail> {
    expect(
        rt,
        &RUN,
        text.as_bytes(),
        &NO_FAULT,
        (status, b"", line.as_bytes()),
    )
}

const LEAST: &str = "define i32 @main() { ret i32 0 }";

/// A module of three instructions.
const THREE: &str = "declare ptr @malloc(i64)
declare void @free(ptr)
declare i32 @putchar(i32)
define i32 @main() {
%A = add i32 1, 2
%B = add i32 %A, 1
ret i32 0
}
";

#[test]
fn the_least_module_ends_in_its_first_step(rt: HostRuntime) -> Result<(), Fail> {
    expect_ending(&rt, LEAST, 0, "ended: exit 0, step 1\n")
}

/// Words that bound the run of three instructions, how it ends, and its closing line.
const BOUNDS: [(&[&str], u8, &str); 6] = [
    (&["run", "t.ll", "--steps", "1"], 9, "spent: step 1\n"),
    (&["run", "t.ll", "--steps", "2"], 9, "spent: step 2\n"),
    (
        &["run", "t.ll", "--steps", "3"],
        0,
        "ended: exit 0, step 3\n",
    ),
    (
        &["run", "t.ll", "--steps", "1000000000"],
        0,
        "ended: exit 0, step 3\n",
    ),
    (
        &["run", "t.ll", "--steps", "3", "--tags", "3"],
        0,
        "ended: exit 0, step 3\n",
    ),
    (
        &["run", "t.ll", "--tags", "3", "--steps", "3"],
        0,
        "ended: exit 0, step 3\n",
    ),
];

#[test]
fn a_run_makes_no_more_steps_than_its_bound(rt: HostRuntime) -> Result<(), Fail> {
    for (words, status, line) in BOUNDS {
        expect(
            &rt,
            words,
            THREE.as_bytes(),
            &NO_FAULT,
            (status, b"", line.as_bytes()),
        )?;
    }
    Ok(())
}

/// Modules that exit, and their closing lines. A value is signed: 4294967295 is -1 in 32 bits.
const EXITS: [(&str, &str); 5] = [
    (LEAST, "ended: exit 0, step 1\n"),
    (
        "define i32 @main() { ret i32 4294967295 }",
        "ended: exit -1, step 1\n",
    ),
    (
        "declare void @exit(i32)\ndefine i32 @main() {\ncall void @exit(i32 -3)\nret i32 0\n}\n",
        "ended: exit -3, step 1\n",
    ),
    (
        "declare void @exit(i32)\ndefine void @f() {\ncall void @exit(i32 7)\nret void\n}
define i32 @main() {\ncall void @f()\nret i32 0\n}\n",
        "ended: exit 7, step 2\n",
    ),
    (
        "define i32 @main() {\n  %x = add i32 1, 2\n  br i1 true, label %a, label %b\na:\n  br label %b\nb:\n  ret i32 %x\n}\n",
        "ended: exit 3, step 4\n",
    ),
];

#[test]
fn modules_exit_with_a_signed_value(rt: HostRuntime) -> Result<(), Fail> {
    for (text, line) in EXITS {
        expect_ending(&rt, text, 0, line)?;
    }
    Ok(())
}

/// Modules that trap, and their closing texts.
const TRAPS: [(&str, &str); 7] = [
    (
        "define i32 @main() {\n%A = sdiv i32 1, 0\nret i32 0\n}\n",
        "trapped: div-zero in task 0, step 1\n  at main ?\n",
    ),
    (
        "define i32 @main() {\n%A = sdiv i32 -2147483648, -1\nret i32 0\n}\n",
        "trapped: div-overflow in task 0, step 1\n  at main ?\n",
    ),
    (
        "define i32 @main() { unreachable }",
        "trapped: unreachable in task 0, step 1\n  at main ?\n",
    ),
    (
        "declare void @abort()\ndefine i32 @main() {\ncall void @abort()\nret i32 0\n}\n",
        "trapped: abort in task 0, step 1\n  at main ?\n",
    ),
    (
        "declare void @llvm.trap()\ndefine i32 @main() {\ncall void @llvm.trap()\nret i32 0\n}\n",
        "trapped: abort in task 0, step 1\n  at main ?\n",
    ),
    (
        "define i32 @half(i32 %x, i32 %y) {\n%q = udiv i32 %x, %y\nret i32 %q\n}
define i32 @main() {\n%q = call i32 @half(i32 8, i32 0)\nret i32 %q\n}\n",
        "trapped: div-zero in task 0, step 2\n  at half ?\n  at main ?\n",
    ),
    (
        "define void @g() {\nunreachable\n}\ndefine void @f() {\ncall void @g()\nret void\n}
define i32 @main() {\ncall void @f()\nret i32 0\n}\n",
        "trapped: unreachable in task 0, step 3\n  at g ?\n  at f ?\n  at main ?\n",
    ),
];

#[test]
fn traps_tell_their_word_and_their_calls(rt: HostRuntime) -> Result<(), Fail> {
    for (text, closing) in TRAPS {
        expect_ending(&rt, text, 8, closing)?;
    }
    Ok(())
}

/// So many frames of `f`, called by `main`.
fn too_deep(alloc: Global) -> Result<String, OutOfMemory> {
    let mut closing = format!(in alloc; "trapped: too-deep in task 0, step 4096\n")?;
    for _ in 0..4095u32 {
        closing.push_str("  at f ?\n")?;
    }
    closing.push_str("  at main ?\n")?;
    Ok(closing)
}

/// The call of step 4096 would make the frame past the 4,096th.
#[test]
fn calls_are_at_most_4096_deep(rt: HostRuntime) -> Result<(), Fail> {
    let text = "define void @f() { call void @f() ret void }
define i32 @main() { call void @f() ret i32 0 }
";
    let closing = too_deep(rt.alloc())?;
    expect_ending(&rt, text, 8, closing.as_str())
}

/// Counts from 72 to 74 and prints each number as a character: `HIJ`, in 1 + 3 * 4 + 1 steps. A phi is no step: it is read
/// on the way into its block.
const COUNTS: &str = "declare i32 @putchar(i32)
define i32 @main() {
  br label %loop
loop:
  %i = phi i32 [ 72, %0 ], [ %next, %loop ]
  %r = call i32 @putchar(i32 %i)
  %next = add i32 %i, 1
  %last = icmp eq i32 %next, 75
  br i1 %last, label %done, label %loop
done:
  ret i32 %i
}
";

#[test]
fn what_was_printed_by_then_is_shown(rt: HostRuntime) -> Result<(), Fail> {
    let runs: [(&[&str], u8, &[u8], &[u8]); 5] = [
        (&RUN, 0, b"HIJ", b"ended: exit 74, step 14\n"),
        (&["run", "t.ll", "--steps", "1"], 9, b"", b"spent: step 1\n"),
        (
            &["run", "t.ll", "--steps", "2"],
            9,
            b"H",
            b"spent: step 2\n",
        ),
        (
            &["run", "t.ll", "--steps", "5"],
            9,
            b"H",
            b"spent: step 5\n",
        ),
        (
            &["run", "t.ll", "--steps", "13"],
            9,
            b"HIJ",
            b"spent: step 13\n",
        ),
    ];
    for (words, status, output, closing) in runs {
        expect(
            &rt,
            words,
            COUNTS.as_bytes(),
            &NO_FAULT,
            (status, output, closing),
        )?;
    }
    Ok(())
}

/// Modules with a part that the machine doesn't run, and the line that names its place.
const UNBUILT: [(&str, &str); 5] = [
    (
        "@x = global i32 1\ndefine i32 @main() {\n  %a = load i32, ptr @x\n  %b = load i32, ptr @x, align 2\n  ret i32 0\n}\n",
        "refused: 3 Unsupported at 4:3\n",
    ),
    (
        "@x = global i32 1\ndefine i32 @main() {\n  %y = atomicrmw add ptr @x, i32 1 seq_cst\n  ret i32 0\n}\n",
        "refused: 3 Unsupported at 3:3\n",
    ),
    (
        "declare i64 @strlen(ptr)\ndefine i64 @f(ptr %p) {\n  %n = call i64 @strlen(ptr %p)\n  ret i64 %n\n}\ndefine i32 @main() {\n  ret i32 0\n}\n",
        "refused: 3 Unsupported at 3:3\n",
    ),
    (
        "define i32 @main() {\n  %y = load i128, ptr null, align 8\n  ret i32 0\n}\n",
        "refused: 3 Unsupported at 2:3\n",
    ),
    (
        "declare i32 @getchar()\ndefine i32 @main() {\n  %c = call i32 @getchar()\n  ret i32 %c\n}\n",
        "refused: 3 Unsupported at 3:3\n",
    ),
];

#[test]
fn modules_are_refused_at_the_first_part_that_is_not_run(rt: HostRuntime) -> Result<(), Fail> {
    for (text, line) in UNBUILT {
        expect_ending(&rt, text, 3, line)?;
    }
    Ok(())
}

/// Texts with a fault, and the line that names it.
const FAULTY: [(&str, &str); 4] = [
    (
        "define i32 @main() { ret i32 ? }",
        "refused: 1 BadToken at 1:30\n",
    ),
    (
        "define i32 @main() { ret i32 }",
        "refused: 2 BadSyntax at 1:30\n",
    ),
    (
        "define i32 @f() { ret i32 0 }",
        "refused: 9 NoMain at 1:30\n",
    ),
    (
        "define i32 @main() { ret i32 %x }",
        "refused: 5 Unknown at 1:30\n",
    ),
];

#[test]
fn texts_with_a_fault_are_refused_at_its_place(rt: HostRuntime) -> Result<(), Fail> {
    for (text, line) in FAULTY {
        expect_ending(&rt, text, 3, line)?;
    }
    Ok(())
}

/// The sum 127 + 1 in 8 bits overflows: its low bits are printed, and the overflow is the exit value.
const OVERFLOWING: &str = "declare { i8, i1 } @llvm.sadd.with.overflow.i8(i8, i8)
declare i32 @putchar(i32)
define i32 @main() {
%A = call { i8, i1 } @llvm.sadd.with.overflow.i8(i8 127, i8 1)
%B = extractvalue { i8, i1 } %A, 0
%W = zext i8 %B to i32
%R = call i32 @putchar(i32 %W)
%C = extractvalue { i8, i1 } %A, 1
%V = zext i1 %C to i32
ret i32 %V
}
";

#[test]
fn a_call_may_give_a_pair(rt: HostRuntime) -> Result<(), Fail> {
    let expected = (0, b"\x80".as_slice(), b"ended: exit 1, step 7\n".as_slice());
    expect(&rt, &RUN, OVERFLOWING.as_bytes(), &NO_FAULT, expected)
}

/// Two values change places on the way back to the block.
const SWAPPING: &str = "declare i32 @putchar(i32)
define i32 @main() {
entry:
  br label %loop
loop:
  %a = phi i32 [ 65, %entry ], [ %b, %loop ]
  %b = phi i32 [ 66, %entry ], [ %a, %loop ]
  %i = phi i32 [ 0, %entry ], [ %j, %loop ]
  %r = call i32 @putchar(i32 %a)
  %j = add i32 %i, 1
  %t = icmp ult i32 %j, 4
  br i1 %t, label %loop, label %done
done:
  ret i32 0
}
";

#[test]
fn phis_are_read_at_once(rt: HostRuntime) -> Result<(), Fail> {
    let expected = (
        0,
        b"ABAB".as_slice(),
        b"ended: exit 0, step 18\n".as_slice(),
    );
    expect(&rt, &RUN, SWAPPING.as_bytes(), &NO_FAULT, expected)
}

#[test]
fn a_missing_file_is_a_file_fault(rt: HostRuntime) -> Result<(), Fail> {
    expect(
        &rt,
        &["run", "missing.ll", "--steps", "3"],
        LEAST.as_bytes(),
        &NO_FAULT,
        (4, b"", b"fault: file\n"),
    )
}
