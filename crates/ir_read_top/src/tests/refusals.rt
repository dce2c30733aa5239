use super::*;

#[test]
fn each_phase_refuses_at_its_first_fault(rt: HostRuntime) -> Result<(), Fail> {
    let rows = [
        // tokens
        ("source_filename = \"a", "refused: 1 BadToken at 1:19"),
        (
            "@g = global i8 340282366920938463463374607431768211456",
            "refused: 1 BadToken at 1:16",
        ),
        // the grammar
        (
            "@g = global i32 0, align 32",
            "refused: 3 Unsupported at 1:26",
        ),
        ("@g = global i32 0, align 3", "refused: 2 BadSyntax at 1:26"),
        ("@g = external global i32", "refused: 3 Unsupported at 1:6"),
        ("@g = global i129 0", "refused: 3 Unsupported at 1:13"),
        ("@g = global i0 0", "refused: 2 BadSyntax at 1:13"),
        ("@g = global i32", "refused: 2 BadSyntax at 1:16"),
        ("@g = global i32\n", "refused: 2 BadSyntax at 2:1"),
        ("define void @f() { }", "refused: 2 BadSyntax at 1:20"),
        ("!foo {", "refused: 2 BadSyntax at 1:6"),
        ("declare void @f() !foo {", "refused: 2 BadSyntax at 1:24"),
        (
            "declare void @f() !foo !0\n)",
            "refused: 2 BadSyntax at 2:1",
        ),
        (
            "target datalayout = \"e-p:32:32\"",
            "refused: 3 Unsupported at 1:21",
        ),
        (
            "%t = type [1 x [1 x [1 x [1 x [1 x [1 x [1 x [1 x [1 x [1 x [1 x [1 x [1 x [1 x [1 x [1 x [1 x [1 x [1 x [1 x [1 x [1 x [1 x [1 x [1 x [1 x [1 x [1 x [1 x [1 x [1 x [1 x [1 x [1 x [1 x [1 x [1 x [1 x [1 x [1 x [1 x [1 x [1 x [1 x [1 x [1 x [1 x [1 x [1 x [1 x [1 x [1 x [1 x [1 x [1 x [1 x [1 x [1 x [1 x [1 x [1 x [1 x [1 x [1 x [1 x ",
            "refused: 10 TooLarge Nesting at 1:331",
        ),
        // names
        (
            "@a = global i8 0\n@a = global i8 1",
            "refused: 6 Twice at 2:1",
        ),
        (
            "@a = global i8 0\ndeclare void @a()",
            "refused: 6 Twice at 2:14",
        ),
        (
            "@a = global %t zeroinitializer",
            "refused: 5 Unknown at 1:13",
        ),
        ("@a = global ptr @b", "refused: 5 Unknown at 1:17"),
        ("@a = global ptr %b", "refused: 5 Unknown at 1:17"),
        (
            "@a = global ptr @f\ndeclare void @f()",
            "refused: 3 Unsupported at 1:17",
        ),
        (
            "@llvm.global_ctors = global [0 x ptr] []",
            "refused: 3 Unsupported at 1:1",
        ),
        ("declare void @f(i8 %1, i8 %0)", "refused: 6 Twice at 1:27"),
        ("!0 = !{}\n!00 = !{}", "refused: 6 Twice at 2:1"),
        ("%t = type i8\n%\"t\" = type i8", "refused: 6 Twice at 2:1"),
        (
            "@a = global ptr @b\ndefine void @f() { ret void }\ndefine void @f() { ret void }",
            "refused: 5 Unknown at 1:17",
        ),
        (
            "define void @f() { ret void }\n@c = global i0 0",
            "refused: 2 BadSyntax at 2:13",
        ),
        (
            "define i32 @main() { ret i32",
            "refused: 2 BadSyntax at 1:29",
        ),
        // no function is `main`
        ("", "refused: 9 NoMain at 1:1"),
        ("declare i32 @putchar(i32)\n", "refused: 9 NoMain at 2:1"),
        (
            "define i32 @main(i32 %n) {\n  ret i32 0\n}",
            "refused: 9 NoMain at 3:2",
        ),
        (
            "define void @main() {\n  ret void\n}\n",
            "refused: 9 NoMain at 4:1",
        ),
        (
            "define i32 @main(ptr %p, i32 %n) {\n  ret i32 0\n}\n",
            "refused: 9 NoMain at 4:1",
        ),
        ("declare i32 @main()\n", "refused: 9 NoMain at 2:1"),
        (
            "define void @f() {\n  ret void\n}\n@a = global ptr @b",
            "refused: 5 Unknown at 4:17",
        ),
        // chains of scopes
        (
            "define i32 @main() {\n  ret i32 0, !dbg !0\n}\n!0 = !DILocation(line: 1, column: 1, scope: !1)\n!1 = distinct !DILexicalBlock(scope: !1, line: 1)",
            "refused: 11 MetaCycle at 2:19",
        ),
        (
            "define i32 @main() {\n  ret i32 0, !dbg !0\n}\n!0 = !DILocation(line: 1, column: 1, scope: !1, inlinedAt: !0)\n!1 = distinct !DISubprogram(name: \"main\")",
            "refused: 11 MetaCycle at 2:19",
        ),
        (
            "define void @f() {\n  ret void, !dbg !0\n}\n!0 = !DILocation(scope: !1)\n!1 = distinct !DILexicalBlock(scope: !1)",
            "refused: 9 NoMain at 5:41",
        ),
        // an earlier phase decides, also further on in the text
        (
            "@a = global ptr @b\n@c = global i0 0",
            "refused: 2 BadSyntax at 2:13",
        ),
    ];
    check_rows(&rt, rt.alloc(), rows.as_slice())
}

fn check_rows(rt: &impl Abort, alloc: Global, rows: &[(&str, &str)]) -> Result<(), Fail> {
    for (text, want) in rows {
        let found = refused(alloc, text.as_bytes())?;
        assert_eq!(rt; found.as_str(), *want, "at {text:?}");
    }
    Ok(())
}

#[test]
fn functions_are_named_only_where_tasks_start(rt: HostRuntime) -> Result<(), Fail> {
    let rows = [
        (
            "declare i32 @pthread_create(ptr, ptr, ptr, ptr)\ndefine i32 @main() {\n  %r = call i32 @pthread_create(ptr null, ptr null, ptr @main, ptr null)\n  ret i32 0\n}",
            "accepted",
        ),
        (
            "declare i32 @pthread_create(ptr, ptr, ptr, ptr)\ndefine i32 @main() {\n  %r = call i32 @pthread_create(ptr null, ptr null, ptr getelementptr (i8, ptr getelementptr (i8, ptr @main, i64 0), i64 0), ptr null)\n  ret i32 0\n}",
            "accepted",
        ),
        (
            "declare i32 @pthread_create(ptr, ptr, ptr, ptr)\ndefine i32 @main() {\n  %r = call i32 @pthread_create(ptr null, ptr null, ptr @w, ptr null)\n  ret i32 0\n}",
            "refused: 5 Unknown at 3:57",
        ),
        (
            "declare i32 @pthread_create(ptr, ptr, ptr, ptr)\ndefine i32 @main() {\n  %r = call i32 @pthread_create(ptr null, ptr null, ptr null, ptr @main)\n  ret i32 0\n}",
            "refused: 3 Unsupported at 3:67",
        ),
        (
            "declare i32 @pthread_create(ptr, ptr, ptr, ptr)\n@a = global ptr @main\ndefine i32 @main() {\n  %r = call i32 @pthread_create(ptr null, ptr null, ptr @a, ptr null)\n  ret i32 0\n}",
            "refused: 3 Unsupported at 2:17",
        ),
        (
            "define i32 @pthread_create(ptr %a, ptr %b, ptr %c, ptr %d) {\n  ret i32 0\n}\ndefine i32 @main() {\n  %r = call i32 @pthread_create(ptr null, ptr null, ptr @main, ptr null)\n  ret i32 0\n}",
            "refused: 3 Unsupported at 5:57",
        ),
        (
            "define void @g(ptr %a, ptr %b, ptr %c) {\n  ret void\n}\ndefine i32 @main() {\n  call void @g(ptr null, ptr null, ptr @g)\n  ret i32 0\n}",
            "refused: 3 Unsupported at 5:40",
        ),
        (
            "define i32 @main() {\n  %p = alloca ptr\n  store ptr @main, ptr %p\n  ret i32 0\n}",
            "refused: 3 Unsupported at 3:13",
        ),
    ];
    check_rows(&rt, rt.alloc(), rows.as_slice())
}

#[test]
fn names_in_bodies_have_faults_with_their_places(rt: HostRuntime) -> Result<(), Fail> {
    let rows = [
        (
            "define i32 @main() {\n  %a = add i32 %b, 1\n  ret i32 %a\n}",
            "refused: 5 Unknown at 2:16",
        ),
        (
            "define i32 @main() {\n  %a = add i32 1, 1\n  %a = add i32 1, 1\n  ret i32 %a\n}",
            "refused: 6 Twice at 3:3",
        ),
        (
            "define i32 @main(i32 %a, ptr %a) {\n  ret i32 0\n}",
            "refused: 6 Twice at 1:30",
        ),
        (
            "define i32 @main() {\n  br label %x\n}",
            "refused: 5 Unknown at 2:12",
        ),
        (
            "define i32 @main() {\n  br label %0\n}",
            "refused: 5 Unknown at 2:12",
        ),
        (
            "define i32 @main() {\n  call void @f()\n  ret i32 0\n}",
            "refused: 5 Unknown at 2:13",
        ),
        // a declared function of another name can't be called
        (
            "define i32 @main() {\n  call void @f()\n  ret i32 0\n}\ndeclare void @f()",
            "refused: 5 Unknown at 2:13",
        ),
        (
            "define i32 @main() {\n  ret i32 0, !dbg !0\n}\n!0 = !{}",
            "refused: 5 Unknown at 2:19",
        ),
        // the first place decides, outside bodies or in them, and whichever function it is in
        (
            "define i32 @main() {\n  ret i32 %x\n}\n@a = global ptr @b",
            "refused: 5 Unknown at 2:11",
        ),
        (
            "@a = global ptr @b\ndefine i32 @main() {\n  ret i32 %x\n}",
            "refused: 5 Unknown at 1:17",
        ),
        (
            "define i32 @main() {\n  ret i32 0\n}\ndefine void @f() {\n  br label %x\n}\ndefine void @f() {\n  ret void\n}",
            "refused: 5 Unknown at 5:12",
        ),
        (
            "define i32 @main() {\n  ret i32 0\n}\ndefine void @main() {\n  br label %x\n}",
            "refused: 6 Twice at 4:13",
        ),
        // names of one function mean nothing in another
        (
            "define void @f() {\n  br label %x\nx:\n  ret void\n}\ndefine i32 @main() {\n  br label %x\n}",
            "refused: 5 Unknown at 7:12",
        ),
    ];
    check_rows(&rt, rt.alloc(), rows.as_slice())
}
