use super::*;

#[test]
fn lines_that_a_module_does_not_keep(rt: HostRuntime) -> Result<(), Fail> {
    let rows = [
        ("", ""),
        ("; a comment\n", ""),
        (r#"source_filename = "a.c""#, "I -;"),
        (r#"source_filename = "E""#, "I -;"),
        (
            "target datalayout = \"e-m:e-i8:8:32-i16:16:32-i64:64-i128:128-n32:64-S128\"\ntarget triple = \"aarch64-unknown-linux-gnu\"",
            "I - -;",
        ),
        (r#"target datalayout = """#, "I -;"),
        (r#"target datalayout = "p-i64-p270:32:32""#, "I -;"),
        (r#"target datalayout = "p:64:64-p0:64-i1:8-i129:7""#, "I -;"),
        (r#"target triple = "E""#, "I -;"),
        ("attributes #0 = {}", "I -;"),
        (
            r#"attributes #10 = { nounwind "a"="b" memory(argmem: read) ... <4 u0x1 = [ ( ) ] 1.5 }"#,
            "I -;",
        ),
    ];
    check_rows(&rt, rt.alloc(), rows.as_slice())
}

#[test]
fn types_in_order_of_their_ends(rt: HostRuntime) -> Result<(), Fail> {
    let rows = [
        ("%a = type i32", "T i32;I %a=0;"),
        (
            "%1 = type i1\n%\"b c\" = type i128",
            "T i1 i128;I %1=0 %\"b c\"=1;",
        ),
        ("%a = type i007", "T i7;I %a=0;"),
        ("%a = type opaque\n%b = type void", "T o v;I %a=0 %b=1;"),
        ("%a = type %b\n%b = type ptr", "T %b p;I %a=0 %b=1;"),
        (
            "%a = type { i32, ptr, [4 x i8] }",
            "T i32 p i8 [4x2] {0+3};F 0 1 3;I %a=4;",
        ),
        (
            "%c = type <{ i8, %b }>\n%d = type {}\n%e = type [0 x <{}>]",
            "T i8 %b <0+2> {2+0} <2+0> [0x4];F 0 1;I %c=2 %d=3 %e=5;",
        ),
        (
            "%a = type [18446744073709551615 x i8]\n%b = type [-0 x i8]\n%c = type [32 x i8]\n%d = type [7 x i8]",
            "T i8 [18446744073709551615x0] i8 [0x2] i8 [32x4] i8 [7x6];I %a=1 %b=3 %c=5 %d=7;",
        ),
        (
            "%a = type { { i8 }, { i16, i32 } }",
            "T i8 {0+1} i16 i32 {1+2} {3+2};F 0 2 3 1 4;I %a=5;",
        ),
    ];
    check_rows(&rt, rt.alloc(), rows.as_slice())
}

#[test]
fn globals_with_their_attributes_and_tails(rt: HostRuntime) -> Result<(), Fail> {
    let rows = [
        ("@g = global i32 0", "T i32;C 0;I @g:g0=0;"),
        (
            "@0 = private unnamed_addr constant [3 x i8] c\"ab\\00\", align 1",
            "T i8 [3x0];C c\"ab\\00\";I @0:c1=0;",
        ),
        (
            "@\"g h\" = dso_local global i32 -7, section \".data\", align 16, !dbg !3, no_sanitize_address, \"k\"=\"v\", #4, !x !1",
            "T i32;C -7;I @\"g h\":g0=0;",
        ),
        (
            "@g = x to section \"s\" atomic volatile eq nsw seq_cst syncscope(\"a\") inrange(1) type opaque distinct datalayout triple xchg samesign weak $q cc 10 cc(5) align(99) align 8 \"E\" #1 global i8 1",
            "T i8;C 1;I @g:g0=0;",
        ),
        (
            "@g = global i8 0, align 1, align 2, align 4, $q, align(3)",
            "T i8;C 0;I @g:g0=0;",
        ),
        (
            "@g = global i8 0, section, section \"E\", section (a [b]), section\n@h = global i8 1",
            "T i8 i8;C 0 1;I @g:g0=0 @h:g1=1;",
        ),
        (
            "@g = global i8 0\n@h = constant i8 1, !dbg !0\n!foo = !{}",
            "T i8 i8;C 0 1;I @g:g0=0 @h:c1=1 !foo;",
        ),
    ];
    check_rows(&rt, rt.alloc(), rows.as_slice())
}

#[test]
fn constants_in_order_of_their_ends(rt: HostRuntime) -> Result<(), Fail> {
    let rows = [
        (
            "@a = global i1 true\n@b = global i1 false\n@c = global ptr null\n@d = global ptr @a\n@e = global ptr %x",
            "T i1 i1 p p p;C true false null @a %x;I @a:g0=0 @b:g1=1 @c:g2=2 @d:g3=3 @e:g4=4;",
        ),
        (
            "@a = global i8 undef\n@b = global i8 poison\n@c = global [2 x i8] zeroinitializer",
            "T i8 i8 i8 [2x2];C zero zero zero;I @a:g0=0 @b:g1=1 @c:g3=2;",
        ),
        (
            "@a = global i8 340282366920938463463374607431768211455\n@b = global i8 -170141183460469231731687303715884105728\n@c = global i8 -0",
            "T i8 i8 i8;C 340282366920938463463374607431768211455 -170141183460469231731687303715884105728 0;I @a:g0=0 @b:g1=1 @c:g2=2;",
        ),
        (
            "@a = global {} {}\n@b = global [0 x i8] []\n@c = global <{}> <{}>",
            "T {0+0} i8 [0x1] <0+0>;C {0+0} [0+0] <0+0>;I @a:g0=0 @b:g2=1 @c:g3=2;",
        ),
        (
            "@g = global { i8, [2 x i16], <{ i1, ptr }> } { i8 1, [2 x i16] [i16 2, i16 -3], <{ i1, ptr }> <{ i1 true, ptr @g }> }",
            "T i8 i16 [2x1] i1 p <0+2> {2+3} i8 i16 [2x8] i16 i16 i1 p <5+2> i1 p;F 3 4 0 2 5 12 13;C 1 2 -3 [0+2] true @g <2+2> {4+3};E 10=1 11=2 15=4 16=5 7=0 9=3 14=6;I @g:g6=7;",
        ),
        (
            "@g = global ptr getelementptr inbounds nuw inrange(-4, 8) (i8, ptr @h, i64 4, i32 -1)",
            "T p i8 i64 i32;C @h gep1,0,0+2;X 2=4 3=-1;I @g:g0=1;",
        ),
        (
            "@g = constant ptr getelementptr (%t, ptr getelementptr (i8, ptr null, i64 1))",
            "T p %t i8 i64;C null gep2,0,0+1 gep1,1,1+0;X 3=1;I @g:c0=2;",
        ),
    ];
    check_rows(&rt, rt.alloc(), rows.as_slice())
}

#[test]
fn lists_of_what_has_to_be_kept(rt: HostRuntime) -> Result<(), Fail> {
    let rows = [
        (
            "@llvm.used = appending global [1 x ptr] [ptr @g], section \"llvm.metadata\"",
            "T p [1x0];I used;",
        ),
        (
            "@llvm.compiler.used = appending global { ptr } { 1 2 = , ( [ ] ) half }, align 8, !dbg !0",
            "T p {0+1};F 0;I used;",
        ),
        (
            "@llvm.used = constant ptr <{ ... [ ] x <4 }>",
            "T p;I used;",
        ),
        (
            "@\"llvm.used\" = global ptr []\n@\"llvm\\2eused\" = global ptr {}",
            "T p p;I used used;",
        ),
    ];
    check_rows(&rt, rt.alloc(), rows.as_slice())
}

#[test]
fn declares_with_what_stands_around_them(rt: HostRuntime) -> Result<(), Fail> {
    let rows = [
        ("declare void @f()", "T v;I @f:0(0+0);"),
        (
            "declare !dbg !7 !x !1 noalias noundef ptr @malloc(i64 noundef allocsize(0) %n, ptr, metadata) local_unnamed_addr #1 section \"x\" !foo !3 align 8 \"k\"=\"v\"",
            "T p i64 p m;P 1%n 2 3;I @malloc:0(0+3);",
        ),
        (
            "declare extern_weak metadata @f([2 x metadata] external align 32 %0, { metadata } extern_weak) external align 18446744073709551616",
            "T m m [2x1] m {0+1};F 3;P 2%0 4;I @f:0(0+2);",
        ),
        (
            "declare i8 @f(i16, ptr)\ndeclare i32 @g(i64)",
            "T i8 i16 p i32 i64;P 1 2 4;I @f:0(0+2) @g:3(2+1);",
        ),
        (
            "declare void @f() target datalayout = \"e\" declare void @g() source_filename = \"a\"",
            "T v v;I @f:0(0+0) - @g:1(0+0) -;",
        ),
        (
            "declare void @f()\n!foo !0\n!bar = !{}\n!0 = !{}\ndeclare void @g() !foo !1\n@x = global i8 0",
            "T v v i8;C 0;I @f:0(0+0) !bar !0 @g:1(0+0) @x:g2=0;",
        ),
        ("declare void @llvm.used()", "T v;I @llvm.used:0(0+0);"),
        (
            "declare $x void @f(i8 $y) %t = type i8",
            "T v i8 i8;P 1;I @f:0(0+1) %t=2;",
        ),
    ];
    check_rows(&rt, rt.alloc(), rows.as_slice())
}

#[test]
fn metadata_nodes_and_lists(rt: HostRuntime) -> Result<(), Fail> {
    let rows = [
        ("!0 = !{}", "I !0;"),
        (
            "!1 = distinct !{!1, !\"x\", null}\n!2 = !DILocation(line: 1)\n!3 = distinct !DICompileUnit(file: !1, x: ({[]}))",
            "I !1 !2 !3;",
        ),
        ("!4 = !x ()\n!x = !{!4}", "I !4 !x;"),
        ("!llvm.module.flags = !{!2, !3}", "I !llvm.module.flags;"),
    ];
    check_rows(&rt, rt.alloc(), rows.as_slice())
}

#[test]
fn a_whole_module_without_its_body(rt: HostRuntime) -> Result<(), Fail> {
    // Three results and two parameters of three declares; three declares, four groups, two lists, sixteen nodes.
    let found = counts(rt.alloc(), module_text::LIST_MODULE.as_bytes())?;
    assert_eq!(&rt; found.as_str(), "6 0 25");
    Ok(())
}
