use super::*;

#[test]
fn returns_that_do_not_go_on(rt: HostRuntime) -> Result<(), Fail> {
    let rows = [
        ("{ ret }", "BadSyntax 1:7"),
        ("{ ret void", "BadSyntax 1:11"),
        ("{ ret i32 }", "BadSyntax 1:11"),
        ("{ ret void , , }", "BadSyntax 1:14"),
        ("{ ret void %x foo }", "BadSyntax 1:15"),
        ("{ ret void 5 6 }", "BadSyntax 1:14"),
        ("{ ret $x }", "BadSyntax 1:7"),
        ("{ ret float 1.0 }", "Unsupported 1:7"),
        ("{ ret i32 1.5 }", "Unsupported 1:11"),
        ("{ ret void 1.5 }", "Unsupported 1:12"),
        ("{ ret void %x invoke }", "Unsupported 1:15"),
        ("{ ret i32 add (i32 1, i32 2) }", "Unsupported 1:11"),
        ("{ ret <4 x i32> }", "Unsupported 1:7"),
        (
            "{ ret void getelementptr inbounds float, ptr %p }",
            "Unsupported 1:35",
        ),
    ];
    check_rows(&rt, rt.alloc(), rows.as_slice())
}

#[test]
fn branches_that_do_not_go_on(rt: HostRuntime) -> Result<(), Fail> {
    let rows = [
        ("{ br %x }", "BadSyntax 1:6"),
        ("{ br label x }", "BadSyntax 1:12"),
        ("{ br label %x", "BadSyntax 1:14"),
        ("{ br i1 %c, %x, label %y }", "BadSyntax 1:13"),
        ("{ br i1 %c, label %x label %y }", "BadSyntax 1:22"),
        ("{ br i8 %c, label %x, label %y }", "BadSyntax 1:6"),
        (
            "{ br i1 %c, label %x, label %y, label %z }",
            "BadSyntax 1:33",
        ),
        ("{ br i1 , label %x, label %y }", "BadSyntax 1:9"),
        ("{ br float %c, label %x, label %y }", "Unsupported 1:6"),
        ("{ br i1 asm, label %x, label %y }", "Unsupported 1:9"),
    ];
    check_rows(&rt, rt.alloc(), rows.as_slice())
}

#[test]
fn switches_that_do_not_go_on(rt: HostRuntime) -> Result<(), Fail> {
    let rows = [
        ("{ switch i32 %x, label %a }", "BadSyntax 1:27"),
        ("{ switch i32 %x label", "BadSyntax 1:17"),
        (
            "{ switch i32 %x, label %a [ i32 1 label %b ] }",
            "BadSyntax 1:35",
        ),
        (
            "{ switch i32 %x, label %a [ i32 %y, label %b ] }",
            "BadSyntax 1:33",
        ),
        (
            "{ switch i32 %x, label %a [ i32 1, label %b, i32 2, label %c ] }",
            "BadSyntax 1:44",
        ),
        (
            "{ switch i32 %x, label %a [ i32 true, label %b ] }",
            "BadSyntax 1:33",
        ),
        (
            "{ switch i32 %x, label %a [ i32 1, label %b ] [ ] }",
            "BadSyntax 1:47",
        ),
        (
            "{ switch i32 %x, label %a [ half 1, label %b ] }",
            "Unsupported 1:29",
        ),
    ];
    check_rows(&rt, rt.alloc(), rows.as_slice())
}

#[test]
fn blocks_that_do_not_go_on(rt: HostRuntime) -> Result<(), Fail> {
    let rows = [
        (
            "{ unreachable, !a !{{{{{{{{{{{{{{{{{{{{{{{{{{{{{{{{{{{{{{{{{{{{{{{{{{{{{{{{{{{{{{{{ } }",
            "TooLarge Nesting 1:83",
        ),
        (
            "{ freeze {{{{{{{{{{{{{{{{{{{{{{{{{{{{{{{{{{{{{{{{{{{{{{{{{{{{{{{{{{{{{{{{i8",
            "TooLarge Nesting 1:73",
        ),
        (
            "{ add i8 1, ((((((((((((((((((((((((((((((((((((((((((((((((((((((((((((((((((((((",
            "BadSyntax 1:13",
        ),
        ("{ }", "BadSyntax 1:3"),
        ("{ %x = add i32 1, 2 }", "BadSyntax 1:21"),
        ("{ a: b: unreachable }", "BadSyntax 1:6"),
        ("{ unreachable , }", "BadSyntax 1:17"),
        ("{ #dbg_value(i32 0) }", "BadSyntax 1:21"),
        ("{ #dbg_value unreachable }", "BadSyntax 1:14"),
        ("{ unreachable ] }", "BadSyntax 1:15"),
        ("{ %x add i32 1, 2 }", "BadSyntax 1:6"),
        ("{ %x = ret void }", "BadSyntax 1:8"),
        ("{ foo }", "BadSyntax 1:3"),
        ("{ @f }", "BadSyntax 1:3"),
        ("{ \"a\" }", "BadSyntax 1:3"),
        ("{ !dbg !3 }", "BadSyntax 1:3"),
        ("{ $x }", "BadSyntax 1:3"),
        ("{ unreachable #dbg_value() }", "BadSyntax 1:28"),
        ("{ unreachable", "BadSyntax 1:14"),
        ("{ invoke void @f() }", "Unsupported 1:3"),
        ("{ %x = landingpad }", "Unsupported 1:8"),
        ("{ fadd float 1.0, 2.0 }", "Unsupported 1:3"),
        ("{ unreachable uselistorder }", "Unsupported 1:15"),
        ("{ ... }", "Unsupported 1:3"),
        ("{ label }", "Unsupported 1:3"),
        ("{ i129 }", "Unsupported 1:3"),
        ("{ u0x1 }", "Unsupported 1:3"),
        ("{ external }", "Unsupported 1:3"),
    ];
    check_rows(&rt, rt.alloc(), rows.as_slice())
}

#[test]
fn operators_that_do_not_go_on(rt: HostRuntime) -> Result<(), Fail> {
    let rows = [
        ("{ add nuw nsw volatile i32 1, 2 }", "BadSyntax 1:15"),
        ("{ add i32 1 2 }", "BadSyntax 1:13"),
        ("{ add i32 , 2 }", "BadSyntax 1:11"),
        ("{ add i32 1, , }", "BadSyntax 1:14"),
        ("{ add i32 1, i32 2 }", "BadSyntax 1:14"),
        ("{ add 2, 3 }", "BadSyntax 1:7"),
        ("{ add i32 1, 2, 3 }", "BadSyntax 1:17"),
        ("{ icmp samesign2 eq i32 1, 2 }", "BadSyntax 1:8"),
        ("{ icmp samesign i32 1, 2 }", "BadSyntax 1:17"),
        ("{ icmp eq i32 1 }", "BadSyntax 1:17"),
        ("{ zext i8 1 i32 }", "BadSyntax 1:13"),
        ("{ zext i8 1 to 1 }", "BadSyntax 1:16"),
        ("{ zext nneg i8 1 to i32, align 4 }", "BadSyntax 1:26"),
        ("{ freeze i8", "BadSyntax 1:12"),
        ("{ freeze %x }", "BadSyntax 1:13"),
        ("{ select i8 %c, i32 1, i32 2 }", "BadSyntax 1:10"),
        ("{ select i1 %c i32 1, i32 2 }", "BadSyntax 1:16"),
        ("{ select i1 %c, i32 1 }", "BadSyntax 1:23"),
        ("{ add i32 inrange 1, 2 }", "BadSyntax 1:11"),
        ("{ add i32 sub, 2 }", "Unsupported 1:11"),
        ("{ add i32 1, 2.5 }", "Unsupported 1:14"),
        ("{ add double 1, 2 }", "Unsupported 1:7"),
        ("{ icmp eq <2 x i32> 1, 2 }", "Unsupported 1:11"),
        ("{ zext i8 1 to bfloat }", "Unsupported 1:16"),
        ("{ select <4 x i1> %c, i32 1, i32 2 }", "Unsupported 1:10"),
        ("{ freeze i8 no_cfi }", "Unsupported 1:13"),
        ("{ add i32 1, s0xff }", "Unsupported 1:14"),
    ];
    check_rows(&rt, rt.alloc(), rows.as_slice())
}

#[test]
fn phis_that_do_not_go_on(rt: HostRuntime) -> Result<(), Fail> {
    let rows = [
        ("{ phi i32 }", "BadSyntax 1:11"),
        ("{ phi i32 [ 1 ] }", "BadSyntax 1:15"),
        ("{ phi i32 [ 1, a ] }", "BadSyntax 1:16"),
        ("{ phi i32 [ 1, %a , %b ] }", "BadSyntax 1:19"),
        ("{ phi i32 [ 1, %a ], }", "BadSyntax 1:22"),
        ("{ phi i32 [ 1, %a ], 1 }", "BadSyntax 1:22"),
        (
            "{ phi i32 [ 1, %a ], !dbg !1, [ 2, %b ] }",
            "BadSyntax 1:31",
        ),
        ("{ phi i32 [ 1, %a ], !dbg 1 }", "BadSyntax 1:27"),
        ("{ phi i32 [ 1, %a ] [ 2, %b ] }", "BadSyntax 1:21"),
        ("{ phi i32 [ float, %a ] }", "Unsupported 1:13"),
    ];
    check_rows(&rt, rt.alloc(), rows.as_slice())
}

#[test]
fn allocas_that_do_not_go_on(rt: HostRuntime) -> Result<(), Fail> {
    let rows = [
        ("{ alloca", "BadSyntax 1:9"),
        ("{ alloca i32, 4 }", "BadSyntax 1:15"),
        ("{ alloca i32, align 3 }", "BadSyntax 1:21"),
        ("{ alloca i32, align 4, align 4 }", "BadSyntax 1:24"),
        ("{ alloca i32, i32 4, i32 4 }", "BadSyntax 1:22"),
        ("{ alloca i32, i32 align 4 }", "BadSyntax 1:19"),
        ("{ alloca i32, align %x }", "BadSyntax 1:21"),
        ("{ alloca inbounds i32 }", "BadSyntax 1:10"),
        ("{ alloca i32 align 4 }", "BadSyntax 1:14"),
        ("{ alloca i32, i32 %n }", "Unsupported 1:19"),
        ("{ alloca i32, i32 @n }", "Unsupported 1:19"),
        (
            "{ alloca i32, i32 getelementptr (i8, ptr @p) }",
            "Unsupported 1:19",
        ),
        ("{ alloca i32, i32 2.0 }", "Unsupported 1:19"),
        ("{ alloca i32, align 32 }", "Unsupported 1:21"),
        ("{ alloca inalloca i32 }", "Unsupported 1:10"),
        ("{ alloca i32, addrspace(5) }", "Unsupported 1:15"),
        ("{ unreachable alloca i32 }", "Unsupported 1:15"),
        ("{ unreachable %x = alloca i32 }", "Unsupported 1:20"),
        (
            "{ unreachable a: alloca i32 unreachable }",
            "Unsupported 1:18",
        ),
    ];
    check_rows(&rt, rt.alloc(), rows.as_slice())
}

#[test]
fn loads_stores_and_addresses_that_do_not_go_on(rt: HostRuntime) -> Result<(), Fail> {
    let rows = [
        ("{ load i32 ptr %p }", "BadSyntax 1:12"),
        ("{ load i32, %p }", "BadSyntax 1:13"),
        ("{ load volatile atomic i32, ptr %p }", "BadSyntax 1:17"),
        ("{ load i32, ptr %p, 4 }", "BadSyntax 1:21"),
        ("{ load i32, ptr %p, align 0 }", "BadSyntax 1:27"),
        ("{ load i32, ptr %p, align 4 acquire }", "BadSyntax 1:29"),
        ("{ load ptr addrspace(1), 4 }", "BadSyntax 1:12"),
        (
            "{ load atomic i32, ptr %p syncscope \"x\" }",
            "BadSyntax 1:37",
        ),
        (
            "{ load atomic i32, ptr %p syncscope(\"x\") , align 4 }",
            "BadSyntax 1:42",
        ),
        ("{ store i32 1 ptr %p }", "BadSyntax 1:15"),
        ("{ store i32 1, ptr %p, !foo }", "BadSyntax 1:29"),
        ("{ store i32 1, i32", "BadSyntax 1:16"),
        ("{ getelementptr i8 ptr %p }", "BadSyntax 1:20"),
        ("{ getelementptr i8, ptr %p, 1 }", "BadSyntax 1:29"),
        (
            "{ getelementptr i8, ptr %p, !dbg !1, i32 1 }",
            "BadSyntax 1:38",
        ),
        ("{ getelementptr i8, ptr %p, i32 }", "BadSyntax 1:33"),
        (
            "{ getelementptr inrange(0, 1) i8, ptr %p }",
            "BadSyntax 1:17",
        ),
        ("{ getelementptr (i8, ptr %p) }", "BadSyntax 1:17"),
        ("{ load i32, ptr addrspace(1) %p }", "Unsupported 1:17"),
        ("{ load i32, ptr %p, align 32 }", "Unsupported 1:27"),
        ("{ load half, ptr %p }", "Unsupported 1:8"),
        ("{ load i32, ppc_fp128 %p }", "Unsupported 1:13"),
        ("{ store i32 1, ptr asm }", "Unsupported 1:20"),
        ("{ getelementptr i8, ptr %p, float 1 }", "Unsupported 1:29"),
        (
            "{ load atomic i32, ptr %p acquire, align 64 }",
            "Unsupported 1:42",
        ),
    ];
    check_rows(&rt, rt.alloc(), rows.as_slice())
}

#[test]
fn atomics_and_pairs_that_do_not_go_on(rt: HostRuntime) -> Result<(), Fail> {
    let rows = [
        ("{ fence }", "BadSyntax 1:9"),
        ("{ fence syncscope(\"a\") }", "BadSyntax 1:24"),
        ("{ fence acquire release }", "BadSyntax 1:17"),
        ("{ atomicrmw mul ptr %p, i32 1 seq_cst }", "BadSyntax 1:13"),
        ("{ atomicrmw fadd ptr %p, i32 1 seq_cst }", "BadSyntax 1:13"),
        ("{ atomicrmw add ptr %p, i32 1", "BadSyntax 1:30"),
        ("{ atomicrmw add ptr %p, i32 1, align 4 }", "BadSyntax 1:30"),
        (
            "{ cmpxchg weak weak ptr %p, i32 1, i32 2 seq_cst seq_cst }",
            "BadSyntax 1:16",
        ),
        ("{ cmpxchg ptr %p, i32 1, i32 2 seq_cst }", "BadSyntax 1:40"),
        (
            "{ cmpxchg ptr %p, i32 1 i32 2 acquire acquire }",
            "BadSyntax 1:25",
        ),
        ("{ extractvalue i32 %x, 0 }", "BadSyntax 1:16"),
        ("{ extractvalue { i32 } %x, 0 }", "BadSyntax 1:22"),
        ("{ extractvalue { i32, i8 } %x, 0 }", "BadSyntax 1:23"),
        ("{ extractvalue { i32, i1 } %x, i32 0 }", "BadSyntax 1:32"),
        ("{ extractvalue { i32, i1 } %x }", "BadSyntax 1:31"),
        ("{ extractvalue half %x, 0 }", "Unsupported 1:16"),
        ("{ extractvalue { i32, half } %x, 0 }", "Unsupported 1:23"),
        (
            "{ cmpxchg ptr fneg, i32 1, i32 2 seq_cst seq_cst }",
            "Unsupported 1:15",
        ),
        (
            "{ atomicrmw add ptr %p, double 1 seq_cst }",
            "Unsupported 1:25",
        ),
        (
            "{ atomicrmw add ptr %p, i32 1 seq_cst, align 32 }",
            "Unsupported 1:46",
        ),
    ];
    check_rows(&rt, rt.alloc(), rows.as_slice())
}

#[test]
fn calls_that_do_not_go_on(rt: HostRuntime) -> Result<(), Fail> {
    let rows = [
        ("{ call void @f }", "BadSyntax 1:16"),
        ("{ call @f() }", "BadSyntax 1:8"),
        ("{ call void @f(i32) }", "BadSyntax 1:19"),
        ("{ call void @f(5) }", "BadSyntax 1:16"),
        ("{ call void @f(i32 5 6) }", "BadSyntax 1:22"),
        ("{ call void @f(i32 5, ) }", "BadSyntax 1:23"),
        ("{ tail void @f() }", "BadSyntax 1:8"),
        ("{ call void 5() }", "BadSyntax 1:13"),
        ("{ call void null() }", "BadSyntax 1:13"),
        ("{ call void @f() ( }", "BadSyntax 1:18"),
        ("{ call void @llvm.dbg.value(} }", "BadSyntax 1:29"),
        ("{ call void @f(), #1 }", "BadSyntax 1:19"),
        ("{ call tail call void @f() }", "BadSyntax 1:8"),
        ("{ call zeroext @f() }", "BadSyntax 1:16"),
        ("{ call void (i32) @f() }", "Unsupported 1:13"),
        ("{ call void %f() }", "Unsupported 1:13"),
        ("{ call void asm \"x\"() }", "Unsupported 1:13"),
        ("{ call void @f() [ \"deopt\"() ] }", "Unsupported 1:18"),
        ("{ call void @f(i32 byval 5) }", "Unsupported 1:20"),
        ("{ call void @f(metadata i32 0) }", "Unsupported 1:16"),
        ("{ call void @f(...) }", "Unsupported 1:16"),
        ("{ call float @f() }", "Unsupported 1:8"),
        ("{ call void @f(i32 1.0) }", "Unsupported 1:20"),
        (
            "{ call void bitcast (ptr @f to ptr)() }",
            "Unsupported 1:13",
        ),
        ("{ call void @f() #1 personality }", "Unsupported 1:21"),
    ];
    check_rows(&rt, rt.alloc(), rows.as_slice())
}

#[test]
fn attachments_that_do_not_go_on(rt: HostRuntime) -> Result<(), Fail> {
    let rows = [
        ("{ unreachable, !dbg dbg }", "BadSyntax 1:21"),
        ("{ unreachable, !dbg !1 !tbaa !2 }", "BadSyntax 1:24"),
        ("{ unreachable, !1 }", "BadSyntax 1:16"),
        ("{ unreachable, !a !{ )", "BadSyntax 1:22"),
        ("{ unreachable, !a !DILocation }", "BadSyntax 1:31"),
        ("{ unreachable, !a = !1 }", "BadSyntax 1:19"),
    ];
    check_rows(&rt, rt.alloc(), rows.as_slice())
}
