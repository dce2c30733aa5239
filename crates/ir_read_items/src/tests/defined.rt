use super::*;

#[test]
fn functions_with_their_bodies(rt: HostRuntime) -> Result<(), Fail> {
    let rows = [
        ("define void @f() { ret void }", "T v v;I @f:0(0+0){0+1};"),
        (
            "define dso_local noundef i32 @f(i32 %a, ptr noundef) local_unnamed_addr #0 section \"x\" align 32 !dbg !3 { ret i32 %a }",
            "T i32 i32 p i32;P 1%a 2;I @f:0(0+2){0+1};",
        ),
        (
            "define void @f() { ret void }\ndeclare void @g()\ndefine void @h() { br label %a a: ret void }\n!foo = !{}",
            "T v v v v v;I @f:0(0+0){0+1} @g:2(0+0) @h:3(0+0){1+2} !foo;",
        ),
        (
            "declare void @g(i8)\ndefine void @f(i8 %0) gc \"a\" \"b\"=\"c\" { ret void }",
            "T v i8 v i8 v;P 1 3%0;I @g:0(0+1) @f:2(1+1){0+1};",
        ),
        (
            "define internal [2 x i8] @f(%t) align(7) { unreachable }",
            "T i8 [2x0] %t;P 2;I @f:1(0+1){0+1};",
        ),
    ];
    check_rows(&rt, rt.alloc(), rows.as_slice())
}

#[test]
fn functions_that_do_not_go_on(rt: HostRuntime) -> Result<(), Fail> {
    let rows = [
        ("define", "BadSyntax 1:7"),
        ("define external void @f() { ret void }", "Unsupported 1:8"),
        ("define half @f() { ret void }", "Unsupported 1:8"),
        ("define !dbg !1 void @f() { ret void }", "BadSyntax 1:8"),
        ("define void %f() { ret void }", "BadSyntax 1:13"),
        ("define void @f { ret void }", "BadSyntax 1:16"),
        ("define void @f(...) { ret void }", "Unsupported 1:16"),
        (
            "define void @f(metadata %x) { ret void }",
            "Unsupported 1:16",
        ),
        ("define void @f(i8 5) { ret void }", "BadSyntax 1:19"),
        ("define void @f()", "BadSyntax 1:17"),
        ("define void @f()\ndeclare void @g()", "BadSyntax 2:1"),
        ("define void @f() comdat { ret void }", "Unsupported 1:18"),
        (
            "define void @f() personality ptr @p { ret void }",
            "Unsupported 1:18",
        ),
        (
            "define void @f() prefix i8 1 { ret void }",
            "Unsupported 1:18",
        ),
        (
            "define void @f() prologue i8 1 { ret void }",
            "Unsupported 1:18",
        ),
        ("define void @f() target { ret void }", "Unsupported 1:18"),
        ("define void @f() align 3 { ret void }", "BadSyntax 1:24"),
        ("define void @f() !dbg 3 { ret void }", "BadSyntax 1:23"),
        ("define void @f() !x = !{}", "BadSyntax 1:21"),
        ("define void @f() {", "BadSyntax 1:19"),
        ("define void @f() { }", "BadSyntax 1:20"),
        ("define void @f() { ret }", "BadSyntax 1:24"),
        ("define void @f() { ret void", "BadSyntax 1:28"),
        ("define void @f() { ret void } }", "BadSyntax 1:31"),
        ("define void @f() { ret half 0 }", "Unsupported 1:24"),
        (
            "define void @f() { %a = alloca i8 br label %b b: %c = alloca i8 ret void }",
            "Unsupported 1:55",
        ),
    ];
    check_rows(&rt, rt.alloc(), rows.as_slice())
}

/// How many items, blocks and instructions a text spells, or its first fault.
fn body_counts(alloc: Global, text: &[u8]) -> Result<String, Fail> {
    if text.len() > 16777216 {
        return Err(Fail::from("too long"));
    }
    let end = ir_lex::end_of(text);
    let tokens = tokens_of(alloc, text)?;
    let sentence = terminals(alloc, &tokens, end)?;
    match read_items(alloc, &sentence) {
        Ok(found) => {
            let items = found.items.len();
            let blocks = found.bodies.blocks.len();
            let instructions = found.bodies.instructions.len();
            Ok(format!(in alloc; "{items} {blocks} {instructions}")?)
        }
        Err(failure) => shown_failure(alloc, &sentence, failure),
    }
}

#[test]
fn a_module_with_its_function(rt: HostRuntime) -> Result<(), Fail> {
    let found = body_counts(rt.alloc(), module_text::WHOLE_MODULE.as_bytes())?;
    assert_eq!(rt; found.as_str(), "10 4 20");
    Ok(())
}
