use super::*;

#[test]
fn what_bodies_spell_is_counted(rt: HostRuntime) -> Result<(), Fail> {
    let rows = [
        (
            "{ unreachable, !a !{{{{{{{{{{{{{{{{{{{{{{{{{{{{{{{{{{{{{{{{{{{{{{{{{{{{{{{{{{{{{{{}}}}}}}}}}}}}}}}}}}}}}}}}}}}}}}}}}}}}}}}}}}}}}}}}}}}}}}}}}}}}}} }",
            "1 1 0 0 0 1 @132",
        ),
        ("{ ret void }", "1 1 0 0 0 0 @4"),
        ("{ ret void, !dbg !7 }", "1 1 0 0 0 1 @7"),
        ("{ ret void %x }", "1 1 0 0 0 0 @5"),
        ("{ ret void %x = add i32 1, 2 ret void }", "2 3 0 0 0 0 @13"),
        ("{ ret void getelementptr (i8, ptr @g) }", "1 1 0 0 0 0 @11"),
        (
            "{ ret void getelementptr inbounds i8, ptr %p ret void }",
            "2 3 0 0 0 0 @12",
        ),
        ("{ ret void 5 }", "1 1 0 0 0 0 @5"),
        ("{ ret void add i8 1, 2 ret i32 0 }", "2 3 0 0 0 0 @12"),
        ("{ ret i32 5 }", "1 1 0 0 0 0 @5"),
        ("{ ret i32 %x, !dbg !1, !b !{} } rest", "1 1 0 0 0 2 @13"),
        (
            "{ a: br label %a b: br i1 %c, label %a, label %b }",
            "2 2 0 0 0 0 @16",
        ),
        (
            "{ br label %1 1: unreachable 2: unreachable }",
            "3 3 0 0 0 0 @9",
        ),
        ("{ switch i32 %x, label %a [ ] }", "1 1 0 0 0 0 @10"),
        (
            "{ switch i32 %x, label %a [ i32 1, label %b i32 -1, label %c ], !dbg !1 }",
            "1 1 0 0 2 1 @23",
        ),
        ("{ #dbg_value(i32 0, !1) unreachable }", "1 1 0 0 0 0 @10"),
        (
            "{ %x = sub nuw nsw i32 %a, 5, !dbg !1 unreachable }",
            "1 2 0 0 0 1 @15",
        ),
        (
            "{ %x = icmp samesign ult ptr %a, null unreachable }",
            "1 2 0 0 0 0 @12",
        ),
        (
            "{ %x = icmp eq i1 true, false %y = trunc nuw i32 %x to i8 unreachable }",
            "1 3 0 0 0 0 @19",
        ),
        (
            "{ %y = freeze i32 undef %z = select i1 %c, i32 poison, ptr zeroinitializer unreachable }",
            "1 3 0 0 0 0 @19",
        ),
        (
            "{ %p = phi i32 [ 1, %a ], [ %x, %b ], !dbg !1 unreachable }",
            "1 2 0 2 0 1 @21",
        ),
        ("{ %p = phi ptr [ @g, %a ] unreachable }", "1 2 0 1 0 0 @12"),
        (
            "{ alloca i32 alloca i32, i64 4 alloca i32, align 8 alloca [4 x i8], i32 1, align 1, !m !1 unreachable }",
            "1 5 0 0 0 1 @30",
        ),
        (
            "{ load i32, ptr %p load volatile ptr, ptr @g, align 4, !tbaa !5 load atomic i64, ptr %p syncscope(\"s\") seq_cst, align 8 unreachable }",
            "1 4 0 0 0 1 @34",
        ),
        (
            "{ store i32 1, ptr %p store atomic volatile ptr null, ptr %p release, align 16, !a !b(x) unreachable }",
            "1 3 0 0 0 1 @27",
        ),
        (
            "{ getelementptr inbounds nuw %s, ptr %p, i64 0, i32 %i, !dbg !1 getelementptr i8, ptr %p unreachable }",
            "1 3 2 0 0 1 @24",
        ),
        (
            "{ fence syncscope(\"one\") seq_cst fence release, !dbg !1 unreachable }",
            "1 3 0 0 0 1 @14",
        ),
        (
            "{ atomicrmw volatile umin ptr %p, i32 1 syncscope(\"x\") monotonic, align 4 atomicrmw xor ptr %p, i8 1 acq_rel unreachable }",
            "1 3 0 0 0 0 @27",
        ),
        (
            "{ cmpxchg weak volatile ptr %p, i32 1, i32 2 acquire monotonic, align 4, !m !1 unreachable }",
            "1 2 0 0 0 1 @22",
        ),
        (
            "{ extractvalue { i32, i1 } %r, 1 extractvalue { i8, i1 } %r, 0, !a !1 unreachable }",
            "1 3 0 0 0 1 @24",
        ),
        ("{ call void @f() unreachable }", "1 2 0 0 0 0 @8"),
        (
            "{ %r = tail call fastcc noundef i32 @f(i32 noundef 5, ptr align 8 dereferenceable(4) %p) #1 \"a\"=\"b\", !dbg !1 unreachable }",
            "1 2 2 0 0 1 @32",
        ),
        (
            "{ %x = call void @llvm.dbg.value(metadata i32 0, metadata !1), !dbg !5 unreachable }",
            "1 1 0 0 0 0 @19",
        ),
        (
            "{ musttail call ptr @\"llvm.dbg.x\"() ret void }",
            "1 1 0 0 0 0 @10",
        ),
    ];
    check_rows(&rt, rt.alloc(), rows.as_slice())
}

/// Whether a text has no tokens, or no body at its head.
fn is_refused(alloc: Global, text: &[u8]) -> Result<bool, Fail> {
    if text.len() > 16777216 {
        return Err(Fail::from("too long"));
    }
    let end = ir_lex::end_of(text);
    match ir_lex::lex(alloc, text) {
        Ok(tokens) => {
            let sentence = terminals(alloc, &tokens, end)?;
            Ok(read_body(alloc, &sentence, 0).is_err())
        }
        Err(_) => Ok(true),
    }
}

#[test]
fn each_front_of_a_body_is_refused(rt: HostRuntime) -> Result<(), Fail> {
    let alloc = rt.alloc();
    let text = module_text::MAIN.as_bytes();
    let whole = answer(alloc, text)?;
    assert_eq!(rt; whole.as_str(), "4 20 6 6 0 22 @275");
    for length in 0..text.len() {
        let refused = is_refused(alloc, &text[..length])?;
        assert!(rt; refused, "{length} bytes");
    }
    Ok(())
}
