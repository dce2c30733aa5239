use super::*;

#[test]
fn a_module_is_what_its_text_spells(rt: HostRuntime) -> Result<(), Fail> {
    let rows = [
        ("", "i32 4/4|i32 4/4| f g  d "),
        // a type that holds itself
        (
            "%t = type { i8, %t }",
            "i8 1/1|[1 x #2] loop|0+2 packed false loop|i32 4/4|i32 4/4| f 0 2 g  d ",
        ),
        // names in either order, and a name of a name
        (
            "%a = type %b\n%b = type { i8, i64 }\n@g = constant %a { i8 1, i64 -1 }",
            "[1 x #3] 16/8|i8 1/1|i64 8/8|0+2 packed false 16/8|[1 x #3] 16/8|i8 1/1|i64 8/8|i32 4/4|i32 4/4| f 1 2 g g constant #3 at 3:1 0:1=1 8:8=18446744073709551615| d ",
        ),
        // an initializer that breaks a rule
        (
            "@g = global i8 256",
            "i8 1/1|i32 4/4|i32 4/4| f g g global #0 at 1:1 breaks a rule| d ",
        ),
        // two named structs are two types, and a literal one is what it spells
        (
            "%a = type { i8 }\n%b = type { i8 }\n@g = global [1 x %a] [%b { i8 1 }]\n@h = global [1 x { i8 }] [{ i8 } { i8 1 }]",
            "i8 1/1|0+1 packed false 1/1|i8 1/1|1+1 packed false 1/1|[1 x #1] 1/1|[1 x #1] 1/1|[1 x #3] 1/1|i8 1/1|i8 1/1|2+1 packed false 1/1|[1 x #9] 1/1|i8 1/1|3+1 packed false 1/1|i8 1/1|i32 4/4|i32 4/4| f 0 2 8 11 g g global #5 at 3:1 breaks a rule|h global #10 at 4:1 0:1=1| d ",
        ),
        // addresses
        (
            "@a = global [2 x i32] zeroinitializer\n@p = global ptr getelementptr inbounds (i8, ptr @a, i64 4)",
            "i32 4/4|[2 x #0] 8/4|ptr 8/8|i8 1/1|i64 8/8|i32 4/4|i32 4/4| f g a global #1 at 1:1|p global #2 at 2:1 0:8=@0+4| d ",
        ),
        // declares: those of known functions, by their names
        (
            "declare noalias ptr @malloc(i64 noundef)\ndeclare void @other(i8)\ndeclare i32 @\"putchar\"(i32)",
            "ptr 8/8|i64 8/8|void no size|i8 1/1|i32 4/4|i32 4/4|i32 4/4|i32 4/4| f g  d Malloc #0 at 1:21 #1|Putchar #4 at 3:13 #5|",
        ),
        (
            "declare { i8, i1 } @llvm.sadd.with.overflow.i8(i8, i8)",
            "i8 1/1|i1 1/1|pair 8 2/1|i8 1/1|i8 1/1|i32 4/4|i32 4/4| f 0 1 g  d Overflow { op: SAdd, width: 8 } #2 at 1:20 #3 #4|",
        ),
        // what is read and dropped
        (
            "@llvm.used = appending global [1 x ptr] [ptr @x], section \"llvm.metadata\"",
            "ptr 8/8|[1 x #0] 8/8|i32 4/4|i32 4/4| f g  d ",
        ),
        (
            "declare void @llvm.dbg.value(metadata, metadata)",
            "void no size|opaque no size|opaque no size|i32 4/4|i32 4/4| f g  d ",
        ),
    ];
    for (text, want) in rows.as_slice() {
        let whole = format!(in rt.alloc(); "{text}\ndefine i32 @main() {{ ret i32 0 }}")?;
        let module = accepted(rt.alloc(), whole.as_bytes())?;
        let found = shown_module(rt.alloc(), &module)?;
        assert_eq!(rt; found.as_str(), *want, "at {text:?}");
        assert_eq!(rt; module.main, 0);
        assert_eq!(rt; module.functions.len(), 1);
    }
    Ok(())
}

#[test]
fn types_that_no_text_spells_come_last(rt: HostRuntime) -> Result<(), Fail> {
    let module = accepted(rt.alloc(), b"define i32 @main() { ret i32 0 }".as_slice())?;
    assert_eq!(rt; module.types.len(), 260);
    let rows = [
        (2, IrType::Ptr),
        (3, IrType::Void),
        (4, IrType::Int(1)),
        (131, IrType::Int(128)),
        (132, IrType::Pair(1)),
        (259, IrType::Pair(128)),
    ];
    for (number, want) in rows {
        assert_eq!(rt; module.types.get(number), Some(want));
    }
    Ok(())
}
