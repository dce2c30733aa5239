use super::*;
use std::test::Fail;

#[test]
fn names_have_the_same_key_where_they_are_one(rt: HostRuntime) -> Result<(), Fail> {
    let rows = [
        (b"1".as_slice(), b"1".as_slice(), b"1".as_slice()),
        (b"01", b"01", b"1"),
        (b"0", b"0", b""),
        (b"\"1\"", b"1", b"\"1"),
        (b"a", b"a", b"\"a"),
        (b"\"a\"", b"a", b"\"a"),
        (b"\"\\61\"", b"a", b"\"a"),
        (b"\"\\5C\\\\\\q\"", b"\\\\\\q", b"\"\\\\\\q"),
        (b"1a", b"1a", b"\"1a"),
        (b"\"\"", b"", b"\""),
    ];
    for (name, bytes, key) in rows {
        assert_eq!(rt;
            name_bytes(rt.alloc(), name)?.as_slice(),
            bytes,
            "the bytes of {name:?}"
        );
        assert_eq!(rt;
            name_key(rt.alloc(), name)?.as_slice(),
            key,
            "the key of {name:?}"
        );
    }
    Ok(())
}

#[test]
fn strings_labels_and_numbers_say_what_was_worked_out_by_hand(rt: HostRuntime) -> Result<(), Fail> {
    assert_eq!(rt;
        string_bytes(rt.alloc(), b"\"a\\2Cb\\\"".as_slice())?.as_slice(),
        b"a,b\\".as_slice()
    );
    assert!(rt; is_label_of(b"line:".as_slice(), b"line".as_slice()));
    assert!(rt; is_label_of(b"\"li\\6ee\":".as_slice(), b"line".as_slice()));
    assert!(rt; !is_label_of(b"line:".as_slice(), b"lin".as_slice()));
    assert_eq!(rt; significant(b"0070".as_slice()), b"70".as_slice());
    assert_eq!(rt; number_behind_bang(b"!012".as_slice()), b"12".as_slice());
    assert_eq!(rt; line_or_column(b"4294967295".as_slice()), 4_294_967_295);
    assert_eq!(rt; line_or_column(b"4294967296".as_slice()), 0);
    assert_eq!(rt; small_number(b"00064".as_slice()), 64);
    assert_eq!(rt; small_number(b"-1".as_slice()), 0);
    Ok(())
}

#[test]
fn data_layouts_are_taken_part_by_part(rt: HostRuntime) -> Result<(), Fail> {
    let rows = [
        (b"\"\"".as_slice(), true),
        (
            b"\"e-m:e-i8:8:32-i16:16:32-i64:64-i128:128-n32:64-S128-Fn32\"",
            true,
        ),
        (
            b"\"e-m:e-p270:32:32-p271:32:32-p272:64:64-i64:64-i128:128-f80:128-n8:16:32:64-S128\"",
            true,
        ),
        (b"\"E\"", false),
        (b"\"e-E\"", false),
        (b"\"E:1\"", true),
        (b"\"\\45\"", false),
        (b"\"p\"", true),
        (b"\"p:64\"", true),
        (b"\"p0:0064:32\"", true),
        (b"\"p:\"", false),
        (b"\"p:32:32\"", false),
        (b"\"p0:x\"", false),
        (b"\"p270:32:32\"", true),
        (b"\"i64\"", true),
        (b"\"i64:64\"", true),
        (b"\"i64:32\"", false),
        (b"\"i064:32\"", false),
        (b"\"i1:8\"", true),
        (b"\"i1:1\"", false),
        (b"\"i33:64\"", true),
        (b"\"i128:64\"", false),
        (b"\"i128:128\"", true),
        (b"\"i8:\"", false),
        (b"\"i256:8\"", true),
        (b"\"i0:8\"", true),
        (b"\"i:8\"", true),
        (b"\"-:64-\"", true),
    ];
    for (text, taken) in rows {
        assert_eq!(rt; is_layout_taken(rt.alloc(), text)?, taken, "{text:?}");
    }
    Ok(())
}

#[test]
fn the_globals_that_llvm_names_are_known_quoted_or_not(rt: HostRuntime) -> Result<(), Fail> {
    let rows = [
        (b"@llvm.used".as_slice(), true, false),
        (b"@\"llvm.used\"", true, false),
        (b"@llvm.compiler.used", true, false),
        (b"@\"llvm\\2eglobal_ctors\"", false, true),
        (b"@llvm.global_ctors", false, true),
        (b"@llvm.used.1", false, false),
        (b"@1", false, false),
        (b"", false, false),
    ];
    for (name, used, constructors) in rows {
        assert_eq!(rt; is_used_list(name), used, "{name:?}");
        assert_eq!(rt; is_constructor_list(name), constructors, "{name:?}");
    }
    Ok(())
}

#[test]
fn functions_for_debuggers_are_known_quoted_or_not(rt: HostRuntime) -> Result<(), Fail> {
    let rows = [
        (b"@llvm.dbg.value".as_slice(), true),
        (b"@llvm.dbg.", true),
        (b"@\"llvm.dbg\\2edeclare\"", true),
        (b"@llvm.dbg", false),
        (b"@llvm.dbgx.value", false),
        (b"@\"@llvm.dbg.value\"", false),
        (b"", false),
    ];
    for (name, known) in rows {
        assert_eq!(rt; is_debug_function(rt.alloc(), name)?, known, "{name:?}");
    }
    Ok(())
}
