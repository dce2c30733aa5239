use super::*;

#[test]
fn types_that_hold_themselves(rt: HostRuntime) -> Result<(), Fail> {
    let rows = [
        (
            "%n = type { i32, ptr }\n@g = global %n zeroinitializer\ndefine i32 @main() {\n  ret i32 0\n}\n",
            "accepted",
        ),
        (
            "%n = type { i32, %n }\ndefine i32 @main() {\n  ret i32 0\n}\n",
            "refused: 4 BadType at 1:1",
        ),
        (
            "@a = global i8 0\n%n = type { [2 x %m] }\n%m = type { i8, %n }\ndefine i32 @main() {\n  ret i32 0\n}\n",
            "refused: 4 BadType at 1:1",
        ),
    ];
    check_rows(&rt, rt.alloc(), rows.as_slice())
}

#[test]
fn types_of_operands_and_results(rt: HostRuntime) -> Result<(), Fail> {
    let rows = [
        (
            "define void @f() {\n  ret void\n}\ndefine i32 @main() {\n  call void @f()\n  ret i32 0\n}\n",
            "accepted",
        ),
        (
            "define i32 @main() {\n  %p = alloca i32, align 4\n  store i32 1, ptr %p\n  %x = cmpxchg ptr %p, i32 1, i32 2 seq_cst seq_cst\n  %o = extractvalue { i32, i1 } %x, 0\n  ret i32 %o\n}\n",
            "accepted",
        ),
        (
            "define i32 @f({ i32, i32 } %a) {\n  ret i32 0\n}\ndefine i32 @main() {\n  ret i32 0\n}\n",
            "refused: 4 BadType at 1:12",
        ),
        (
            "define { i32, i32 } @f() {\n  unreachable\n}\ndefine i32 @main() {\n  ret i32 0\n}\n",
            "refused: 4 BadType at 1:21",
        ),
        (
            "define i32 @f(void %a) {\n  ret i32 0\n}\ndefine i32 @main() {\n  ret i32 0\n}\n",
            "refused: 4 BadType at 1:12",
        ),
        (
            "%o = type opaque\ndefine i32 @f(%o %a) {\n  ret i32 0\n}\ndefine i32 @main() {\n  ret i32 0\n}\n",
            "refused: 4 BadType at 2:12",
        ),
        (
            "define i32 @main() {\n  %a = freeze { i32 } zeroinitializer\n  ret i32 0\n}\n",
            "refused: 4 BadType at 2:3",
        ),
        (
            "define i32 @main() {\n  %a = select i1 true, [2 x i8] zeroinitializer, [2 x i8] zeroinitializer\n  ret i32 0\n}\n",
            "refused: 4 BadType at 2:3",
        ),
        (
            "define i32 @main() {\n  br label %b\nb:\n  %a = phi { i32, i1 } [ zeroinitializer, %0 ]\n  ret i32 0\n}\n",
            "refused: 4 BadType at 4:3",
        ),
        (
            "define i32 @main() {\n  %a = icmp eq { i32 } zeroinitializer, zeroinitializer\n  ret i32 0\n}\n",
            "refused: 4 BadType at 2:24",
        ),
    ];
    check_rows(&rt, rt.alloc(), rows.as_slice())
}

#[test]
fn sizes(rt: HostRuntime) -> Result<(), Fail> {
    let rows = [
        (
            "%o = type opaque\n@g = global ptr null\ndefine i32 @main() {\n  %p = getelementptr %o, ptr null\n  ret i32 0\n}\n",
            "accepted",
        ),
        (
            "%o = type opaque\n@g = global %o zeroinitializer\ndefine i32 @main() {\n  ret i32 0\n}\n",
            "refused: 4 BadType at 2:1",
        ),
        (
            "@a = global i8 0\n@g = global [2 x void] zeroinitializer\ndefine i32 @main() {\n  ret i32 0\n}\n",
            "refused: 4 BadType at 2:1",
        ),
        (
            "%o = type opaque\ndefine i32 @main() {\n  %a = alloca %o, align 8\n  ret i32 0\n}\n",
            "refused: 4 BadType at 3:3",
        ),
        (
            "%o = type opaque\ndefine i32 @main() {\n  %q = getelementptr { i32, %o }, ptr null, i64 1\n  ret i32 0\n}\n",
            "refused: 4 BadType at 3:3",
        ),
    ];
    check_rows(&rt, rt.alloc(), rows.as_slice())
}

#[test]
fn types_that_are_asked_for(rt: HostRuntime) -> Result<(), Fail> {
    let rows = [
        (
            "define i32 @main() {\n  %x = add i32 1, 2\n  %y = add i32 %x, 3\n  %c = icmp eq i32 %y, 6\n  br i1 %c, label %t, label %t\nt:\n  ret i32 0\n}\n",
            "accepted",
        ),
        (
            "define i32 @main() {\n  %x = add i32 1, 2\n  %y = add i64 %x, 3\n  ret i32 0\n}\n",
            "refused: 4 BadType at 3:16",
        ),
        (
            "define i32 @main() {\n  %x = add i32 1, 2\n  br i1 %x, label %t, label %t\nt:\n  ret i32 0\n}\n",
            "refused: 4 BadType at 3:9",
        ),
        (
            "define i32 @main() {\n  %x = add i32 1, 2\n  %v = load i32, ptr %x\n  ret i32 0\n}\n",
            "refused: 4 BadType at 3:22",
        ),
        (
            "define i32 @main() {\n  %s = select i1 true, i32 1, i64 2\n  ret i32 0\n}\n",
            "refused: 4 BadType at 2:35",
        ),
        (
            "define i32 @main() {\n  %x = add ptr null, null\n  ret i32 0\n}\n",
            "refused: 4 BadType at 2:16",
        ),
        (
            "@g = global i8 0\ndefine i32 @main() {\n  %x = add i32 @g, 1\n  ret i32 0\n}\n",
            "refused: 4 BadType at 3:16",
        ),
    ];
    check_rows(&rt, rt.alloc(), rows.as_slice())
}

#[test]
fn constants_that_fit(rt: HostRuntime) -> Result<(), Fail> {
    let rows = [
        (
            "@s = global [3 x i8] c\"abc\"\ndefine i32 @main() {\n  %x = add i8 -128, 255\n  %p = icmp eq ptr null, undef\n  ret i32 0\n}\n",
            "accepted",
        ),
        (
            "define i32 @main() {\n  %x = add i32 undef, zeroinitializer\n  ret i32 %x\n}\n",
            "accepted",
        ),
        (
            "define i32 @main() {\n  %x = add i8 256, 0\n  ret i32 0\n}\n",
            "refused: 4 BadType at 2:15",
        ),
        (
            "define i32 @main() {\n  %x = add i8 0, -129\n  ret i32 0\n}\n",
            "refused: 4 BadType at 2:18",
        ),
        (
            "define i32 @main() {\n  %x = add i32 null, 1\n  ret i32 0\n}\n",
            "refused: 4 BadType at 2:16",
        ),
        (
            "define i32 @main() {\n  %x = add i32 1, true\n  ret i32 0\n}\n",
            "refused: 4 BadType at 2:19",
        ),
        (
            "@g = global i8 256\ndefine i32 @main() {\n  ret i32 0\n}\n",
            "refused: 4 BadType at 1:1",
        ),
        (
            "@a = global i8 0\n@s = global [2 x i8] c\"abc\"\ndefine i32 @main() {\n  ret i32 0\n}\n",
            "refused: 4 BadType at 2:1",
        ),
        (
            "define i32 @main() {\n  %a = alloca i32, i8 256\n  ret i32 0\n}\n",
            "refused: 4 BadType at 2:23",
        ),
    ];
    check_rows(&rt, rt.alloc(), rows.as_slice())
}

#[test]
fn loads_and_stores(rt: HostRuntime) -> Result<(), Fail> {
    let rows = [
        (
            "define i32 @main() {\n  %p = alloca ptr\n  store ptr null, ptr %p\n  %v = load ptr, ptr %p\n  %w = load i24, ptr %p\n  ret i32 0\n}\n",
            "accepted",
        ),
        (
            "define i32 @main() {\n  %p = alloca i32\n  %v = load [2 x i8], ptr %p\n  ret i32 0\n}\n",
            "refused: 4 BadType at 3:3",
        ),
        (
            "define i32 @main() {\n  %p = alloca i32\n  store { i32 } zeroinitializer, ptr %p\n  ret i32 0\n}\n",
            "refused: 4 BadType at 3:3",
        ),
    ];
    check_rows(&rt, rt.alloc(), rows.as_slice())
}

#[test]
fn widths_of_conversions(rt: HostRuntime) -> Result<(), Fail> {
    let rows = [
        (
            "define i32 @main() {\n  %a = trunc i32 300 to i8\n  %b = zext i8 %a to i128\n  %c = sext i1 true to i32\n  ret i32 %c\n}\n",
            "accepted",
        ),
        (
            "define i32 @main() {\n  %a = trunc i8 1 to i8\n  ret i32 0\n}\n",
            "refused: 4 BadType at 2:3",
        ),
        (
            "define i32 @main() {\n  %a = zext i32 1 to i32\n  ret i32 0\n}\n",
            "refused: 4 BadType at 2:3",
        ),
        (
            "define i32 @main() {\n  %a = sext i32 1 to i8\n  ret i32 0\n}\n",
            "refused: 4 BadType at 2:3",
        ),
        (
            "define i32 @main() {\n  %a = zext i32 1 to ptr\n  ret i32 0\n}\n",
            "refused: 4 BadType at 2:3",
        ),
        (
            "define i32 @main() {\n  %a = zext ptr null to i64\n  ret i32 0\n}\n",
            "refused: 4 BadType at 2:17",
        ),
    ];
    check_rows(&rt, rt.alloc(), rows.as_slice())
}

#[test]
fn indices_of_addresses(rt: HostRuntime) -> Result<(), Fail> {
    let rows = [
        (
            "%s = type { i32, [4 x i64] }\ndefine i32 @main() {\n  %p = alloca %s\n  %q = getelementptr inbounds %s, ptr %p, i64 0, i32 1, i64 3\n  ret i32 0\n}\n",
            "accepted",
        ),
        (
            "%s = type { i32, [4 x i64] }\ndefine i32 @main() {\n  %p = alloca %s\n  %q = getelementptr %s, ptr %p, i64 0, i32 2\n  ret i32 0\n}\n",
            "refused: 4 BadType at 4:45",
        ),
        (
            "%s = type { i32, [4 x i64] }\ndefine i32 @main() {\n  %p = alloca %s\n  %q = getelementptr %s, ptr %p, i64 0, i64 1\n  ret i32 0\n}\n",
            "refused: 4 BadType at 4:45",
        ),
        (
            "%s = type { i32, [4 x i64] }\ndefine i32 @main() {\n  %p = alloca %s\n  %i = add i32 0, 1\n  %q = getelementptr %s, ptr %p, i64 0, i32 %i\n  ret i32 0\n}\n",
            "refused: 4 BadType at 5:45",
        ),
        (
            "define i32 @main() {\n  %p = alloca i32\n  %q = getelementptr i32, ptr %p, i64 0, i64 0\n  ret i32 0\n}\n",
            "refused: 4 BadType at 3:46",
        ),
        (
            "define i32 @main() {\n  %p = alloca i32\n  %q = getelementptr i32, ptr %p, ptr null\n  ret i32 0\n}\n",
            "refused: 4 BadType at 3:39",
        ),
        (
            "%s = type { i32, i64 }\n@a = global %s zeroinitializer\n@g = global ptr getelementptr (%s, ptr @a, i64 0, i32 2)\ndefine i32 @main() {\n  ret i32 0\n}\n",
            "refused: 4 BadType at 3:1",
        ),
    ];
    check_rows(&rt, rt.alloc(), rows.as_slice())
}
