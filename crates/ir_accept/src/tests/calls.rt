use super::*;

#[test]
fn arguments_of_calls(rt: HostRuntime) -> Result<(), Fail> {
    let rows = [
        (
            "define i32 @f(i32 %a) {\n  ret i32 %a\n}\ndeclare i32 @putchar(i32)\ndefine i32 @main() {\n  %r = call i32 @f(i32 1)\n  %c = call i32 @putchar(i32 %r)\n  ret i32 %c\n}\n",
            "accepted",
        ),
        (
            "define i32 @f(i32 %a) {\n  ret i32 %a\n}\ndefine i32 @main() {\n  %r = call i32 @f(i32 1, i32 2)\n  ret i32 0\n}\n",
            "refused: 4 BadType at 5:3",
        ),
        (
            "define i32 @f(i32 %a) {\n  ret i32 %a\n}\ndefine i32 @main() {\n  %r = call i64 @f(i32 1)\n  ret i32 0\n}\n",
            "refused: 4 BadType at 5:3",
        ),
        (
            "define i32 @f(i32 %a) {\n  ret i32 %a\n}\ndefine i32 @main() {\n  %r = call i32 @f(i64 1)\n  ret i32 0\n}\n",
            "refused: 4 BadType at 5:24",
        ),
        (
            "declare i64 @putchar(i32)\ndefine i32 @main() {\n  ret i32 0\n}\n",
            "refused: 4 BadType at 1:13",
        ),
        (
            "declare i32 @putchar(i32, i32)\ndefine i32 @main() {\n  ret i32 0\n}\n",
            "refused: 4 BadType at 1:13",
        ),
        (
            "define void @g() {\n  ret void\n}\ndefine i32 @main() {\n  %r = call void @g()\n  ret i32 0\n}\n",
            "refused: 4 BadType at 5:3",
        ),
        (
            "define i32 @main() {\n  %p = alloca i32\n  %r = store i32 1, ptr %p\n  ret i32 0\n}\n",
            "refused: 4 BadType at 3:3",
        ),
    ];
    check_rows(&rt, rt.alloc(), rows.as_slice())
}

#[test]
fn unknown_declares(rt: HostRuntime) -> Result<(), Fail> {
    let rows = [(
        "declare metadata @other({ i32 }, metadata)\ndefine i32 @main() {\n  ret i32 0\n}\n",
        "accepted",
    )];
    check_rows(&rt, rt.alloc(), rows.as_slice())
}

#[test]
fn starts_of_tasks(rt: HostRuntime) -> Result<(), Fail> {
    let rows = [
        (
            "declare i32 @pthread_create(ptr, ptr, ptr, ptr)\ndeclare i32 @pthread_join(i64, ptr)\ndefine ptr @w(ptr %a) {\n  ret ptr %a\n}\ndefine i32 @main() {\n  %t = alloca i64\n  %r = call i32 @pthread_create(ptr %t, ptr null, ptr null, ptr null)\n  ret i32 0\n}\n",
            "refused: 4 BadType at 8:55",
        ),
        (
            "declare i32 @pthread_create(ptr, ptr, ptr, ptr)\ndefine ptr @w(ptr %a) {\n  ret ptr %a\n}\ndefine i32 @main() {\n  %t = alloca i64\n  %r = call i32 @pthread_create(ptr %t, ptr null, ptr @w, ptr null)\n  ret i32 0\n}\n",
            "accepted",
        ),
        (
            "declare i32 @pthread_create(ptr, ptr, ptr, ptr)\ndefine i32 @w(ptr %a) {\n  ret i32 0\n}\ndefine i32 @main() {\n  %t = alloca i64\n  %r = call i32 @pthread_create(ptr %t, ptr null, ptr @w, ptr null)\n  ret i32 0\n}\n",
            "refused: 4 BadType at 7:55",
        ),
        (
            "declare i32 @pthread_create(ptr, ptr, ptr, ptr)\ndefine ptr @w(i64 %a) {\n  ret ptr null\n}\ndefine i32 @main() {\n  %t = alloca i64\n  %r = call i32 @pthread_create(ptr %t, ptr null, ptr @w, ptr null)\n  ret i32 0\n}\n",
            "refused: 4 BadType at 7:55",
        ),
        (
            "declare i32 @pthread_create(ptr, ptr, ptr, ptr)\ndefine ptr @w(ptr %a, ptr %b) {\n  ret ptr %a\n}\ndefine i32 @main() {\n  %t = alloca i64\n  %r = call i32 @pthread_create(ptr %t, ptr null, ptr @w, ptr null)\n  ret i32 0\n}\n",
            "refused: 4 BadType at 7:55",
        ),
        (
            "declare i32 @pthread_create(ptr, ptr, ptr, ptr)\ndefine ptr @w(ptr %a) {\n  ret ptr %a\n}\ndefine i32 @main() {\n  %t = alloca i64\n  %r = call i32 @pthread_create(ptr %t, ptr null, i64 @w, ptr null)\n  ret i32 0\n}\n",
            "refused: 4 BadType at 7:55",
        ),
        (
            "declare i32 @pthread_create(ptr, ptr, ptr, ptr)\ndefine ptr @w(ptr %a) {\n  ret ptr %a\n}\ndefine i32 @main() {\n  %t = alloca i64\n  %r = call i32 @pthread_create(ptr %t, ptr null, ptr getelementptr (i8, ptr @w, i64 0), ptr null)\n  ret i32 0\n}\n",
            "refused: 4 BadType at 7:55",
        ),
        (
            "declare i32 @pthread_create(ptr, ptr, ptr, ptr)\ndeclare ptr @malloc(i64)\ndefine i32 @main() {\n  %t = alloca i64\n  %r = call i32 @pthread_create(ptr %t, ptr null, ptr @malloc, ptr null)\n  ret i32 0\n}\n",
            "refused: 4 BadType at 5:55",
        ),
        (
            "declare i32 @pthread_create(ptr, ptr, ptr, ptr)\ndeclare i32 @pthread_join(i64, ptr)\ndefine i32 @main() {\n  %t = alloca i64\n  %j = call i32 @pthread_join(i64 0, ptr %t)\n  ret i32 0\n}\n",
            "refused: 3 Unsupported at 5:3",
        ),
    ];
    check_rows(&rt, rt.alloc(), rows.as_slice())
}

#[test]
fn returned_values(rt: HostRuntime) -> Result<(), Fail> {
    let rows = [
        (
            "define void @g() {\n  ret void\n}\ndefine i32 @main() {\n  ret i32 0\n}\n",
            "accepted",
        ),
        (
            "define i32 @main() {\n  ret i64 0\n}\n",
            "refused: 4 BadType at 2:3",
        ),
        (
            "define i32 @main() {\n  ret void\n}\n",
            "refused: 4 BadType at 2:3",
        ),
        (
            "define i32 @main() {\n  ret i32 null\n}\n",
            "refused: 4 BadType at 2:11",
        ),
        (
            "define void @g() {\n  %x = add i32 1, 2\n  ret void %x\n}\ndefine i32 @main() {\n  ret i32 0\n}\n",
            "refused: 4 BadType at 3:12",
        ),
        (
            "define i32 @main() {\n  %x = add i32 1, 2\n  ret void %x\n}\n",
            "refused: 4 BadType at 3:3",
        ),
    ];
    check_rows(&rt, rt.alloc(), rows.as_slice())
}

#[test]
fn values_of_switches(rt: HostRuntime) -> Result<(), Fail> {
    let rows = [
        (
            "define i32 @main() {\n  switch i8 3, label %d [ i8 1, label %d i8 -1, label %d ]\nd:\n  ret i32 0\n}\n",
            "accepted",
        ),
        (
            "define i32 @main() {\n  switch i8 3, label %d [ i8 1, label %d i8 1, label %d ]\nd:\n  ret i32 0\n}\n",
            "refused: 4 BadType at 2:45",
        ),
        (
            "define i32 @main() {\n  switch i8 3, label %d [ i8 -1, label %d i8 255, label %d ]\nd:\n  ret i32 0\n}\n",
            "refused: 4 BadType at 2:46",
        ),
        (
            "define i32 @main() {\n  switch i8 3, label %d [ i16 1, label %d ]\nd:\n  ret i32 0\n}\n",
            "refused: 4 BadType at 2:31",
        ),
        (
            "define i32 @main() {\n  switch ptr null, label %d [ ]\nd:\n  ret i32 0\n}\n",
            "refused: 4 BadType at 2:14",
        ),
    ];
    check_rows(&rt, rt.alloc(), rows.as_slice())
}

#[test]
fn parts_of_pairs(rt: HostRuntime) -> Result<(), Fail> {
    let rows = [
        (
            "define i32 @main() {\n  %p = alloca i32\n  %x = cmpxchg ptr %p, i32 1, i32 2 seq_cst seq_cst\n  %o = extractvalue { i32, i1 } %x, 0\n  %b = extractvalue { i32, i1 } %x, 1\n  %z = extractvalue { i32, i1 } zeroinitializer, 1\n  ret i32 %o\n}\n",
            "accepted",
        ),
        (
            "define i32 @main() {\n  %p = alloca i32\n  %x = cmpxchg ptr %p, i32 1, i32 2 seq_cst seq_cst\n  %o = extractvalue { i32, i1 } %x, 2\n  ret i32 0\n}\n",
            "refused: 4 BadType at 4:3",
        ),
        (
            "define i32 @main() {\n  %o = extractvalue { ptr, i1 } zeroinitializer, 0\n  ret i32 0\n}\n",
            "refused: 4 BadType at 2:3",
        ),
        (
            "define i32 @main() {\n  %p = alloca i32\n  %x = cmpxchg ptr %p, i32 1, i32 2 seq_cst seq_cst\n  %o = extractvalue { i64, i1 } %x, 0\n  ret i32 0\n}\n",
            "refused: 4 BadType at 4:33",
        ),
        (
            "define i32 @main() {\n  %o = extractvalue { i32, i1 } 7, 0\n  ret i32 0\n}\n",
            "refused: 4 BadType at 2:33",
        ),
    ];
    check_rows(&rt, rt.alloc(), rows.as_slice())
}

#[test]
fn widths_of_atomics(rt: HostRuntime) -> Result<(), Fail> {
    let rows = [
        (
            "define i32 @main() {\n  %p = alloca i64\n  %a = atomicrmw add ptr %p, i64 1 seq_cst\n  %b = atomicrmw umax ptr %p, i8 1 monotonic\n  ret i32 0\n}\n",
            "accepted",
        ),
        (
            "define i32 @main() {\n  %p = alloca i64\n  %a = atomicrmw add ptr %p, i24 1 seq_cst\n  ret i32 0\n}\n",
            "refused: 3 Unsupported at 3:3",
        ),
        (
            "define i32 @main() {\n  %p = alloca i64\n  %a = atomicrmw xchg ptr %p, ptr null seq_cst\n  ret i32 0\n}\n",
            "refused: 3 Unsupported at 3:3",
        ),
        (
            "define i32 @main() {\n  %p = alloca i64\n  %a = cmpxchg ptr %p, ptr null, ptr null seq_cst seq_cst\n  ret i32 0\n}\n",
            "refused: 3 Unsupported at 3:3",
        ),
        (
            "define i32 @main() {\n  %p = alloca i64\n  %a = atomicrmw xchg ptr %p, [2 x i8] zeroinitializer seq_cst\n  ret i32 0\n}\n",
            "refused: 4 BadType at 3:3",
        ),
        (
            "define i32 @main() {\n  %p = alloca i64\n  %a = cmpxchg ptr %p, i32 1, i64 2 seq_cst seq_cst\n  ret i32 0\n}\n",
            "refused: 4 BadType at 3:35",
        ),
    ];
    check_rows(&rt, rt.alloc(), rows.as_slice())
}

#[test]
fn the_first_of_several(rt: HostRuntime) -> Result<(), Fail> {
    let rows = [
        ("define i32 @main() {\n  ret i32 0\n}\n", "accepted"),
        (
            "define i32 @main() {\n  %x = add i8 256, 257\n  ret i32 0\n}\n",
            "refused: 4 BadType at 2:15",
        ),
        (
            "define i32 @f(i8 %a) {\n  ret i32 0\n}\ndefine i32 @main() {\n  %r = call i32 @f(i32 256, i8 1000)\n  ret i32 0\n}\n",
            "refused: 4 BadType at 5:3",
        ),
    ];
    check_rows(&rt, rt.alloc(), rows.as_slice())
}
