use super::*;

#[test]
fn uses_in_one_block(rt: HostRuntime) -> Result<(), Fail> {
    let rows = [
        (
            "define i32 @main() {\n  %x = add i32 1, 2\n  %y = add i32 %x, 1\n  ret i32 %y\n}\n",
            "accepted",
        ),
        (
            "define i32 @main() {\n  %y = add i32 %x, 1\n  %x = add i32 1, 2\n  ret i32 %y\n}\n",
            "refused: 7 NotOnEveryPath at 2:16",
        ),
        (
            "define i32 @main() {\n  %x = add i32 %x, 1\n  ret i32 %x\n}\n",
            "refused: 7 NotOnEveryPath at 2:16",
        ),
        (
            "define i32 @main() {\n  %y = add i32 1, %x\n  %x = add i32 1, 2\n  ret i32 %y\n}\n",
            "refused: 7 NotOnEveryPath at 2:19",
        ),
        (
            "define i32 @main() {\n  %y = add i32 %x, %x\n  %x = add i32 1, 2\n  ret i32 %y\n}\n",
            "refused: 7 NotOnEveryPath at 2:16",
        ),
        (
            "define i32 @main() {\n  br label %b\nb:\n  %y = add i32 %x, 1\n  %x = add i32 1, 2\n  ret i32 %y\n}\n",
            "refused: 7 NotOnEveryPath at 4:16",
        ),
    ];
    check_rows(&rt, rt.alloc(), rows.as_slice())
}

#[test]
fn uses_by_computations(rt: HostRuntime) -> Result<(), Fail> {
    let rows = [
        (
            "define i32 @main() {\n  %y = sub i32 1, %x\n  %x = add i32 1, 2\n  ret i32 0\n}\n",
            "refused: 7 NotOnEveryPath at 2:19",
        ),
        (
            "define i32 @main() {\n  %y = icmp eq i32 %x, 1\n  %x = add i32 1, 2\n  ret i32 0\n}\n",
            "refused: 7 NotOnEveryPath at 2:20",
        ),
        (
            "define i32 @main() {\n  %y = icmp eq i32 1, %x\n  %x = add i32 1, 2\n  ret i32 0\n}\n",
            "refused: 7 NotOnEveryPath at 2:23",
        ),
        (
            "define i32 @main() {\n  %y = zext i32 %x to i64\n  %x = add i32 1, 2\n  ret i32 0\n}\n",
            "refused: 7 NotOnEveryPath at 2:17",
        ),
        (
            "define i32 @main() {\n  %y = select i1 %c, i32 1, i32 2\n  %c = icmp eq i32 1, 2\n  ret i32 0\n}\n",
            "refused: 7 NotOnEveryPath at 2:18",
        ),
        (
            "define i32 @main() {\n  %y = select i1 true, i32 %x, i32 2\n  %x = add i32 1, 2\n  ret i32 0\n}\n",
            "refused: 7 NotOnEveryPath at 2:28",
        ),
        (
            "define i32 @main() {\n  %y = select i1 true, i32 1, i32 %x\n  %x = add i32 1, 2\n  ret i32 0\n}\n",
            "refused: 7 NotOnEveryPath at 2:35",
        ),
        (
            "define i32 @main() {\n  %y = freeze i32 %x\n  %x = add i32 1, 2\n  ret i32 0\n}\n",
            "refused: 7 NotOnEveryPath at 2:19",
        ),
        (
            "define i32 @main() {\n  %y = extractvalue { i32, i1 } %x, 0\n  %p = alloca i32\n  %x = cmpxchg ptr %p, i32 1, i32 2 seq_cst seq_cst\n  ret i32 0\n}\n",
            "refused: 7 NotOnEveryPath at 2:33",
        ),
    ];
    check_rows(&rt, rt.alloc(), rows.as_slice())
}

#[test]
fn uses_by_accesses(rt: HostRuntime) -> Result<(), Fail> {
    let rows = [
        (
            "define i32 @main() {\n  %y = load i32, ptr %q\n  %q = alloca i32\n  ret i32 0\n}\n",
            "refused: 7 NotOnEveryPath at 2:22",
        ),
        (
            "define i32 @main() {\n  %p = alloca i32\n  store i32 %x, ptr %p\n  %x = add i32 1, 2\n  ret i32 0\n}\n",
            "refused: 7 NotOnEveryPath at 3:13",
        ),
        (
            "define i32 @main() {\n  store i32 1, ptr %q\n  %q = alloca i32\n  ret i32 0\n}\n",
            "refused: 7 NotOnEveryPath at 2:20",
        ),
        (
            "define i32 @main() {\n  %y = getelementptr i8, ptr %q, i64 1\n  %q = alloca i32\n  ret i32 0\n}\n",
            "refused: 7 NotOnEveryPath at 2:30",
        ),
        (
            "define i32 @main() {\n  %p = alloca i32\n  %y = getelementptr [4 x i8], ptr %p, i64 0, i64 %x\n  %x = add i64 1, 2\n  ret i32 0\n}\n",
            "refused: 7 NotOnEveryPath at 3:51",
        ),
        (
            "define i32 @main() {\n  %y = atomicrmw add ptr %q, i32 1 seq_cst\n  %q = alloca i32\n  ret i32 0\n}\n",
            "refused: 7 NotOnEveryPath at 2:26",
        ),
        (
            "define i32 @main() {\n  %p = alloca i32\n  %y = atomicrmw add ptr %p, i32 %x seq_cst\n  %x = add i32 1, 2\n  ret i32 0\n}\n",
            "refused: 7 NotOnEveryPath at 3:34",
        ),
        (
            "define i32 @main() {\n  %y = cmpxchg ptr %q, i32 1, i32 2 seq_cst seq_cst\n  %q = alloca i32\n  ret i32 0\n}\n",
            "refused: 7 NotOnEveryPath at 2:20",
        ),
        (
            "define i32 @main() {\n  %p = alloca i32\n  %y = cmpxchg ptr %p, i32 %x, i32 2 seq_cst seq_cst\n  %x = add i32 1, 2\n  ret i32 0\n}\n",
            "refused: 7 NotOnEveryPath at 3:28",
        ),
        (
            "define i32 @main() {\n  %p = alloca i32\n  %y = cmpxchg ptr %p, i32 1, i32 %x seq_cst seq_cst\n  %x = add i32 1, 2\n  ret i32 0\n}\n",
            "refused: 7 NotOnEveryPath at 3:35",
        ),
    ];
    check_rows(&rt, rt.alloc(), rows.as_slice())
}

#[test]
fn uses_by_calls_and_terminators(rt: HostRuntime) -> Result<(), Fail> {
    let rows = [
        (
            "define i32 @f(i32 %a, i32 %b) {\n  ret i32 %b\n}\ndefine i32 @main() {\n  %r = call i32 @f(i32 1, i32 %x)\n  %x = add i32 1, 2\n  ret i32 0\n}\n",
            "refused: 7 NotOnEveryPath at 5:31",
        ),
        (
            "declare i32 @putchar(i32)\ndefine i32 @main() {\n  call i32 @putchar(i32 %x)\n  %x = add i32 1, 2\n  ret i32 0\n}\n",
            "refused: 7 NotOnEveryPath at 3:25",
        ),
        (
            "define i32 @main() {\n  ret i32 %x\nd:\n  %x = add i32 1, 2\n  ret i32 %x\n}\n",
            "refused: 7 NotOnEveryPath at 2:11",
        ),
        (
            "define i32 @main() {\n  br i1 %c, label %d, label %d\nd:\n  %c = icmp eq i32 1, 2\n  ret i32 0\n}\n",
            "refused: 7 NotOnEveryPath at 2:9",
        ),
        (
            "define i32 @main() {\n  switch i32 %x, label %d [ i32 1, label %d ]\nd:\n  %x = add i32 1, 2\n  ret i32 0\n}\n",
            "refused: 7 NotOnEveryPath at 2:14",
        ),
    ];
    check_rows(&rt, rt.alloc(), rows.as_slice())
}

#[test]
fn parameters_are_always_defined(rt: HostRuntime) -> Result<(), Fail> {
    let rows = [
        (
            "define i32 @f(i32 %a) {\n  br i1 true, label %c, label %d\nc:\n  ret i32 %a\nd:\n  %x = add i32 %a, 1\n  ret i32 %x\nu:\n  ret i32 %a\n}\ndefine i32 @main() {\n  ret i32 0\n}\n",
            "accepted",
        ),
        (
            "define i32 @f(i32 %a) {\n  br label %l\nl:\n  %p = phi i32 [ %a, %0 ], [ %a, %l ]\n  br label %l\n}\ndefine i32 @main() {\n  ret i32 0\n}\n",
            "accepted",
        ),
        (
            "define i32 @f(i32 %a) {\n  %y = add i32 %a, %x\n  %x = add i32 %a, 1\n  ret i32 %y\n}\ndefine i32 @main() {\n  ret i32 0\n}\n",
            "refused: 7 NotOnEveryPath at 2:20",
        ),
    ];
    check_rows(&rt, rt.alloc(), rows.as_slice())
}

#[test]
fn definitions_on_paths(rt: HostRuntime) -> Result<(), Fail> {
    let rows = [
        (
            "define i32 @main() {\n  br i1 true, label %a, label %b\na:\n  %x = add i32 1, 2\n  br label %b\nb:\n  ret i32 %x\n}\n",
            "refused: 7 NotOnEveryPath at 7:11",
        ),
        (
            "define i32 @main() {\n  %x = add i32 1, 2\n  br i1 true, label %a, label %b\na:\n  br label %b\nb:\n  ret i32 %x\n}\n",
            "accepted",
        ),
        (
            "define i32 @main() {\n  br i1 true, label %a, label %b\na:\n  %x = add i32 1, 2\n  br label %c\nb:\n  %y = add i32 3, 4\n  br label %c\nc:\n  ret i32 %y\n}\n",
            "refused: 7 NotOnEveryPath at 10:11",
        ),
        (
            "define i32 @main() {\n  br i1 true, label %a, label %b\na:\n  %x = add i32 1, 2\n  br label %c\nb:\n  %y = add i32 %x, 4\n  br label %c\nc:\n  ret i32 0\n}\n",
            "refused: 7 NotOnEveryPath at 7:16",
        ),
        (
            "define i32 @main() {\n  br label %d\nu:\n  ret i32 %x\nd:\n  %x = add i32 1, 2\n  br label %u\n}\n",
            "accepted",
        ),
        (
            "define i32 @main() {\n  br label %u\nu:\n  br label %d\nd:\n  %x = add i32 1, 2\n  br label %e\ne:\n  br i1 true, label %f, label %g\nf:\n  br label %g\ng:\n  ret i32 %x\n}\n",
            "accepted",
        ),
        (
            "define i32 @main() {\n  switch i32 1, label %a [ i32 2, label %b i32 3, label %c ]\na:\n  %x = add i32 1, 2\n  br label %c\nb:\n  br label %a\nc:\n  ret i32 %x\n}\n",
            "refused: 7 NotOnEveryPath at 9:11",
        ),
        (
            "define i32 @main() {\n  switch i32 1, label %a [ i32 2, label %b i32 3, label %a ]\na:\n  %x = add i32 1, 2\n  br label %c\nb:\n  br label %a\nc:\n  ret i32 %x\n}\n",
            "accepted",
        ),
    ];
    check_rows(&rt, rt.alloc(), rows.as_slice())
}

#[test]
fn loops(rt: HostRuntime) -> Result<(), Fail> {
    let rows = [
        (
            "define i32 @main() {\n  br label %h\nh:\n  %y = add i32 %x, 1\n  br label %b\nb:\n  %x = add i32 1, 2\n  br label %h\n}\n",
            "refused: 7 NotOnEveryPath at 4:16",
        ),
        (
            "define i32 @main() {\n  br label %h\nh:\n  br i1 true, label %b, label %o\nb:\n  %x = add i32 1, 2\n  br label %h\no:\n  ret i32 %x\n}\n",
            "refused: 7 NotOnEveryPath at 9:11",
        ),
        (
            "define i32 @main() {\n  br label %b\nb:\n  %x = add i32 1, 2\n  br i1 true, label %b, label %o\no:\n  ret i32 %x\n}\n",
            "accepted",
        ),
        (
            "define i32 @main() {\n  br label %b\nb:\n  %y = add i32 %x, 1\n  %x = add i32 1, 2\n  br label %b\n}\n",
            "refused: 7 NotOnEveryPath at 4:16",
        ),
        (
            "define i32 @main() {\ne:\n  br label %h\nh:\n  %i = phi i32 [ 0, %e ], [ %n, %h ]\n  %n = add i32 %i, 1\n  %c = icmp ult i32 %n, 9\n  br i1 %c, label %h, label %o\no:\n  ret i32 %n\n}\n",
            "accepted",
        ),
        (
            "define i32 @main() {\n  br label %l\nl:\n  br label %l\no:\n  ret i32 %x\nd:\n  %x = add i32 1, 2\n  br label %o\n}\n",
            "accepted",
        ),
    ];
    check_rows(&rt, rt.alloc(), rows.as_slice())
}

#[test]
fn blocks_to_which_no_path_leads(rt: HostRuntime) -> Result<(), Fail> {
    let rows = [
        (
            "define i32 @main() {\n  br i1 true, label %a, label %b\na:\n  %x = add i32 1, 2\n  ret i32 %x\nb:\n  ret i32 0\nu:\n  ret i32 %x\n}\n",
            "accepted",
        ),
        (
            "define i32 @main() {\n  ret i32 0\nu:\n  %y = add i32 %x, 1\n  %x = add i32 %x, 2\n  ret i32 %y\n}\n",
            "accepted",
        ),
        (
            "define i32 @main() {\n  ret i32 %x\nu:\n  %x = add i32 1, 2\n  ret i32 %x\n}\n",
            "refused: 7 NotOnEveryPath at 2:11",
        ),
        (
            "define i32 @main() {\n  %x = add i32 1, 2\n  br label %b\nu:\n  br label %b\nb:\n  ret i32 %x\n}\n",
            "accepted",
        ),
        (
            "define i32 @main() {\ne:\n  br label %b\nu:\n  %x = add i32 1, 2\n  br label %b\nb:\n  %p = phi i32 [ 0, %e ], [ %x, %u ]\n  ret i32 %p\n}\n",
            "accepted",
        ),
        (
            "define i32 @main() {\ne:\n  br label %b\nu:\n  br label %b\nb:\n  %x = add i32 1, 2\n  br label %c\nc:\n  ret i32 %x\nv:\n  %p = phi i32 [ %y, %w ]\n  ret i32 %p\nw:\n  br label %v\nz:\n  %y = add i32 1, 2\n  ret i32 %y\n}\n",
            "accepted",
        ),
        (
            "define i32 @main() {\ne:\n  br label %b\nu:\n  br label %b\nb:\n  %p = phi i32 [ 0, %e ]\n  ret i32 %p\n}\n",
            "refused: 8 BadPhi at 7:3",
        ),
        (
            "define i32 @main() {\ne:\n  ret i32 0\nu:\n  br label %b\nb:\n  %p = phi i32 [ 0, %e ]\n  ret i32 %p\n}\n",
            "refused: 8 BadPhi at 7:3",
        ),
        (
            "define i32 @main() {\ne:\n  ret i32 0\nu:\n  %p = phi i32 [ 0, %e ]\n  ret i32 %p\n}\n",
            "refused: 8 BadPhi at 5:3",
        ),
    ];
    check_rows(&rt, rt.alloc(), rows.as_slice())
}

#[test]
fn entries_of_phis(rt: HostRuntime) -> Result<(), Fail> {
    let rows = [
        (
            "define i32 @main() {\ne:\n  br i1 true, label %a, label %b\na:\n  %x = add i32 1, 2\n  br label %c\nb:\n  %y = add i32 3, 4\n  br label %c\nc:\n  %z = phi i32 [ %x, %a ], [ %y, %b ]\n  ret i32 %z\n}\n",
            "accepted",
        ),
        (
            "define i32 @main() {\ne:\n  br i1 true, label %a, label %b\na:\n  %x = add i32 1, 2\n  br label %c\nb:\n  %y = add i32 3, 4\n  br label %c\nc:\n  %z = phi i32 [ %y, %a ], [ %y, %b ]\n  ret i32 %z\n}\n",
            "refused: 7 NotOnEveryPath at 11:18",
        ),
        (
            "define i32 @main() {\ne:\n  br i1 true, label %a, label %b\na:\n  %x = add i32 1, 2\n  br label %c\nb:\n  %y = add i32 3, 4\n  br label %c\nc:\n  %z = phi i32 [ %x, %a ], [ %x, %b ]\n  ret i32 %z\n}\n",
            "refused: 7 NotOnEveryPath at 11:30",
        ),
        (
            "define i32 @main() {\ne:\n  br label %b\nb:\n  %p = phi i32 [ %x, %e ]\n  %x = add i32 1, 2\n  ret i32 %p\n}\n",
            "refused: 7 NotOnEveryPath at 5:18",
        ),
        (
            "define i32 @main() {\ne:\n  br label %b\nb:\n  %p = phi i32 [ 0, %e ], [ %p, %b ]\n  br label %b\n}\n",
            "accepted",
        ),
        (
            "define i32 @main() {\ne:\n  br label %b\nb:\n  %p = phi i32 [ %p, %e ], [ 0, %b ]\n  br label %b\n}\n",
            "refused: 7 NotOnEveryPath at 5:18",
        ),
        (
            "define i32 @main() {\ne:\n  br label %b\nb:\n  %p = phi i32 [ 0, %e ], [ %x, %b ]\n  %x = add i32 %p, 1\n  br label %b\n}\n",
            "accepted",
        ),
        (
            "define i32 @main() {\ne:\n  br label %b\nb:\n  %p = phi i32 [ 0, %e ], [ %q, %b ]\n  %q = phi i32 [ 1, %e ], [ %p, %b ]\n  br label %b\n}\n",
            "accepted",
        ),
        (
            "define i32 @main() {\ne:\n  br label %b\nb:\n  %p = phi i32 [ 0, %e ]\n  %q = phi i32 [ %p, %e ]\n  ret i32 %q\n}\n",
            "refused: 7 NotOnEveryPath at 6:18",
        ),
        (
            "define i32 @main() {\ne:\n  br i1 true, label %a, label %c\na:\n  %x = add i32 1, 2\n  br label %c\nc:\n  br label %b\nb:\n  %p = phi i32 [ %x, %c ]\n  ret i32 %p\n}\n",
            "refused: 7 NotOnEveryPath at 10:18",
        ),
    ];
    check_rows(&rt, rt.alloc(), rows.as_slice())
}

#[test]
fn places_of_phis(rt: HostRuntime) -> Result<(), Fail> {
    let rows = [
        (
            "define i32 @main() {\ne:\n  br label %b\nb:\n  %x = add i32 1, 2\n  %p = phi i32 [ 0, %e ]\n  ret i32 %p\n}\n",
            "refused: 8 BadPhi at 6:3",
        ),
        (
            "define i32 @main() {\ne:\n  br label %b\nb:\n  %x = add i32 1, 2\n  phi i32 [ 0, %e ]\n  ret i32 0\n}\n",
            "refused: 8 BadPhi at 6:3",
        ),
        (
            "define i32 @main() {\ne:\n  br label %b\nb:\n  %p = phi i32 [ 0, %e ]\n  %q = phi i32 [ 1, %e ]\n  %x = add i32 %p, %q\n  ret i32 %x\n}\n",
            "accepted",
        ),
        (
            "define i32 @main() {\ne:\n  br label %b\nb:\n  %p = phi i32 [ 0, %e ]\n  %x = add i32 1, 2\n  %q = phi i32 [ 1, %e ]\n  ret i32 %q\n}\n",
            "refused: 8 BadPhi at 7:3",
        ),
        (
            "define i32 @main() {\ne:\n  %p = phi i32 [ 0, %e ]\n  ret i32 %p\n}\n",
            "refused: 8 BadPhi at 3:3",
        ),
        (
            "define i32 @main() {\ne:\n  %p = phi i32 [ 0, %u ]\n  ret i32 %p\nu:\n  ret i32 0\n}\n",
            "refused: 8 BadPhi at 3:3",
        ),
        (
            "define i32 @main() {\ne:\n  br label %b\nb:\n  call void @llvm.dbg.value(metadata i32 1)\n  %p = phi i32 [ 0, %e ]\n  ret i32 %p\n}\n",
            "accepted",
        ),
    ];
    check_rows(&rt, rt.alloc(), rows.as_slice())
}

#[test]
fn entries_for_each_predecessor(rt: HostRuntime) -> Result<(), Fail> {
    let rows = [
        (
            "define i32 @main() {\ne:\n  br i1 true, label %a, label %b\na:\n  br label %b\nb:\n  %p = phi i32 [ 1, %e ], [ 2, %a ]\n  ret i32 %p\n}\n",
            "accepted",
        ),
        (
            "define i32 @main() {\ne:\n  br i1 true, label %a, label %b\na:\n  br label %b\nb:\n  %p = phi i32 [ 1, %e ]\n  ret i32 %p\n}\n",
            "refused: 8 BadPhi at 7:3",
        ),
        (
            "define i32 @main() {\ne:\n  br i1 true, label %a, label %b\na:\n  br label %b\nb:\n  %p = phi i32 [ 2, %a ]\n  ret i32 %p\n}\n",
            "refused: 8 BadPhi at 7:3",
        ),
        (
            "define i32 @main() {\ne:\n  br i1 true, label %a, label %b\na:\n  br label %b\nb:\n  %p = phi i32 [ 1, %a ], [ 2, %e ]\n  %q = phi i32 [ 1, %e ], [ 2, %a ]\n  %r = phi i32 [ 1, %e ]\n  ret i32 %p\n}\n",
            "refused: 8 BadPhi at 9:3",
        ),
        (
            "define i32 @main() {\ne:\n  br label %b\na:\n  ret i32 0\nb:\n  %p = phi i32 [ 1, %e ], [ 2, %a ]\n  ret i32 %p\n}\n",
            "refused: 8 BadPhi at 7:3",
        ),
        (
            "define i32 @main() {\ne:\n  br label %b\nb:\n  %p = phi i32 [ 1, %e ], [ 2, %b ]\n  ret i32 %p\n}\n",
            "refused: 8 BadPhi at 5:3",
        ),
        (
            "define i32 @main() {\ne:\n  br i1 true, label %b, label %c\nb:\n  %p = phi i32 [ 1, %e ], [ %p, %d ]\n  br label %d\nc:\n  %q = phi i32 [ 1, %e ], [ 2, %d ]\n  ret i32 %q\nd:\n  br label %b\n}\n",
            "refused: 8 BadPhi at 8:3",
        ),
    ];
    check_rows(&rt, rt.alloc(), rows.as_slice())
}

#[test]
fn entries_for_one_block(rt: HostRuntime) -> Result<(), Fail> {
    let rows = [
        (
            "define i32 @main() {\ne:\n  switch i32 1, label %b [ i32 2, label %b ]\nb:\n  %p = phi i32 [ 1, %e ], [ 1, %e ]\n  ret i32 %p\n}\n",
            "accepted",
        ),
        (
            "define i32 @main() {\ne:\n  switch i32 1, label %b [ i32 2, label %b ]\nb:\n  %p = phi i32 [ 1, %e ]\n  ret i32 %p\n}\n",
            "accepted",
        ),
        (
            "define i32 @main() {\ne:\n  switch i32 1, label %b [ i32 2, label %b ]\nb:\n  %p = phi i32 [ 1, %e ], [ 2, %e ]\n  ret i32 %p\n}\n",
            "refused: 8 BadPhi at 5:3",
        ),
        (
            "define i32 @main() {\ne:\n  br i1 true, label %b, label %b\nb:\n  %p = phi i32 [ 1, %e ], [ 2, %e ]\n  ret i32 %p\n}\n",
            "refused: 8 BadPhi at 5:3",
        ),
        (
            "define i32 @main() {\ne:\n  switch i32 1, label %b [ i32 2, label %b ]\nb:\n  %p = phi i32 [ 1, %e ], [ 1, %e ], [ 2, %e ]\n  ret i32 %p\n}\n",
            "refused: 8 BadPhi at 5:3",
        ),
        (
            "define i32 @main() {\ne:\n  br label %b\nb:\n  %p = phi i32 [ 1, %e ], [ 1, %e ]\n  ret i32 %p\n}\n",
            "accepted",
        ),
        (
            "define i32 @main() {\ne:\n  switch i32 1, label %b [ i32 2, label %b ]\nb:\n  %p = phi i8 [ -1, %e ], [ 255, %e ]\n  ret i32 0\n}\n",
            "accepted",
        ),
        (
            "define i32 @main() {\ne:\n  switch i32 1, label %b [ i32 2, label %b ]\nb:\n  %p = phi i32 [ undef, %e ], [ 0, %e ]\n  ret i32 %p\n}\n",
            "accepted",
        ),
        (
            "@a = global i8 0\n@b = global i8 0\ndefine i32 @main() {\ne:\n  switch i32 1, label %b [ i32 2, label %b ]\nb:\n  %p = phi ptr [ @a, %e ], [ getelementptr (i8, ptr @a, i64 0), %e ]\n  ret i32 0\n}\n",
            "accepted",
        ),
        (
            "@a = global i8 0\n@b = global i8 0\ndefine i32 @main() {\ne:\n  switch i32 1, label %b [ i32 2, label %b ]\nb:\n  %p = phi ptr [ @a, %e ], [ getelementptr (i8, ptr @a, i64 1), %e ]\n  ret i32 0\n}\n",
            "refused: 8 BadPhi at 7:3",
        ),
        (
            "@a = global i8 0\n@b = global i8 0\ndefine i32 @main() {\ne:\n  switch i32 1, label %b [ i32 2, label %b ]\nb:\n  %p = phi ptr [ @a, %e ], [ @b, %e ]\n  ret i32 0\n}\n",
            "refused: 8 BadPhi at 7:3",
        ),
        (
            "define i32 @main() {\ne:\n  %x = add i32 1, 2\n  %y = add i32 1, 2\n  switch i32 1, label %b [ i32 2, label %b ]\nb:\n  %p = phi i32 [ %x, %e ], [ %y, %e ]\n  ret i32 %p\n}\n",
            "refused: 8 BadPhi at 7:3",
        ),
        (
            "define i32 @main() {\ne:\n  %x = add i32 1, 2\n  switch i32 1, label %b [ i32 2, label %b ]\nb:\n  %p = phi i32 [ %x, %e ], [ %x, %e ]\n  ret i32 %p\n}\n",
            "accepted",
        ),
    ];
    check_rows(&rt, rt.alloc(), rows.as_slice())
}

#[test]
fn the_first_of_several(rt: HostRuntime) -> Result<(), Fail> {
    let rows = [
        (
            "define i32 @main() {\ne:\n  br label %b\nb:\n  %p = phi i32 [ %x, %e ], [ 1, %b ]\n  %x = add i32 1, 2\n  ret i32 %p\n}\n",
            "refused: 8 BadPhi at 5:3",
        ),
        (
            "define i32 @main() {\ne:\n  br label %b\nb:\n  %y = add i32 %x, 1\n  %p = phi i32 [ 0, %e ]\n  %x = add i32 1, 2\n  ret i32 %p\n}\n",
            "refused: 7 NotOnEveryPath at 5:16",
        ),
        (
            "define i32 @main() {\ne:\n  br label %b\nb:\n  %x = add i32 1, 2\n  %p = phi i32 [ 0, %e ]\n  %y = add i32 %z, 1\n  %z = add i32 1, 2\n  ret i32 %p\n}\n",
            "refused: 8 BadPhi at 6:3",
        ),
        (
            "define i32 @main() {\n  br label %c\nb:\n  %y = add i32 %x, 1\n  ret i32 %y\nc:\n  %z = add i32 %x, 1\n  br label %b\nu:\n  %x = add i32 1, 2\n  ret i32 %x\n}\n",
            "refused: 7 NotOnEveryPath at 4:16",
        ),
        (
            "define i32 @f() {\n  ret i32 %x\nu:\n  %x = add i32 1, 2\n  ret i32 %x\n}\ndefine i32 @main() {\ne:\n  %p = phi i32 [ 0, %e ]\n  ret i32 %p\n}\n",
            "refused: 7 NotOnEveryPath at 2:11",
        ),
        (
            "define i32 @main() {\ne:\n  %p = phi i32 [ 0, %e ]\n  ret i32 %p\n}\ndefine i32 @f() {\n  ret i32 %x\nu:\n  %x = add i32 1, 2\n  ret i32 %x\n}\n",
            "refused: 8 BadPhi at 3:3",
        ),
        (
            "define i32 @f() {\n  ret i32 0\n}\ndefine i32 @main() {\n  ret i32 %x\nu:\n  %x = add i32 1, 2\n  ret i32 %x\n}\n",
            "refused: 7 NotOnEveryPath at 5:11",
        ),
        (
            "define i32 @main() {\n  %y = add i32 %x, 1\n  %x = add i32 1, 2\n  %z = add i32 1, true\n  ret i32 %z\n}\n",
            "refused: 4 BadType at 4:19",
        ),
        (
            "define i32 @main() {\n  %y = add i32 %x, 1\n  %x = add i32 1, 2\n  br label %b\n}\n",
            "refused: 5 Unknown at 4:12",
        ),
        (
            "define i32 @main() {\n  %y = add i32 %x, 1\n  %x = add i32 1, 2\n  ret i32 0, !dbg !0\n}\n!0 = !DILocation(line: 1, column: 1, scope: !1)\n!1 = distinct !DILexicalBlock(scope: !1, line: 1)\n",
            "refused: 11 MetaCycle at 4:19",
        ),
    ];
    check_rows(&rt, rt.alloc(), rows.as_slice())
}

/// A function that defines 300 registers in its entry block and `%y` on one of two ways from there, and uses each of the 300 where
/// the ways meet, from line 307 on. Line 607 ends it.
fn many_registers(alloc: Global, end: &str) -> Result<String, Fail> {
    let mut text = String::from_str(alloc, "define i32 @main() {\n")?;
    for i in 0u32..300 {
        text.push_str(format!(in alloc; "  %x{i} = add i32 1, 2\n")?.as_str())?;
    }
    text.push_str(
        "  br i1 true, label %a, label %b\na:\n  %y = add i32 1, 2\n  br label %b\nb:\n",
    )?;
    for i in 0u32..300 {
        text.push_str(format!(in alloc; "  %z{i} = add i32 1, %x{i}\n")?.as_str())?;
    }
    text.push_str(end)?;
    Ok(text)
}

#[test]
fn uses_of_many_registers(rt: HostRuntime) -> Result<(), Fail> {
    let good = many_registers(rt.alloc(), "  ret i32 %x299\n}\n")?;
    let bad = many_registers(rt.alloc(), "  ret i32 %y\n}\n")?;
    let rows = [
        (good.as_str(), "accepted"),
        (bad.as_str(), "refused: 7 NotOnEveryPath at 607:11"),
    ];
    check_rows(&rt, rt.alloc(), rows.as_slice())
}
