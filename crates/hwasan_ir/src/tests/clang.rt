//! A module as Clang prints it, with its attributes and metadata: examples/collatz.ll.
use super::{NO_FAULT, expect};
use std::test::Fail;

/// What clang 14.0.6 makes of examples/collatz.c under -O1.
const COLLATZ: &str = "; ModuleID = 'collatz.c'
source_filename = \"collatz.c\"
target datalayout = \"e-m:e-p270:32:32-p271:32:32-p272:64:64-i64:64-f80:128-n8:16:32:64-S128\"
target triple = \"x86_64-pc-linux-gnu\"

; Function Attrs: nofree nounwind uwtable
define dso_local i32 @main() local_unnamed_addr #0 {
  br label %2

1:                                                ; preds = %35
  ret i32 0

2:                                                ; preds = %0, %35
  %3 = phi i32 [ 1, %0 ], [ %39, %35 ]
  %4 = icmp eq i32 %3, 1
  br i1 %4, label %16, label %5

5:                                                ; preds = %2, %5
  %6 = phi i32 [ %14, %5 ], [ 0, %2 ]
  %7 = phi i32 [ %13, %5 ], [ %3, %2 ]
  %8 = and i32 %7, 1
  %9 = icmp eq i32 %8, 0
  %10 = lshr i32 %7, 1
  %11 = mul i32 %7, 3
  %12 = add i32 %11, 1
  %13 = select i1 %9, i32 %10, i32 %12
  %14 = add i32 %6, 1
  %15 = icmp eq i32 %13, 1
  br i1 %15, label %16, label %5, !llvm.loop !5

16:                                               ; preds = %5, %2
  %17 = phi i32 [ 0, %2 ], [ %14, %5 ]
  %18 = icmp ugt i32 %17, 9
  br i1 %18, label %22, label %19

19:                                               ; preds = %22, %16
  %20 = phi i32 [ 1, %16 ], [ %24, %22 ]
  %21 = icmp eq i32 %20, 0
  br i1 %21, label %35, label %27

22:                                               ; preds = %16, %22
  %23 = phi i32 [ %24, %22 ], [ 1, %16 ]
  %24 = mul i32 %23, 10
  %25 = udiv i32 %17, %24
  %26 = icmp ugt i32 %25, 9
  br i1 %26, label %22, label %19, !llvm.loop !8

27:                                               ; preds = %19, %27
  %28 = phi i32 [ %33, %27 ], [ %20, %19 ]
  %29 = udiv i32 %17, %28
  %30 = urem i32 %29, 10
  %31 = or i32 %30, 48
  %32 = call i32 @putchar(i32 noundef %31) #2
  %33 = udiv i32 %28, 10
  %34 = icmp ult i32 %28, 10
  br i1 %34, label %35, label %27, !llvm.loop !9

35:                                               ; preds = %27, %19
  %36 = icmp eq i32 %3, 20
  %37 = select i1 %36, i32 10, i32 32
  %38 = call i32 @putchar(i32 noundef %37)
  %39 = add nuw nsw i32 %3, 1
  %40 = icmp eq i32 %39, 21
  br i1 %40, label %1, label %2, !llvm.loop !10
}

; Function Attrs: nofree nounwind
declare noundef i32 @putchar(i32 noundef) local_unnamed_addr #1

attributes #0 = { nofree nounwind uwtable \"frame-pointer\"=\"none\" \"min-legal-vector-width\"=\"0\" \"no-trapping-math\"=\"true\" \"stack-protector-buffer-size\"=\"8\" \"target-cpu\"=\"x86-64\" \"target-features\"=\"+cx8,+fxsr,+mmx,+sse,+sse2,+x87\" \"tune-cpu\"=\"generic\" }
attributes #1 = { nofree nounwind \"frame-pointer\"=\"none\" \"no-trapping-math\"=\"true\" \"stack-protector-buffer-size\"=\"8\" \"target-cpu\"=\"x86-64\" \"target-features\"=\"+cx8,+fxsr,+mmx,+sse,+sse2,+x87\" \"tune-cpu\"=\"generic\" }
attributes #2 = { nounwind }

!llvm.module.flags = !{!0, !1, !2, !3}
!llvm.ident = !{!4}

!0 = !{i32 1, !\"wchar_size\", i32 4}
!1 = !{i32 7, !\"PIC Level\", i32 2}
!2 = !{i32 7, !\"PIE Level\", i32 2}
!3 = !{i32 7, !\"uwtable\", i32 1}
!4 = !{!\"Debian clang version 14.0.6\"}
!5 = distinct !{!5, !6, !7}
!6 = !{!\"llvm.loop.mustprogress\"}
!7 = !{!\"llvm.loop.unroll.disable\"}
!8 = distinct !{!8, !6, !7}
!9 = distinct !{!9, !6, !7}
!10 = distinct !{!10, !6, !7}
";

/// A bound, the status, and what is printed by then. All of it takes 2,234 steps, as a count by hand of the instructions of each
/// block says, its phis left out.
const BOUNDS: [(&str, u8, &str, &str); 5] = [
    ("100", 9, "0 1 ", "spent: step 100\n"),
    ("200", 9, "0 1 7 2 ", "spent: step 200\n"),
    ("300", 9, "0 1 7 2 5 ", "spent: step 300\n"),
    (
        "2233",
        9,
        "0 1 7 2 5 8 16 3 19 6 14 9 9 17 17 4 12 20 20 7\n",
        "spent: step 2233\n",
    ),
    (
        "2234",
        0,
        "0 1 7 2 5 8 16 3 19 6 14 9 9 17 17 4 12 20 20 7\n",
        "ended: exit 0, step 2234\n",
    ),
];

#[test]
fn a_module_of_clang_prints_what_its_program_says(rt: HostRuntime) -> Result<(), Fail> {
    for (bound, status, output, closing) in BOUNDS {
        expect(
            &rt,
            &["run", "t.ll", "--steps", bound],
            COLLATZ.as_bytes(),
            &NO_FAULT,
            (status, output.as_bytes(), closing.as_bytes()),
        )?;
    }
    Ok(())
}
