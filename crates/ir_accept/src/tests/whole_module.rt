use super::*;

/// A program that builds a list of three items, prints it and frees it, in the manner of Clang's output with `-g`, shortened.
const TEXT: &str = r#"; ModuleID = 'list.c'
source_filename = "list.c"
target datalayout = "e-m:e-i8:8:32-i16:16:32-i64:64-i128:128-n32:64-S128"
target triple = "aarch64-unknown-linux-gnu"

; Function Attrs: nounwind
define dso_local noundef i32 @main() local_unnamed_addr #0 !dbg !10 {
  br label %1, !dbg !20

1:                                                ; preds = %0, %1
  %2 = phi i32 [ 97, %0 ], [ %6, %1 ]
  %3 = phi ptr [ null, %0 ], [ %4, %1 ]
  %4 = tail call noalias dereferenceable_or_null(16) ptr @malloc(i64 noundef 16) #2, !dbg !21
  store i32 %2, ptr %4, align 8, !dbg !21, !tbaa !30
  %5 = getelementptr inbounds i8, ptr %4, i64 8, !dbg !21
  store ptr %3, ptr %5, align 8, !dbg !21, !tbaa !30
  %6 = add nuw nsw i32 %2, 1, !dbg !20
  %7 = icmp eq i32 %6, 100, !dbg !20
  br i1 %7, label %8, label %1, !dbg !20, !llvm.loop !31

8:                                                ; preds = %1, %8
  %9 = phi ptr [ %14, %8 ], [ %4, %1 ]
  %10 = load i32, ptr %9, align 8, !dbg !22, !tbaa !30
  %11 = tail call i32 @putchar(i32 noundef %10), !dbg !22
  %12 = tail call i32 @putchar(i32 noundef 10), !dbg !22
  %13 = getelementptr inbounds i8, ptr %9, i64 8, !dbg !23
  %14 = load ptr, ptr %13, align 8, !dbg !23, !tbaa !30
  tail call void @free(ptr noundef nonnull %9) #3, !dbg !23
  %15 = icmp eq ptr %14, null, !dbg !22
  br i1 %15, label %16, label %8, !dbg !22

16:                                               ; preds = %8
  ret i32 0, !dbg !24
}

declare noalias noundef ptr @malloc(i64 noundef) local_unnamed_addr #1
declare noundef i32 @putchar(i32 noundef) local_unnamed_addr #1
declare void @free(ptr allocptr nocapture noundef) local_unnamed_addr #1

attributes #0 = { nounwind "frame-pointer"="non-leaf" "target-cpu"="generic" }
attributes #1 = { nounwind }
attributes #2 = { nounwind allocsize(0) }
attributes #3 = { nounwind }

!llvm.dbg.cu = !{!0}
!llvm.module.flags = !{!2, !3}

!0 = distinct !DICompileUnit(language: DW_LANG_C11, file: !1, producer: "clang", isOptimized: true, runtimeVersion: 0, emissionKind: FullDebug)
!1 = !DIFile(filename: "list.c", directory: "/src")
!2 = !{i32 7, !"Dwarf Version", i32 5}
!3 = !{i32 2, !"Debug Info Version", i32 3}
!10 = distinct !DISubprogram(name: "main", scope: !1, file: !1, line: 3, type: !11, scopeLine: 3, spFlags: DISPFlagDefinition, unit: !0)
!11 = !DISubroutineType(types: !12)
!12 = !{null}
!20 = !DILocation(line: 4, column: 3, scope: !10)
!21 = !DILocation(line: 5, column: 21, scope: !10)
!22 = !DILocation(line: 8, column: 5, scope: !10)
!23 = !DILocation(line: 9, column: 5, scope: !10)
!24 = !DILocation(line: 11, column: 3, scope: !10)
!30 = !{!33, !33, i64 0}
!31 = distinct !{!31, !20, !32}
!32 = !{!"llvm.loop.mustprogress"}
!33 = !{!"int"}
"#;

#[test]
fn a_whole_module_is_accepted(rt: HostRuntime) -> Result<(), Fail> {
    check_rows(&rt, rt.alloc(), &[(TEXT, "accepted")])
}
