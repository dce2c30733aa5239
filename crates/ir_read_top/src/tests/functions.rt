use super::*;
use ir_core::{Function, Op, Placed};

/// A function in the manner of Clang's output with `-g`, shortened, with its declares and metadata.
const TEXT: &str = r#"; ModuleID = 'list.c'
source_filename = "list.c"
target datalayout = "e-m:e-i8:8:32-i16:16:32-i64:64-i128:128-n32:64-S128"
target triple = "aarch64-unknown-linux-gnu"

; Function Attrs: nounwind
define dso_local noundef i32 @main() local_unnamed_addr #0 !dbg !10 {
  br label %1, !dbg !20

1:                                                ; preds = %0, %1
  %2 = phi i32 [ 97, %0 ], [ %6, %1 ]
  %3 = phi ptr [ null, %0 ], [ %4, %1 ]
  %4 = tail call noalias dereferenceable_or_null(16) ptr @malloc(i64 noundef 16) #2, !dbg !21
  store i32 %2, ptr %4, align 8, !dbg !21, !tbaa !30
  %5 = getelementptr inbounds i8, ptr %4, i64 8, !dbg !21
  store ptr %3, ptr %5, align 8, !dbg !21, !tbaa !30
  %6 = add nuw nsw i32 %2, 1, !dbg !20
  %7 = icmp eq i32 %6, 100, !dbg !20
  br i1 %7, label %8, label %1, !dbg !20, !llvm.loop !31

8:                                                ; preds = %1, %8
  %9 = phi ptr [ %14, %8 ], [ %4, %1 ]
  %10 = load i32, ptr %9, align 8, !dbg !22, !tbaa !30
  %11 = tail call i32 @putchar(i32 noundef %10), !dbg !22
  %12 = tail call i32 @putchar(i32 noundef 10), !dbg !22
  %13 = getelementptr inbounds i8, ptr %9, i64 8, !dbg !23
  %14 = load ptr, ptr %13, align 8, !dbg !23, !tbaa !30
  tail call void @free(ptr noundef nonnull %9) #3, !dbg !23
  %15 = icmp eq ptr %14, null, !dbg !22
  br i1 %15, label %16, label %8, !dbg !22

16:                                               ; preds = %8
  ret i32 0, !dbg !24
}

declare noalias noundef ptr @malloc(i64 noundef) local_unnamed_addr #1
declare noundef i32 @putchar(i32 noundef) local_unnamed_addr #1
declare void @free(ptr allocptr nocapture noundef) local_unnamed_addr #1

attributes #0 = { nounwind "frame-pointer"="non-leaf" "target-cpu"="generic" }

!llvm.dbg.cu = !{!0}
!0 = distinct !DICompileUnit(language: DW_LANG_C11, file: !1, producer: "clang", isOptimized: true)
!1 = !DIFile(filename: "list.c", directory: "/src")
!10 = distinct !DISubprogram(name: "main", scope: !1, file: !1, line: 3)
!20 = !DILocation(line: 4, column: 3, scope: !10)
!21 = !DILocation(line: 5, column: 21, scope: !10)
!22 = !DILocation(line: 8, column: 5, scope: !10)
!23 = !DILocation(line: 9, column: 5, scope: !10)
!24 = !DILocation(line: 11, column: 3, scope: !10)
!30 = !{!33, !33, i64 0}
!31 = distinct !{!31, !20, !32}
!32 = !{!"llvm.loop.mustprogress"}
!33 = !{!"int"}
"#;

/// An operand: a register as `rN`, a number, `null`, a variable as `gN+OFFSET`; `!` if it doesn't fit.
fn shown_operand(alloc: Global, placed: &Placed) -> Result<String, Fail> {
    if !placed.fits {
        return Ok(String::from_str(alloc, "!")?);
    }
    match placed.operand {
        Operand::Reg(n) => Ok(format!(in alloc; "r{n}")?),
        Operand::Int(n) => Ok(format!(in alloc; "{n}")?),
        Operand::Null => Ok(String::from_str(alloc, "null")?),
        Operand::Global { global, off } => Ok(format!(in alloc; "g{global}+{off}")?),
    }
}

fn shown_row(alloc: Global, word: &str, row: &[Placed]) -> Result<String, Fail> {
    let mut out = String::from_str(alloc, word)?;
    for placed in row {
        out.push_str(" ")?;
        out.push_str(shown_operand(alloc, placed)?.as_str())?;
    }
    Ok(out)
}

/// A phi, a branch, a call or a return; any other instruction is a dot.
fn shown_op(alloc: Global, op: &Op) -> Result<String, Fail> {
    match op {
        Op::Phi { entries, .. } => {
            let mut out = String::from_str(alloc, "phi")?;
            for entry in entries.as_slice() {
                let (value, block) = (shown_operand(alloc, &entry.value)?, entry.block);
                out.push_str(format!(in alloc; " {value}<{block}")?.as_str())?;
            }
            Ok(out)
        }
        Op::Br { block } => Ok(format!(in alloc; "br {block}")?),
        Op::BrIf { cond, yes, no } => {
            let cond = shown_operand(alloc, cond)?;
            Ok(format!(in alloc; "br {cond} {yes} {no}")?)
        }
        Op::Ret { value: Some(value) } => {
            let value = shown_operand(alloc, value)?;
            Ok(format!(in alloc; "ret {value}")?)
        }
        Op::Call { func, args, .. } => {
            let word = format!(in alloc; "call f{func}")?;
            shown_row(alloc, word.as_str(), args.as_slice())
        }
        Op::CallLib {
            declare,
            args,
            start,
            ..
        } => {
            let word = format!(in alloc; "call d{declare}")?;
            let row = shown_row(alloc, word.as_str(), args.as_slice())?;
            match start {
                None => Ok(row),
                Some(start) => {
                    let (func, ty, column) = (start.func, start.ty, start.place.column);
                    Ok(format!(in alloc; "{row} start f{func} #{ty} at {column}")?)
                }
            }
        }
        _ => Ok(String::from_str(alloc, ".")?),
    }
}

/// Its instructions, the types of its registers by number, and its blocks as FIRST,PHIS,COUNT.
fn shown_function(alloc: Global, function: &Function) -> Result<String, Fail> {
    let mut out = String::new(alloc);
    for inst in function.insts.as_slice() {
        out.push_str(shown_op(alloc, &inst.op)?.as_str())?;
        out.push_str("; ")?;
    }
    out.push_str("|")?;
    for ty in function.regs.as_slice() {
        let ty = *ty;
        out.push_str(format!(in alloc; " {ty}")?.as_str())?;
    }
    out.push_str(" |")?;
    for block in function.blocks.as_slice() {
        let (first, phis, count) = (block.first, block.phis, block.count);
        out.push_str(format!(in alloc; " {first},{phis},{count}")?.as_str())?;
    }
    Ok(out)
}

/// The function with this number in the module of a text.
fn function_in(alloc: Global, text: &str, number: u64) -> Result<String, Fail> {
    let module = accepted(alloc, text.as_bytes())?;
    match module.functions.get(number) {
        Some(function) => shown_function(alloc, function),
        None => Err(Fail::from("no function")),
    }
}

#[test]
fn a_module_keeps_its_functions(rt: HostRuntime) -> Result<(), Fail> {
    // 30 types are spelled, the result of `main` first, so `ptr` is also number 30 and `i1` number 32
    let rows = [
        (
            TEXT,
            0,
            "br 1; phi 97<0 r4<1; phi null<0 r2<1; call d0 16; .; .; .; .; .; br r5 2 1; phi r11<2 r2<1; .; call d1 r7; call d1 10; .; .; call d2 r6; .; br r12 3 2; ret 0; | 1 2 3 30 9 32 11 12 13 15 30 19 32 | 0,0,1 1,2,9 10,1,9 19,0,1",
        ),
        // a call means the function that is defined by its name, also a later one, and functions are numbered in order
        (
            "define void @f() { ret void }\ndefine i32 @main(i32 %n, ptr %p) { call void @g(i32 %n) ret i32 %n }\ndefine void @g(i32 %a) { ret void }\n@v = global i8 0",
            1,
            "call f2 r0; ret r0; | 3 4 | 0,0,2",
        ),
        // a task's function is no argument
        (
            "declare i32 @pthread_create(ptr, ptr, ptr, ptr)\n@t = global i64 0\ndefine void @f() { ret void }\ndefine i32 @main() {\n  %r = call i32 @pthread_create(ptr @t, ptr null, ptr @w, ptr null)\n  ret i32 %r\n}\ndefine ptr @w(ptr %a) { ret ptr %a }",
            1,
            "call d0 g0+0 null null start f2 #12 at 55; ret r0; | 9 | 0,0,2",
        ),
    ];
    for (text, number, want) in rows.as_slice() {
        let found = function_in(rt.alloc(), text, *number)?;
        assert_eq!(rt; found.as_str(), *want);
    }
    Ok(())
}

#[test]
fn main_is_found_by_its_name_and_types(rt: HostRuntime) -> Result<(), Fail> {
    let rows = [
        ("define i32 @main() { ret i32 0 }", 0),
        (
            "define void @f() { ret void }\ndefine i32 @main(i32 %n, ptr %p) { ret i32 %n }",
            1,
        ),
        (
            "define %t @\"main\"(%t %n, ptr %p) { ret i32 %n }\n%t = type %u\n%u = type i32\ndefine void @g() { ret void }",
            0,
        ),
    ];
    for (text, want) in rows.as_slice() {
        let module = accepted(rt.alloc(), text.as_bytes())?;
        assert_eq!(rt; module.main, *want, "at {text:?}");
    }
    let module = accepted(rt.alloc(), TEXT.as_bytes())?;
    let Some(function) = module.functions.get(module.main as u64) else {
        return Err(Fail::from("no main"));
    };
    let Some(first) = function.insts.as_slice().get(0) else {
        return Err(Fail::from("no instruction"));
    };
    // nodes: the file, the subprogram, then the locations
    let node = match first.dbg {
        Some(dbg) => dbg.node,
        None => 99,
    };
    assert_eq!(rt; node, 2);
    assert_eq!(rt; function.place.line, 7);
    assert_eq!(rt; function.name.as_slice(), b"main".as_slice());
    Ok(())
}
