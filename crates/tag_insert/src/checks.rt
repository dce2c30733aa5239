ghost use Rattle.std.specs.Prelude.{◌≡◌, All, List, ℕ};
ghost use Rattle.mi_code.specs.MachineOperands.{operand_of};
ghost use Rattle.mi_code.specs.TagChecks.{is_one_size, check_of, type_check, lib_of, access_check, library_checks, leave_code, added_code};
ghost use Rattle.ir_core.specs.LibraryAccesses.{Counted, Fixed};
ghost use Rattle.tag_insert.specs.Additions.{added_ops};
ghost use Rattle.tag_insert.specs.SmallRegisters.{IsSmall, IsSmallOp};

use crate::addition::Addition;
use crate::operands::{argument, operand_of};
use crate::types::{access_size, type_of};
use hw_base::{Access, MUTEX_SIZE, SizeList, TASK_NUMBER_SIZE};
use ir_core::{Lib, Module, Op, Placed, PlacedList};
use mi_code::{MiOp, MiOperand};

/// Whether an access of so many bytes that is aligned to them lies in one granule.
fn is_one_size(n: u32) -> bool
    ensures { result ≡ is_one_size n }
{
    n == 1 || (n == 2 || (n == 4 || (n == 8 || n == 16)))
}

/// The check of an access to `n` bytes with a stated alignment.
fn check_of(n: u32, align: u32, at: MiOperand, access: Access) -> MiOp
    ensures { result ≡ check_of n align at access }
{
    if is_one_size(n) && n <= align {
        MiOp::One { at, n, access }
    } else {
        MiOp::Sized {
            at,
            n: MiOperand::Num(n as u128),
            access,
        }
    }
}

/// The check of an access to a type.
fn type_check(m: &Module, ty: u32, align: u32, at: &Placed, access: Access) -> Addition
    requires { IsSmall at.now }
    ensures { added_ops result ≡ type_check m.now ty align at.now access }
{
    Addition::One(check_of(access_size(type_of(m, ty)), align, operand_of(at), access))
}

/// The library function of a declaration.
pub fn lib_of(m: &Module, declare: u32) -> Lib
    ensures { result ≡ lib_of m.now declare }
{
    match m.declares.get(declare as u64) {
        Some(declare) => declare.lib,
        None => Lib::Assume,
    }
}

/// The check of a read or write of as many bytes as an argument says.
fn counted(args: &PlacedList, access: Access, pointer: u64, count: u64) -> MiOp
    requires { All IsSmall args.now }
    ensures { result ≡ access_check args.now (Counted access pointer count) }
{
    MiOp::Sized {
        at: argument(args, pointer),
        n: argument(args, count),
        access,
    }
}

/// The check of a write of a fixed number of bytes.
fn fixed(args: &PlacedList, size: u32) -> MiOp
    requires { All IsSmall args.now }
    ensures { result ≡ access_check args.now (Fixed Access.Write 0 size) }
{
    MiOp::One {
        at: argument(args, 0),
        n: size,
        access: Access::Write,
    }
}

/// The checks of a copy: of its source, and of its destination.
fn copy_checks(args: &PlacedList) -> Addition
    requires { All IsSmall args.now }
    ensures { added_ops result ≡ library_checks Lib.Memcpy args.now }
{
    Addition::Two(
        counted(args, Access::Read, 1, 2),
        counted(args, Access::Write, 0, 2),
    )
}

/// The checks of the accesses of a library function, in order.
fn library_checks(lib: Lib, args: &PlacedList) -> Addition
    requires { All IsSmall args.now }
    ensures { added_ops result ≡ library_checks lib args.now }
{
    match lib {
        Lib::Free => Addition::One(MiOp::FreeCheck {
            at: argument(args, 0),
        }),
        Lib::Realloc => Addition::One(MiOp::FreeCheck {
            at: argument(args, 0),
        }),
        Lib::Memcpy => copy_checks(args),
        Lib::Memmove => copy_checks(args),
        Lib::LlvmMemcpy => copy_checks(args),
        Lib::LlvmMemmove => copy_checks(args),
        Lib::Memset => Addition::One(counted(args, Access::Write, 0, 2)),
        Lib::LlvmMemset => Addition::One(counted(args, Access::Write, 0, 2)),
        Lib::Memcmp => {
            Addition::Two(
                counted(args, Access::Read, 0, 2),
                counted(args, Access::Read, 1, 2),
            )
        }
        Lib::Strlen => Addition::One(MiOp::Str {
            at: argument(args, 0),
        }),
        Lib::Puts => Addition::One(MiOp::Str {
            at: argument(args, 0),
        }),
        Lib::PthreadCreate => Addition::One(fixed(args, TASK_NUMBER_SIZE)),
        Lib::MutexInit => Addition::One(fixed(args, MUTEX_SIZE)),
        Lib::MutexLock => Addition::One(fixed(args, MUTEX_SIZE)),
        Lib::MutexUnlock => Addition::One(fixed(args, MUTEX_SIZE)),
        _ => Addition::Nothing,
    }
}

/// What is added before the return of a function whose variables have these sizes.
fn leave_code(sizes: &SizeList) -> Addition
    ensures { added_ops result ≡ leave_code sizes.now }
{
    if sizes.is_empty() {
        Addition::Nothing
    } else {
        Addition::One(MiOp::Leave)
    }
}

/// What is added before an instruction of a function whose variables have these sizes.
pub fn added_code(m: &Module, sizes: &SizeList, op: &Op) -> Addition
    requires { IsSmallOp op.now }
    ensures { added_ops result ≡ added_code m.now sizes.now op.now }
{
    match op {
        Op::Load { ty, at, align } => type_check(m, *ty, *align, at, Access::Read),
        Op::Store { value, at, align } => type_check(m, value.ty, *align, at, Access::Write),
        Op::Rmw {
            at,
            value,
            align,
            ..
        } => type_check(m, value.ty, *align, at, Access::Write),
        Op::CmpXchg { at, new, align, .. } => type_check(m, new.ty, *align, at, Access::Write),
        Op::CallLib { declare, args, .. } => library_checks(lib_of(m, *declare), args),
        Op::Ret { .. } => leave_code(sizes),
        _ => Addition::Nothing,
    }
}
