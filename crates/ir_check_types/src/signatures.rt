ghost use Rattle.std.specs.Prelude.{◌≡◌, ◌≤◌, [], ◌∷◌};
ghost use Rattle.ir_check_types.specs.Rules.{has_parameters, declare_fault};
ghost use Rattle.ir_check_types.specs.Listed.{listed};
ghost use Rattle.ir_check_types.specs.Signatures.{bits_parameters, lib_result, lib_parameters, is_lifetime};

use crate::operands::{is_same, type_of};
use crate::order::unless;
use crate::parameters::Parameters;
use hw_base::BitOp;
use ir_core::{Declare, Fault, IrType, Lib, Module, Refusal};

const BIT: IrType = IrType::Int(1);

const CHAR: IrType = IrType::Int(8);

const INT: IrType = IrType::Int(32);

const SIZE: IrType = IrType::Int(64);

const POINTER: IrType = IrType::Ptr;

/// The type of a known function's result.
fn lib_result(lib: Lib) -> IrType
    ensures { result ≡ lib_result lib }
{
    match lib {
        Lib::Malloc | Lib::Calloc | Lib::Realloc => POINTER,
        Lib::Memcpy | Lib::Memmove | Lib::Memset => POINTER,
        Lib::Strlen => SIZE,
        Lib::Memcmp | Lib::Puts | Lib::Putchar | Lib::Getchar => INT,
        Lib::PthreadCreate | Lib::PthreadJoin => INT,
        Lib::MutexInit | Lib::MutexLock | Lib::MutexUnlock | Lib::MutexDestroy => INT,
        Lib::Bits { width, .. } => IrType::Int(width),
        Lib::Overflow { width, .. } => IrType::Pair(width),
        _ => IrType::Void,
    }
}

fn is_lifetime(lib: Lib) -> bool
    ensures { result ≡ is_lifetime lib }
{
    match lib {
        Lib::LifetimeStart | Lib::LifetimeEnd => true,
        _ => false,
    }
}

/// The types of the parameters of an intrinsic on bits.
fn bits_parameters(op: BitOp, width: u32) -> Parameters
    ensures { listed result ≡ bits_parameters op width }
{
    let number = IrType::Int(width);
    match op {
        BitOp::BSwap | BitOp::CtPop => Parameters::one(number),
        BitOp::CtLz | BitOp::CtTz | BitOp::Abs => Parameters::two(number, BIT),
        BitOp::FShl | BitOp::FShr => Parameters::three(number, number, number),
        _ => Parameters::two(number, number),
    }
}

/// The types of the parameters of a function of the C library for memory and text, or of a task.
fn lib_parameters(lib: Lib) -> Parameters
    ensures { listed result ≡ lib_parameters lib }
{
    match lib {
        Lib::Malloc => Parameters::one(SIZE),
        Lib::Calloc => Parameters::two(SIZE, SIZE),
        Lib::Realloc => Parameters::two(POINTER, SIZE),
        Lib::Memcpy | Lib::Memmove | Lib::Memcmp => Parameters::three(POINTER, POINTER, SIZE),
        Lib::Memset => Parameters::three(POINTER, INT, SIZE),
        Lib::LlvmMemcpy | Lib::LlvmMemmove => Parameters::four(POINTER, POINTER, SIZE, BIT),
        Lib::LlvmMemset => Parameters::four(POINTER, CHAR, SIZE, BIT),
        Lib::Putchar | Lib::Exit => Parameters::one(INT),
        Lib::Getchar | Lib::Abort | Lib::LlvmTrap => Parameters::none(),
        Lib::PthreadCreate => Parameters::four(POINTER, POINTER, POINTER, POINTER),
        Lib::PthreadJoin => Parameters::two(SIZE, POINTER),
        Lib::MutexInit => Parameters::two(POINTER, POINTER),
        Lib::Assume => Parameters::one(BIT),
        Lib::Bits { op, width } => bits_parameters(op, width),
        Lib::Overflow { width, .. } => Parameters::two(IrType::Int(width), IrType::Int(width)),
        _ => Parameters::one(POINTER),
    }
}

/// Whether a known function is declared with its parameters.
fn has_parameters(m: &Module, d: &Declare) -> bool
    ensures { result ≡ has_parameters m.now d.now }
{
    let params = d.params.as_slice();
    lib_parameters(d.lib).are(m, params)
        || is_lifetime(d.lib) && Parameters::two(SIZE, POINTER).are(m, params)
}

/// A known function is declared with its types.
pub(crate) fn declare_fault(m: &Module, d: &Declare) -> Option<Refusal>
    ensures { result ≡ declare_fault m.now d.now }
{
    let holds = is_same(type_of(m, d.result), lib_result(d.lib)) && has_parameters(m, d);
    unless(holds, Fault::BadType, d.place)
}
