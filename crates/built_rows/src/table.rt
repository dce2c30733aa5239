ghost use Rattle.std.specs.Prelude.{◌≡◌};
ghost use Rattle.ir_core.specs.NumberTypes.{access_size, type_of};
ghost use Rattle.ir_check_types.specs.Order.{first_among};
ghost use Rattle.mi_code.specs.TagChecks.{is_one_size, lib_of};
ghost use Rattle.built_rows.specs.Unbuilt.{is_built_function, is_built_row, is_one_access, unbuilt_instruction, unbuilt_function, unbuilt};

use ir_check_types::{earlier, unless};
use ir_core::{Fault, Function, Inst, IrType, Lib, Module, Op, Refusal};

/// The type with a number, `void` past the end of the module's types.
fn type_of(m: &Module, ty: u32) -> IrType
    ensures { result ≡ type_of m.now ty }
{
    match m.types.as_slice().get(ty as usize) {
        Some(found) => *found,
        None => IrType::Void,
    }
}

/// The bytes that a load or store of a type touches.
fn access_size(ty: IrType) -> u32
    ensures { result ≡ access_size ty }
{
    match ty {
        IrType::Int(width) => width.div_ceil(8),
        IrType::Ptr => 8,
        _ => 0,
    }
}

/// Whether an access of so many bytes that is aligned to them lies in one granule.
fn is_one_size(n: u32) -> bool
    ensures { result ≡ is_one_size n }
{
    n == 1 || (n == 2 || (n == 4 || (n == 8 || n == 16)))
}

/// Whether an access to a type lies in one granule, since it is aligned to its size.
fn is_one_access(ty: IrType, align: u32) -> bool
    ensures { result ≡ is_one_access ty align }
{
    let n = access_size(ty);
    is_one_size(n) && n <= align
}

/// Whether the machine runs a library function.
fn is_built_function(lib: Lib) -> bool
    ensures { result ≡ is_built_function lib }
{
    match lib {
        Lib::Malloc => true,
        Lib::Calloc => true,
        Lib::Realloc => true,
        Lib::Free => true,
        Lib::Putchar => true,
        Lib::Exit => true,
        Lib::Abort => true,
        Lib::LlvmTrap => true,
        Lib::LifetimeStart => true,
        Lib::LifetimeEnd => true,
        Lib::Assume => true,
        Lib::Bits { .. } => true,
        Lib::Overflow { .. } => true,
        _ => false,
    }
}

/// Whether the machine runs the library function of a declaration.
fn is_built_declare(m: &Module, declare: u32) -> bool
    ensures { result ≡ is_built_function (lib_of m.now declare) }
{
    match m.declares.get(declare as u64) {
        Some(declare) => is_built_function(declare.lib),
        None => is_built_function(Lib::Assume),
    }
}

/// Whether the machine runs an operation.
fn is_built_row(m: &Module, op: &Op) -> bool
    ensures { result ≡ is_built_row m.now op.now }
{
    match op {
        Op::Load { ty, align, .. } => is_one_access(type_of(m, *ty), *align),
        Op::Store { value, align, .. } => is_one_access(type_of(m, value.ty), *align),
        Op::Rmw { .. } | Op::CmpXchg { .. } => false,
        Op::CallLib { declare, .. } => is_built_declare(m, *declare),
        _ => true,
    }
}

fn unbuilt_instruction(m: &Module, inst: &Inst) -> Option<Refusal>
    ensures { result ≡ unbuilt_instruction m.now inst.now }
{
    unless(is_built_row(m, &inst.op), Fault::Unsupported, inst.place)
}

fn unbuilt_function(m: &Module, f: &Function) -> Option<Refusal>
    ensures { result ≡ unbuilt_function m.now f.now }
{
    f.insts.as_slice().iter().fold(None, |so_far, inst| {
        earlier(so_far, unbuilt_instruction(m, inst))
    })
}

/// The refusal of what comes first in the text of a module and isn't built, with the fault `Unsupported`, or none if the machine
/// runs the whole module. Unbuilt are loads and stores that may touch more than one granule, atomic instructions, and
/// library functions on runs of bytes, on strings, on input and on tasks. The place of an instruction is that of its
/// first token. It takes no memory, and time in proportion to the module.
pub fn unbuilt(m: &Module) -> Option<Refusal>
    ensures { result ≡ unbuilt m.now }
{
    m.functions
        .as_slice()
        .iter()
        .fold(None, |so_far, f| earlier(so_far, unbuilt_function(m, f)))
}
