ghost use Rattle.std.specs.Prelude.{◌≡◌, ◌+◌, slice_get, take, drop};
ghost use Rattle.ir_check_types.specs.Calls.{argument_fault, arguments_fault, result_type_fault, count_of_arguments_fault, parameter_types, callee_fault, call_fault, is_null, second_fault, null_fault, can_start, third_fault, start_fault, no_start_fault, task_fault, listed_fault, started, declared_fault, outside_call_fault};

use crate::operands::{is_same, number_fault, type_of, typed_fault};
use crate::order::{earlier, unless};
use ir_core::{
    Declare, Fault, Function, IrType, Lib, Module, Operand, Place, Placed, Refusal, StartArg,
};

/// An argument is of the type that is asked for, or past the parameters of a type of its own.
fn argument_fault(m: &Module, f: &Function, wanted: Option<u32>, arg: &Placed) -> Option<Refusal>
    ensures { result ≡ argument_fault m.now f.now wanted arg.now }
{
    match wanted {
        None => number_fault(m, f, arg),
        Some(ty) => typed_fault(m, f, type_of(m, ty), arg),
    }
}

/// The type of the parameter with number `from + i`, if there is one.
fn type_after(types: &[u32], from: usize, i: usize) -> Option<u32>
    ensures { result ≡ slice_get types.now (from + i) }
{
    if i < types.len().saturating_sub(from) {
        types.get(from + i).copied()
    } else {
        None
    }
}

/// Arguments from the parameter with number `from` on, by the numbers of the parameters' types.
fn arguments_fault(
    m: &Module,
    f: &Function,
    types: &[u32],
    from: usize,
    args: &[Placed],
) -> Option<Refusal>
    ensures { result ≡ arguments_fault m.now f.now types.now from args.now }
{
    let mut so_far = None;
    for (i, arg) in args.iter().enumerate() {
        let wanted = type_after(types, from, i);
        so_far = earlier(so_far, argument_fault(m, f, wanted, arg));
    }
    so_far
}

/// The result that is spelled is that of the function.
fn result_type_fault(m: &Module, place: Place, spelled: u32, wanted: u32) -> Option<Refusal>
    ensures { result ≡ result_type_fault m.now place spelled wanted }
{
    let holds = is_same(type_of(m, spelled), type_of(m, wanted));
    unless(holds, Fault::BadType, place)
}

/// There are as many arguments as parameters.
fn count_of_arguments_fault(place: Place, arguments: u64, parameters: u64) -> Option<Refusal>
    ensures { result ≡ count_of_arguments_fault place arguments parameters }
{
    unless(arguments == parameters, Fault::BadType, place)
}

/// The numbers of the types of a function's parameters.
pub(crate) fn parameter_types(f: &Function) -> &[u32]
    ensures { result.now ≡ parameter_types f.now }
{
    let registers = f.regs.as_slice();
    let count = registers.len().min(f.params as usize);
    &registers[..count]
}

/// A call of a defined function.
pub(crate) fn call_fault(
    m: &Module,
    f: &Function,
    place: Place,
    func: u32,
    spelled: u32,
    args: &[Placed],
) -> Option<Refusal>
    ensures { result ≡ call_fault m.now f.now place func spelled args.now }
{
    match m.functions.get(func as u64) {
        None => None,
        Some(callee) => {
            let values = arguments_fault(m, f, parameter_types(callee), 0, args);
            let count = count_of_arguments_fault(place, args.len() as u64, callee.params as u64);
            let ty = result_type_fault(m, place, spelled, callee.result);
            earlier(ty, earlier(count, values))
        }
    }
}

fn is_null(operand: Operand) -> bool
    ensures { result ≡ is_null operand }
{
    match operand {
        Operand::Null => true,
        _ => false,
    }
}

/// A task's attributes, and the place of its result, are null.
fn second_fault(place: Place, args: &[Placed]) -> Option<Refusal>
    ensures { result ≡ second_fault place args.now }
{
    match args {
        [_, second, ..] => unless(is_null(second.operand), Fault::Unsupported, place),
        _ => None,
    }
}

fn null_fault(lib: Lib, place: Place, args: &[Placed]) -> Option<Refusal>
    ensures { result ≡ null_fault lib place args.now }
{
    match lib {
        Lib::PthreadCreate => second_fault(place, args),
        Lib::PthreadJoin => second_fault(place, args),
        _ => None,
    }
}

/// Whether a task can start with the function with this number: it takes a pointer and returns one.
fn can_start(m: &Module, func: u32) -> bool
    ensures { result ≡ can_start m.now (slice_get m.now.functions func) }
{
    match m.functions.get(func as u64) {
        None => false,
        Some(f) => {
            let parameter = f.regs.as_slice().first().copied().unwrap_or(0);
            is_same(type_of(m, f.result), IrType::Ptr)
                && (f.params == 1 && is_same(type_of(m, parameter), IrType::Ptr))
        }
    }
}

fn third_fault(args: &[Placed]) -> Option<Refusal>
    ensures { result ≡ third_fault args.now }
{
    match args {
        [_, _, third, ..] => unless(false, Fault::BadType, third.place),
        _ => None,
    }
}

/// The third argument of `pthread_create` is a function that a task can start with.
fn start_fault(
    m: &Module,
    d: &Declare,
    args: &[Placed],
    start: &Option<StartArg>,
) -> Option<Refusal>
    ensures { result ≡ start_fault m.now d.now args.now start.now }
{
    match start {
        None => third_fault(args),
        Some(start) => {
            let wanted = d.params.as_slice().get(2).copied().unwrap_or(0);
            let holds = is_same(type_of(m, start.ty), type_of(m, wanted))
                && can_start(m, start.func);
            unless(holds, Fault::BadType, start.place)
        }
    }
}

/// A function that a task starts with is an argument of `pthread_create` alone.
fn no_start_fault(start: &Option<StartArg>) -> Option<Refusal>
    ensures { result ≡ no_start_fault start.now }
{
    match start {
        None => None,
        Some(start) => unless(false, Fault::BadType, start.place),
    }
}

fn task_fault(m: &Module, d: &Declare, args: &[Placed], start: &Option<StartArg>) -> Option<Refusal>
    ensures { result ≡ task_fault m.now d.now.lib d.now args.now start.now }
{
    match d.lib {
        Lib::PthreadCreate => start_fault(m, d, args, start),
        _ => no_start_fault(start),
    }
}

fn started(start: &Option<StartArg>) -> u64
    ensures { result ≡ started start.now }
{
    match start {
        None => 0,
        Some(_) => 1,
    }
}

/// The arguments that are listed: all but the start function.
fn listed_fault(
    m: &Module,
    f: &Function,
    d: &Declare,
    args: &[Placed],
    start: &Option<StartArg>,
) -> Option<Refusal>
    ensures { result ≡ listed_fault m.now f.now d.now args.now start.now }
{
    let types = d.params.as_slice();
    match start {
        None => arguments_fault(m, f, types, 0, args),
        Some(_) => {
            let at = args.len().min(2);
            let before = arguments_fault(m, f, types, 0, &args[..at]);
            earlier(before, arguments_fault(m, f, types, 3, &args[at..]))
        }
    }
}

/// A call of a declared function.
pub(crate) fn outside_call_fault(
    m: &Module,
    f: &Function,
    place: Place,
    declare: u32,
    spelled: u32,
    args: &[Placed],
    start: &Option<StartArg>,
) -> Option<Refusal>
    ensures { result ≡ outside_call_fault m.now f.now place declare spelled args.now start.now }
{
    match m.declares.get(declare as u64) {
        None => None,
        Some(d) => {
            let task = task_fault(m, d, args, start);
            let listed = earlier(listed_fault(m, f, d, args, start), task);
            let values = earlier(null_fault(d.lib, place, args), listed);
            let given = (args.len() as u64).saturating_add(started(start));
            let count = count_of_arguments_fault(place, given, d.params.len());
            earlier(
                result_type_fault(m, place, spelled, d.result),
                earlier(count, values),
            )
        }
    }
}
