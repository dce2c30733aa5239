ghost use Rattle.std.specs.Prelude.{◌<◌, ◌+◌, ◌^◌, length, IfOk};
ghost use Rattle.ir_core.specs.Resolved.{HasLayouts};
ghost use Rattle.ir_first_values.specs.Offsets.{IsReady};

use super::*;
use crate::blocks::all_instructions;
use ir_body_names::definitions_of;
use ir_core::{
    Declare, DeclareList, Function, FunctionList, GlobalList, Inst, IrType, Lib, Meta, Module, Op,
    Operand, Place, Placed, TypeIdList, TypeList, layouts,
};
use ir_first_values::{FieldOffsets, Initializers};
use ir_grammar::{SpelledType, Spellings};
use ir_names::NamesError;

/// The module's type for a spelled one without names.
fn type_of(ty: &SpelledType) -> IrType {
    match ty {
        SpelledType::Void => IrType::Void,
        SpelledType::Ptr => IrType::Ptr,
        SpelledType::Int(width) => IrType::Int(u32::try_from(*width).unwrap_or(1)),
        SpelledType::Array { count, item } => IrType::Array {
            count: u64::try_from(*count).unwrap_or(0),
            item: u32::try_from(*item).unwrap_or(0),
        },
        SpelledType::Struct {
            first,
            count,
            packed,
        } => IrType::Struct {
            first: u32::try_from(*first).unwrap_or(0),
            count: u32::try_from(*count).unwrap_or(0),
            packed: *packed,
        },
        _ => IrType::Opaque,
    }
}

/// The types of a body, and after them those that `given_types` says.
fn types_of(alloc: Global, found: &Spellings) -> Result<TypeList, Fail> {
    let mut types = TypeList::new(alloc);
    for ty in found.types.iter() {
        types.push(type_of(ty))?;
    }
    types.push(IrType::Ptr)?;
    types.push(IrType::Void)?;
    for width in 1..129 {
        types.push(IrType::Int(width))?;
    }
    for width in 1..129 {
        types.push(IrType::Pair(width))?;
    }
    Ok(types)
}

/// A module of the types of a body, with these declared functions.
fn module_of(alloc: Global, found: &Spellings, libs: usize) -> Result<Module, Fail>
    ensures { IfOk result (λ m. HasLayouts m) }
{
    let types = types_of(alloc, found)?;
    let mut fields = TypeIdList::new(alloc);
    for field in found.fields.iter() {
        fields.push(u32::try_from(*field).unwrap_or(0))?;
    }
    let mut declares = DeclareList::new(alloc);
    for _ in 0..libs {
        declares.push(Declare {
            lib: Lib::PthreadCreate,
            result: 0,
            params: TypeIdList::new(alloc),
            place: Place { line: 1, column: 1 },
        })?;
    }
    let layouts = layouts(alloc, &types, &fields)?;
    Ok(Module {
        types,
        fields,
        layouts,
        globals: GlobalList::new(alloc),
        declares,
        functions: FunctionList::new(alloc),
        main: 0,
        meta: Meta::new(alloc),
    })
}

/// A type: `v`, `p`, an integer by its bits, a pair with a `+`.
fn shown_type(alloc: Global, module: &Module, ty: u32) -> Result<String, Fail> {
    match module.types.get(ty as u64) {
        Some(IrType::Void) => Ok(String::from_str(alloc, "v")?),
        Some(IrType::Ptr) => Ok(String::from_str(alloc, "p")?),
        Some(IrType::Int(width)) => Ok(format!(in alloc; "i{width}")?),
        Some(IrType::Pair(width)) => Ok(format!(in alloc; "i{width}+")?),
        _ => Ok(String::from_str(alloc, "?")?),
    }
}

/// An operand with its type; `!` if it doesn't fit.
fn shown_placed(alloc: Global, module: &Module, x: &Placed) -> Result<String, Fail> {
    let ty = shown_type(alloc, module, x.ty)?;
    if !x.fits {
        return Ok(format!(in alloc; " {ty} !")?);
    }
    match x.operand {
        Operand::Reg(r) => Ok(format!(in alloc; " {ty} r{r}")?),
        Operand::Int(n) => Ok(format!(in alloc; " {ty} {n}")?),
        Operand::Null => Ok(format!(in alloc; " {ty} null")?),
        Operand::Global { global, off } => Ok(format!(in alloc; " {ty} g{global}+{off}")?),
    }
}

fn shown_row(alloc: Global, module: &Module, xs: &[Placed]) -> Result<String, Fail> {
    let mut out = String::new(alloc);
    for x in xs {
        out.push_str(shown_placed(alloc, module, x)?.as_str())?;
    }
    Ok(out)
}

fn shown_two(
    alloc: Global,
    module: &Module,
    word: &str,
    a: &Placed,
    b: &Placed,
) -> Result<String, Fail> {
    let a = shown_placed(alloc, module, a)?;
    let b = shown_placed(alloc, module, b)?;
    Ok(format!(in alloc; "{word}{a}{b}")?)
}

/// An operation that goes to other blocks, or has none of the forms of `shown_op`.
fn shown_end(alloc: Global, module: &Module, op: &Op) -> Result<String, Fail> {
    match op {
        Op::Br { block } => Ok(format!(in alloc; "br {block}")?),
        Op::BrIf { cond, yes, no } => {
            let cond = shown_placed(alloc, module, cond)?;
            Ok(format!(in alloc; "br{cond} {yes} {no}")?)
        }
        Op::Switch { on, other, cases } => {
            let on = shown_placed(alloc, module, on)?;
            let mut out = format!(in alloc; "switch{on} {other}")?;
            for case in cases.as_slice() {
                let value = shown_placed(alloc, module, &case.value)?;
                let block = case.block;
                out = format!(in alloc; "{out}{value}>{block}")?;
            }
            Ok(out)
        }
        Op::Ret { value } => match value {
            None => Ok(String::from_str(alloc, "ret")?),
            Some(value) => {
                let value = shown_placed(alloc, module, value)?;
                Ok(format!(in alloc; "ret{value}")?)
            }
        },
        Op::Phi { ty, entries } => {
            let ty = shown_type(alloc, module, *ty)?;
            let mut out = format!(in alloc; "phi {ty}")?;
            for entry in entries.as_slice() {
                let value = shown_placed(alloc, module, &entry.value)?;
                let block = entry.block;
                out = format!(in alloc; "{out}{value}<{block}")?;
            }
            Ok(out)
        }
        _ => Ok(String::from_str(alloc, "other")?),
    }
}

fn shown_call(alloc: Global, module: &Module, op: &Op) -> Result<String, Fail> {
    match op {
        Op::Call { func, result, args } => {
            let result = shown_type(alloc, module, *result)?;
            let args = shown_row(alloc, module, args.as_slice())?;
            Ok(format!(in alloc; "call {result} f{func}{args}")?)
        }
        Op::CallLib {
            declare,
            result,
            args,
            start,
        } => {
            let result = shown_type(alloc, module, *result)?;
            let args = shown_row(alloc, module, args.as_slice())?;
            match start {
                None => Ok(format!(in alloc; "call {result} d{declare}{args}")?),
                Some(start) => {
                    let func = start.func;
                    Ok(format!(in alloc; "call {result} d{declare}{args} start f{func}")?)
                }
            }
        }
        _ => shown_end(alloc, module, op),
    }
}

fn shown_memory(alloc: Global, module: &Module, op: &Op) -> Result<String, Fail> {
    match op {
        Op::Alloca { index, ty, count } => {
            let ty = shown_type(alloc, module, *ty)?;
            match count {
                None => Ok(format!(in alloc; "alloca v{index} {ty}")?),
                Some(count) => {
                    let count = shown_placed(alloc, module, count)?;
                    Ok(format!(in alloc; "alloca v{index} {ty}{count}")?)
                }
            }
        }
        Op::Load { ty, at, align } => {
            let ty = shown_type(alloc, module, *ty)?;
            let at = shown_placed(alloc, module, at)?;
            Ok(format!(in alloc; "load {ty}{at} /{align}")?)
        }
        Op::Store { value, at, align } => {
            let both = shown_two(alloc, module, "store", value, at)?;
            Ok(format!(in alloc; "{both} /{align}")?)
        }
        Op::Gep { of, base, indices } => {
            let of = shown_type(alloc, module, *of)?;
            let base = shown_placed(alloc, module, base)?;
            let indices = shown_row(alloc, module, indices.as_slice())?;
            Ok(format!(in alloc; "gep {of}{base}{indices}")?)
        }
        Op::Rmw {
            at,
            value,
            align,
            ..
        } => {
            let both = shown_two(alloc, module, "rmw", at, value)?;
            Ok(format!(in alloc; "{both} /{align}")?)
        }
        Op::CmpXchg {
            at,
            expected,
            new,
            align,
        } => {
            let both = shown_two(alloc, module, "cmpxchg", at, expected)?;
            let new = shown_placed(alloc, module, new)?;
            Ok(format!(in alloc; "{both}{new} /{align}")?)
        }
        _ => shown_call(alloc, module, op),
    }
}

/// What an instruction does.
fn shown_op(alloc: Global, module: &Module, op: &Op) -> Result<String, Fail> {
    match op {
        Op::Binary { op, a, b } => {
            let both = shown_two(alloc, module, "", a, b)?;
            Ok(format!(in alloc; "{op:?}{both}")?)
        }
        Op::Icmp { pred, a, b } => {
            let both = shown_two(alloc, module, "", a, b)?;
            Ok(format!(in alloc; "{pred:?}{both}")?)
        }
        Op::Cast { op, a, to } => {
            let a = shown_placed(alloc, module, a)?;
            let to = shown_type(alloc, module, *to)?;
            Ok(format!(in alloc; "{op:?}{a} to {to}")?)
        }
        Op::Select { cond, a, b } => {
            let cond = shown_placed(alloc, module, cond)?;
            let both = shown_two(alloc, module, "", a, b)?;
            Ok(format!(in alloc; "select{cond}{both}")?)
        }
        Op::Freeze { a } => {
            let a = shown_placed(alloc, module, a)?;
            Ok(format!(in alloc; "freeze{a}")?)
        }
        Op::Fence => Ok(String::from_str(alloc, "fence")?),
        Op::ExtractValue { of, part } => {
            let of = shown_placed(alloc, module, of)?;
            match part {
                None => Ok(format!(in alloc; "part -{of}")?),
                Some(part) => Ok(format!(in alloc; "part {part}{of}")?),
            }
        }
        _ => shown_memory(alloc, module, op),
    }
}

/// An instruction, with the register that it defines and the column where it is.
fn shown_inst(alloc: Global, module: &Module, inst: &Inst) -> Result<String, Fail> {
    let op = shown_op(alloc, module, &inst.op)?;
    let column = inst.place.column;
    match inst.result {
        None => Ok(format!(in alloc; "{op} @{column}; ")?),
        Some(r) => Ok(format!(in alloc; "r{r} = {op} @{column}; ")?),
    }
}

/// The blocks, as FIRST,PHIS,COUNT, the types of the registers and the sizes of the variables.
fn shown_rest(alloc: Global, module: &Module, function: &Function) -> Result<String, Fail> {
    let params = function.params;
    let mut out = format!(in alloc; "{params}|")?;
    for ty in function.regs.as_slice() {
        let ty = shown_type(alloc, module, *ty)?;
        out = format!(in alloc; "{out} {ty}")?;
    }
    out.push_str(" |")?;
    for block in function.blocks.as_slice() {
        let (first, phis, count) = (block.first, block.phis, block.count);
        out = format!(in alloc; "{out} {first},{phis},{count}")?;
    }
    out.push_str(" |")?;
    let mut i: u64 = 0;
    for _ in 0..function.allocas.len() {
        if let Some(size) = function.allocas.get(i) {
            out = format!(in alloc; "{out} {size}")?;
        }
        i = i.saturating_add(1);
    }
    Ok(out)
}

/// A function: its instructions, and, after them, the rest.
fn shown_function(alloc: Global, module: &Module, function: &Function) -> Result<String, Fail> {
    let mut out = String::new(alloc);
    for inst in function.insts.as_slice() {
        out.push_str(shown_inst(alloc, module, inst)?.as_str())?;
    }
    out.push_str(shown_rest(alloc, module, function)?.as_str())?;
    Ok(out)
}

/// The numbers from 0 on, one a type.
fn numbers_of(alloc: Global, types: &[SpelledType]) -> Result<Vec<u32>, Fail> {
    let mut numbers = Vec::new(alloc);
    let mut n: u32 = 0;
    for _ in types {
        numbers.push(n)?;
        n = n.saturating_add(1);
    }
    Ok(numbers)
}

/// No constant names a variable.
fn no_variables(alloc: Global, count: usize) -> Result<Vec<Option<u32>>, Fail> {
    let mut variables = Vec::new(alloc);
    for _ in 0..count {
        variables.push(None)?;
    }
    Ok(variables)
}

/// A function that is resolved, shown.
fn resolved(
    alloc: Global,
    names: &Names,
    values: &Initializers,
    function: &SpelledFunction,
) -> Result<String, Fail>
    requires ready { IsReady values.now }
    requires types { length names.now.types.now + 300 < 2 ^ 32 }
    requires functions { length names.now.functions.now < 2 ^ 32 }
    requires declares { length names.now.declares.now < 2 ^ 32 }
    requires nodes { length names.now.nodes.now < 2 ^ 32 }
{
    let defined = definitions_of(alloc, names, function.parameters, function.blocks)?;
    let all = names.bodies.instructions.as_slice();
    let instructions = all_instructions(alloc, all, function.blocks)?;
    if defined.len() >= 1 << 31
        || instructions.len() >= 1 << 31
        || function.parameters.len() >= 1 << 31
    {
        return Err(Fail::from("too long"));
    }
    match resolve(alloc, values, names, function) {
        Ok(found) => shown_function(alloc, values.module, &found),
        Err(NamesError::Fault(_)) => Err(Fail::from("a fault")),
        Err(NamesError::OutOfMemory) => Err(Fail::from("memory")),
    }
}

/// The function of a body, shown, by the keys of the functions and nodes that its names may mean.
fn shown_by<'k>(
    alloc: Global,
    text: &[u8],
    header: &Header,
    body: &Body,
    name: Token,
    functions: &Index<'k>,
    declares: &Index<'k>,
    nodes: &Index<'k>,
) -> Result<String, Fail>
    requires functions { length functions.now < 2 ^ 31 }
    requires declares { length declares.now < 2 ^ 31 }
    requires nodes { length nodes.now < 2 ^ 31 }
{
    let found = &body.raw.found;
    if found.types.len() >= 1 << 31 {
        return Err(Fail::from("too long"));
    }
    let module = module_of(alloc, found, header.declares.len())?;
    let numbers = numbers_of(alloc, &found.types)?;
    let variables = no_variables(alloc, found.constants.len())?;
    let names = Names {
        source: text,
        types: &found.types,
        numbers: &numbers,
        bodies: &found.bodies,
        functions: &*functions,
        declares: &*declares,
        nodes: &*nodes,
        kinds: &header.kinds,
    };
    let offsets = FieldOffsets::new(alloc, &module)?;
    let values = Initializers {
        module: &module,
        offsets: &offsets,
        found,
        source: text,
        numbers: &numbers,
        classes: &[],
        variables: &variables,
    };
    let function = SpelledFunction {
        name,
        result: 0,
        parameters: &header.parameters,
        blocks: &body.raw.blocks,
    };
    resolved(alloc, &names, &values, &function)
}

/// The function of a text, shown.
fn shown(alloc: Global, text: &[u8]) -> Result<String, Fail> {
    let tokens = tokens_of(alloc, text)?;
    let (header, at) = header_of(alloc, text, tokens.as_slice())?;
    let body = body_at(alloc, &tokens, text, at)?;
    let Some(name) = tokens.get(0) else {
        return Err(Fail::from("no name"));
    };
    if header.functions.len() >= 1 << 31
        || header.declares.len() >= 1 << 31
        || header.nodes.len() >= 1 << 31
    {
        return Err(Fail::from("too long"));
    }
    let functions = Index::new(alloc, &header.functions)?;
    let declares = Index::new(alloc, &header.declares)?;
    let nodes = Index::new(alloc, &header.nodes)?;
    shown_by(
        alloc, text, &header, &body, name, &functions, &declares, &nodes,
    )
}

fn check_rows(rt: &impl Abort, alloc: Global, rows: &[(&str, &str)]) -> Result<(), Fail> {
    for (text, want) in rows {
        let found = shown(alloc, text.as_bytes())?;
        assert_eq!(rt; found.as_str(), *want, "at {text:?}");
    }
    Ok(())
}

#[test]
fn registers_blocks_and_variables_are_numbered(rt: HostRuntime) -> Result<(), Fail> {
    let rows = [
        ("@f { ret i8 7 }", "ret i8 7 @6; 0| | 0,0,1 |"),
        (
            "@f _ %a { %b = add i8 %0, %a ret i8 %b }",
            "r2 = Add i8 r0 i8 r1 @11; ret i8 r2 @30; 2| i8 i8 i8 | 0,0,2 |",
        ),
        (
            "@f { br label %l l: %x = phi i8 [ 1, %0 ], [ %y, %l ] %y = add i8 %x, -1 %c = icmp eq i8 %y, 0 br i1 %c, label %l, label %m m: ret i8 %y }",
            "br 1 @6; r0 = phi i8 i8 1<0 i8 r1<1 @21; r1 = Add i8 r0 i8 255 @55; r2 = Eq i8 r1 i8 0 @74; br i1 r2 1 2 @96; ret i8 r1 @128; 0| i8 i8 i1 | 0,0,1 1,1,4 5,0,1 |",
        ),
        (
            "@f { %a = alloca i32 %b = alloca i8, i64 10 alloca [3 x i16], i8 -1 store i32 5, ptr %a %v = load i32, ptr %a, align 1 ret i32 %v }",
            "r0 = alloca v0 i32 @6; r1 = alloca v1 i8 i64 10 @22; r2 = alloca v2 ? i8 255 @45; store i32 5 p r0 /4 @69; r3 = load i32 p r0 /1 @89; ret i32 r3 @120; 0| p p p i32 | 0,0,6 | 4 10 1530",
        ),
        (
            "@f { switch i8 3, label %a [ i8 1, label %b i8 2, label %a ] a: ret void b: unreachable }",
            "switch i8 3 1 i8 1>2 i8 2>1 @6; ret @65; other @77; 0| | 0,0,1 1,0,1 2,0,1 |",
        ),
    ];
    check_rows(&rt, rt.alloc(), rows.as_slice())
}

#[test]
fn operands_have_values_and_types(rt: HostRuntime) -> Result<(), Fail> {
    let rows = [
        ("@f { ret i8 255 }", "ret i8 255 @6; 0| | 0,0,1 |"),
        ("@f { ret i8 256 }", "ret i8 ! @6; 0| | 0,0,1 |"),
        ("@f { ret i8 -128 }", "ret i8 128 @6; 0| | 0,0,1 |"),
        ("@f { ret i8 null }", "ret i8 ! @6; 0| | 0,0,1 |"),
        ("@f { ret ptr null }", "ret p null @6; 0| | 0,0,1 |"),
        ("@f { ret ptr 0 }", "ret p ! @6; 0| | 0,0,1 |"),
        ("@f { ret i1 true }", "ret i1 1 @6; 0| | 0,0,1 |"),
        ("@f { ret i8 poison }", "ret i8 0 @6; 0| | 0,0,1 |"),
        (
            "@f { ret ptr getelementptr (i32, ptr null, i64 3) }",
            "ret p 12 @6; 0| | 0,0,1 |",
        ),
        (
            "@f %p { %x = cmpxchg ptr %p, i32 1, i32 2 seq_cst seq_cst %y = extractvalue { i32, i1 } %x, 0 %z = extractvalue { i32, i1 } zeroinitializer, 1 ret i1 %z }",
            "r1 = cmpxchg p r0 i32 1 i32 2 /4 @9; r2 = part 0 i32+ r1 @59; r3 = part 1 i32+ 0 @95; ret i1 r3 @144; 1| i32 i32+ i32 i1 | 0,0,4 |",
        ),
        (
            "@f %p { %x = atomicrmw umin ptr %p, i16 1 monotonic %y = trunc i16 %x to i8 %z = select i1 true, i8 %y, i8 3 %w = freeze i8 %z fence seq_cst ret i8 %w }",
            "r1 = rmw p r0 i16 1 /2 @9; r2 = Trunc i16 r1 to i8 @53; r3 = select i1 1 i8 r2 i8 3 @77; r4 = freeze i8 r3 @110; fence @128; ret i8 r4 @142; 1| i16 i16 i8 i8 i8 | 0,0,6 |",
        ),
        (
            "@f %p { %x = getelementptr inbounds i32, ptr %p, i64 1, i8 %p ret ptr %x }",
            "r1 = gep i32 p r0 i64 1 i8 r0 @9; ret p r1 @63; 1| i32 p | 0,0,2 |",
        ),
    ];
    check_rows(&rt, rt.alloc(), rows.as_slice())
}

#[test]
fn calls_name_functions_by_number(rt: HostRuntime) -> Result<(), Fail> {
    let rows = [
        (
            "@f { call void @f() ret void }",
            "call v f0 @6; ret @21; 0| | 0,0,2 |",
        ),
        (
            "@f @g declare @h { %x = call i8 @g(i8 1) call void @h(i8 2) ret i8 %x }",
            "r0 = call i8 f1 i8 1 @20; call v d0 i8 2 @42; ret i8 r0 @61; 0| i8 | 0,0,3 |",
        ),
        (
            "@f declare @h { call i32 @h(ptr null, ptr null, ptr @f, ptr null) ret void }",
            "r0 = call i32 d0 p null p null p null start f0 @17; ret @67; 0| i32 | 0,0,2 |",
        ),
        (
            "@f declare @h { call i32 @h(ptr null, ptr null, ptr @h, ptr null) ret void }",
            "r0 = call i32 d0 p null p null p ! p null @17; ret @67; 0| i32 | 0,0,2 |",
        ),
    ];
    check_rows(&rt, rt.alloc(), rows.as_slice())
}
