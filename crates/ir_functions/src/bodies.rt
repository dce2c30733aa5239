ghost use Rattle.std.specs.Prelude.{◌≡◌, ◌<◌, ◌+◌, ◌*◌, ◌^◌, ◌++◌, map, min, length, IfOk, OnOk};
ghost use Rattle.ir_core.specs.Layout.{layout_at, layout_size};
ghost use Rattle.std.specs.Option.{option_map};
ghost use Rattle.ir_core.specs.NumberTypes.{alloc_size, constant_number};
ghost use Rattle.ir_core.specs.ResolvedBodies.{value_count};
ghost use Rattle.ir_functions.specs.Scope.{type_number};
ghost use Rattle.ir_functions.specs.Functions.{is_variable, instructions_from, register_types, variable_size, made_sizes, variable_sizes};
ghost use Rattle.ir_functions.specs.Views.{scope_in};

use crate::resolver::Resolver;
use hw_base::{OutOfMemory, SizeList};
use ir_core::{InstList, Operand, Placed, TypeIdList, TypeLayout};
use ir_grammar::{SpelledInstruction, SpelledOperation, SpelledParameter};
use std::alloc::Global;

/// What stands for every size above 2^40 bytes.
const SIZE_CAP: u128 = 0x100_0000_0001;

/// The number that a constant operand is; any other counts as 0.
fn constant_number(operand: Operand) -> u128
    ensures { result ≡ constant_number operand }
{
    match operand {
        Operand::Int(number) => number,
        _ => 0,
    }
}

/// How many values a variable has: 1 if no count is spelled, and 0 for a count that doesn't fit its type.
fn value_count(count: Option<Placed>) -> u128
    ensures { result ≡ value_count count }
{
    match count {
        None => 1,
        Some(count) => {
            if count.fits {
                constant_number(count.operand)
            } else {
                0
            }
        }
    }
}

/// So many sizes, at most 2^40 + 1.
fn capped_product(count: u128, size: u64) -> u128
    ensures { result ≡ min (count * size) (2 ^ 40 + 1) }
{
    let size = u128::from(size);
    match count.checked_mul(size) {
        None => SIZE_CAP,
        Some(product) => product.min(SIZE_CAP),
    }
}

/// The bytes from one value of a type to the next, by its layout, 0 where it has none.
fn size_of(layouts: &[TypeLayout], ty: u32) -> u64
    ensures { result ≡ layout_size (layout_at layouts.now ty) }
{
    match layouts.get(ty as usize) {
        Some(TypeLayout::Known { size, .. }) => *size,
        _ => 0,
    }
}

impl<'a, 'n, 'k, 'v, 'c> Resolver<'a, 'n, 'k, 'v, 'c> {
    /// The types of parameters.
    pub(crate) fn parameter_types(
        &self,
        alloc: Global,
        parameters: &[SpelledParameter],
    ) -> Result<TypeIdList, OutOfMemory>
        ensures { IfOk result (λ types. types ≡ map (λ p. type_number (scope_in self.now) p.ty) parameters.now) }
    {
        let mut types = TypeIdList::new(alloc);
        let mut rest = parameters;
        while let [parameter, after @ ..] = rest {
            types.push(self.type_number(parameter.ty))?;
            rest = after;
        }
        Ok(types)
    }

    /// Adds the types of the registers that instructions define.
    pub(crate) fn add_register_types(
        &self,
        types: &mut TypeIdList,
        instructions: &[SpelledInstruction],
    ) -> Result<(), OutOfMemory>
        ensures { OnOk result (types.new ≡ types.old ++ register_types (scope_in self.now) instructions.now) }
    {
        let mut rest = instructions;
        while let [instruction, after @ ..] = rest {
            if self.has_register(instruction) {
                types.push(self.value_type(&instruction.operation))?;
            }
            rest = after;
        }
        Ok(())
    }

    /// The size of a variable of so many values of a type, in bytes, at most 2^40 + 1.
    fn variable_size(&self, count: u128, ty: u32) -> u128
        ensures { result ≡ variable_size (scope_in self.now) count ty }
    {
        capped_product(count, size_of(self.values.module.layouts.as_slice(), ty))
    }

    /// Adds the size of the variable that an instruction makes, if it makes one.
    fn add_size(
        &self,
        alloc: Global,
        sizes: &mut SizeList,
        operation: &SpelledOperation,
    ) -> Result<(), OutOfMemory>
        ensures { OnOk result (sizes.new ≡ sizes.old ++ made_sizes (scope_in self.now) operation.now) }
    {
        match operation {
            SpelledOperation::Alloca { ty, count, .. } => {
                let count = self.count(alloc, count)?;
                sizes.push(self.variable_size(value_count(count), self.type_number(*ty)))
            }
            _ => Ok(()),
        }
    }

    /// The sizes of the variables that instructions make, in bytes.
    pub(crate) fn variable_sizes(
        &self,
        alloc: Global,
        instructions: &[SpelledInstruction],
    ) -> Result<SizeList, OutOfMemory>
        ensures { IfOk result (λ sizes. sizes ≡ variable_sizes (scope_in self.now) instructions.now) }
    {
        let mut sizes = SizeList::new(alloc);
        let mut rest = instructions;
        while let [instruction, after @ ..] = rest {
            self.add_size(alloc, &mut sizes, &instruction.operation)?;
            rest = after;
        }
        Ok(sizes)
    }

    /// Instructions, whose registers are numbered from this one on.
    pub(crate) fn instructions_from(
        &self,
        alloc: Global,
        first: u32,
        instructions: &[SpelledInstruction],
    ) -> Result<InstList, OutOfMemory>
        requires { first + length instructions.now < 2 ^ 32 }
        ensures { IfOk result (λ insts. insts ≡ instructions_from (scope_in self.now) first 0 instructions.now) }
    {
        let mut insts = InstList::new(alloc);
        let mut register = first;
        let mut variable: u32 = 0;
        let mut rest = instructions;
        while let [instruction, after @ ..] = rest {
            insts.push(self.instruction(alloc, register, variable, instruction)?)?;
            if self.has_register(instruction) {
                register += 1;
            }
            if is_variable(&instruction.operation) {
                variable += 1;
            }
            rest = after;
        }
        Ok(insts)
    }
}

/// Whether an instruction makes a variable.
fn is_variable(operation: &SpelledOperation) -> bool
    ensures { result ≡ is_variable operation.now }
{
    matches!(operation, SpelledOperation::Alloca { .. })
}
