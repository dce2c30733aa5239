ghost use Rattle.std.specs.Prelude.{◌≡◌, map, take, drop, IfOk, Some, None};
ghost use Rattle.std.specs.Option.{option_map};
ghost use Rattle.ir_grammar.specs.declared.spelled_bodies.SpelledOperation.TheVariants as operations;
ghost use Rattle.ir_functions.specs.Scope.{placed, typed, type_number};
ghost use Rattle.ir_functions.specs.Instructions.{operation};
ghost use Rattle.ir_functions.specs.Views.{scope_in};

use crate::operators::{binary_operator, cast_operator, predicate, rmw_operator};
use crate::resolver::Resolver;
use crate::values::pair_part;
use hw_base::OutOfMemory;
use ir_body_names::items_from;
use ir_core::{Op, Placed, Token};
use ir_grammar::{SpelledOperand, SpelledOperation, TypedOperand};
use std::alloc::Global;

impl<'a, 'n, 'k, 'v, 'c> Resolver<'a, 'n, 'k, 'v, 'c> {
    /// The count of a variable, where it is spelled.
    pub(crate) fn count(
        &self,
        alloc: Global,
        count: &Option<TypedOperand>,
    ) -> Result<Option<Placed>, OutOfMemory>
        ensures { IfOk result (λ p. p ≡ option_map (typed (scope_in self.now)) count.now) }
    {
        match count {
            None => Ok(None),
            Some(x) => Ok(Some(self.typed(alloc, x)?)),
        }
    }

    /// The value of a `ret`, where it is spelled.
    fn returned(
        &self,
        alloc: Global,
        ty: u32,
        value: &Option<SpelledOperand>,
    ) -> Result<Option<Placed>, OutOfMemory>
        ensures { IfOk result (λ p. p ≡ option_map (placed (scope_in self.now) ty) value.now) }
    {
        match value {
            None => Ok(None),
            Some(x) => Ok(Some(self.placed(alloc, ty, x)?)),
        }
    }

    fn binary(
        &self,
        alloc: Global,
        word: &Token,
        a: &TypedOperand,
        b: &SpelledOperand,
    ) -> Result<Op, OutOfMemory>
        ensures { IfOk result (λ o. o ≡ operation (scope_in self.now) 0 word.now (operations.Binary a.now b.now)) }
    {
        Ok(Op::Binary {
            op: binary_operator(self.token_bytes(word)),
            a: self.typed(alloc, a)?,
            b: self.placed(alloc, self.type_number(a.ty), b)?,
        })
    }

    fn icmp(
        &self,
        alloc: Global,
        word: &Token,
        pred: &Token,
        a: &TypedOperand,
        b: &SpelledOperand,
    ) -> Result<Op, OutOfMemory>
        ensures { IfOk result (λ o. o ≡ operation (scope_in self.now) 0 word.now (operations.Icmp pred.now a.now b.now)) }
    {
        Ok(Op::Icmp {
            pred: predicate(self.token_bytes(pred)),
            a: self.typed(alloc, a)?,
            b: self.placed(alloc, self.type_number(a.ty), b)?,
        })
    }

    fn select(
        &self,
        alloc: Global,
        word: &Token,
        condition: &SpelledOperand,
        a: &TypedOperand,
        b: &TypedOperand,
    ) -> Result<Op, OutOfMemory>
        ensures { IfOk result (λ o. o ≡ operation (scope_in self.now) 0 word.now (operations.Select condition.now a.now b.now)) }
    {
        Ok(Op::Select {
            cond: self.placed(alloc, self.bit_type(), condition)?,
            a: self.typed(alloc, a)?,
            b: self.typed(alloc, b)?,
        })
    }

    fn load(
        &self,
        alloc: Global,
        word: &Token,
        ty: usize,
        pointer: &SpelledOperand,
        stated: &Option<Token>,
    ) -> Result<Op, OutOfMemory>
        ensures { IfOk result (λ o. o ≡ operation (scope_in self.now) 0 word.now (operations.Load ty pointer.now stated.now)) }
    {
        let number = self.type_number(ty);
        Ok(Op::Load {
            ty: number,
            at: self.placed(alloc, self.pointer_type(), pointer)?,
            align: self.alignment(number, stated),
        })
    }

    fn store(
        &self,
        alloc: Global,
        word: &Token,
        value: &TypedOperand,
        pointer: &SpelledOperand,
        stated: &Option<Token>,
    ) -> Result<Op, OutOfMemory>
        ensures { IfOk result (λ o. o ≡ operation (scope_in self.now) 0 word.now (operations.Store value.now pointer.now stated.now)) }
    {
        Ok(Op::Store {
            value: self.typed(alloc, value)?,
            at: self.placed(alloc, self.pointer_type(), pointer)?,
            align: self.alignment(self.type_number(value.ty), stated),
        })
    }

    fn address(
        &self,
        alloc: Global,
        word: &Token,
        of: usize,
        base: &SpelledOperand,
        first: usize,
        count: usize,
    ) -> Result<Op, OutOfMemory>
        ensures { IfOk result (λ o. o ≡ operation (scope_in self.now) 0 word.now (operations.GetElementPtr of base.now first count)) }
    {
        let indices = items_from(&self.names.bodies.operands, first, count);
        Ok(Op::Gep {
            of: self.type_number(of),
            base: self.placed(alloc, self.pointer_type(), base)?,
            indices: self.typed_row(alloc, indices)?,
        })
    }

    fn exchange(
        &self,
        alloc: Global,
        word: &Token,
        operator: &Token,
        pointer: &SpelledOperand,
        value: &TypedOperand,
        stated: &Option<Token>,
    ) -> Result<Op, OutOfMemory>
        ensures { IfOk result (λ o. o ≡ operation (scope_in self.now) 0 word.now (operations.AtomicRmw operator.now pointer.now value.now stated.now)) }
    {
        Ok(Op::Rmw {
            op: rmw_operator(self.token_bytes(operator)),
            at: self.placed(alloc, self.pointer_type(), pointer)?,
            value: self.typed(alloc, value)?,
            align: self.atomic_alignment(self.type_number(value.ty), stated),
        })
    }

    fn compare_exchange(
        &self,
        alloc: Global,
        word: &Token,
        pointer: &SpelledOperand,
        expected: &TypedOperand,
        new: &TypedOperand,
        stated: &Option<Token>,
    ) -> Result<Op, OutOfMemory>
        ensures { IfOk result (λ o. o ≡ operation (scope_in self.now) 0 word.now (operations.CmpXchg pointer.now expected.now new.now stated.now)) }
    {
        Ok(Op::CmpXchg {
            at: self.placed(alloc, self.pointer_type(), pointer)?,
            expected: self.typed(alloc, expected)?,
            new: self.typed(alloc, new)?,
            align: self.atomic_alignment(self.type_number(new.ty), stated),
        })
    }

    fn extract(
        &self,
        alloc: Global,
        word: &Token,
        of: usize,
        value: &SpelledOperand,
        part: &Token,
    ) -> Result<Op, OutOfMemory>
        ensures { IfOk result (λ o. o ≡ operation (scope_in self.now) 0 word.now (operations.ExtractValue of value.now part.now)) }
    {
        Ok(Op::ExtractValue {
            of: self.placed(alloc, self.pair_type(of), value)?,
            part: pair_part(self.token_bytes(part)),
        })
    }

    fn branch(
        &self,
        alloc: Global,
        word: &Token,
        condition: &SpelledOperand,
        yes: &Token,
        no: &Token,
    ) -> Result<Op, OutOfMemory>
        ensures { IfOk result (λ o. o ≡ operation (scope_in self.now) 0 word.now (operations.Branch condition.now yes.now no.now)) }
    {
        Ok(Op::BrIf {
            cond: self.placed(alloc, self.bit_type(), condition)?,
            yes: self.local_number(alloc, yes)?,
            no: self.local_number(alloc, no)?,
        })
    }

    fn switch(
        &self,
        alloc: Global,
        word: &Token,
        value: &TypedOperand,
        other: &Token,
        first: usize,
        count: usize,
    ) -> Result<Op, OutOfMemory>
        ensures { IfOk result (λ o. o ≡ operation (scope_in self.now) 0 word.now (operations.Switch value.now other.now first count)) }
    {
        let cases = items_from(&self.names.bodies.cases, first, count);
        Ok(Op::Switch {
            on: self.typed(alloc, value)?,
            other: self.local_number(alloc, other)?,
            cases: self.switch_cases(alloc, cases)?,
        })
    }

    fn phi(
        &self,
        alloc: Global,
        word: &Token,
        ty: usize,
        first: usize,
        count: usize,
    ) -> Result<Op, OutOfMemory>
        ensures { IfOk result (λ o. o ≡ operation (scope_in self.now) 0 word.now (operations.Phi ty first count)) }
    {
        let number = self.type_number(ty);
        let entries = items_from(&self.names.bodies.incoming, first, count);
        Ok(Op::Phi {
            ty: number,
            entries: self.phi_entries(alloc, number, entries)?,
        })
    }

    /// What an instruction does, by its word; a variable that it makes has this number.
    pub(crate) fn operation(
        &self,
        alloc: Global,
        variable: u32,
        word: &Token,
        spelled: &SpelledOperation,
    ) -> Result<Op, OutOfMemory>
        ensures { IfOk result (λ o. o ≡ operation (scope_in self.now) variable word.now spelled.now) }
    {
        match spelled {
            SpelledOperation::Binary { a, b } => self.binary(alloc, word, a, b),
            SpelledOperation::Icmp { predicate, a, b } => {
                self.icmp(alloc, word, predicate, a, b)
            }
            SpelledOperation::Cast { a, to } => Ok(Op::Cast {
                op: cast_operator(self.token_bytes(word)),
                a: self.typed(alloc, a)?,
                to: self.type_number(*to),
            }),
            SpelledOperation::Freeze { a } => Ok(Op::Freeze {
                a: self.typed(alloc, a)?,
            }),
            SpelledOperation::Select { condition, a, b } => {
                self.select(alloc, word, condition, a, b)
            }
            SpelledOperation::Phi { ty, first, count } => {
                self.phi(alloc, word, *ty, *first, *count)
            }
            SpelledOperation::Alloca { ty, count, .. } => Ok(Op::Alloca {
                index: variable,
                ty: self.type_number(*ty),
                count: self.count(alloc, count)?,
            }),
            SpelledOperation::Load {
                ty,
                pointer,
                alignment,
            } => self.load(alloc, word, *ty, pointer, alignment),
            SpelledOperation::Store {
                value,
                pointer,
                alignment,
            } => self.store(alloc, word, value, pointer, alignment),
            SpelledOperation::GetElementPtr {
                of,
                base,
                first,
                count,
            } => self.address(alloc, word, *of, base, *first, *count),
            SpelledOperation::Fence => Ok(Op::Fence),
            SpelledOperation::AtomicRmw {
                operator,
                pointer,
                value,
                alignment,
            } => self.exchange(alloc, word, operator, pointer, value, alignment),
            SpelledOperation::CmpXchg {
                pointer,
                expected,
                new,
                alignment,
            } => self.compare_exchange(alloc, word, pointer, expected, new, alignment),
            SpelledOperation::ExtractValue { of, value, part } => {
                self.extract(alloc, word, *of, value, part)
            }
            SpelledOperation::Call {
                name,
                result,
                first,
                count,
            } => {
                let arguments = items_from(&self.names.bodies.operands, *first, *count);
                self.call(alloc, name, self.type_number(*result), arguments)
            }
            SpelledOperation::Return { ty, value } => Ok(Op::Ret {
                value: self.returned(alloc, self.type_number(*ty), value)?,
            }),
            SpelledOperation::Jump { block } => Ok(Op::Br {
                block: self.local_number(alloc, block)?,
            }),
            SpelledOperation::Branch { condition, yes, no } => {
                self.branch(alloc, word, condition, yes, no)
            }
            SpelledOperation::Switch {
                value,
                other,
                first,
                count,
            } => self.switch(alloc, word, value, other, *first, *count),
            SpelledOperation::Unreachable => Ok(Op::Unreachable),
        }
    }
}
