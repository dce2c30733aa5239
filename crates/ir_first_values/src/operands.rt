ghost use Rattle.std.specs.Prelude.{◌≡◌};
ghost use Rattle.ir_first_values.specs.Offsets.{IsReady};
ghost use Rattle.ir_grammar.specs.Grammar.{nesting_limit};
ghost use Rattle.ir_first_values.specs.Tables.{tables_of};
ghost use Rattle.ir_first_values.specs.Addresses.{address_of};
ghost use Rattle.ir_first_values.specs.Operands.{number_operand, integer_operand, address_operand, pair_operand, typed_operand, constant_operand};

use crate::Initializers;
use crate::addresses::Address;
use crate::integers::integer_in;
use crate::values::{bool_in, operand_of};
use hw_base::MOST_NESTING;
use ir_core::{IrType, Operand};
use ir_grammar::SpelledConstant;

/// A number as an operand.
fn number_operand(number: Option<u128>) -> Option<Operand>
    ensures { result ≡ number_operand number }
{
    match number {
        Some(number) => Some(Operand::Int(number)),
        None => None,
    }
}

/// A constant of an integer type of so many bits.
fn integer_operand(width: u32, constant: SpelledConstant) -> Option<Operand>
    ensures { result ≡ integer_operand width constant }
{
    match constant {
        SpelledConstant::Integer(integer) => number_operand(integer_in(width, integer)),
        SpelledConstant::Bool(value) => number_operand(bool_in(value, width)),
        SpelledConstant::Zero => Some(Operand::Int(0)),
        _ => None,
    }
}

/// A constant of the type `ptr`, by the address that it spells.
fn address_operand(address: Option<Address>) -> Option<Operand>
    ensures { result ≡ address_operand address }
{
    match address {
        Some(address) => Some(operand_of(address)),
        None => None,
    }
}

/// A constant pair.
fn pair_operand(constant: SpelledConstant) -> Option<Operand>
    ensures { result ≡ pair_operand constant }
{
    match constant {
        SpelledConstant::Zero => Some(Operand::Int(0)),
        _ => None,
    }
}

impl<'a> Initializers<'a> {
    /// The constant that an instruction names, as an operand of a type, by the number of the type in the module and that of
    /// the constant among the spelled ones. None if, as it is spelled, it breaks a rule of the type, and if the type is neither
    /// an integer, `ptr` nor a pair. The time is in proportion to the constant, and to the fields of the structs into which its
    /// `getelementptr`s step.
    pub fn operand(&self, ty: u32, constant: usize) -> Option<Operand>
        requires { IsReady self.now }
        ensures { result ≡ constant_operand (tables_of self.now) ty constant }
    {
        match self.constant_at(constant) {
            None => None,
            Some(spelled) => match self.type_at(ty) {
                Some(IrType::Int(width)) => integer_operand(width, spelled),
                Some(IrType::Ptr) => address_operand(self.address_of(MOST_NESTING, constant)),
                Some(IrType::Pair(_)) => pair_operand(spelled),
                _ => None,
            },
        }
    }
}
