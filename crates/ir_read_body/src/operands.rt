ghost use Rattle.std.specs.Prelude.{◌≡◌};
ghost use Rattle.ir_grammar.specs.Grammar.{Reads};
ghost use Rattle.ir_grammar.specs.Operands.{register, integer_operand, named_operand, address_operand, simple_operand, operand_rule, typed_operand, comma_operand, comma_typed, pointer_operand, comma_pointer, bit_word, bit_operand, block_name, comma_block};

use crate::adding::add_operand;
use ir_grammar::{
    Context, Failure, Kind, Reader, SpelledConstant, SpelledOperand, Terminal, TypedOperand,
    globals, integers, locals, refused_types, refused_values,
};

/// The kinds that a constant of one token has.
pub(crate) const SIMPLE: [Kind; 13] = [
    Kind::Count,
    Kind::SmallPower,
    Kind::Power,
    Kind::Negative,
    Kind::GreatPower,
    Kind::Great,
    Kind::Global,
    Kind::UsedGlobal,
    Kind::DebugGlobal,
    Kind::True,
    Kind::False,
    Kind::Null,
    Kind::ZeroWord,
];

/// A local, of these kinds.
#[tactic(auto, unfolding(ir_grammar::specs::Operands::register))]
pub(crate) fn register(
    reader: &mut Reader,
    kinds: &[Kind],
    levels: u32,
) -> Result<SpelledOperand, Failure>
    ensures { Reads (λ x. x) result reader.old reader.new levels (register kinds.now) }
{
    let token = reader.take_among(kinds)?;
    Ok(SpelledOperand::Register(token.token))
}

/// integer
#[tactic(auto, unfolding(ir_grammar::specs::Operands::integer_operand, ir_grammar::specs::Operands::word_operand))]
pub(crate) fn integer_operand(reader: &mut Reader, levels: u32) -> Result<SpelledOperand, Failure>
    ensures { Reads (λ x. x) result reader.old reader.new levels integer_operand }
{
    let token = reader.take_among(integers())?;
    add_operand(reader, token, SpelledConstant::Integer(token.integer()))
}

/// true | false | null | undef | poison | zeroinitializer
#[tactic(auto, unfolding(ir_grammar::specs::Operands::named_operand, ir_grammar::specs::Operands::word_operand))]
fn named_operand(reader: &mut Reader, levels: u32) -> Result<SpelledOperand, Failure>
    ensures { Reads (λ x. x) result reader.old reader.new levels named_operand }
{
    if reader.next_is(Kind::True) {
        let token = reader.take(Kind::True)?;
        return add_operand(reader, token, SpelledConstant::Bool(true));
    }
    if reader.next_is(Kind::False) {
        let token = reader.take(Kind::False)?;
        return add_operand(reader, token, SpelledConstant::Bool(false));
    }
    if reader.next_is(Kind::Null) {
        let token = reader.take(Kind::Null)?;
        return add_operand(reader, token, SpelledConstant::Null);
    }
    let token = reader.take(Kind::ZeroWord)?;
    add_operand(reader, token, SpelledConstant::Zero)
}

/// getelementptr flag* ( type , ptr const (, type integer)* )
#[tactic(auto, unfolding(ir_grammar::specs::Operands::address_operand))]
pub(crate) fn address_operand(reader: &mut Reader, levels: u32) -> Result<SpelledOperand, Failure>
    ensures { Reads (λ x. x) result reader.old reader.new levels address_operand }
{
    let word = reader.take(Kind::GetElementPtr)?;
    reader.flags(levels)?;
    let number = reader.address_parens(levels)?;
    Ok(SpelledOperand::Constant {
        first: word.token,
        number,
    })
}

/// global | integer | true | false | null | undef | poison | zeroinitializer
#[tactic(auto, unfolding(ir_grammar::specs::Operands::simple_operand, ir_grammar::specs::Operands::integer_operand, ir_grammar::specs::Operands::word_operand))]
pub(crate) fn simple_operand(reader: &mut Reader, levels: u32) -> Result<SpelledOperand, Failure>
    ensures { Reads (λ x. x) result reader.old reader.new levels simple_operand }
{
    if reader.next_among(integers()) {
        return integer_operand(reader, levels);
    }
    if reader.next_among(globals()) {
        let token = reader.take_among(globals())?;
        return add_operand(reader, token, SpelledConstant::Global(token.token));
    }
    named_operand(reader, levels)
}

/// value
#[tactic(auto, unfolding(ir_grammar::specs::Operands::operand_rule, ir_grammar::specs::Operands::register, ir_grammar::specs::Operands::simple_operand, ir_grammar::specs::Operands::integer_operand, ir_grammar::specs::Operands::word_operand, ir_grammar::specs::Operands::named_operand, ir_grammar::specs::Operands::address_operand))]
pub(crate) fn operand(reader: &mut Reader, levels: u32) -> Result<SpelledOperand, Failure>
    ensures { Reads (λ x. x) result reader.old reader.new levels operand_rule }
{
    if reader.next_among(locals()) {
        return register(reader, locals(), levels);
    }
    if reader.next_among(&SIMPLE) {
        return simple_operand(reader, levels);
    }
    if reader.next_is(Kind::GetElementPtr) {
        return address_operand(reader, levels);
    }
    Err(reader.refuse(refused_values()))
}

/// type value
#[tactic(auto, unfolding(ir_grammar::specs::Operands::typed_operand))]
pub(crate) fn typed_operand(reader: &mut Reader, levels: u32) -> Result<TypedOperand, Failure>
    ensures { Reads (λ x. x) result reader.old reader.new levels typed_operand }
{
    let ty = reader.ty(Context::Plain, levels)?;
    let value = operand(reader, levels)?;
    Ok(TypedOperand { ty, value })
}

/// , value
#[tactic(auto, unfolding(ir_grammar::specs::Operands::comma_operand))]
pub(crate) fn comma_operand(reader: &mut Reader, levels: u32) -> Result<SpelledOperand, Failure>
    ensures { Reads (λ x. x) result reader.old reader.new levels comma_operand }
{
    reader.comma()?;
    operand(reader, levels)
}

/// , type value
#[tactic(auto, unfolding(ir_grammar::specs::Operands::comma_typed))]
pub(crate) fn comma_typed(reader: &mut Reader, levels: u32) -> Result<TypedOperand, Failure>
    ensures { Reads (λ x. x) result reader.old reader.new levels comma_typed }
{
    reader.comma()?;
    typed_operand(reader, levels)
}

/// ptr value
#[tactic(auto, unfolding(ir_grammar::specs::Operands::pointer_operand))]
pub(crate) fn pointer_operand(reader: &mut Reader, levels: u32) -> Result<SpelledOperand, Failure>
    ensures { Reads (λ x. x) result reader.old reader.new levels pointer_operand }
{
    reader.ptr_word(levels)?;
    operand(reader, levels)
}

/// , ptr value
#[tactic(auto, unfolding(ir_grammar::specs::Operands::comma_pointer))]
pub(crate) fn comma_pointer(reader: &mut Reader, levels: u32) -> Result<SpelledOperand, Failure>
    ensures { Reads (λ x. x) result reader.old reader.new levels comma_pointer }
{
    reader.comma()?;
    pointer_operand(reader, levels)
}

/// i1, where a production asks for it
#[tactic(auto, unfolding(ir_grammar::specs::Operands::bit_word))]
pub(crate) fn bit_word(reader: &mut Reader, levels: u32) -> Result<Terminal, Failure>
    ensures { Reads (λ x. x) result reader.old reader.new levels bit_word }
{
    if reader.next_is(Kind::BitType) {
        return reader.take(Kind::BitType);
    }
    Err(reader.refuse(refused_types(Context::Plain)))
}

/// i1 value
#[tactic(auto, unfolding(ir_grammar::specs::Operands::bit_operand))]
pub(crate) fn bit_operand(reader: &mut Reader, levels: u32) -> Result<SpelledOperand, Failure>
    ensures { Reads (λ x. x) result reader.old reader.new levels bit_operand }
{
    bit_word(reader, levels)?;
    operand(reader, levels)
}

/// label local
#[tactic(auto, unfolding(ir_grammar::specs::Operands::block_name))]
pub(crate) fn block_name(reader: &mut Reader, levels: u32) -> Result<Terminal, Failure>
    ensures { Reads (λ x. x) result reader.old reader.new levels block_name }
{
    reader.take(Kind::LabelWord)?;
    reader.take_among(locals())
}

/// , label local
#[tactic(auto, unfolding(ir_grammar::specs::Operands::comma_block))]
pub(crate) fn comma_block(reader: &mut Reader, levels: u32) -> Result<Terminal, Failure>
    ensures { Reads (λ x. x) result reader.old reader.new levels comma_block }
{
    reader.comma()?;
    block_name(reader, levels)
}
