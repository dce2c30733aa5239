ghost use Rattle.std.specs.Prelude.{◌≡◌};
ghost use Rattle.ir_grammar.specs.Reading.{starts, first};
ghost use Rattle.ir_grammar.specs.Grammar.{Gives, Reads, read, with_front};
ghost use Rattle.ir_grammar.specs.Spelled.{store_of, with_rest};
ghost use Rattle.ir_grammar.specs.Calls.{argument_value, argument_rule, comma_argument, more_arguments, arguments_rule, arguments, named_call, debug_call, called, call_part, call_tail, add_called, call_type, call_head, call_rest, call_word, call_rule};
ghost use Rattle.ir_read_body.specs.Views.{map_called};

use crate::adding::add_call;
use crate::endings::attachments;
use crate::operands::operand;
use ir_grammar::{
    Context, Failure, Kind, Reader, SpelledAttachment, SpelledOperand, SpelledOperation, Terminal,
    TypedOperand, refused_values,
};

/// attr* value
#[tactic(auto, unfolding(ir_grammar::specs::Calls::argument_value))]
fn argument_value(reader: &mut Reader, levels: u32) -> Result<SpelledOperand, Failure>
    ensures { Reads (λ x. x) result reader.old reader.new levels argument_value }
{
    reader.attributes(Context::Plain, levels)?;
    operand(reader, levels)
}

/// type attr* value
#[tactic(auto, unfolding(ir_grammar::specs::Calls::argument_rule))]
fn argument(reader: &mut Reader, levels: u32) -> Result<TypedOperand, Failure>
    ensures { Reads (λ x. x) result reader.old reader.new levels argument_rule }
{
    let ty = reader.ty(Context::Plain, levels)?;
    let value = argument_value(reader, levels)?;
    Ok(TypedOperand { ty, value })
}

/// , type attr* value
#[tactic(auto, unfolding(ir_grammar::specs::Calls::comma_argument))]
fn comma_argument(reader: &mut Reader, levels: u32) -> Result<TypedOperand, Failure>
    ensures { Reads (λ x. x) result reader.old reader.new levels comma_argument }
{
    reader.comma()?;
    argument(reader, levels)
}

/// (, type attr* value)*, behind those that were found.
#[tactic(auto, using(crate::proofs::ArgumentLists::more_arguments_more, crate::proofs::ArgumentLists::more_arguments_done, crate::proofs::ArgumentLists::more_arguments_failed, crate::proofs::ArgumentLists::more_arguments_take))]
fn arguments_behind(
    reader: &mut Reader,
    found: Vec<TypedOperand>,
    levels: u32,
) -> Result<Vec<TypedOperand>, Failure>
    ensures { Gives (λ v. (v.items, reader.new.rest.now, store_of reader.new.found)) result (with_front found.items (read levels more_arguments reader.old.rest.now (store_of reader.old.found))) }
{
    let mut all = found;
    while reader.comma_is_next() {
        let next = comma_argument(reader, levels)?;
        all.push(next)?;
    }
    Ok(all)
}

/// Whether an argument is read at the next token, if only to refuse it.
#[tactic(auto, using(crate::proofs::ArgumentLists::starts_with_type))]
fn starts_argument(reader: &Reader) -> bool
    ensures { result ≡ starts (first argument_rule) reader.now.rest.now }
{
    reader.starts_type(Context::Plain)
}

/// args: type attr* value (, type attr* value)* or nothing
#[tactic(auto, unfolding(ir_grammar::specs::Calls::arguments_rule))]
fn arguments_inside(reader: &mut Reader, levels: u32) -> Result<Vec<TypedOperand>, Failure>
    ensures { Reads (λ v. v.items) result reader.old reader.new levels arguments_rule }
{
    if starts_argument(reader) {
        let first = argument(reader, levels)?;
        let found = vec![in reader.alloc; first]?;
        arguments_behind(reader, found, levels)
    } else {
        Ok(Vec::new(reader.alloc))
    }
}

/// ( args )
#[tactic(auto, unfolding(ir_grammar::specs::Calls::arguments), using(ir_grammar::proofs::Levels::inside_deeper))]
fn arguments(reader: &mut Reader, levels: u32) -> Result<Vec<TypedOperand>, Failure>
    ensures { Reads (λ v. v.items) result reader.old reader.new levels arguments }
{
    let at = reader.rest.len();
    reader.take(Kind::OpenParen)?;
    let inner = Reader::deeper(levels, at)?;
    let found = arguments_inside(reader, inner)?;
    reader.take(Kind::CloseParen)?;
    Ok(found)
}

/// global ( args )
#[tactic(auto, unfolding(ir_grammar::specs::Calls::named_call))]
fn named_call(
    reader: &mut Reader,
    levels: u32,
) -> Result<Option<(Terminal, Vec<TypedOperand>)>, Failure>
    ensures { Reads (map_called) result reader.old reader.new levels named_call }
{
    let name = reader.take_among(&[Kind::Global, Kind::UsedGlobal])?;
    let found = arguments(reader, levels)?;
    Ok(Some((name, found)))
}

/// A name that begins with `llvm.dbg.` ( any )
#[tactic(auto, unfolding(ir_grammar::specs::Calls::debug_call))]
fn debug_call(
    reader: &mut Reader,
    levels: u32,
) -> Result<Option<(Terminal, Vec<TypedOperand>)>, Failure>
    ensures { Reads (map_called) result reader.old reader.new levels debug_call }
{
    reader.take(Kind::DebugGlobal)?;
    reader.in_parens(levels)?;
    Ok(None)
}

/// A function and its arguments; a function type, and a register as the function, are Unsupported.
#[tactic(auto, unfolding(ir_grammar::specs::Calls::called, ir_grammar::specs::Calls::named_call, ir_grammar::specs::Calls::debug_call))]
fn called(
    reader: &mut Reader,
    levels: u32,
) -> Result<Option<(Terminal, Vec<TypedOperand>)>, Failure>
    ensures { Reads (map_called) result reader.old reader.new levels called }
{
    if reader.next_among(&[Kind::Global, Kind::UsedGlobal]) {
        return named_call(reader, levels);
    }
    if reader.next_is(Kind::DebugGlobal) {
        return debug_call(reader, levels);
    }
    let not_called = [Kind::OpenParen, Kind::Local, Kind::LocalDefinition];
    Err(reader.refuse_either(&not_called, refused_values()))
}

/// Whether more attributes of a call are read at the next token, if only to refuse it.
#[tactic(auto, using(crate::proofs::CallTails::part_starts))]
fn starts_part(reader: &Reader) -> bool
    ensures { result ≡ starts (first call_part) reader.now.rest.now }
{
    reader.starts_attribute(Context::Plain) || reader.next_is(Kind::OpenSquare)
}

/// attr; a bundle is Unsupported.
#[tactic(auto, unfolding(ir_grammar::specs::Calls::call_part))]
fn call_part(reader: &mut Reader, levels: u32) -> Result<(), Failure>
    ensures { Reads (λ x. x) result reader.old reader.new levels call_part }
{
    if reader.starts_attribute(Context::Plain) {
        return reader.attribute(Context::Plain, levels);
    }
    Err(reader.refuse(&[Kind::OpenSquare]))
}

/// attr*
#[tactic(auto, using(crate::proofs::CallTails::parts_more, crate::proofs::CallTails::parts_done, crate::proofs::CallTails::parts_failed, crate::proofs::CallTails::parts_take))]
fn call_tail(reader: &mut Reader, levels: u32) -> Result<(), Failure>
    ensures { Reads (λ x. x) result reader.old reader.new levels call_tail }
{
    while starts_part(reader) {
        call_part(reader, levels)?;
    }
    Ok(())
}

/// The operation of a call with this result type.
fn add_called(
    reader: &mut Reader,
    result_type: usize,
    called: Option<(Terminal, Vec<TypedOperand>)>,
) -> Result<Option<SpelledOperation>, Failure>
    ensures { Gives (λ x. (x, reader.new.rest.now, store_of reader.new.found)) result (with_rest (add_called result_type (map_called called) (store_of reader.old.found)) reader.old.rest.now) }
{
    match called {
        None => Ok(None),
        Some((name, found)) => {
            let operation = add_call(reader, name.token, result_type, found.as_slice())?;
            Ok(Some(operation))
        }
    }
}

/// attr* type
#[tactic(auto, unfolding(ir_grammar::specs::Calls::call_type))]
fn call_type(reader: &mut Reader, levels: u32) -> Result<usize, Failure>
    ensures { Reads (λ x. x) result reader.old reader.new levels call_type }
{
    reader.attributes(Context::Plain, levels)?;
    reader.ty(Context::Plain, levels)
}

/// attr* type global ( args )
#[tactic(auto, unfolding(ir_grammar::specs::Calls::call_head))]
fn call_head(reader: &mut Reader, levels: u32) -> Result<Option<SpelledOperation>, Failure>
    ensures { Reads (λ x. x) result reader.old reader.new levels call_head }
{
    let result_type = call_type(reader, levels)?;
    let found = called(reader, levels)?;
    add_called(reader, result_type, found)
}

/// attr* type global ( args ) attr*
#[tactic(auto, unfolding(ir_grammar::specs::Calls::call_rest))]
fn call_rest(
    reader: &mut Reader,
    levels: u32,
) -> Result<(Option<SpelledOperation>, Vec<SpelledAttachment>), Failure>
    ensures { Reads (λ v. (v.0, v.1.items)) result reader.old reader.new levels call_rest }
{
    let operation = call_head(reader, levels)?;
    call_tail(reader, levels)?;
    let found = attachments(reader, levels)?;
    Ok((operation, found))
}

/// (tail | musttail | notail)? call, by its first word
#[tactic(auto, unfolding(ir_grammar::specs::Calls::call_word))]
fn call_word(reader: &mut Reader, levels: u32) -> Result<Terminal, Failure>
    ensures { Reads (λ x. x) result reader.old reader.new levels call_word }
{
    if reader.next_is(Kind::Call) {
        return reader.take(Kind::Call);
    }
    let word = reader.take(Kind::TailWord)?;
    reader.take(Kind::Call)?;
    Ok(word)
}

/// (tail | musttail | notail)? call attr* type global ( args ) attr*
#[tactic(auto, unfolding(ir_grammar::specs::Calls::call_rule))]
pub(crate) fn call(
    reader: &mut Reader,
    levels: u32,
) -> Result<(Terminal, (Option<SpelledOperation>, Vec<SpelledAttachment>)), Failure>
    ensures { Reads (λ v. (v.0, (v.1.0, v.1.1.items))) result reader.old reader.new levels call_rule }
{
    let word = call_word(reader, levels)?;
    let rest = call_rest(reader, levels)?;
    Ok((word, rest))
}
