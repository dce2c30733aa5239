ghost use Rattle.std.specs.Prelude.{◌≡◌, [], ◌∷◌, ◌++◌, true, false};
ghost use Rattle.ir_grammar.specs.declared.kind.Kind.TheVariants as k;
ghost use Rattle.ir_grammar.specs.declared.terminal.Failure.TheVariants.{OutOfMemory as NoMemory};
ghost use Rattle.ir_grammar.specs.Reading.{starts, first};
ghost use Rattle.ir_grammar.specs.Rules.{one, the, ◌⨾◌, optional};
ghost use Rattle.ir_grammar.specs.Grammar.{Gives, Reads, read, with_front};
ghost use Rattle.ir_grammar.specs.Spelled.{store_of, with_rest};
ghost use Rattle.ir_grammar.specs.SpelledBodies.{add_kept, kept_ones};
ghost use Rattle.ir_grammar.specs.Terminators.{return_rest, branch_rest, switch_rest, unreachable_rest};
ghost use Rattle.ir_grammar.specs.Blocks.{result_name, instruction_rule, record_rule, block_part, block_parts, worded_terminator, terminator, block_rule, later_blocks, blocks_rule, function_body};
ghost use Rattle.ir_read_body.specs.Views.{with_ones, AddsKept};

use crate::adding::{add_block, add_instruction};
use crate::bodies::{body, next_is_refused, starts_plain};
use crate::terminators::{branch_rest, return_rest, switch_rest, unreachable_rest};
use ir_core::Token;
use ir_grammar::{
    Failure, Kind, Reader, SpelledAttachment, SpelledBlock, SpelledInstruction, SpelledOperation,
    Terminal, locals, token_in,
};

/// local =
#[tactic(auto, unfolding(ir_grammar::specs::Blocks::result_name))]
fn result_name(reader: &mut Reader, levels: u32) -> Result<Terminal, Failure>
    ensures { Reads (λ x. x) result reader.old reader.new levels result_name }
{
    let name = reader.take_among(locals())?;
    reader.take(Kind::Equals)?;
    Ok(name)
}

/// (local =)?
#[tactic(auto, unfolding(ir_grammar::specs::Blocks::result_name))]
fn maybe_result(reader: &mut Reader, levels: u32) -> Result<Option<Terminal>, Failure>
    ensures { Reads (λ x. x) result reader.old reader.new levels (optional result_name) }
{
    if reader.next_among(locals()) {
        let name = result_name(reader, levels)?;
        return Ok(Some(name));
    }
    Ok(None)
}

/// An instruction, if it does something.
fn add_kept(
    reader: &mut Reader,
    name: Option<Token>,
    word: Token,
    operation: Option<SpelledOperation>,
    found: &[SpelledAttachment],
) -> Result<Option<SpelledInstruction>, Failure>
    ensures { Gives (λ x. (x, reader.new.rest.now, store_of reader.new.found)) result (with_rest (add_kept name word operation found.now (store_of reader.old.found)) reader.old.rest.now) }
{
    match operation {
        None => Ok(None),
        Some(operation) => {
            let instruction = add_instruction(reader, name, word, operation, found)?;
            Ok(Some(instruction))
        }
    }
}

/// (local =)? body (, metaname (metanum | node))*
#[tactic(auto, unfolding(ir_grammar::specs::Blocks::instruction_rule))]
fn instruction(
    reader: &mut Reader,
    entry: bool,
    levels: u32,
) -> Result<Option<SpelledInstruction>, Failure>
    ensures { Reads (λ x. x) result reader.old reader.new levels (instruction_rule entry) }
{
    let name = maybe_result(reader, levels)?;
    let (word, (operation, found)) = body(reader, entry, levels)?;
    add_kept(
        reader,
        token_in(name),
        word.token,
        operation,
        found.as_slice(),
    )
}

/// record ( any )
#[tactic(auto, unfolding(ir_grammar::specs::Blocks::record_rule))]
fn record_skipped(reader: &mut Reader, levels: u32) -> Result<Option<SpelledInstruction>, Failure>
    ensures { Reads (λ x. x) result reader.old reader.new levels record_rule }
{
    reader.take(Kind::DebugRecord)?;
    reader.in_parens(levels)?;
    Ok(None)
}

/// record ( any ) | inst
#[tactic(auto, unfolding(ir_grammar::specs::Blocks::block_part, ir_grammar::specs::Blocks::record_rule))]
fn block_part(
    reader: &mut Reader,
    entry: bool,
    levels: u32,
) -> Result<Option<SpelledInstruction>, Failure>
    ensures { Reads (λ x. x) result reader.old reader.new levels (block_part entry) }
{
    if reader.next_is(Kind::DebugRecord) {
        return record_skipped(reader, levels);
    }
    instruction(reader, entry, levels)
}

/// Whether a record or an instruction is read at the next token, if only to refuse it.
#[tactic(auto, using(crate::proofs::BodyKinds::part_kinds))]
fn starts_part(reader: &Reader, entry: bool) -> bool
    ensures { result ≡ starts (first (block_part entry)) reader.now.rest.now }
{
    reader.next_is(Kind::DebugRecord)
        || reader.next_among(locals())
        || starts_plain(reader, entry)
        || reader.next_among(&[Kind::Call, Kind::TailWord])
        || next_is_refused(reader, entry)
}

/// The instructions, and one more if it is there.
fn with_kept(
    found: Vec<SpelledInstruction>,
    next: Option<SpelledInstruction>,
) -> Result<Vec<SpelledInstruction>, Failure>
    ensures { AddsKept found.items next result }
{
    let mut all = found;
    if let Some(instruction) = next {
        all.push(instruction)?;
    }
    Ok(all)
}

/// ret void | ret type value
fn return_word(
    reader: &mut Reader,
    levels: u32,
) -> Result<(Terminal, (SpelledOperation, Vec<SpelledAttachment>)), Failure>
    ensures { Reads (λ v. (v.0, (v.1.0, v.1.1.items))) result reader.old reader.new levels (one (k.Ret ∷ []) ⨾ return_rest) }
{
    let word = reader.take(Kind::Ret)?;
    let rest = return_rest(reader, levels)?;
    Ok((word, rest))
}

/// br label local | br i1 value , label local , label local
fn branch(
    reader: &mut Reader,
    levels: u32,
) -> Result<(Terminal, (SpelledOperation, Vec<SpelledAttachment>)), Failure>
    ensures { Reads (λ v. (v.0, (v.1.0, v.1.1.items))) result reader.old reader.new levels (one (k.Br ∷ []) ⨾ branch_rest) }
{
    let word = reader.take(Kind::Br)?;
    let rest = branch_rest(reader, levels)?;
    Ok((word, rest))
}

/// switch type value , label local [ (type integer , label local)* ]
fn switch(
    reader: &mut Reader,
    levels: u32,
) -> Result<(Terminal, (SpelledOperation, Vec<SpelledAttachment>)), Failure>
    ensures { Reads (λ v. (v.0, (v.1.0, v.1.1.items))) result reader.old reader.new levels (one (k.Switch ∷ []) ⨾ switch_rest) }
{
    let word = reader.take(Kind::Switch)?;
    let rest = switch_rest(reader, levels)?;
    Ok((word, rest))
}

/// unreachable
fn unreachable(
    reader: &mut Reader,
    levels: u32,
) -> Result<(Terminal, (SpelledOperation, Vec<SpelledAttachment>)), Failure>
    ensures { Reads (λ v. (v.0, (v.1.0, v.1.1.items))) result reader.old reader.new levels (one (k.Unreachable ∷ []) ⨾ unreachable_rest) }
{
    let word = reader.take(Kind::Unreachable)?;
    let rest = unreachable_rest(reader, levels)?;
    Ok((word, rest))
}

/// (record ( any ) | inst)*: the instructions that do something.
#[tactic(auto, using(crate::proofs::PartLists::parts_more, crate::proofs::PartLists::parts_done, crate::proofs::PartLists::parts_failed, crate::proofs::PartLists::parts_take))]
fn block_parts(
    reader: &mut Reader,
    entry: bool,
    levels: u32,
) -> Result<Vec<SpelledInstruction>, Failure>
    ensures { Gives (λ v. (v.items, reader.new.rest.now, store_of reader.new.found)) result (with_ones [] (read levels (block_parts entry) reader.old.rest.now (store_of reader.old.found))) }
{
    let mut all = Vec::new(reader.alloc);
    while starts_part(reader, entry) {
        let next = block_part(reader, entry, levels)?;
        all = with_kept(all, next)?;
    }
    Ok(all)
}

/// A terminator's first word and what follows it.
#[tactic(auto, unfolding(ir_grammar::specs::Blocks::worded_terminator))]
fn worded_terminator(
    reader: &mut Reader,
    levels: u32,
) -> Result<(Terminal, (SpelledOperation, Vec<SpelledAttachment>)), Failure>
    ensures { Reads (λ v. (v.0, (v.1.0, v.1.1.items))) result reader.old reader.new levels worded_terminator }
{
    if reader.next_is(Kind::Ret) {
        return return_word(reader, levels);
    }
    if reader.next_is(Kind::Br) {
        return branch(reader, levels);
    }
    if reader.next_is(Kind::Switch) {
        return switch(reader, levels);
    }
    unreachable(reader, levels)
}

/// term (, metaname (metanum | node))*
#[tactic(auto, unfolding(ir_grammar::specs::Blocks::terminator))]
fn terminator(reader: &mut Reader, levels: u32) -> Result<SpelledInstruction, Failure>
    ensures { Reads (λ x. x) result reader.old reader.new levels terminator }
{
    let (word, (operation, found)) = worded_terminator(reader, levels)?;
    add_instruction(reader, None, word.token, operation, found.as_slice())
}

/// label?
fn maybe_label(reader: &mut Reader, levels: u32) -> Result<Option<Terminal>, Failure>
    ensures { Reads (λ x. x) result reader.old reader.new levels (optional (the k.Label)) }
{
    if reader.next_is(Kind::Label) {
        let label = reader.take(Kind::Label)?;
        return Ok(Some(label));
    }
    Ok(None)
}

/// label? (record ( any ) | inst)* term
#[tactic(auto, using(crate::proofs::PartLists::block_read))]
fn block(reader: &mut Reader, entry: bool, levels: u32) -> Result<SpelledBlock, Failure>
    ensures { Reads (λ x. x) result reader.old reader.new levels (block_rule entry) }
{
    let label = maybe_label(reader, levels)?;
    let mut found = block_parts(reader, entry, levels)?;
    let last = terminator(reader, levels)?;
    found.push(last)?;
    add_block(reader, token_in(label), found.as_slice())
}

/// Whether a block is read at the next token, if only to refuse it.
#[tactic(auto, using(crate::proofs::BodyKinds::block_kinds))]
fn starts_block(reader: &Reader) -> bool
    ensures { result ≡ starts (first (block_rule false)) reader.now.rest.now }
{
    reader.next_is(Kind::Label)
        || starts_part(reader, false)
        || reader.next_among(&[Kind::Ret, Kind::Br, Kind::Switch, Kind::Unreachable])
}

/// Blocks, behind those that were found.
#[tactic(auto, using(crate::proofs::BlockLists::later_blocks_more, crate::proofs::BlockLists::later_blocks_done, crate::proofs::BlockLists::later_blocks_failed, crate::proofs::BlockLists::later_blocks_take))]
fn blocks_behind(
    reader: &mut Reader,
    found: Vec<SpelledBlock>,
    levels: u32,
) -> Result<Vec<SpelledBlock>, Failure>
    ensures { Gives (λ v. (v.items, reader.new.rest.now, store_of reader.new.found)) result (with_front found.items (read levels later_blocks reader.old.rest.now (store_of reader.old.found))) }
{
    let mut all = found;
    while starts_block(reader) {
        let next = block(reader, false, levels)?;
        all.push(next)?;
    }
    Ok(all)
}

/// block+
#[tactic(auto, unfolding(ir_grammar::specs::Blocks::blocks_rule))]
fn blocks_inside(reader: &mut Reader, levels: u32) -> Result<Vec<SpelledBlock>, Failure>
    ensures { Reads (λ v. v.items) result reader.old reader.new levels blocks_rule }
{
    let first = block(reader, true, levels)?;
    let found = vec![in reader.alloc; first]?;
    blocks_behind(reader, found, levels)
}

/// { block+ }: the blocks of a function, whose instructions are added to what was read.
#[tactic(auto, unfolding(ir_grammar::specs::Blocks::function_body), using(ir_grammar::proofs::Levels::inside_deeper))]
pub fn function_body(reader: &mut Reader, levels: u32) -> Result<Vec<SpelledBlock>, Failure>
    ensures { Reads (λ v. v.items) result reader.old reader.new levels function_body }
{
    let at = reader.rest.len();
    reader.take(Kind::OpenBrace)?;
    let inner = Reader::deeper(levels, at)?;
    let found = blocks_inside(reader, inner)?;
    reader.take(Kind::CloseBrace)?;
    Ok(found)
}
