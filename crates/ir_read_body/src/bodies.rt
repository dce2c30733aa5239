ghost use Rattle.std.specs.Prelude.{◌≡◌, [], ◌∷◌, ◌++◌, if◌then◌else◌};
ghost use Rattle.ir_grammar.specs.declared.context.Context.TheVariants as at;
ghost use Rattle.ir_grammar.specs.declared.terminal.Failure.TheVariants.{Flawed};
ghost use Rattle.ir_grammar.specs.Words.{refused_types};
ghost use Rattle.ir_grammar.specs.declared.kind.Kind.TheVariants as k;
ghost use Rattle.ir_grammar.specs.Reading.{starts, first, bad, unsupported};
ghost use Rattle.ir_grammar.specs.Rules.{one, ◌⨾◌};
ghost use Rattle.ir_grammar.specs.Grammar.{Reads};
ghost use Rattle.ir_grammar.specs.Instructions.{binary_rest, icmp_rest, cast_rest, freeze_rest, select_rest, phi_rest, load_rest, store_rest, step_rest, fence_rest, rmw_rest, exchange_rest, extract_rest};
ghost use Rattle.ir_grammar.specs.Blocks.{value_instruction, memory_instruction, atomic_instruction, alloca, common_instruction, plain_instruction, plain_body, refused_bodies, body_rule};

use crate::atomics::{exchange_rest, fence_rest, rmw_rest};
use crate::calls::call;
use crate::instructions::{
    binary_rest, cast_rest, extract_rest, freeze_rest, icmp_rest, select_rest,
};
use crate::memory::{alloca_rest, load_rest, step_rest, store_rest};
use crate::phis::phi_rest;
use ir_grammar::{
    Context, Failure, Kind, Reader, SpelledAttachment, SpelledOperation, Terminal, refused_types,
};

/// First words of instructions that give a value of their operands.
const VALUE_WORDS: [Kind; 7] = [
    Kind::Binary,
    Kind::BinaryRmw,
    Kind::Icmp,
    Kind::Cast,
    Kind::Freeze,
    Kind::Select,
    Kind::Phi,
];

/// First words of the instructions of any block, but for calls.
const COMMON_WORDS: [Kind; 14] = [
    Kind::Binary,
    Kind::BinaryRmw,
    Kind::Icmp,
    Kind::Cast,
    Kind::Freeze,
    Kind::Select,
    Kind::Phi,
    Kind::Load,
    Kind::Store,
    Kind::GetElementPtr,
    Kind::Fence,
    Kind::AtomicRmw,
    Kind::CmpXchg,
    Kind::ExtractValue,
];

/// binop flag* type value , value
fn binary(
    reader: &mut Reader,
    levels: u32,
) -> Result<(Terminal, (SpelledOperation, Vec<SpelledAttachment>)), Failure>
    ensures { Reads (λ v. (v.0, (v.1.0, v.1.1.items))) result reader.old reader.new levels (one (k.Binary ∷ k.BinaryRmw ∷ []) ⨾ binary_rest) }
{
    let word = reader.take_among(&[Kind::Binary, Kind::BinaryRmw])?;
    let rest = binary_rest(reader, levels)?;
    Ok((word, rest))
}

/// icmp samesign? pred type value , value
fn icmp(
    reader: &mut Reader,
    levels: u32,
) -> Result<(Terminal, (SpelledOperation, Vec<SpelledAttachment>)), Failure>
    ensures { Reads (λ v. (v.0, (v.1.0, v.1.1.items))) result reader.old reader.new levels (one (k.Icmp ∷ []) ⨾ icmp_rest) }
{
    let word = reader.take(Kind::Icmp)?;
    let rest = icmp_rest(reader, levels)?;
    Ok((word, rest))
}

/// (trunc | zext | sext) flag* type value to type
fn cast(
    reader: &mut Reader,
    levels: u32,
) -> Result<(Terminal, (SpelledOperation, Vec<SpelledAttachment>)), Failure>
    ensures { Reads (λ v. (v.0, (v.1.0, v.1.1.items))) result reader.old reader.new levels (one (k.Cast ∷ []) ⨾ cast_rest) }
{
    let word = reader.take(Kind::Cast)?;
    let rest = cast_rest(reader, levels)?;
    Ok((word, rest))
}

/// freeze type value
fn freeze(
    reader: &mut Reader,
    levels: u32,
) -> Result<(Terminal, (SpelledOperation, Vec<SpelledAttachment>)), Failure>
    ensures { Reads (λ v. (v.0, (v.1.0, v.1.1.items))) result reader.old reader.new levels (one (k.Freeze ∷ []) ⨾ freeze_rest) }
{
    let word = reader.take(Kind::Freeze)?;
    let rest = freeze_rest(reader, levels)?;
    Ok((word, rest))
}

/// select i1 value , type value , type value
fn select(
    reader: &mut Reader,
    levels: u32,
) -> Result<(Terminal, (SpelledOperation, Vec<SpelledAttachment>)), Failure>
    ensures { Reads (λ v. (v.0, (v.1.0, v.1.1.items))) result reader.old reader.new levels (one (k.Select ∷ []) ⨾ select_rest) }
{
    let word = reader.take(Kind::Select)?;
    let rest = select_rest(reader, levels)?;
    Ok((word, rest))
}

/// phi type ([ value , local ])%
fn phi(
    reader: &mut Reader,
    levels: u32,
) -> Result<(Terminal, (SpelledOperation, Vec<SpelledAttachment>)), Failure>
    ensures { Reads (λ v. (v.0, (v.1.0, v.1.1.items))) result reader.old reader.new levels (one (k.Phi ∷ []) ⨾ phi_rest) }
{
    let word = reader.take(Kind::Phi)?;
    let rest = phi_rest(reader, levels)?;
    Ok((word, rest))
}

/// load atomic? volatile? type , ptr value order? (, align integer)?
fn load(
    reader: &mut Reader,
    levels: u32,
) -> Result<(Terminal, (SpelledOperation, Vec<SpelledAttachment>)), Failure>
    ensures { Reads (λ v. (v.0, (v.1.0, v.1.1.items))) result reader.old reader.new levels (one (k.Load ∷ []) ⨾ load_rest) }
{
    let word = reader.take(Kind::Load)?;
    let rest = load_rest(reader, levels)?;
    Ok((word, rest))
}

/// store atomic? volatile? type value , ptr value order? (, align integer)?
fn store(
    reader: &mut Reader,
    levels: u32,
) -> Result<(Terminal, (SpelledOperation, Vec<SpelledAttachment>)), Failure>
    ensures { Reads (λ v. (v.0, (v.1.0, v.1.1.items))) result reader.old reader.new levels (one (k.Store ∷ []) ⨾ store_rest) }
{
    let word = reader.take(Kind::Store)?;
    let rest = store_rest(reader, levels)?;
    Ok((word, rest))
}

/// getelementptr flag* type , ptr value (, type value)*
fn step(
    reader: &mut Reader,
    levels: u32,
) -> Result<(Terminal, (SpelledOperation, Vec<SpelledAttachment>)), Failure>
    ensures { Reads (λ v. (v.0, (v.1.0, v.1.1.items))) result reader.old reader.new levels (one (k.GetElementPtr ∷ []) ⨾ step_rest) }
{
    let word = reader.take(Kind::GetElementPtr)?;
    let rest = step_rest(reader, levels)?;
    Ok((word, rest))
}

/// fence order
fn fence(
    reader: &mut Reader,
    levels: u32,
) -> Result<(Terminal, (SpelledOperation, Vec<SpelledAttachment>)), Failure>
    ensures { Reads (λ v. (v.0, (v.1.0, v.1.1.items))) result reader.old reader.new levels (one (k.Fence ∷ []) ⨾ fence_rest) }
{
    let word = reader.take(Kind::Fence)?;
    let rest = fence_rest(reader, levels)?;
    Ok((word, rest))
}

/// atomicrmw volatile? rmw ptr value , type value order (, align integer)?
fn rmw(
    reader: &mut Reader,
    levels: u32,
) -> Result<(Terminal, (SpelledOperation, Vec<SpelledAttachment>)), Failure>
    ensures { Reads (λ v. (v.0, (v.1.0, v.1.1.items))) result reader.old reader.new levels (one (k.AtomicRmw ∷ []) ⨾ rmw_rest) }
{
    let word = reader.take(Kind::AtomicRmw)?;
    let rest = rmw_rest(reader, levels)?;
    Ok((word, rest))
}

/// cmpxchg weak? volatile? ptr value , type value , type value order order (, align integer)?
fn exchange(
    reader: &mut Reader,
    levels: u32,
) -> Result<(Terminal, (SpelledOperation, Vec<SpelledAttachment>)), Failure>
    ensures { Reads (λ v. (v.0, (v.1.0, v.1.1.items))) result reader.old reader.new levels (one (k.CmpXchg ∷ []) ⨾ exchange_rest) }
{
    let word = reader.take(Kind::CmpXchg)?;
    let rest = exchange_rest(reader, levels)?;
    Ok((word, rest))
}

/// extractvalue { type , i1 } value , integer
fn extract(
    reader: &mut Reader,
    levels: u32,
) -> Result<(Terminal, (SpelledOperation, Vec<SpelledAttachment>)), Failure>
    ensures { Reads (λ v. (v.0, (v.1.0, v.1.1.items))) result reader.old reader.new levels (one (k.ExtractValue ∷ []) ⨾ extract_rest) }
{
    let word = reader.take(Kind::ExtractValue)?;
    let rest = extract_rest(reader, levels)?;
    Ok((word, rest))
}

/// binop | icmp | trunc | zext | sext | freeze | select | phi
#[tactic(auto, unfolding(ir_grammar::specs::Blocks::value_instruction))]
fn value_instruction(
    reader: &mut Reader,
    levels: u32,
) -> Result<(Terminal, (SpelledOperation, Vec<SpelledAttachment>)), Failure>
    ensures { Reads (λ v. (v.0, (v.1.0, v.1.1.items))) result reader.old reader.new levels value_instruction }
{
    if reader.next_among(&[Kind::Binary, Kind::BinaryRmw]) {
        return binary(reader, levels);
    }
    if reader.next_is(Kind::Icmp) {
        return icmp(reader, levels);
    }
    if reader.next_is(Kind::Cast) {
        return cast(reader, levels);
    }
    if reader.next_is(Kind::Freeze) {
        return freeze(reader, levels);
    }
    if reader.next_is(Kind::Select) {
        return select(reader, levels);
    }
    phi(reader, levels)
}

/// load | store | getelementptr
#[tactic(auto, unfolding(ir_grammar::specs::Blocks::memory_instruction))]
fn memory_instruction(
    reader: &mut Reader,
    levels: u32,
) -> Result<(Terminal, (SpelledOperation, Vec<SpelledAttachment>)), Failure>
    ensures { Reads (λ v. (v.0, (v.1.0, v.1.1.items))) result reader.old reader.new levels memory_instruction }
{
    if reader.next_is(Kind::Load) {
        return load(reader, levels);
    }
    if reader.next_is(Kind::Store) {
        return store(reader, levels);
    }
    step(reader, levels)
}

/// fence | atomicrmw | cmpxchg | extractvalue
#[tactic(auto, unfolding(ir_grammar::specs::Blocks::atomic_instruction))]
fn atomic_instruction(
    reader: &mut Reader,
    levels: u32,
) -> Result<(Terminal, (SpelledOperation, Vec<SpelledAttachment>)), Failure>
    ensures { Reads (λ v. (v.0, (v.1.0, v.1.1.items))) result reader.old reader.new levels atomic_instruction }
{
    if reader.next_is(Kind::Fence) {
        return fence(reader, levels);
    }
    if reader.next_is(Kind::AtomicRmw) {
        return rmw(reader, levels);
    }
    if reader.next_is(Kind::CmpXchg) {
        return exchange(reader, levels);
    }
    extract(reader, levels)
}

/// alloca, in the entry block
#[tactic(auto, unfolding(ir_grammar::specs::Blocks::alloca))]
fn alloca(
    reader: &mut Reader,
    levels: u32,
) -> Result<(Terminal, (SpelledOperation, Vec<SpelledAttachment>)), Failure>
    ensures { Reads (λ v. (v.0, (v.1.0, v.1.1.items))) result reader.old reader.new levels alloca }
{
    let word = reader.take(Kind::Alloca)?;
    let rest = alloca_rest(reader, levels)?;
    Ok((word, rest))
}

/// An instruction of any block, but a call.
#[tactic(auto, unfolding(ir_grammar::specs::Blocks::common_instruction, ir_grammar::specs::Blocks::value_instruction, ir_grammar::specs::Blocks::memory_instruction))]
fn common_instruction(
    reader: &mut Reader,
    levels: u32,
) -> Result<(Terminal, (SpelledOperation, Vec<SpelledAttachment>)), Failure>
    ensures { Reads (λ v. (v.0, (v.1.0, v.1.1.items))) result reader.old reader.new levels common_instruction }
{
    if reader.next_among(&VALUE_WORDS) {
        return value_instruction(reader, levels);
    }
    if reader.next_among(&[Kind::Load, Kind::Store, Kind::GetElementPtr]) {
        return memory_instruction(reader, levels);
    }
    atomic_instruction(reader, levels)
}

/// An instruction but a call, in the entry block or in another.
#[tactic(auto, unfolding(ir_grammar::specs::Blocks::plain_instruction, ir_grammar::specs::Blocks::common_instruction, ir_grammar::specs::Blocks::value_instruction, ir_grammar::specs::Blocks::memory_instruction, ir_grammar::specs::Blocks::atomic_instruction))]
fn plain_instruction(
    reader: &mut Reader,
    entry: bool,
    levels: u32,
) -> Result<(Terminal, (SpelledOperation, Vec<SpelledAttachment>)), Failure>
    ensures { Reads (λ v. (v.0, (v.1.0, v.1.1.items))) result reader.old reader.new levels (plain_instruction entry) }
{
    if !entry {
        return common_instruction(reader, levels);
    }
    if reader.next_among(&COMMON_WORDS) {
        return common_instruction(reader, levels);
    }
    alloca(reader, levels)
}

/// Such an instruction, with an operation that is there.
#[tactic(auto, unfolding(ir_grammar::specs::Blocks::plain_body))]
pub(crate) fn plain_body(
    reader: &mut Reader,
    entry: bool,
    levels: u32,
) -> Result<(Terminal, (Option<SpelledOperation>, Vec<SpelledAttachment>)), Failure>
    ensures { Reads (λ v. (v.0, (v.1.0, v.1.1.items))) result reader.old reader.new levels (plain_body entry) }
{
    let (word, (operation, found)) = plain_instruction(reader, entry, levels)?;
    Ok((word, (Some(operation), found)))
}

/// Whether an instruction but a call is read at the next token.
#[tactic(auto, using(crate::proofs::BodyKinds::plain_kinds))]
pub(crate) fn starts_plain(reader: &Reader, entry: bool) -> bool
    ensures { result ≡ starts (first (plain_body entry)) reader.now.rest.now }
{
    reader.next_among(&COMMON_WORDS) || entry && reader.next_is(Kind::Alloca)
}

/// What is Unsupported where an instruction may stand, beside what is Unsupported as a type.
fn more_refused(entry: bool) -> &'static [Kind]
    ensures { result.now ++ refused_types at.Plain ≡ refused_bodies entry }
{
    if entry { &[] } else { &[Kind::Alloca] }
}

/// Whether a word that is Unsupported where an instruction may stand comes next.
pub(crate) fn next_is_refused(reader: &Reader, entry: bool) -> bool
    ensures { result ≡ starts (refused_bodies entry) reader.now.rest.now }
{
    reader.next_either(more_refused(entry), refused_types(Context::Plain))
}

/// The failure where no instruction begins.
fn refuse_body(reader: &Reader, entry: bool) -> Failure
    ensures { result ≡ Flawed (if starts (refused_bodies entry) reader.now.rest.now then unsupported reader.now.rest.now else bad reader.now.rest.now) }
{
    reader.refuse_either(more_refused(entry), refused_types(Context::Plain))
}

/// body
#[tactic(auto, unfolding(ir_grammar::specs::Blocks::body_rule, ir_grammar::specs::Calls::call_rule, ir_grammar::specs::Calls::call_word))]
pub(crate) fn body(
    reader: &mut Reader,
    entry: bool,
    levels: u32,
) -> Result<(Terminal, (Option<SpelledOperation>, Vec<SpelledAttachment>)), Failure>
    ensures { Reads (λ v. (v.0, (v.1.0, v.1.1.items))) result reader.old reader.new levels (body_rule entry) }
{
    if starts_plain(reader, entry) {
        return plain_body(reader, entry, levels);
    }
    if reader.next_among(&[Kind::Call, Kind::TailWord]) {
        return call(reader, levels);
    }
    Err(refuse_body(reader, entry))
}
