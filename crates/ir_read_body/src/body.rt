ghost use Rattle.std.specs.Prelude.{◌≡◌, ◌≤◌, length, All, IfOk};
ghost use Rattle.ir_grammar.specs.Spelled.{store_of};
ghost use Rattle.ir_grammar.specs.SoundStore.{IsInRange, IsSoundStore, IsSoundBlock, counts_of};
ghost use Rattle.ir_read_body.specs.BodyReading.{ReadsBody};

use crate::blocks::function_body;
use hw_base::MOST_NESTING;
use ir_grammar::{Failure, Reader, SpelledBlock, Spellings, Terminal};
use std::alloc::Global;

/// A function's body as it is spelled: its blocks, and what they spell, by number. Names are tokens.
#[derive(Drop)]
pub struct RawFunction {
    pub blocks: Vec<SpelledBlock>,
    pub found: Spellings,
}

/// A body that was read, and the index of the token after its `}`.
#[derive(Drop)]
pub struct Body {
    pub raw: RawFunction,
    pub next: usize,
}

/// Reads a body, from the flaw or from the blocks that the grammar gives to the tokens.
fn read_at(alloc: Global, tokens: &[Terminal], at: usize) -> Result<Body, Failure>
    requires { at ≤ length tokens.now }
    ensures { ReadsBody tokens.now at result }
{
    let mut reader = Reader {
        alloc,
        rest: &tokens[at..],
        found: Spellings::new(alloc),
    };
    let blocks = function_body(&mut reader, MOST_NESTING)?;
    let next = tokens.len().saturating_sub(reader.rest.len());
    Ok(Body {
        raw: RawFunction {
            blocks,
            found: reader.found,
        },
        next,
    })
}

/// What the body of a function spells, whose `{` is the token with this index: its blocks with their instructions, and the
/// types and constants that they name by number. The error is the flaw at the first token with which nothing of the grammar
/// goes on, the bracket that opens the 65th level among them, or running out of memory.
pub fn read_body(alloc: Global, tokens: &[Terminal], at: usize) -> Result<Body, Failure>
    requires place { at ≤ length tokens.now }
    requires ranges { All IsInRange tokens.now }
    ensures read { ReadsBody tokens.now at result }
    ensures sound { IfOk result (λ body. IsSoundStore (store_of body.raw.found)) }
    ensures blocks { IfOk result (λ body. All (IsSoundBlock (counts_of (store_of body.raw.found))) body.raw.blocks.items) }
{
    let body = read_at(alloc, tokens, at)?;
    Ok(body)
}
