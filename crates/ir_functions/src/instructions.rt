ghost use Rattle.std.specs.Prelude.{◌≡◌, take, drop, IfOk};
ghost use Rattle.ir_functions.specs.Instructions.{has_register, location_by, debug_location, first_token, result_of, instruction};
ghost use Rattle.ir_functions.specs.Views.{scope_in};

use crate::numbers::node_number;
use crate::resolver::Resolver;
use hw_base::OutOfMemory;
use ir_body_names::{defines_register, is_debug_location, items_from};
use ir_core::{DbgRef, Inst, Token};
use ir_grammar::{SpelledAttachment, SpelledInstruction};
use std::alloc::Global;

/// A debug location, by the number of its node.
fn location_by(node: &Token, number: Option<u32>) -> Option<DbgRef>
    ensures { result ≡ location_by node.now number }
{
    match number {
        None => None,
        Some(number) => Some(DbgRef {
            node: number,
            place: node.place,
        }),
    }
}

/// The first token of an instruction: the name of its result, or else its word.
fn first_token(instruction: &SpelledInstruction) -> Token
    ensures { result ≡ first_token instruction.now }
{
    instruction.result.unwrap_or(instruction.word)
}

impl<'a, 'n, 'k, 'v, 'c> Resolver<'a, 'n, 'k, 'v, 'c> {
    /// The first debug location among attachments.
    fn debug_location(&self, attachments: &[SpelledAttachment]) -> Option<DbgRef>
        ensures { result ≡ debug_location (scope_in self.now) attachments.now }
    {
        let mut rest = attachments;
        while let [attachment, after @ ..] = rest {
            if is_debug_location(self.names.source, &attachment.name) {
                let number = node_number(self.names.source, self.names.nodes, &attachment.node);
                return location_by(&attachment.node, number);
            }
            rest = after;
        }
        None
    }

    /// Whether an instruction defines a register.
    pub(crate) fn has_register(&self, spelled: &SpelledInstruction) -> bool
        ensures { result ≡ has_register (scope_in self.now) spelled.now }
    {
        defines_register(self.names, spelled)
    }

    /// The register with this number, if the instruction defines one.
    fn result_of(&self, register: u32, spelled: &SpelledInstruction) -> Option<u32>
        ensures { result ≡ result_of (scope_in self.now) register spelled.now }
    {
        if self.has_register(spelled) {
            Some(register)
        } else {
            None
        }
    }

    /// An instruction, whose register and variable, if it has them, have these numbers.
    pub(crate) fn instruction(
        &self,
        alloc: Global,
        register: u32,
        variable: u32,
        spelled: &SpelledInstruction,
    ) -> Result<Inst, OutOfMemory>
        ensures { IfOk result (λ i. i ≡ instruction (scope_in self.now) register variable spelled.now) }
    {
        let op = self.operation(alloc, variable, &spelled.word, &spelled.operation)?;
        let attachments = items_from(&self.names.bodies.attachments, spelled.first, spelled.count);
        Ok(Inst {
            op,
            result: self.result_of(register, spelled),
            dbg: self.debug_location(attachments),
            place: first_token(spelled).place,
        })
    }
}
