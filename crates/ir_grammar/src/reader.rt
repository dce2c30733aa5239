ghost use Rattle.std.specs.Prelude.{◌≡◌, [], ◌∷◌, ◌++◌, length, if◌then◌else◌, Ok};
ghost use Rattle.ir_grammar.specs.declared.terminal.Failure.TheVariants.{Flawed};
ghost use Rattle.ir_grammar.specs.Reading.{starts, take, bad, unsupported};
ghost use Rattle.ir_grammar.specs.Words.{commas};
ghost use Rattle.ir_grammar.specs.Grammar.{Gives, deeper};
ghost use Rattle.ir_grammar.specs.BodyStore.{no_bodies};
ghost use Rattle.ir_grammar.specs.Spelled.{store_of, bodies_of, added, with_rest, add_type, add_struct_type, add_constant, add_array, add_struct, add_address, add_item, add_declare};
ghost use Rattle.ir_grammar.specs.SpelledBodies.{add_define};

use crate::words::commas;
use crate::{
    Failure, Flaw, Kind, SpelledAttachment, SpelledBlock, SpelledCase, SpelledConstant,
    SpelledIncoming, SpelledInstruction, SpelledItem, SpelledParameter, SpelledType, Terminal,
    TypedConstant, TypedIndex, TypedOperand,
};
use ir_core::{Fault, Limit, Token};
use std::alloc::Global;

/// What was read so far: types, constants, items and their parts. The number of each is its index.
#[derive(Drop)]
pub struct Spellings {
    pub types: Vec<SpelledType>,
    /// The fields of structs, by the numbers of their types.
    pub fields: Vec<usize>,
    pub constants: Vec<SpelledConstant>,
    /// The elements of arrays and structs.
    pub elements: Vec<TypedConstant>,
    /// The indices of `getelementptr`.
    pub indices: Vec<TypedIndex>,
    /// The parameters of functions, declared or defined.
    pub parameters: Vec<SpelledParameter>,
    /// The items in order of the text.
    pub items: Vec<SpelledItem>,
    /// What is in the bodies of functions.
    pub bodies: SpelledBodies,
}

/// What was read so far of the bodies of functions. The number of each is its index.
#[derive(Drop)]
pub struct SpelledBodies {
    /// Arguments of calls, and indices.
    pub operands: Vec<TypedOperand>,
    /// Entries of phis.
    pub incoming: Vec<SpelledIncoming>,
    /// Cases of switches.
    pub cases: Vec<SpelledCase>,
    pub attachments: Vec<SpelledAttachment>,
    /// The instructions and terminators, block after block.
    pub instructions: Vec<SpelledInstruction>,
    pub blocks: Vec<SpelledBlock>,
}

impl SpelledBodies {
    /// Nothing yet. It takes no memory.
    pub fn new(alloc: Global) -> SpelledBodies
        ensures { bodies_of result ≡ no_bodies }
    {
        SpelledBodies {
            operands: Vec::new(alloc),
            incoming: Vec::new(alloc),
            cases: Vec::new(alloc),
            attachments: Vec::new(alloc),
            instructions: Vec::new(alloc),
            blocks: Vec::new(alloc),
        }
    }
}

impl Spellings {
    /// Nothing yet. It takes no memory.
    pub fn new(alloc: Global) -> Spellings
        ensures types { (store_of result).types ≡ [] }
        ensures fields { (store_of result).fields ≡ [] }
        ensures constants { (store_of result).constants ≡ [] }
        ensures elements { (store_of result).elements ≡ [] }
        ensures indices { (store_of result).indices ≡ [] }
        ensures parameters { (store_of result).parameters ≡ [] }
        ensures items { (store_of result).items ≡ [] }
        ensures bodies { (store_of result).bodies ≡ no_bodies }
    {
        Spellings {
            types: Vec::new(alloc),
            fields: Vec::new(alloc),
            constants: Vec::new(alloc),
            elements: Vec::new(alloc),
            indices: Vec::new(alloc),
            parameters: Vec::new(alloc),
            items: Vec::new(alloc),
            bodies: SpelledBodies::new(alloc),
        }
    }
}

/// A reader stands in front of the tokens that are left and adds to what was read so far. Each of its reading methods says
/// which rule of the grammar it reads; `levels` is how many brackets may still be opened. After an `Err` the reader means
/// nothing.
#[derive(Drop)]
pub struct Reader<'a> {
    pub alloc: Global,
    pub rest: &'a [Terminal],
    pub found: Spellings,
}

impl<'a> Reader<'a> {
    /// Whether a token of this kind comes next.
    pub fn next_is(&self, kind: Kind) -> bool
        ensures { result ≡ starts (kind ∷ []) self.now.rest.now }
    {
        match self.rest {
            [] => false,
            [next, ..] => next.kind.is_among(&[kind]),
        }
    }

    /// Whether a token of one of these kinds comes next.
    pub fn next_among(&self, kinds: &[Kind]) -> bool
        ensures { result ≡ starts kinds.now self.now.rest.now }
    {
        match self.rest {
            [] => false,
            [next, ..] => next.kind.is_among(kinds),
        }
    }

    /// The failure where nothing goes on with the next token, or at the end of the text.
    pub fn bad(&self) -> Failure
        ensures { result ≡ Flawed (bad self.now.rest.now) }
    {
        let fault = if self.next_among(&[Kind::Vector, Kind::Dots, Kind::HexWord]) {
            Fault::Unsupported
        } else {
            Fault::BadSyntax
        };
        Failure::Flawed(Flaw {
            fault,
            left: self.rest.len(),
        })
    }

    /// The failure where the next token is a form that this program doesn't take.
    fn unsupported(&self) -> Failure
        ensures { result ≡ Flawed (unsupported self.now.rest.now) }
    {
        Failure::Flawed(Flaw {
            fault: Fault::Unsupported,
            left: self.rest.len(),
        })
    }

    /// The failure where nothing goes on with the next token, and one of these kinds is Unsupported.
    pub fn refuse(&self, kinds: &[Kind]) -> Failure
        ensures { result ≡ Flawed (if starts kinds.now self.now.rest.now then unsupported self.now.rest.now else bad self.now.rest.now) }
    {
        if self.next_among(kinds) {
            self.unsupported()
        } else {
            self.bad()
        }
    }

    /// Whether a token of one of these kinds comes next, or of one of the others.
    #[tactic(auto, using(crate::proofs::KindSets::starts_append))]
    pub fn next_either(&self, kinds: &[Kind], others: &[Kind]) -> bool
        ensures { result ≡ starts (kinds.now ++ others.now) self.now.rest.now }
    {
        self.next_among(kinds) || self.next_among(others)
    }

    /// The failure where nothing goes on with the next token, and one of these kinds or of the others is Unsupported.
    pub fn refuse_either(&self, kinds: &[Kind], others: &[Kind]) -> Failure
        ensures { result ≡ Flawed (if starts (kinds.now ++ others.now) self.now.rest.now then unsupported self.now.rest.now else bad self.now.rest.now) }
    {
        if self.next_either(kinds, others) {
            self.unsupported()
        } else {
            self.bad()
        }
    }

    /// Takes a token of one of these kinds or of the others.
    pub fn take_either(&mut self, kinds: &[Kind], others: &[Kind]) -> Result<Terminal, Failure>
        ensures { Gives (λ t. (t, self.new.rest.now, store_of self.new.found)) result (take (kinds.now ++ others.now) self.old.rest.now (store_of self.old.found)) }
    {
        match self.rest {
            [] => Err(self.bad()),
            [next, rest @ ..] => {
                if self.next_either(kinds, others) {
                    self.rest = rest;
                    Ok(*next)
                } else {
                    Err(self.bad())
                }
            }
        }
    }

    /// Takes a token of one of these kinds.
    pub fn take_among(&mut self, kinds: &[Kind]) -> Result<Terminal, Failure>
        ensures { Gives (λ t. (t, self.new.rest.now, store_of self.new.found)) result (take kinds.now self.old.rest.now (store_of self.old.found)) }
    {
        match self.rest {
            [] => Err(self.bad()),
            [next, rest @ ..] => {
                if next.kind.is_among(kinds) {
                    self.rest = rest;
                    Ok(*next)
                } else {
                    Err(self.bad())
                }
            }
        }
    }

    /// Takes a token of this kind.
    pub fn take(&mut self, kind: Kind) -> Result<Terminal, Failure>
        ensures { Gives (λ t. (t, self.new.rest.now, store_of self.new.found)) result (take (kind ∷ []) self.old.rest.now (store_of self.old.found)) }
    {
        self.take_among(&[kind])
    }

    /// Whether a comma comes next, whatever follows it.
    pub fn comma_is_next(&self) -> bool
        ensures { result ≡ starts commas self.now.rest.now }
    {
        self.next_among(commas())
    }

    /// Takes a comma, whatever follows it.
    pub fn comma(&mut self) -> Result<Terminal, Failure>
        ensures { Gives (λ t. (t, self.new.rest.now, store_of self.new.found)) result (take commas self.old.rest.now (store_of self.old.found)) }
    {
        self.take_among(commas())
    }

    /// One level fewer, behind a bracket with `at` tokens from it on; TooLarge where no level is left.
    pub fn deeper(levels: u32, at: usize) -> Result<u32, Failure>
        ensures { Gives (λ l. l) result (deeper levels at) }
    {
        if levels == 0 {
            Err(Failure::Flawed(Flaw {
                fault: Fault::TooLarge(Limit::Nesting),
                left: at,
            }))
        } else {
            Ok(levels - 1)
        }
    }

    /// Adds a type, and answers its number.
    pub fn add_type(&mut self, ty: SpelledType) -> Result<usize, Failure>
        ensures { Gives (λ n. (n, self.new.rest.now, store_of self.new.found)) result (added (add_type ty (store_of self.old.found)) self.old.rest.now) }
    {
        let number = self.found.types.len();
        self.found.types.push(ty)?;
        Ok(number)
    }

    /// Adds a struct type of these fields, and answers its number.
    pub fn add_struct_type(&mut self, packed: bool, fields: &[usize]) -> Result<usize, Failure>
        ensures { Gives (λ n. (n, self.new.rest.now, store_of self.new.found)) result (added (add_struct_type packed fields.now (store_of self.old.found)) self.old.rest.now) }
    {
        let first = self.found.fields.len();
        let count = fields.len();
        self.found.fields.extend_from_slice(fields)?;
        self.add_type(SpelledType::Struct {
            first,
            count,
            packed,
        })
    }

    /// Adds a constant, and answers its number.
    pub fn add_constant(&mut self, constant: SpelledConstant) -> Result<usize, Failure>
        ensures { Gives (λ n. (n, self.new.rest.now, store_of self.new.found)) result (added (add_constant constant (store_of self.old.found)) self.old.rest.now) }
    {
        let number = self.found.constants.len();
        self.found.constants.push(constant)?;
        Ok(number)
    }

    /// Adds an array of these elements, and answers its number.
    pub fn add_array(&mut self, elements: &[TypedConstant]) -> Result<usize, Failure>
        ensures { Gives (λ n. (n, self.new.rest.now, store_of self.new.found)) result (added (add_array elements.now (store_of self.old.found)) self.old.rest.now) }
    {
        let first = self.found.elements.len();
        let count = elements.len();
        self.found.elements.extend_from_slice(elements)?;
        self.add_constant(SpelledConstant::Array { first, count })
    }

    /// Adds a struct of these elements, and answers its number.
    pub fn add_struct(&mut self, packed: bool, elements: &[TypedConstant]) -> Result<usize, Failure>
        ensures { Gives (λ n. (n, self.new.rest.now, store_of self.new.found)) result (added (add_struct packed elements.now (store_of self.old.found)) self.old.rest.now) }
    {
        let first = self.found.elements.len();
        let count = elements.len();
        self.found.elements.extend_from_slice(elements)?;
        self.add_constant(SpelledConstant::Struct {
            first,
            count,
            packed,
        })
    }

    /// Adds the address of a part of the type from a base on, and answers its number.
    pub fn add_address(
        &mut self,
        of: usize,
        base: usize,
        indices: &[TypedIndex],
    ) -> Result<usize, Failure>
        ensures { Gives (λ n. (n, self.new.rest.now, store_of self.new.found)) result (added (add_address of base indices.now (store_of self.old.found)) self.old.rest.now) }
    {
        let first = self.found.indices.len();
        let count = indices.len();
        self.found.indices.extend_from_slice(indices)?;
        self.add_constant(SpelledConstant::Address {
            of,
            base,
            first,
            count,
        })
    }

    /// Adds an item.
    pub fn add_item(&mut self, item: SpelledItem) -> Result<(), Failure>
        ensures { Gives (λ x. (x, self.new.rest.now, store_of self.new.found)) result (with_rest (add_item item (store_of self.old.found)) self.old.rest.now) }
    {
        self.found.items.push(item)?;
        Ok(())
    }

    /// Adds the declare of a function with these parameters.
    pub fn add_declare(
        &mut self,
        name: Token,
        result_type: usize,
        parameters: &[SpelledParameter],
    ) -> Result<(), Failure>
        ensures { Gives (λ x. (x, self.new.rest.now, store_of self.new.found)) result (with_rest (add_declare name result_type parameters.now (store_of self.old.found)) self.old.rest.now) }
    {
        let first = self.found.parameters.len();
        let count = parameters.len();
        self.found.parameters.extend_from_slice(parameters)?;
        self.add_item(SpelledItem::Declare {
            name,
            result: result_type,
            first,
            count,
        })
    }

    /// Adds the definition of a function with these parameters and blocks.
    pub fn add_define(
        &mut self,
        name: Token,
        result_type: usize,
        parameters: &[SpelledParameter],
        found: &[SpelledBlock],
    ) -> Result<(), Failure>
        ensures { Gives (λ x. (x, self.new.rest.now, store_of self.new.found)) result (with_rest (add_define name result_type parameters.now found.now (store_of self.old.found)) self.old.rest.now) }
    {
        let first = self.found.parameters.len();
        let count = parameters.len();
        self.found.parameters.extend_from_slice(parameters)?;
        let entry = self.found.bodies.blocks.len();
        let blocks = found.len();
        self.found.bodies.blocks.extend_from_slice(found)?;
        self.add_item(SpelledItem::Define {
            name,
            result: result_type,
            first,
            count,
            entry,
            blocks,
        })
    }
}
