ghost use Rattle.std.specs.Prelude.{◌≡◌, [], ◌∷◌};
ghost use Rattle.ir_grammar.specs.Reading.{starts, first};
ghost use Rattle.ir_grammar.specs.Words.{refused_types};
ghost use Rattle.ir_grammar.specs.Grammar.{Gives, Reads, read, with_front};
ghost use Rattle.ir_grammar.specs.Spelled.{store_of};
ghost use Rattle.ir_grammar.specs.Types.{int_type, named_type, array_type, braced_types, struct_type, packed_type, other_type, solid_type, type_rule, array_rule, comma_type, more_types, types_rule, ptr_word};

use crate::words::{locals, refused_types, voids};
use crate::{Context, Failure, Kind, Reader, SpelledType, Terminal};

/// The kinds that a type begins with in any place.
const TYPES: [Kind; 10] = [
    Kind::IntType,
    Kind::BitType,
    Kind::Ptr,
    Kind::Void,
    Kind::VoidBeforeOperand,
    Kind::OpenSquare,
    Kind::OpenBrace,
    Kind::Less,
    Kind::Local,
    Kind::LocalDefinition,
];

impl<'a> Reader<'a> {
    /// Whether a type is read at the next token, if only to refuse it.
    #[tactic(auto, unfolding(crate::specs::Types::type_rule, crate::specs::Types::solid_type, crate::specs::Types::int_type, crate::specs::Types::named_type, crate::specs::Types::array_type, crate::specs::Types::braced_types, crate::specs::Types::struct_type, crate::specs::Types::packed_type, crate::specs::Types::other_type), using(crate::proofs::TypeKinds::type_kinds))]
    pub fn starts_type(&self, context: Context) -> bool
        ensures { result ≡ starts (first (type_rule context)) self.now.rest.now }
    {
        match self.rest {
            [] => false,
            [next, ..] => {
                next.kind.is_among(&TYPES)
                    || next.kind.is_among(refused_types(context))
                    || next.kind.is(Kind::MetadataWord)
            }
        }
    }

    /// iN
    #[tactic(auto, unfolding(crate::specs::Types::int_type))]
    fn int_type(&mut self, levels: u32) -> Result<usize, Failure>
        ensures { Reads (λ n. n) result self.old self.new levels int_type }
    {
        let token = self.take_among(&[Kind::IntType, Kind::BitType])?;
        self.add_type(SpelledType::Int(token.number))
    }

    /// local
    #[tactic(auto, unfolding(crate::specs::Types::named_type))]
    fn named_type(&mut self, levels: u32) -> Result<usize, Failure>
        ensures { Reads (λ n. n) result self.old self.new levels named_type }
    {
        let token = self.take_among(locals())?;
        self.add_type(SpelledType::Named(token.token))
    }

    /// metadata, in a declare
    #[tactic(auto, unfolding(crate::specs::Types::other_type))]
    fn other_type(&mut self, context: Context, levels: u32) -> Result<usize, Failure>
        ensures { Reads (λ n. n) result self.old self.new levels (other_type context) }
    {
        let in_declare = context == Context::Declare || context == Context::DeclareTail;
        if in_declare && self.next_is(Kind::MetadataWord) {
            self.take(Kind::MetadataWord)?;
            return self.add_type(SpelledType::Metadata);
        }
        Err(self.refuse(refused_types(context)))
    }

    /// [ integer x type ]
    #[cycle(types)]
    #[tactic(auto, unfolding(crate::specs::Types::array_type), using(crate::proofs::Levels::inside_deeper))]
    fn array_type(&mut self, context: Context, levels: u32) -> Result<usize, Failure>
        ensures { Reads (λ n. n) result self.old self.new levels (array_type context) }
    {
        let at = self.rest.len();
        self.take(Kind::OpenSquare)?;
        let inner = Self::deeper(levels, at)?;
        let array = self.array_inside(context, inner)?;
        self.take(Kind::CloseSquare)?;
        Ok(array)
    }

    /// integer x type
    #[cycle(types)]
    #[tactic(auto, unfolding(crate::specs::Types::array_rule))]
    fn array_inside(&mut self, context: Context, levels: u32) -> Result<usize, Failure>
        ensures { Reads (λ n. n) result self.old self.new levels (array_rule context) }
    {
        let count = self.take_among(&[Kind::Count, Kind::SmallPower, Kind::Power])?;
        self.take(Kind::X)?;
        let item = self.ty(context, levels)?;
        self.add_type(SpelledType::Array {
            count: count.number,
            item,
        })
    }

    /// { types }
    #[cycle(types)]
    #[tactic(auto, unfolding(crate::specs::Types::braced_types), using(crate::proofs::Levels::inside_deeper))]
    fn braced_types(&mut self, context: Context, levels: u32) -> Result<Vec<usize>, Failure>
        ensures { Reads (λ v. v.items) result self.old self.new levels (braced_types context) }
    {
        let at = self.rest.len();
        self.take(Kind::OpenBrace)?;
        let inner = Self::deeper(levels, at)?;
        let fields = self.types_inside(context, inner)?;
        self.take(Kind::CloseBrace)?;
        Ok(fields)
    }

    /// { types }
    #[cycle(types)]
    #[tactic(auto, unfolding(crate::specs::Types::struct_type))]
    fn struct_type(&mut self, context: Context, levels: u32) -> Result<usize, Failure>
        ensures { Reads (λ n. n) result self.old self.new levels (struct_type context) }
    {
        let fields = self.braced_types(context, levels)?;
        self.add_struct_type(false, fields.as_slice())
    }

    /// < { types } >
    #[cycle(types)]
    #[tactic(auto, unfolding(crate::specs::Types::packed_type))]
    fn packed_type(&mut self, context: Context, levels: u32) -> Result<usize, Failure>
        ensures { Reads (λ n. n) result self.old self.new levels (packed_type context) }
    {
        self.take(Kind::Less)?;
        let fields = self.braced_types(context, levels)?;
        self.take(Kind::Greater)?;
        self.add_struct_type(true, fields.as_slice())
    }

    /// iN | ptr | void | [ integer x type ] | { types } | < { types } > | local
    #[cycle(types)]
    #[tactic(auto, unfolding(crate::specs::Types::type_rule))]
    pub fn ty(&mut self, context: Context, levels: u32) -> Result<usize, Failure>
        ensures { Reads (λ n. n) result self.old self.new levels (type_rule context) }
    {
        if self.next_among(voids()) {
            self.take_among(voids())?;
            return self.add_type(SpelledType::Void);
        }
        self.solid_type(context, levels)
    }

    /// iN | ptr | [ integer x type ] | { types } | < { types } > | local
    #[cycle(types)]
    #[tactic(auto, unfolding(crate::specs::Types::solid_type, crate::specs::Types::int_type, crate::specs::Types::named_type, crate::specs::Types::array_type, crate::specs::Types::struct_type, crate::specs::Types::packed_type, crate::specs::Types::braced_types))]
    pub fn solid_type(&mut self, context: Context, levels: u32) -> Result<usize, Failure>
        ensures { Reads (λ n. n) result self.old self.new levels (solid_type context) }
    {
        if self.next_among(&[Kind::IntType, Kind::BitType]) {
            return self.int_type(levels);
        }
        if self.next_is(Kind::Ptr) {
            self.take(Kind::Ptr)?;
            return self.add_type(SpelledType::Ptr);
        }
        if self.next_is(Kind::OpenSquare) {
            return self.array_type(context, levels);
        }
        if self.next_is(Kind::OpenBrace) {
            return self.struct_type(context, levels);
        }
        if self.next_is(Kind::Less) {
            return self.packed_type(context, levels);
        }
        if self.next_among(locals()) {
            return self.named_type(levels);
        }
        self.other_type(context, levels)
    }

    /// , type
    #[cycle(types)]
    #[tactic(auto, unfolding(crate::specs::Types::comma_type))]
    fn comma_type(&mut self, context: Context, levels: u32) -> Result<usize, Failure>
        ensures { Reads (λ n. n) result self.old self.new levels (comma_type context) }
    {
        self.comma()?;
        self.ty(context, levels)
    }

    /// (, type)*, behind a first type.
    #[cycle(types)]
    #[tactic(auto, using(crate::proofs::TypeLists::types_more, crate::proofs::TypeLists::types_done, crate::proofs::TypeLists::types_failed, crate::proofs::TypeLists::comma_type_takes))]
    fn more_types(
        &mut self,
        context: Context,
        first: usize,
        levels: u32,
    ) -> Result<Vec<usize>, Failure>
        ensures { Gives (λ v. (v.items, self.new.rest.now, store_of self.new.found)) result (with_front (first ∷ []) (read levels (more_types context) self.old.rest.now (store_of self.old.found))) }
    {
        let mut types = Vec::new(self.alloc);
        types.push(first)?;
        while self.comma_is_next() {
            let next = self.comma_type(context, levels)?;
            types.push(next)?;
        }
        Ok(types)
    }

    /// types: type (, type)* or nothing
    #[cycle(types)]
    #[tactic(auto, unfolding(crate::specs::Types::types_rule))]
    fn types_inside(&mut self, context: Context, levels: u32) -> Result<Vec<usize>, Failure>
        ensures { Reads (λ v. v.items) result self.old self.new levels (types_rule context) }
    {
        if self.starts_type(context) {
            let first = self.ty(context, levels)?;
            self.more_types(context, first, levels)
        } else {
            Ok(Vec::new(self.alloc))
        }
    }

    /// ptr, where a production asks for it
    #[tactic(auto, unfolding(crate::specs::Types::ptr_word))]
    pub fn ptr_word(&mut self, levels: u32) -> Result<Terminal, Failure>
        ensures { Reads (λ t. t) result self.old self.new levels ptr_word }
    {
        if self.next_is(Kind::Ptr) {
            return self.take(Kind::Ptr);
        }
        Err(self.refuse(refused_types(Context::Plain)))
    }
}
