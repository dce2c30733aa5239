ghost use Rattle.std.specs.Prelude.{◌≡◌, [], ◌∷◌};
ghost use Rattle.ir_grammar.specs.Reading.{starts, first};
ghost use Rattle.ir_grammar.specs.Words.{integers, globals, refused_values};
ghost use Rattle.ir_grammar.specs.Kinds.{is_same};
ghost use Rattle.ir_grammar.specs.Grammar.{Gives, Reads, read, with_front};
ghost use Rattle.ir_grammar.specs.Spelled.{store_of, integer_of};
ghost use Rattle.ir_grammar.specs.Constants.{integer_value, name_value, word_value, flag, flags, address_parens, address_value, value_rule, squared_constants, array_constant, braced_constants, struct_constant, packed_constant, constant_rule, typed_constant, comma_constant, more_elements, elements_rule, comma_index, indices, address_base, address_rule};

use crate::words::{globals, integers, locals, refused_values};
use crate::{
    Context, Failure, Kind, Reader, SpelledConstant, SpelledInteger, Terminal, TypedConstant,
    TypedIndex,
};

impl Terminal {
    /// The integer that it spells.
    pub fn integer(&self) -> SpelledInteger
        ensures { result ≡ integer_of self.now }
    {
        SpelledInteger {
            magnitude: self.number,
            negative: self.kind.is(Kind::Negative),
        }
    }
}

impl<'a> Reader<'a> {
    /// integer
    #[tactic(auto, unfolding(crate::specs::Constants::integer_value))]
    fn integer_value(&mut self, levels: u32) -> Result<usize, Failure>
        ensures { Reads (λ n. n) result self.old self.new levels integer_value }
    {
        let token = self.take_among(integers())?;
        self.add_constant(SpelledConstant::Integer(token.integer()))
    }

    /// local | global
    #[tactic(auto, unfolding(crate::specs::Constants::name_value))]
    fn name_value(&mut self, levels: u32) -> Result<usize, Failure>
        ensures { Reads (λ n. n) result self.old self.new levels name_value }
    {
        if self.next_among(locals()) {
            let token = self.take_among(locals())?;
            return self.add_constant(SpelledConstant::Local(token.token));
        }
        let token = self.take_among(globals())?;
        self.add_constant(SpelledConstant::Global(token.token))
    }

    /// true | false | null | undef | poison | zeroinitializer
    #[tactic(auto, unfolding(crate::specs::Constants::word_value))]
    fn word_value(&mut self, levels: u32) -> Result<usize, Failure>
        ensures { Reads (λ n. n) result self.old self.new levels word_value }
    {
        if self.next_is(Kind::True) {
            self.take(Kind::True)?;
            return self.add_constant(SpelledConstant::Bool(true));
        }
        if self.next_is(Kind::False) {
            self.take(Kind::False)?;
            return self.add_constant(SpelledConstant::Bool(false));
        }
        if self.next_is(Kind::Null) {
            self.take(Kind::Null)?;
            return self.add_constant(SpelledConstant::Null);
        }
        self.take(Kind::ZeroWord)?;
        self.add_constant(SpelledConstant::Zero)
    }

    /// flag | inrange ( any )
    #[tactic(auto, unfolding(crate::specs::Constants::flag, crate::specs::Skipped::in_parens))]
    fn flag(&mut self, levels: u32) -> Result<(), Failure>
        ensures { Reads (λ x. x) result self.old self.new levels flag }
    {
        if self.next_is(Kind::Flag) {
            self.take(Kind::Flag)?;
            return Ok(());
        }
        self.take(Kind::InRange)?;
        self.in_parens(levels)?;
        Ok(())
    }

    /// flag*
    #[tactic(auto, using(crate::proofs::ConstantLists::flags_more, crate::proofs::ConstantLists::flags_done, crate::proofs::ConstantLists::flags_failed, crate::proofs::ConstantLists::flag_takes))]
    pub fn flags(&mut self, levels: u32) -> Result<(), Failure>
        ensures { Reads (λ x. x) result self.old self.new levels flags }
    {
        while self.next_among(&[Kind::Flag, Kind::InRange]) {
            self.flag(levels)?;
        }
        Ok(())
    }

    /// ( type , ptr const (, type integer)* )
    #[cycle(constants)]
    #[tactic(auto, unfolding(crate::specs::Constants::address_parens), using(crate::proofs::Levels::inside_deeper))]
    pub fn address_parens(&mut self, levels: u32) -> Result<usize, Failure>
        ensures { Reads (λ n. n) result self.old self.new levels address_parens }
    {
        let at = self.rest.len();
        self.take(Kind::OpenParen)?;
        let inner = Self::deeper(levels, at)?;
        let address = self.address_inside(inner)?;
        self.take(Kind::CloseParen)?;
        Ok(address)
    }

    /// getelementptr flag* ( type , ptr const (, type integer)* )
    #[cycle(constants)]
    #[tactic(auto, unfolding(crate::specs::Constants::address_value))]
    fn address_value(&mut self, levels: u32) -> Result<usize, Failure>
        ensures { Reads (λ n. n) result self.old self.new levels address_value }
    {
        self.take(Kind::GetElementPtr)?;
        self.flags(levels)?;
        self.address_parens(levels)
    }

    /// local | global | integer | true | false | null | undef | poison | zeroinitializer | getelementptr ..
    #[cycle(constants)]
    #[tactic(auto, unfolding(crate::specs::Constants::value_rule, crate::specs::Constants::integer_value, crate::specs::Constants::name_value, crate::specs::Constants::word_value, crate::specs::Constants::address_value))]
    pub fn value(&mut self, levels: u32) -> Result<usize, Failure>
        ensures { Reads (λ n. n) result self.old self.new levels value_rule }
    {
        if self.next_among(integers()) {
            return self.integer_value(levels);
        }
        if self.next_among(&[
            Kind::Local,
            Kind::LocalDefinition,
            Kind::Global,
            Kind::UsedGlobal,
            Kind::DebugGlobal,
        ]) {
            return self.name_value(levels);
        }
        if self.next_among(&[Kind::True, Kind::False, Kind::Null, Kind::ZeroWord]) {
            return self.word_value(levels);
        }
        if self.next_is(Kind::GetElementPtr) {
            return self.address_value(levels);
        }
        Err(self.refuse(refused_values()))
    }

    /// { elems }
    #[cycle(constants)]
    #[tactic(auto, unfolding(crate::specs::Constants::braced_constants), using(crate::proofs::Levels::inside_deeper))]
    fn braced_constants(&mut self, levels: u32) -> Result<Vec<TypedConstant>, Failure>
        ensures { Reads (λ v. v.items) result self.old self.new levels braced_constants }
    {
        let at = self.rest.len();
        self.take(Kind::OpenBrace)?;
        let inner = Self::deeper(levels, at)?;
        let elements = self.elements_inside(inner)?;
        self.take(Kind::CloseBrace)?;
        Ok(elements)
    }

    /// [ elems ]
    #[cycle(constants)]
    #[tactic(auto, unfolding(crate::specs::Constants::squared_constants), using(crate::proofs::Levels::inside_deeper))]
    fn squared_constants(&mut self, levels: u32) -> Result<Vec<TypedConstant>, Failure>
        ensures { Reads (λ v. v.items) result self.old self.new levels squared_constants }
    {
        let at = self.rest.len();
        self.take(Kind::OpenSquare)?;
        let inner = Self::deeper(levels, at)?;
        let elements = self.elements_inside(inner)?;
        self.take(Kind::CloseSquare)?;
        Ok(elements)
    }

    /// [ elems ], an array
    #[cycle(constants)]
    #[tactic(auto, unfolding(crate::specs::Constants::array_constant))]
    fn array_constant(&mut self, levels: u32) -> Result<usize, Failure>
        ensures { Reads (λ n. n) result self.old self.new levels array_constant }
    {
        let elements = self.squared_constants(levels)?;
        self.add_array(elements.as_slice())
    }

    /// { elems }, a struct
    #[cycle(constants)]
    #[tactic(auto, unfolding(crate::specs::Constants::struct_constant))]
    fn struct_constant(&mut self, levels: u32) -> Result<usize, Failure>
        ensures { Reads (λ n. n) result self.old self.new levels struct_constant }
    {
        let elements = self.braced_constants(levels)?;
        self.add_struct(false, elements.as_slice())
    }

    /// < { elems } >, a packed struct
    #[cycle(constants)]
    #[tactic(auto, unfolding(crate::specs::Constants::packed_constant))]
    fn packed_constant(&mut self, levels: u32) -> Result<usize, Failure>
        ensures { Reads (λ n. n) result self.old self.new levels packed_constant }
    {
        self.take(Kind::Less)?;
        let elements = self.braced_constants(levels)?;
        self.take(Kind::Greater)?;
        self.add_struct(true, elements.as_slice())
    }

    /// value | bytes | [ elems ] | { elems } | < { elems } >
    #[cycle(constants)]
    #[tactic(auto, unfolding(crate::specs::Constants::constant_rule, crate::specs::Constants::array_constant, crate::specs::Constants::squared_constants, crate::specs::Constants::struct_constant, crate::specs::Constants::braced_constants, crate::specs::Constants::packed_constant))]
    pub fn constant(&mut self, levels: u32) -> Result<usize, Failure>
        ensures { Reads (λ n. n) result self.old self.new levels constant_rule }
    {
        if self.next_is(Kind::Bytes) {
            let token = self.take(Kind::Bytes)?;
            return self.add_constant(SpelledConstant::Bytes(token.token));
        }
        if self.next_is(Kind::OpenSquare) {
            return self.array_constant(levels);
        }
        if self.next_is(Kind::OpenBrace) {
            return self.struct_constant(levels);
        }
        if self.next_is(Kind::Less) {
            return self.packed_constant(levels);
        }
        self.value(levels)
    }

    /// type const
    #[cycle(constants)]
    #[tactic(auto, unfolding(crate::specs::Constants::typed_constant))]
    fn typed_constant(&mut self, levels: u32) -> Result<TypedConstant, Failure>
        ensures { Reads (λ v. v) result self.old self.new levels typed_constant }
    {
        let ty = self.ty(Context::Plain, levels)?;
        let value = self.constant(levels)?;
        Ok(TypedConstant { ty, value })
    }

    /// , type const
    #[cycle(constants)]
    #[tactic(auto, unfolding(crate::specs::Constants::comma_constant))]
    fn comma_constant(&mut self, levels: u32) -> Result<TypedConstant, Failure>
        ensures { Reads (λ v. v) result self.old self.new levels comma_constant }
    {
        self.comma()?;
        self.typed_constant(levels)
    }

    /// (, type const)*, behind a first element.
    #[cycle(constants)]
    #[tactic(auto, using(crate::proofs::ConstantLists::elements_more, crate::proofs::ConstantLists::elements_done, crate::proofs::ConstantLists::elements_failed, crate::proofs::ConstantLists::comma_constant_takes))]
    fn more_elements(
        &mut self,
        first: TypedConstant,
        levels: u32,
    ) -> Result<Vec<TypedConstant>, Failure>
        ensures { Gives (λ v. (v.items, self.new.rest.now, store_of self.new.found)) result (with_front (first ∷ []) (read levels more_elements self.old.rest.now (store_of self.old.found))) }
    {
        let mut elements = Vec::new(self.alloc);
        elements.push(first)?;
        while self.comma_is_next() {
            let next = self.comma_constant(levels)?;
            elements.push(next)?;
        }
        Ok(elements)
    }

    /// Whether an element is read at the next token, if only to refuse it.
    #[tactic(auto, using(crate::proofs::ConstantLists::starts_typed))]
    fn starts_element(&self) -> bool
        ensures { result ≡ starts (first typed_constant) self.now.rest.now }
    {
        self.starts_type(Context::Plain)
    }

    /// elems: type const (, type const)* or nothing
    #[cycle(constants)]
    #[tactic(auto, unfolding(crate::specs::Constants::elements_rule))]
    fn elements_inside(&mut self, levels: u32) -> Result<Vec<TypedConstant>, Failure>
        ensures { Reads (λ v. v.items) result self.old self.new levels elements_rule }
    {
        if self.starts_element() {
            let first = self.typed_constant(levels)?;
            self.more_elements(first, levels)
        } else {
            Ok(Vec::new(self.alloc))
        }
    }

    /// , type integer
    #[tactic(auto, unfolding(crate::specs::Constants::comma_index))]
    fn comma_index(&mut self, levels: u32) -> Result<TypedIndex, Failure>
        ensures { Reads (λ v. v) result self.old self.new levels comma_index }
    {
        self.comma()?;
        let ty = self.ty(Context::Plain, levels)?;
        let integer = self.take_among(integers())?;
        Ok(TypedIndex {
            ty,
            value: integer.integer(),
        })
    }

    /// (, type integer)*
    #[tactic(auto, using(crate::proofs::ConstantLists::indices_more, crate::proofs::ConstantLists::indices_done, crate::proofs::ConstantLists::indices_failed, crate::proofs::ConstantLists::comma_index_takes))]
    fn indices(&mut self, levels: u32) -> Result<Vec<TypedIndex>, Failure>
        ensures { Reads (λ v. v.items) result self.old self.new levels indices }
    {
        let mut found = Vec::new(self.alloc);
        while self.comma_is_next() {
            let next = self.comma_index(levels)?;
            found.push(next)?;
        }
        Ok(found)
    }

    /// type , ptr const
    #[cycle(constants)]
    #[tactic(auto, unfolding(crate::specs::Constants::address_base))]
    fn address_base(&mut self, levels: u32) -> Result<(usize, usize), Failure>
        ensures { Reads (λ v. v) result self.old self.new levels address_base }
    {
        let of = self.ty(Context::Plain, levels)?;
        self.comma()?;
        self.ptr_word(levels)?;
        let base = self.constant(levels)?;
        Ok((of, base))
    }

    /// type , ptr const (, type integer)*
    #[cycle(constants)]
    #[tactic(auto, unfolding(crate::specs::Constants::address_rule))]
    fn address_inside(&mut self, levels: u32) -> Result<usize, Failure>
        ensures { Reads (λ n. n) result self.old self.new levels address_rule }
    {
        let (of, base) = self.address_base(levels)?;
        let indices = self.indices(levels)?;
        self.add_address(of, base, indices.as_slice())
    }
}
