ghost use Rattle.std.specs.Prelude.{◌≡◌, ◌++◌, if◌then◌else◌};
ghost use Rattle.ir_grammar.specs.declared.terminal.Failure.TheVariants.{Flawed};
ghost use Rattle.ir_grammar.specs.Reading.{starts, take, first, bad, unsupported};
ghost use Rattle.ir_grammar.specs.Words.{texts, common_attributes, attribute_words, refused_words, refused_attributes};
ghost use Rattle.ir_grammar.specs.Grammar.{Gives, Reads, read};
ghost use Rattle.ir_grammar.specs.Spelled.{store_of};
ghost use Rattle.ir_grammar.specs.Attributes.{alignment, word_attribute, align_attribute, convention_attribute, text_attribute, attribute, attributes};

use crate::words::{common_attributes, integers, refused_words, texts};
use crate::{Context, Failure, Kind, Reader, Terminal};

/// Words that are attributes in this place, beside those that are attributes everywhere.
fn more_attributes(context: Context) -> &'static [Kind]
    ensures { result.now ++ common_attributes ≡ attribute_words context }
{
    match context {
        Context::Plain | Context::Global => &[Kind::DollarWord, Kind::Section],
        Context::GlobalTail => &[Kind::DollarWord],
        Context::Declare | Context::Parameter => {
            &[Kind::External, Kind::DollarWord, Kind::Section]
        }
        Context::DeclareTail => &[Kind::External, Kind::Section],
    }
}

/// Words that are Unsupported where an attribute may stand in this place, beside those that are Unsupported everywhere.
fn more_refused(context: Context) -> &'static [Kind]
    ensures { result.now ++ refused_words ≡ refused_attributes context }
{
    match context {
        Context::Plain | Context::Global | Context::GlobalTail => {
            &[Kind::External, Kind::MetadataWord, Kind::Target]
        }
        Context::Declare => &[Kind::Target],
        Context::Parameter => &[Kind::MetadataWord, Kind::Target],
        Context::DeclareTail => &[Kind::DollarWord, Kind::MetadataWord],
    }
}

impl<'a> Reader<'a> {
    /// A power of two; on a global at most 16, and above that Unsupported.
    #[tactic(auto, unfolding(crate::specs::Attributes::alignment))]
    fn alignment(&mut self, context: Context, levels: u32) -> Result<(), Failure>
        ensures { Reads (λ x. x) result self.old self.new levels (alignment context) }
    {
        let on_global = context == Context::Global || context == Context::GlobalTail;
        if !on_global {
            self.take_among(&[Kind::SmallPower, Kind::Power, Kind::GreatPower])?;
            return Ok(());
        }
        if self.next_is(Kind::SmallPower) {
            self.take(Kind::SmallPower)?;
            return Ok(());
        }
        Err(self.refuse(&[Kind::Power, Kind::GreatPower]))
    }

    /// Whether a word that is an attribute in this place comes next.
    fn next_is_word(&self, context: Context) -> bool
        ensures { result ≡ starts (attribute_words context) self.now.rest.now }
    {
        self.next_either(more_attributes(context), common_attributes())
    }

    /// Takes a word that is an attribute in this place.
    fn take_word(&mut self, context: Context) -> Result<Terminal, Failure>
        ensures { Gives (λ t. (t, self.new.rest.now, store_of self.new.found)) result (take (attribute_words context) self.old.rest.now (store_of self.old.found)) }
    {
        self.take_either(more_attributes(context), common_attributes())
    }

    /// Whether a word that is Unsupported as an attribute in this place comes next.
    fn next_is_refused(&self, context: Context) -> bool
        ensures { result ≡ starts (refused_attributes context) self.now.rest.now }
    {
        self.next_either(more_refused(context), refused_words())
    }

    /// The failure where no attribute begins.
    fn refuse_attribute(&self, context: Context) -> Failure
        ensures { result ≡ Flawed (if starts (refused_attributes context) self.now.rest.now then unsupported self.now.rest.now else bad self.now.rest.now) }
    {
        self.refuse_either(more_refused(context), refused_words())
    }

    /// word | word ( any )
    #[tactic(auto, unfolding(crate::specs::Attributes::word_attribute, crate::specs::Skipped::in_parens))]
    fn word_attribute(&mut self, context: Context, levels: u32) -> Result<(), Failure>
        ensures { Reads (λ x. x) result self.old self.new levels (word_attribute context) }
    {
        self.take_word(context)?;
        if self.next_is(Kind::OpenParen) {
            self.in_parens(levels)?;
        }
        Ok(())
    }

    /// align integer | align ( any )
    #[tactic(auto, unfolding(crate::specs::Attributes::align_attribute, crate::specs::Skipped::in_parens))]
    fn align_attribute(&mut self, context: Context, levels: u32) -> Result<(), Failure>
        ensures { Reads (λ x. x) result self.old self.new levels (align_attribute context) }
    {
        self.take(Kind::Align)?;
        if self.next_is(Kind::OpenParen) {
            return self.in_parens(levels);
        }
        self.alignment(context, levels)
    }

    /// cc integer | cc ( any )
    #[tactic(auto, unfolding(crate::specs::Attributes::convention_attribute, crate::specs::Skipped::in_parens))]
    fn convention_attribute(&mut self, levels: u32) -> Result<(), Failure>
        ensures { Reads (λ x. x) result self.old self.new levels convention_attribute }
    {
        self.take(Kind::CallingConvention)?;
        if self.next_is(Kind::OpenParen) {
            return self.in_parens(levels);
        }
        self.take_among(integers())?;
        Ok(())
    }

    /// A string.
    pub fn text(&mut self) -> Result<Terminal, Failure>
        ensures { Gives (λ t. (t, self.new.rest.now, store_of self.new.found)) result (take texts self.old.rest.now (store_of self.old.found)) }
    {
        self.take_among(texts())
    }

    /// string | string = string
    #[tactic(auto, unfolding(crate::specs::Attributes::text_attribute))]
    fn text_attribute(&mut self, levels: u32) -> Result<(), Failure>
        ensures { Reads (λ x. x) result self.old self.new levels text_attribute }
    {
        self.text()?;
        if self.next_is(Kind::Equals) {
            self.take(Kind::Equals)?;
            self.text()?;
        }
        Ok(())
    }

    /// word | word ( any ) | (align | cc) integer | (align | cc) ( any ) | string | string = string | attrnum
    #[tactic(auto, unfolding(crate::specs::Attributes::attribute, crate::specs::Attributes::word_attribute, crate::specs::Attributes::align_attribute, crate::specs::Attributes::convention_attribute, crate::specs::Attributes::text_attribute))]
    pub fn attribute(&mut self, context: Context, levels: u32) -> Result<(), Failure>
        ensures { Reads (λ x. x) result self.old self.new levels (attribute context) }
    {
        if self.next_is_word(context) {
            return self.word_attribute(context, levels);
        }
        if self.next_is(Kind::Align) {
            return self.align_attribute(context, levels);
        }
        if self.next_is(Kind::CallingConvention) {
            return self.convention_attribute(levels);
        }
        if self.next_among(texts()) {
            return self.text_attribute(levels);
        }
        if self.next_is(Kind::AttrNumber) {
            self.take(Kind::AttrNumber)?;
            return Ok(());
        }
        Err(self.refuse_attribute(context))
    }

    /// Whether an attribute is read at the next token, if only to refuse it.
    #[tactic(auto, using(crate::proofs::AttributeLists::attribute_starts))]
    pub fn starts_attribute(&self, context: Context) -> bool
        ensures { result ≡ starts (first (attribute context)) self.now.rest.now }
    {
        self.next_is_word(context)
            || self.next_among(&[
                Kind::Align,
                Kind::CallingConvention,
                Kind::Text,
                Kind::OtherLayout,
                Kind::AttrNumber,
            ])
            || self.next_is_refused(context)
    }

    /// attr*
    #[tactic(auto, using(crate::proofs::AttributeLists::attributes_more, crate::proofs::AttributeLists::attributes_done, crate::proofs::AttributeLists::attributes_failed, crate::proofs::AttributeLists::attribute_takes))]
    pub fn attributes(&mut self, context: Context, levels: u32) -> Result<(), Failure>
        ensures { Reads (λ x. x) result self.old self.new levels (attributes context) }
    {
        while self.starts_attribute(context) {
            self.attribute(context, levels)?;
        }
        Ok(())
    }
}
