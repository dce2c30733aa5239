ghost use Rattle.std.specs.Prelude.{◌≡◌, [], ◌∷◌};
ghost use Rattle.ir_grammar.specs.Reading.{starts, first};
ghost use Rattle.ir_grammar.specs.Grammar.{Gives, Reads, read, with_front};
ghost use Rattle.ir_grammar.specs.Spelled.{store_of, token_in};
ghost use Rattle.ir_grammar.specs.Parameters.{behind_type, maybe_local, parameter_rule, comma_parameter, more_parameters, parameters_rule, parameters};

use crate::words::locals;
use crate::{Context, Failure, Kind, Reader, SpelledParameter, Terminal};
use ir_core::Token;

/// Its token, where there is one.
pub fn token_in(local: Option<Terminal>) -> Option<Token>
    ensures { result ≡ token_in local }
{
    match local {
        None => None,
        Some(found) => Some(found.token),
    }
}

/// The place behind the type of a parameter.
fn behind_type(context: Context) -> Context
    ensures { result ≡ behind_type context }
{
    match context {
        Context::Declare => Context::Parameter,
        Context::Plain => Context::Plain,
        Context::Global => Context::Global,
        Context::GlobalTail => Context::GlobalTail,
        Context::Parameter => Context::Parameter,
        Context::DeclareTail => Context::DeclareTail,
    }
}

impl<'a> Reader<'a> {
    /// local?
    #[tactic(auto, unfolding(crate::specs::Parameters::maybe_local))]
    fn maybe_local(&mut self, levels: u32) -> Result<Option<Terminal>, Failure>
        ensures { Reads (λ x. x) result self.old self.new levels maybe_local }
    {
        if self.next_among(locals()) {
            let local = self.take_among(locals())?;
            return Ok(Some(local));
        }
        Ok(None)
    }

    /// type attr* local?
    #[tactic(auto, unfolding(crate::specs::Parameters::parameter_rule))]
    fn parameter(&mut self, context: Context, levels: u32) -> Result<SpelledParameter, Failure>
        ensures { Reads (λ x. x) result self.old self.new levels (parameter_rule context) }
    {
        let ty = self.ty(context, levels)?;
        self.attributes(behind_type(context), levels)?;
        let local = self.maybe_local(levels)?;
        Ok(SpelledParameter {
            ty,
            name: token_in(local),
        })
    }

    /// , type attr* local?
    #[tactic(auto, unfolding(crate::specs::Parameters::comma_parameter))]
    fn comma_parameter(
        &mut self,
        context: Context,
        levels: u32,
    ) -> Result<SpelledParameter, Failure>
        ensures { Reads (λ x. x) result self.old self.new levels (comma_parameter context) }
    {
        self.comma()?;
        self.parameter(context, levels)
    }

    /// (, type attr* local?)*, behind a first parameter.
    #[tactic(auto, using(crate::proofs::ParameterLists::parameters_more, crate::proofs::ParameterLists::parameters_done, crate::proofs::ParameterLists::parameters_failed, crate::proofs::ParameterLists::comma_parameter_takes))]
    fn more_parameters(
        &mut self,
        context: Context,
        first: SpelledParameter,
        levels: u32,
    ) -> Result<Vec<SpelledParameter>, Failure>
        ensures { Gives (λ v. (v.items, self.new.rest.now, store_of self.new.found)) result (with_front (first ∷ []) (read levels (more_parameters context) self.old.rest.now (store_of self.old.found))) }
    {
        let mut parameters = Vec::new(self.alloc);
        parameters.push(first)?;
        while self.comma_is_next() {
            let next = self.comma_parameter(context, levels)?;
            parameters.push(next)?;
        }
        Ok(parameters)
    }

    /// Whether a parameter is read at the next token, if only to refuse it.
    #[tactic(auto, using(crate::proofs::ParameterLists::starts_with_type))]
    fn starts_parameter(&self, context: Context) -> bool
        ensures { result ≡ starts (first (parameter_rule context)) self.now.rest.now }
    {
        self.starts_type(context)
    }

    /// params: type attr* local? (, type attr* local?)* or nothing
    #[tactic(auto, unfolding(crate::specs::Parameters::parameters_rule))]
    fn parameters_inside(
        &mut self,
        context: Context,
        levels: u32,
    ) -> Result<Vec<SpelledParameter>, Failure>
        ensures { Reads (λ v. v.items) result self.old self.new levels (parameters_rule context) }
    {
        if self.starts_parameter(context) {
            let first = self.parameter(context, levels)?;
            self.more_parameters(context, first, levels)
        } else {
            Ok(Vec::new(self.alloc))
        }
    }

    /// ( params )
    #[tactic(auto, unfolding(crate::specs::Parameters::parameters), using(crate::proofs::Levels::inside_deeper))]
    pub fn parameters(
        &mut self,
        context: Context,
        levels: u32,
    ) -> Result<Vec<SpelledParameter>, Failure>
        ensures { Reads (λ v. v.items) result self.old self.new levels (parameters context) }
    {
        let at = self.rest.len();
        self.take(Kind::OpenParen)?;
        let inner = Self::deeper(levels, at)?;
        let found = self.parameters_inside(context, inner)?;
        self.take(Kind::CloseParen)?;
        Ok(found)
    }
}
