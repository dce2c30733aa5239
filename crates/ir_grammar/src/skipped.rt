ghost use Rattle.std.specs.Prelude.{◌≡◌};
ghost use Rattle.ir_grammar.specs.Reading.{starts, take, first};
ghost use Rattle.ir_grammar.specs.Kinds.{is_among};
ghost use Rattle.ir_grammar.specs.Words.{all_but_brackets};
ghost use Rattle.ir_grammar.specs.Grammar.{Gives, Reads};
ghost use Rattle.ir_grammar.specs.Spelled.{store_of};
ghost use Rattle.ir_grammar.specs.Skipped.{in_parens, in_squares, in_braces, any_part, any_run};

use crate::{Failure, Kind, Reader, Terminal};

impl Kind {
    /// Whether it is none of `( ) [ ] { }`, and not the end of the text.
    #[tactic(auto, using(crate::proofs::SkippedRuns::no_bracket))]
    fn is_no_bracket(self) -> bool
        ensures { result ≡ is_among all_but_brackets self }
    {
        !self.is_among(&[
            Kind::OpenParen,
            Kind::CloseParen,
            Kind::OpenSquare,
            Kind::CloseSquare,
            Kind::OpenBrace,
            Kind::CloseBrace,
            Kind::End,
        ])
    }
}

impl<'a> Reader<'a> {
    /// Whether a run that is skipped goes on with the next token.
    #[tactic(auto, using(crate::proofs::SkippedRuns::goes_on_at))]
    fn starts_any(&self) -> bool
        ensures { result ≡ starts (first any_part) self.now.rest.now }
    {
        match self.rest {
            [] => false,
            [next, ..] => {
                !next.kind.is_among(&[
                    Kind::CloseParen,
                    Kind::CloseSquare,
                    Kind::CloseBrace,
                    Kind::End,
                ])
            }
        }
    }

    /// Takes a token that is no bracket.
    fn take_no_bracket(&mut self) -> Result<Terminal, Failure>
        ensures { Gives (λ t. (t, self.new.rest.now, store_of self.new.found)) result (take all_but_brackets self.old.rest.now (store_of self.old.found)) }
    {
        match self.rest {
            [] => Err(self.bad()),
            [next, rest @ ..] => {
                if next.kind.is_no_bracket() {
                    self.rest = rest;
                    Ok(*next)
                } else {
                    Err(self.bad())
                }
            }
        }
    }

    /// ( any )
    #[cycle(any)]
    #[tactic(auto, unfolding(crate::specs::Skipped::in_parens), using(crate::proofs::Levels::inside_deeper))]
    pub fn in_parens(&mut self, levels: u32) -> Result<(), Failure>
        ensures { Reads (λ x. x) result self.old self.new levels in_parens }
    {
        let at = self.rest.len();
        self.take(Kind::OpenParen)?;
        let inner = Self::deeper(levels, at)?;
        self.any_run(inner)?;
        self.take(Kind::CloseParen)?;
        Ok(())
    }

    /// [ any ]
    #[cycle(any)]
    #[tactic(auto, unfolding(crate::specs::Skipped::in_squares), using(crate::proofs::Levels::inside_deeper))]
    pub fn in_squares(&mut self, levels: u32) -> Result<(), Failure>
        ensures { Reads (λ x. x) result self.old self.new levels in_squares }
    {
        let at = self.rest.len();
        self.take(Kind::OpenSquare)?;
        let inner = Self::deeper(levels, at)?;
        self.any_run(inner)?;
        self.take(Kind::CloseSquare)?;
        Ok(())
    }

    /// { any }
    #[cycle(any)]
    #[tactic(auto, unfolding(crate::specs::Skipped::in_braces), using(crate::proofs::Levels::inside_deeper))]
    pub fn in_braces(&mut self, levels: u32) -> Result<(), Failure>
        ensures { Reads (λ x. x) result self.old self.new levels in_braces }
    {
        let at = self.rest.len();
        self.take(Kind::OpenBrace)?;
        let inner = Self::deeper(levels, at)?;
        self.any_run(inner)?;
        self.take(Kind::CloseBrace)?;
        Ok(())
    }

    /// A token that is no bracket, or brackets and what stands between them.
    #[cycle(any)]
    #[tactic(auto, unfolding(crate::specs::Skipped::any_part, crate::specs::Skipped::in_parens, crate::specs::Skipped::in_squares, crate::specs::Skipped::in_braces))]
    fn any_part(&mut self, levels: u32) -> Result<(), Failure>
        ensures { Reads (λ x. x) result self.old self.new levels any_part }
    {
        if self.next_is(Kind::OpenParen) {
            return self.in_parens(levels);
        }
        if self.next_is(Kind::OpenSquare) {
            return self.in_squares(levels);
        }
        if self.next_is(Kind::OpenBrace) {
            return self.in_braces(levels);
        }
        self.take_no_bracket()?;
        Ok(())
    }

    /// any: tokens up to a closing bracket of another pair, or the end of the text.
    #[cycle(any)]
    #[tactic(auto, using(crate::proofs::SkippedRuns::any_more, crate::proofs::SkippedRuns::any_done, crate::proofs::SkippedRuns::any_failed, crate::proofs::SkippedRuns::any_takes))]
    pub fn any_run(&mut self, levels: u32) -> Result<(), Failure>
        ensures { Reads (λ x. x) result self.old self.new levels any_run }
    {
        while self.starts_any() {
            self.any_part(levels)?;
        }
        Ok(())
    }
}
