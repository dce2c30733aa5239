ghost use Rattle.std.specs.Prelude.{◌≡◌, ℕ, List, ◌∷◌, ◌++◌, true};
ghost use Rattle.ir_grammar.specs.declared.context.Context.{Context};
ghost use Rattle.ir_grammar.specs.Rules.{base};
ghost use Rattle.ir_grammar.specs.Names.{shared, number, constant};
ghost use Rattle.ir_grammar.specs.Grammar.{production};
ghost use Rattle.ir_grammar.specs.Conditions.{is_clear, goes_on, has, IsWellFormed};
ghost use Rattle.ir_grammar.specs.Types.{type_rule};
ghost use Rattle.ir_grammar.specs.Constants.{constant_rule};
ghost use Rattle.ir_grammar.specs.Attributes.{attribute};
ghost use Rattle.ir_grammar.specs.Laws.{ReadIsDerived, DerivedIsRead, BeforeFaultBegins, FaultEnds, FaultIsNoWhole, NestingGoesOn, TooFewLevels, UnsupportedIsListed, ListedIsUnsupported, FirstIsNotBad};

/// The law of reading: by a rule of the shared grammar exactly what the grammar derives is read, with the value and the
/// store of the derivation, and a fault is at the first token with which nothing is derived. A fault of nesting is at the
/// bracket with which something is derived, but only with more levels. Another fault is Unsupported exactly if a form that
/// isn't taken there is at its token, and BadSyntax otherwise; a rule that is read at the kind of a token never gives BadSyntax at it.
pub fn reading_is_deriving()
    ensures sound { ReadIsDerived }
    ensures complete { DerivedIsRead }
    ensures before { BeforeFaultBegins }
    ensures at { FaultEnds }
    ensures whole { FaultIsNoWhole }
    ensures nesting { NestingGoesOn }
    ensures levels { TooFewLevels }
    ensures unsupported { UnsupportedIsListed }
    ensures listed { ListedIsUnsupported }
    ensures first { FirstIsNotBad }
{}

/// The conditions under which the law of reading says all: they hold of the rule of each name, and of types, constants and
/// attributes.
pub fn one_token_ahead_decides()
    ensures names { IsWellFormed shared production }
    ensures types { (c : Context) → is_clear shared production (base number) (type_rule c) ≡ true }
    ensures constants { is_clear shared production (base constant) constant_rule ≡ true }
{}
