ghost use Rattle.std.specs.Prelude.{ℕ, List};
ghost use Rattle.ir_grammar.specs.declared.terminal.Terminal.{Terminal};
ghost use Rattle.ir_grammar.specs.Spelled.{Store};
ghost use Rattle.ir_read_items.specs.Rows.{AreRows, HasBlocks, Each};
ghost use Rattle.ir_read_items.specs.ItemLaws.{IsModule, SpelledIsModule, ModuleIsSpelled, BeforeFaultBegins, FaultEnds, FaultIsNoModule, NestingGoesOn, TooFewLevels, UnsupportedIsListed, ListedIsUnsupported};

/// The law of texts: exactly the modules of the grammar are read, bodies included, with what they spell, and a fault is at the first
/// token with which no module begins, unless it is one of nesting. Such a fault is at the bracket with which a module
/// begins, but only one of more than 64 levels. Another fault is Unsupported exactly if a form that isn't taken there is at its
/// token. The end of the text is a token.
pub fn texts_are_modules()
    ensures read { SpelledIsModule }
    ensures complete { ModuleIsSpelled }
    ensures before { BeforeFaultBegins }
    ensures at { FaultEnds }
    ensures whole { FaultIsNoModule }
    ensures nesting { NestingGoesOn }
    ensures levels { TooFewLevels }
    ensures unsupported { UnsupportedIsListed }
    ensures listed { ListedIsUnsupported }
{}

/// The law of rows. What is read of bodies is kept block after block: the instructions of a block are those from its first on,
/// each block ends with its only terminator, and each function that is defined has a block.
pub fn bodies_lie_in_rows()
    ensures rows { (levels : ℕ) (tokens : List Terminal) (store : Store) → IsModule levels tokens store → AreRows 0 store.bodies.instructions store.bodies.blocks }
    ensures blocks { (levels : ℕ) (tokens : List Terminal) (store : Store) → IsModule levels tokens store → Each HasBlocks store.items }
{}
