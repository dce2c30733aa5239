ghost use Rattle.std.specs.Prelude.{◌≡◌, ℕ, List, All};
ghost use Rattle.ir_core.specs.declared.token.Token.{Token};
ghost use Rattle.ir_grammar.specs.DebugNodes.{kept_nodes, IsResolved};

/// The law of kept nodes: each number in a kept node names a kept node, and `inlined` a location.
pub fn kept_nodes_are_resolved()
    ensures { (source : List ℕ) (tokens : List Token) → All (IsResolved (kept_nodes source tokens)) (kept_nodes source tokens) }
{}
