ghost use Rattle.dbg_sites.specs.ChainTable.{ChainEntry, IsChainTable, chain_of, pushed};
ghost use Rattle.hw_base.specs.declared.pointers.Site.{Site};
ghost use Rattle.dbg_sites.specs.Frames.{frames_within, frames_of};
ghost use Rattle.std.specs.Prelude.{◌≡◌, ℕ, ◌+◌, ◌<◌, ◌≤◌, List, [], ◌∷◌, length, All, Some, true};
ghost use Rattle.ir_core.specs.declared.meta.Node.{Node};
ghost use Rattle.ir_core.specs.declared.ir_module.Module.{Module};
ghost use Rattle.ir_core.specs.Scopes.{scopes_end, calls_end, HasEndingScopes};
ghost use Rattle.ir_grammar.specs.DebugNodes.{IsResolved};

/// A site put in front of a chain gives the number of that chain, and all earlier numbers keep their chains.
pub fn pushing_puts_a_site_in_front()
    ensures front { (table : List ChainEntry) (rest : ℕ) (site : Site) → IsChainTable table → rest ≤ length table
        → chain_of (pushed table rest site).table (pushed table rest site).number ≡ site ∷ chain_of table rest }
    ensures earlier { (table : List ChainEntry) (rest : ℕ) (site : Site) (number : ℕ) → IsChainTable table → number ≤ length table
        → chain_of (pushed table rest site).table number ≡ chain_of table number }
    ensures within { (table : List ChainEntry) (rest : ℕ) (site : Site) → (pushed table rest site).number ≤ length (pushed table rest site).table }
    ensures table { (table : List ChainEntry) (rest : ℕ) (site : Site) → IsChainTable table → rest ≤ length table
        → IsChainTable (pushed table rest site).table }
    ensures start { IsChainTable [] }
{}

/// Two numbers of a table are equal if their chains are.
pub fn equal_numbers_are_equal_chains()
    ensures { (table : List ChainEntry) (number other : ℕ) → IsChainTable table → number ≤ length table → other ≤ length table
        → chain_of table number ≡ chain_of table other → number ≡ other }
{}

/// A chain of scopes, or of inlined calls, that ends after any number of steps ends within as many steps as there are nodes. So
/// one that doesn't never ends.
pub fn chains_end_within_the_nodes()
    ensures scopes { (nodes : List Node) (k steps : ℕ) → All (IsResolved nodes) nodes → k < length nodes
        → scopes_end steps nodes (Some k) ≡ true → scopes_end (length nodes) nodes (Some k) ≡ true }
    ensures calls { (nodes : List Node) (k steps : ℕ) → All (IsResolved nodes) nodes → k < length nodes
        → calls_end steps nodes (Some k) ≡ true → calls_end (length nodes) nodes (Some k) ≡ true }
{}

/// In a module whose chains end the bound in the definition of frames, the number of nodes, cuts nothing off: with any larger
/// bound the frames are the same.
pub fn no_chain_is_cut_off()
    ensures { (m : Module) (site : Site) (more : ℕ) → HasEndingScopes m → frames_within (more + length m.meta) m site ≡ frames_of m site }
{}

/// Each site has a frame, whatever the module says of it.
pub fn each_site_has_a_frame()
    ensures { (m : Module) (site : Site) → 1 ≤ length (frames_of m site) }
{}
