ghost use Rattle.std.specs.Prelude.{◌<◌, ◌+◌, ◌^◌, length};
ghost use Rattle.ir_first_values.specs.Offsets.{IsReady};

use ir_body_names::Names;
use ir_first_values::Initializers;
use ir_names::Index;

/// What the names in a function are resolved by.
#[derive(Drop)]
pub(crate) struct Resolver<'a, 'n, 'k, 'v, 'c> {
    pub(crate) names: &'a Names<'n, 'k>,
    pub(crate) values: &'a Initializers<'v>,
    /// The keys of what the function defines.
    pub(crate) index: &'a Index<'c>,
    /// The number of each definition among those of its kind.
    pub(crate) numbers: &'a [u32],
    ghost functions: { length names.now.functions.now < 2 ^ 32 },
    ghost declares: { length names.now.declares.now < 2 ^ 32 },
    ghost nodes: { length names.now.nodes.now < 2 ^ 32 },
    ghost few: { length names.now.types.now + 300 < 2 ^ 32 },
    ghost ready: { IsReady values.now },
}
