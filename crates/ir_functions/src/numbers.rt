ghost use Rattle.std.specs.Prelude.{◌≡◌, ◌<◌, ◌^◌, length};
ghost use Rattle.ir_names.specs.Keys.{first_with};
ghost use Rattle.ir_body_names.specs.BodyFaults.{node_place};

use ir_body_names::node_place;
use ir_core::Token;
use ir_names::Index;

/// The number of the first key that is this one.
pub(crate) fn number_of(index: &Index, key: &[u8]) -> Option<u32>
    requires { length index.now < 2 ^ 32 }
    ensures { result ≡ first_with key.now index.now }
{
    match index.first_with(key) {
        None => None,
        Some(place) => Some(place as u32),
    }
}

/// The number of the node that a token names.
pub(crate) fn node_number(source: &[u8], nodes: &Index, token: &Token) -> Option<u32>
    requires { length nodes.now < 2 ^ 32 }
    ensures { result ≡ node_place source.now nodes.now token.now }
{
    match node_place(source, nodes, token) {
        None => None,
        Some(place) => Some(place as u32),
    }
}
