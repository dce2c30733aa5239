ghost use Rattle.std.specs.Prelude.{◌≡◌, ◌&&◌, ◌||◌};
ghost use Rattle.std.specs.Option.{option_map};
ghost use Rattle.ir_grammar.specs.DebugFields.{lexeme, closes, is_comma, is_label_kind, first_field, only_token};
ghost use Rattle.ir_text.specs.TokenText.{label_name};
ghost use Rattle.ir_core.specs.Tokens.{bytes_of};
ghost use Rattle.std.specs.Str.{bytes_eq};
ghost use Rattle.dbg_sites.specs.Read.{fields_in, value_in};
ghost use Rattle.ir_grammar.specs.DebugNodes.{field_token};

use crate::token_kinds::{closes, depth_behind, is_comma, is_label_kind, opens};
use ir_core::{Token, Tokens};
use ir_text::is_label_of;

fn ends_value(tokens: &Tokens, token: &Token) -> bool
    ensures { result ≡ (closes (lexeme tokens.now.source token.now) || is_comma (lexeme tokens.now.source token.now)) }
{
    closes(tokens, token) || is_comma(tokens, token)
}

/// Whether the token is a label that gives this name.
fn is_label_named(tokens: &Tokens, token: &Token, name: &[u8]) -> bool
    ensures { result ≡ (is_label_kind token.now.kind && bytes_eq (label_name (bytes_of tokens.now.source token.now)) name.now) }
{
    is_label_kind(token.kind) && is_label_of(tokens.text_of(token), name)
}

/// The tokens after the label of the first field of this name, among those inside a node's brackets.
pub(crate) fn first_field<'a>(
    tokens: &Tokens,
    node: &'a [Token],
    name: &[u8],
) -> Option<&'a [Token]>
    ensures { option_map (λ rest. value_in tokens.now.source rest.now) result ≡ first_field name.now (fields_in tokens.now.source node.now) }
{
    let _count = node.len();
    let mut depth: u64 = 0;
    let mut rest = node;
    while let [token, after @ ..] = rest {
        let outside = depth == 0;
        if outside && closes(tokens, token) {
            return None;
        }
        if outside && is_label_named(tokens, token, name) {
            return Some(after);
        }
        depth = depth_behind(tokens, token, depth);
        rest = after;
    }
    None
}

/// The one token of the value that begins here.
fn only_token(tokens: &Tokens, rest: &[Token]) -> Option<Token>
    ensures { option_map (lexeme tokens.now.source) result ≡ only_token (value_in tokens.now.source rest.now) }
{
    match rest {
        [] => None,
        [token] => {
            if ends_value(tokens, token) {
                None
            } else {
                Some(*token)
            }
        }
        [token, next, ..] => {
            if ends_value(tokens, token) {
                return None;
            }
            if opens(tokens, token) {
                return None;
            }
            if ends_value(tokens, next) {
                Some(*token)
            } else {
                None
            }
        }
    }
}

/// The one token of the first field of this name.
pub(crate) fn field_token(tokens: &Tokens, node: &[Token], name: &[u8]) -> Option<Token>
    ensures { option_map (lexeme tokens.now.source) result ≡ field_token (fields_in tokens.now.source node.now) name.now }
{
    match first_field(tokens, node, name) {
        None => None,
        Some(rest) => only_token(tokens, rest),
    }
}
