ghost use Rattle.std.specs.Prelude.{◌≡◌, ◌+◌, ◌≤◌, ◌<◌, ◌^◌};
ghost use Rattle.ir_grammar.specs.DebugFields.{lexeme, is_mark_kind, is_label_kind, is_the, opens, closes, is_comma, depth_behind};
ghost use Rattle.ir_grammar.specs.DebugNodes.{is_word_kind, is_integer_kind, is_meta_name_kind, is_meta_number_kind, is_text_kind, is_distinct};

use ir_core::{Token, TokenKind, Tokens};

fn is_mark_kind(kind: TokenKind) -> bool
    ensures { result ≡ is_mark_kind kind }
{
    matches!(kind, TokenKind::Mark)
}

pub(crate) fn is_label_kind(kind: TokenKind) -> bool
    ensures { result ≡ is_label_kind kind }
{
    matches!(kind, TokenKind::Label)
}

fn is_word_kind(kind: TokenKind) -> bool
    ensures { result ≡ is_word_kind kind }
{
    matches!(kind, TokenKind::Word)
}

pub(crate) fn is_integer_kind(kind: TokenKind) -> bool
    ensures { result ≡ is_integer_kind kind }
{
    matches!(kind, TokenKind::Integer)
}

pub(crate) fn is_meta_name_kind(kind: TokenKind) -> bool
    ensures { result ≡ is_meta_name_kind kind }
{
    matches!(kind, TokenKind::MetaName)
}

pub(crate) fn is_meta_number_kind(kind: TokenKind) -> bool
    ensures { result ≡ is_meta_number_kind kind }
{
    matches!(kind, TokenKind::MetaNumber)
}

pub(crate) fn is_text_kind(kind: TokenKind) -> bool
    ensures { result ≡ is_text_kind kind }
{
    matches!(kind, TokenKind::Text)
}

/// Whether the token is this mark.
pub(crate) fn is_the(tokens: &Tokens, token: &Token, mark: u8) -> bool
    ensures { result ≡ is_the mark (lexeme tokens.now.source token.now) }
{
    is_mark_kind(token.kind) && tokens.text_of(token) == [mark].as_slice()
}

/// Whether the token is an opening bracket.
pub(crate) fn opens(tokens: &Tokens, token: &Token) -> bool
    ensures { result ≡ opens (lexeme tokens.now.source token.now) }
{
    is_the(tokens, token, b'(') || is_the(tokens, token, b'[') || is_the(tokens, token, b'{')
}

/// Whether the token is a closing bracket.
pub(crate) fn closes(tokens: &Tokens, token: &Token) -> bool
    ensures { result ≡ closes (lexeme tokens.now.source token.now) }
{
    is_the(tokens, token, b')') || is_the(tokens, token, b']') || is_the(tokens, token, b'}')
}

/// Whether the token is a comma.
pub(crate) fn is_comma(tokens: &Tokens, token: &Token) -> bool
    ensures { result ≡ is_comma (lexeme tokens.now.source token.now) }
{
    is_the(tokens, token, b',')
}

/// How many brackets are open after the token, from how many are before it.
pub(crate) fn depth_behind(tokens: &Tokens, token: &Token, depth: u64) -> u64
    requires { depth + 1 < 2 ^ 64 }
    ensures value { result ≡ depth_behind (lexeme tokens.now.source token.now) depth }
    ensures bound { result ≤ depth + 1 }
{
    if opens(tokens, token) {
        depth + 1
    } else if closes(tokens, token) {
        depth.saturating_sub(1)
    } else {
        depth
    }
}

/// Whether the token is the word `distinct`.
pub(crate) fn is_distinct(tokens: &Tokens, token: &Token) -> bool
    ensures { result ≡ is_distinct (lexeme tokens.now.source token.now) }
{
    is_word_kind(token.kind) && tokens.text_of(token) == b"distinct".as_slice()
}
