ghost use Rattle.std.specs.Prelude.{◌≡◌, ℕ, List, [], ◌∷◌, ◌++◌, length, slice_get, ◌==◌, IfSome, OnOk, OnErr};
ghost use Rattle.ir_core.specs.Tokens.{Tokenised, bytes_of, IsWithin};

use crate::Token;
use hw_base::OutOfMemory;
use std::alloc::Global;
use std::marker::Model;

/// A list of tokens beside the text that they are tokens of, so that a token's bytes need nothing else. The text isn't
/// copied. Contracts see both: `source`, the bytes of the text, and `tokens`, the list. Each token lies within the text.
#[derive(Drop)]
pub struct Tokens<'a> {
    source: &'a [u8],
    items: Vec<Token>,
}

impl<'a> Model for Tokens<'a> {
    ghost use Rattle.std.specs.Prelude.{All};
    ghost use Rattle.ir_core.specs.Tokens.{Tokenised, IsWithin};

    ghost Value = { Tokenised };

    ghost view = { λ t. record { source = t.source.now; tokens = t.items.items } };

    ghost invariant = { λ t. All (IsWithin t.source.now) t.items.items };
}

impl<'a> Tokens<'a> {
    /// No tokens, beside this text. It takes no memory.
    pub fn new(alloc: Global, source: &'a [u8]) -> Tokens<'a>
        ensures source { result.source ≡ source.now }
        ensures tokens { result.tokens ≡ [] }
    {
        Tokens {
            source,
            items: Vec::new(alloc),
        }
    }

    /// Adds a token of the text at the end. After want of memory the list is as before.
    pub fn push(&mut self, token: Token) -> Result<(), OutOfMemory>
        requires { IsWithin self.old.source token }
        ensures source { self.new.source ≡ self.old.source }
        ensures ok { OnOk result (self.new.tokens ≡ self.old.tokens ++ token ∷ []) }
        ensures err { OnErr result (self.new.tokens ≡ self.old.tokens) }
    {
        match self.items.push(token) {
            Ok(()) => Ok(()),
            Err(_) => Err(OutOfMemory),
        }
    }

    /// How many tokens there are.
    pub fn len(&self) -> u64
        ensures { result ≡ length self.now.tokens }
    {
        self.items.len() as u64
    }

    /// Whether there is no token.
    pub fn is_empty(&self) -> bool
        ensures { result ≡ (length self.now.tokens == 0) }
    {
        self.items.is_empty()
    }

    /// The token at an index, counted from 0, or none exactly where the index is past the end.
    pub fn get(&self, i: u64) -> Option<Token>
        ensures token { result ≡ slice_get self.now.tokens i }
        ensures within { IfSome result (λ token. IsWithin self.now.source token) }
    {
        self.items.get(i as usize).copied()
    }

    /// The tokens in order.
    pub fn as_slice(&self) -> &[Token]
        ensures { result.now ≡ self.now.tokens }
    {
        self.items.as_slice()
    }

    /// The text's bytes.
    pub fn source(&self) -> &'a [u8]
        ensures { result.now ≡ self.now.source }
    {
        self.source
    }

    /// The token's bytes in the text. A token of another text that reaches past the end of this one has only those that
    /// are there.
    pub fn text_of(&self, token: &Token) -> &'a [u8]
        ensures { result.now ≡ bytes_of self.now.source token.now }
    {
        let to = self.source.len().min(token.to as usize);
        let from = to.min(token.from as usize);
        &self.source[from..to]
    }
}
