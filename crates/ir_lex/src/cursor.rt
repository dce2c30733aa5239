ghost use Rattle.std.specs.Prelude.{◌≡◌, ◌≤◌, ◌<◌, ◌+◌, ◌^◌, false, length, take, drop, nat_lt, MatchOption};
ghost use Rattle.std.specs.List.{prefix_len};
ghost use Rattle.hw_base.specs.declared.numbers.TheConstants.{MOST_TEXT};
ghost use Rattle.ir_core.specs.Spelling.{is_name_byte};
ghost use Rattle.ir_core.specs.Tokenisation.{place_after, IsToken};
ghost use Rattle.ir_lex.specs.Gaps.{gap_length};
ghost use Rattle.ir_lex.specs.Cursors.{HasNoToken, IsTaken};

use crate::classes::{ByteClass, front_len, rest_from};
use crate::front::token_at_front;
use crate::gaps::{gap_len, place_behind};
use ir_core::{Place, Token};

/// How far a text is read: the offset of the next byte, its place, and the end of the name bytes that were counted last.
/// While that end is after the next byte, no name bytes are counted again, so each byte is looked at a few times only.
#[derive(Drop)]
pub(crate) struct Cursor<'a> {
    text: &'a [u8],
    at: usize,
    place: Place,
    names_end: usize,
    ghost short: { length text.now ≤ MOST_TEXT },
    ghost inside: { at ≤ length text.now },
    ghost line: { place.line ≡ (place_after (take at text.now)).line },
    ghost column: { place.column ≡ (place_after (take at text.now)).column },
    ghost names: { at < names_end → names_end ≡ at + prefix_len is_name_byte (drop at text.now) },
}

impl<'a> Cursor<'a> {
    /// At the first byte of the text.
    pub(crate) fn new(text: &'a [u8]) -> Cursor<'a>
        requires { length text.now ≤ MOST_TEXT }
        ensures text { result.text.now ≡ text.now }
        ensures at { result.at ≡ 0 }
    {
        Cursor {
            text,
            at: 0,
            place: Place { line: 1, column: 1 },
            names_end: 0,
        }
    }

    /// The place of the next byte.
    pub(crate) fn place(&self) -> Place
        ensures { result ≡ place_after (take self.now.at self.now.text.now) }
    {
        self.place
    }

    /// Whether a byte is left.
    pub(crate) fn is_inside(&self) -> bool
        ensures { result ≡ nat_lt self.now.at (length self.now.text.now) }
    {
        self.at < self.text.len()
    }

    /// Passes over bytes that are there.
    fn advance(&mut self, n: usize)
        requires { self.old.at + n ≤ length self.old.text.now }
        ensures text { self.new.text.now ≡ self.old.text.now }
        ensures at { self.new.at ≡ self.old.at + n }
    {
        let passed = &self.text[self.at..self.at + n];
        self.place = place_behind(self.place, passed);
        self.at += n;
    }

    /// How many name bytes come next.
    fn names(&mut self) -> usize
        ensures text { self.new.text.now ≡ self.old.text.now }
        ensures at { self.new.at ≡ self.old.at }
        ensures value { result ≡ prefix_len is_name_byte (drop self.old.at self.old.text.now) }
    {
        if self.at >= self.names_end {
            let n = front_len(ByteClass::Name, rest_from(self.text, self.at));
            self.names_end = self.at + n;
            n
        } else {
            self.names_end - self.at
        }
    }

    /// Passes over the blanks and comments that come next.
    pub(crate) fn skip_gap(&mut self)
        ensures text { self.new.text.now ≡ self.old.text.now }
        ensures at { self.new.at ≡ self.old.at + gap_length false (drop self.old.at self.old.text.now) }
    {
        let n = gap_len(rest_from(self.text, self.at));
        self.advance(n);
    }

    /// Passes over the token that comes next, and returns it; none if no token begins here, and then nothing is passed.
    pub(crate) fn take_token(&mut self) -> Option<Token>
        ensures text { self.new.text.now ≡ self.old.text.now }
        ensures token { MatchOption result (HasNoToken self.old.text.now self.old.at self.new.at) (IsTaken self.old.text.now self.old.at self.new.at) }
    {
        let names = self.names();
        match token_at_front(names, rest_from(self.text, self.at)) {
            None => None,
            Some(found) => {
                let token = Token {
                    kind: found.kind,
                    from: self.at as u32,
                    to: (self.at + found.len) as u32,
                    place: self.place,
                };
                self.advance(found.len);
                Some(token)
            }
        }
    }
}
