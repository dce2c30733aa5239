ghost use Rattle.std.specs.Prelude.{◌≡◌, ◌≤◌, ◌<◌, ◌+◌, ◌^◌, false, length, fold};
ghost use Rattle.ir_core.specs.Tokenisation.{is_separator};
ghost use Rattle.ir_lex.specs.Gaps.{goes_on, gap_length, place_over};

use ir_core::Place;

/// A blank, or the `;` that begins a comment.
fn is_separator(b: u8) -> bool
    ensures { result ≡ is_separator b }
{
    matches!(b, b' ' | b'\t' | b'\r' | b'\n' | b';')
}

/// Whether the byte after this one is in a comment, from whether this one is.
fn goes_on(comment: bool, b: u8) -> bool
    ensures { result ≡ goes_on comment b }
{
    if comment { b != b'\n' } else { b == b';' }
}

/// How many bytes at the front are blanks and comments.
pub(crate) fn gap_len(bytes: &[u8]) -> usize
    ensures value { result ≡ gap_length false bytes.now }
    ensures bound { result ≤ length bytes.now }
{
    let mut comment = false;
    let mut n = 0;
    while n < bytes.len() && (comment || is_separator(bytes[n])) {
        comment = goes_on(comment, bytes[n]);
        n += 1;
    }
    n
}

#[tactic(auto, unfolding(crate::specs::Gaps::place_over))]
fn next_place(place: Place, b: u8) -> Place
    requires line { place.line + 1 < 2 ^ 32 }
    requires column { place.column + 1 < 2 ^ 32 }
    ensures value { result ≡ place_over place b }
    ensures line { result.line ≤ place.line + 1 }
    ensures column { result.column ≤ place.column + 1 }
{
    if b == b'\n' {
        Place {
            line: place.line + 1,
            column: 1,
        }
    } else {
        Place {
            line: place.line,
            column: place.column + 1,
        }
    }
}

/// The place after these bytes, from that of the first.
#[tactic(auto, using(std::proofs::lemmas::List::Sums::fold_more))]
pub(crate) fn place_behind(start: Place, bytes: &[u8]) -> Place
    requires line { start.line + length bytes.now < 2 ^ 32 }
    requires column { start.column + length bytes.now < 2 ^ 32 }
    ensures { result ≡ fold place_over start bytes.now }
{
    let mut place = start;
    for b in bytes {
        place = next_place(place, *b);
    }
    place
}
