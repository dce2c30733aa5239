ghost use Rattle.std.specs.Prelude.{◌≡◌, None, Some};
ghost use Rattle.ir_check_types.specs.Order.{refusal_at, limit_rank, fault_rank, is_before, first_of_two, earlier, unless};

use ir_core::{Fault, Limit, Place, Refusal};

/// The refusal for a fault at a place.
pub fn refusal_at(fault: Fault, place: Place) -> Refusal
    ensures { result ≡ refusal_at fault place }
{
    Refusal {
        fault,
        line: place.line,
        column: place.column,
    }
}

fn limit_rank(limit: Limit) -> u8
    ensures { result ≡ limit_rank limit }
{
    match limit {
        Limit::Text => 0,
        Limit::Nesting => 1,
        Limit::Functions => 2,
        Limit::Blocks => 3,
        Limit::Instructions => 4,
        Limit::MetaNodes => 5,
        Limit::Globals => 6,
        Limit::TypeSize => 7,
    }
}

fn fault_rank(fault: Fault) -> u8
    ensures { result ≡ fault_rank fault }
{
    match fault {
        Fault::BadToken => 8,
        Fault::BadSyntax => 16,
        Fault::Unsupported => 24,
        Fault::BadType => 32,
        Fault::Unknown => 40,
        Fault::Twice => 48,
        Fault::NotOnEveryPath => 56,
        Fault::BadPhi => 64,
        Fault::NoMain => 72,
        Fault::TooLarge(limit) => 80 + limit_rank(limit),
        Fault::MetaCycle => 88,
    }
}

/// Whether one refusal is reported before another: its place is earlier in the text, or at the same place its fault comes
/// first by its code, and among limits in the order of the limits.
pub fn is_before(a: &Refusal, b: &Refusal) -> bool
    ensures { result ≡ is_before a.now b.now }
{
    a.line < b.line
        || a.line == b.line
            && (a.column < b.column
                || a.column == b.column && fault_rank(a.fault) < fault_rank(b.fault))
}

fn first_of_two(a: Refusal, b: Refusal) -> Refusal
    ensures { result ≡ first_of_two a b }
{
    if is_before(&b, &a) { b } else { a }
}

/// The one of two refusals that is reported first, if there is one.
pub fn earlier(a: Option<Refusal>, b: Option<Refusal>) -> Option<Refusal>
    ensures { result ≡ earlier a b }
{
    match a {
        None => b,
        Some(first) => match b {
            None => Some(first),
            Some(second) => Some(first_of_two(first, second)),
        },
    }
}

/// The refusal for a fault at a place, unless a rule holds.
pub fn unless(holds: bool, fault: Fault, place: Place) -> Option<Refusal>
    ensures { result ≡ unless holds fault place }
{
    if holds {
        None
    } else {
        Some(refusal_at(fault, place))
    }
}
