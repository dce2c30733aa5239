ghost use Rattle.std.specs.Prelude.{◌≡◌, reverse, IfOk};
ghost use Rattle.ir_body_names.specs.Counters.{next, low_digits, is_less};

use hw_base::OutOfMemory;
use ir_text::significant;
use std::alloc::Global;

/// The same bytes from the last to the first.
pub(crate) fn reversed(alloc: Global, bytes: &[u8]) -> Result<Vec<u8>, OutOfMemory>
    ensures { IfOk result (λ out. out.items ≡ reverse bytes.now) }
{
    Ok(bytes.iter().rev().copied().collect(alloc)?)
}

/// The digits of a written number, from the lowest on, without zeros after the highest.
pub(crate) fn low_digits(alloc: Global, text: &[u8]) -> Result<Vec<u8>, OutOfMemory>
    ensures { IfOk result (λ out. out.items ≡ low_digits text.now) }
{
    reversed(alloc, significant(text))
}

/// One more than the number that digits write, from the lowest on.
pub(crate) fn next(alloc: Global, digits: &[u8]) -> Result<Vec<u8>, OutOfMemory>
    ensures { IfOk result (λ out. out.items ≡ next digits.now) }
{
    let mut out = Vec::new(alloc);
    let mut rest = digits;
    while let [d, after @ ..] = rest {
        if *d < b'9' {
            out.push(*d + 1)?;
            out.extend_from_slice(after)?;
            return Ok(out);
        }
        out.push(b'0')?;
        rest = after;
    }
    out.push(b'1')?;
    Ok(out)
}

/// Whether one number is below another, by their digits from the lowest on.
pub(crate) fn is_less(digits: &[u8], others: &[u8]) -> bool
    ensures { result ≡ is_less digits.now others.now }
{
    let mut before = false;
    let mut rest = digits;
    let mut others_rest = others;
    while let [d, after @ ..] = rest {
        let [e, others_after @ ..] = others_rest else {
            return false;
        };
        if *d != *e {
            before = *d < *e;
        }
        rest = after;
        others_rest = others_after;
    }
    before || !others_rest.is_empty()
}
