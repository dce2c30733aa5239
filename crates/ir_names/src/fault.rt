ghost use Rattle.std.specs.Prelude.{◌≡◌};
ghost use Rattle.ir_names.specs.declared.fault.NamesError.TheVariants.{OutOfMemory as NoMemory};
ghost use Rattle.ir_names.specs.First.{is_before, earlier, first_beside};
ghost use Rattle.ir_names.specs.Faults.{fault_if};

use hw_base::OutOfMemory;
use ir_core::{Fault, Token};

/// A fault of a name, and the token at which it stands.
#[derive(Clone, Copy, Debug, PartialEq, Eq)]
pub struct NameFault {
    /// `Twice`, `Unknown` or `Unsupported`.
    pub fault: Fault,
    pub at: Token,
}

/// Why the names of a text could not be resolved.
#[derive(Clone, Copy, Debug, PartialEq, Eq)]
pub enum NamesError {
    /// A name has a fault: the first in the text.
    Fault(NameFault),
    OutOfMemory,
}

impl From<OutOfMemory> for NamesError {
    ghost from_gives = { λ _ e. e ≡ NoMemory };

    fn from(_: OutOfMemory) -> Self {
        NamesError::OutOfMemory
    }
}

fn is_before(f: &NameFault, g: &NameFault) -> bool
    ensures { result ≡ is_before f.now g.now }
{
    f.at.from < g.at.from || f.at.from == g.at.from && f.fault.number() < g.fault.number()
}

/// The first so far, or one more fault where that comes before it.
fn earlier(first: Option<NameFault>, fault: NameFault) -> Option<NameFault>
    ensures { result ≡ earlier first fault }
{
    match first {
        None => Some(fault),
        Some(so_far) => {
            if is_before(&fault, &so_far) {
                Some(fault)
            } else {
                Some(so_far)
            }
        }
    }
}

/// The first so far, beside this fault at this token if it stands there.
pub fn beside_fault_if(
    first: Option<NameFault>,
    stands: bool,
    fault: Fault,
    at: Token,
) -> Option<NameFault>
    ensures { result ≡ first_beside first (fault_if stands fault at) }
{
    if stands {
        earlier(first, NameFault { fault, at })
    } else {
        first
    }
}
