ghost use Rattle.std.specs.Prelude.{◌≡◌, ◌<◌, ◌≤◌, ◌+◌, ◌^◌, ◌==◌, true, length, nat_lt, MatchOption};
ghost use Rattle.std.specs.List.{list_all};
ghost use Rattle.std.specs.Char.{is_ascii_digit};
ghost use Rattle.std.specs.Str.Parse.{digits_value, digits_value_after};
ghost use Rattle.ir_names.specs.Faults.{is_number};

use ir_text::significant;

/// A number of any length: that of its digits, and so much more.
#[derive(Clone, Copy)]
pub(crate) struct Counter<'a> {
    pub(crate) digits: &'a [u8],
    pub(crate) more: u64,
    ghost decimal: { is_number digits.now ≡ true },
}

/// Whether digits write a number; none write 0.
pub fn is_number(text: &[u8]) -> bool
    ensures { result ≡ is_number text.now }
{
    text.iter().all(|b| b.is_ascii_digit())
}

/// The number that digits write, or none where it is above the limit.
fn value_within(digits: &[u8], limit: u64) -> Option<u64>
    requires { is_number digits.now ≡ true }
    ensures { MatchOption result (limit < digits_value 10 digits.now) (λ v. (v ≡ digits_value 10 digits.now) × (v ≤ limit)) }
{
    let mut value: u64 = 0;
    let mut rest = digits;
    while let [b, after @ ..] = rest {
        let longer = u128::from(value) * 10 + u128::from(*b - b'0');
        if longer > u128::from(limit) {
            return None;
        }
        value = longer as u64;
        rest = after;
    }
    Some(value)
}

/// Whether digits behind those of `lead` write a number below that of as many other digits and so much more.
fn is_less(lead: u64, digits: &[u8], others: &[u8], more: u64) -> bool
    requires same_length { length digits.now ≡ length others.now }
    requires decimal { is_number digits.now ≡ true }
    requires decimal_others { is_number others.now ≡ true }
    requires lead { lead ≤ more }
    ensures { result ≡ nat_lt (digits_value_after 10 lead digits.now) (digits_value 10 others.now + more) }
{
    let mut above = lead;
    let mut rest = digits;
    let mut others_rest = others;
    while let [b, after @ ..] = rest {
        let [other, others_after @ ..] = others_rest else {
            return false;
        };
        let longer = u128::from(above) * 10 + u128::from(*b - b'0');
        let taken = u128::from(*other - b'0');
        if longer < taken {
            return true;
        }
        if longer - taken > u128::from(more) {
            return false;
        }
        above = (longer - taken) as u64;
        rest = after;
        others_rest = others_after;
    }
    above < more
}

impl<'a> Counter<'a> {
    ghost use Rattle.std.specs.Prelude.{◌≡◌, ◌<◌, ◌+◌, ◌^◌, true, nat_lt};
    ghost use Rattle.std.specs.Str.Parse.{digits_value};
    ghost use Rattle.ir_names.specs.Faults.{is_number};
    ghost use Rattle.ir_names.specs.Numbers.{counter_value};

    /// The counter at 0.
    pub(crate) fn new() -> Counter<'a>
        ensures value { counter_value result ≡ 0 }
        ensures more { result.more ≡ 0 }
    {
        Counter {
            digits: &[],
            more: 0,
        }
    }

    /// One more.
    pub(crate) fn next(self) -> Counter<'a>
        requires { self.more + 1 < 2 ^ 64 }
        ensures value { counter_value result ≡ counter_value self.entry + 1 }
        ensures more { result.more ≡ self.entry.more + 1 }
    {
        Counter {
            digits: self.digits,
            more: self.more + 1,
        }
    }

    /// One more than the number that digits write.
    pub(crate) fn behind(digits: &'a [u8]) -> Counter<'a>
        requires { is_number digits.now ≡ true }
        ensures value { counter_value result ≡ digits_value 10 digits.now + 1 }
        ensures more { result.more ≡ 1 }
    {
        Counter {
            digits: significant(digits),
            more: 1,
        }
    }

    /// Whether digits write a number below the counter.
    pub(crate) fn is_above(&self, digits: &[u8]) -> bool
        requires { is_number digits.now ≡ true }
        ensures { result ≡ nat_lt (digits_value 10 digits.now) (counter_value self.now) }
    {
        let number = significant(digits);
        if number.len() < self.digits.len() {
            let (front, back) = self.digits.split_at(self.digits.len() - number.len());
            match value_within(front, 0) {
                None => true,
                Some(_) => is_less(0, number, back, self.more),
            }
        } else {
            let (front, back) = number.split_at(number.len() - self.digits.len());
            match value_within(front, self.more) {
                None => false,
                Some(lead) => is_less(lead, back, self.digits, self.more),
            }
        }
    }
}
