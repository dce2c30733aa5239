ghost use Rattle.std.specs.Prelude.{◌≡◌};
ghost use Rattle.ir_text.specs.TokenText.{significant, number_behind_bang, small_number, line_or_column};

/// Digits from the first that isn't 0 on: two numbers, of any length, are the same where these are.
pub fn significant(digits: &[u8]) -> &[u8]
    ensures { result.now ≡ significant digits.now }
{
    let mut rest = digits;
    while let [b, after @ ..] = rest {
        if *b != b'0' {
            return rest;
        }
        rest = after;
    }
    rest
}

/// The number behind a `!`, given with it, from its first digit that isn't 0 on.
pub fn number_behind_bang(bytes: &[u8]) -> &[u8]
    ensures { result.now ≡ number_behind_bang bytes.now }
{
    match bytes {
        [] => bytes,
        [_, digits @ ..] => significant(digits),
    }
}

/// The number that digits write, 0 where they write none from 0 to 4,294,967,295.
pub fn small_number(bytes: &[u8]) -> u32
    ensures { result ≡ small_number bytes.now }
{
    let mut value: u64 = 0;
    let mut rest = bytes;
    while let [b, after @ ..] = rest {
        if !b.is_ascii_digit() {
            return 0;
        }
        value = value * 10 + u64::from(*b - b'0');
        if value > 4_294_967_295 {
            return 0;
        }
        rest = after;
    }
    value as u32
}

/// The line or column that digits write, 0 where they write none from 0 to 4,294,967,295.
pub fn line_or_column(bytes: &[u8]) -> u32
    ensures { result ≡ line_or_column bytes.now }
{
    small_number(bytes)
}
