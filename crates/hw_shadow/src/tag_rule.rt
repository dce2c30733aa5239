ghost use Rattle.hw_shadow.specs.TagRule.{tags_agree};
ghost use Rattle.std.specs.Prelude.{◌≡◌};

/// Whether a pointer's tag agrees with a granule's memory tag. `end` is one more than the position of the last touched byte in
/// the granule, 1 to 16, and `last` the granule's last byte.
pub fn tags_agree(pointer: u8, memory: u8, end: u8, last: u8) -> bool
    ensures { result ≡ tags_agree pointer memory end last }
{
    pointer == memory || (1 <= memory && memory <= 15 && end <= memory && pointer == last)
}
