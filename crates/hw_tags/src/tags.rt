ghost use Rattle.std.specs.Prelude.{◌≡◌, ◌≢◌, ℕ, ◌-◌, ◌%◌, ◌≤◌, ◌↔◌};
ghost use Rattle.hw_tags.specs.Tag.{heap_tag_of, free_tag_of, frame_tag_of, global_tag_of};

/// The tag of a heap block for a word, 1 to 255; tag 0 is that of unused memory. An allocation chooses a tag at random
/// (Clang's HWASan design document, section Heap); the formula is this project's choice.
pub fn heap_tag(word: u8) -> u8
    ensures value { result ≡ heap_tag_of word }
    ensures lowest { 1 ≤ result }
    ensures highest { result ≤ 255 }
{
    1 + word % 255
}

/// The tag of freed memory whose block had the tag `old`, for a word: 16 to 255, and never `old`, so that a pointer to
/// the freed block doesn't pass. A shadow byte from 1 to 15 would be the size of a short granule (Clang's HWASan design
/// document, sections Heap and Short granules); the formula is this project's choice.
pub fn free_tag(word: u8, old: u8) -> u8
    ensures value { result ≡ free_tag_of word old }
    ensures lowest { 16 ≤ result }
    ensures highest { result ≤ 255 }
    ensures not_old { result ≢ old }
{
    let tag = 16 + word % 240;
    if tag != old {
        tag
    } else if tag == 255 {
        16
    } else {
        tag + 1
    }
}

/// The tag of a variable of a frame, by its number counted from 0, for the one word of the frame: 1 to 255. Two
/// variables of a frame have one tag exactly where their numbers differ by a multiple of 255. A frame has one base tag,
/// and a variable's tag is made of it and the variable's number (Clang's HWASan design document, section Stack); the
/// formula is this project's choice.
pub fn frame_tag(word: u8, variable: u32) -> u8
    ensures value { result ≡ frame_tag_of word variable }
    ensures lowest { 1 ≤ result }
    ensures highest { result ≤ 255 }
    ensures same { (k : ℕ) → k ≤ variable
        → ((frame_tag_of word k ≡ result) ↔ ((variable - k) % 255 ≡ 0)) }
{
    1 + ((word as u64 + variable as u64) % 255) as u8
}

/// The tag of a global, by its number counted from 0 in order of the text, for the one word of all globals: 16 to 255.
/// Two globals have one tag exactly where their numbers differ by a multiple of 240. That globals are tagged is HWASan's
/// (Clang's HWASan design document, section Globals); the formula is this project's choice.
pub fn global_tag(word: u8, global: u32) -> u8
    ensures value { result ≡ global_tag_of word global }
    ensures lowest { 16 ≤ result }
    ensures highest { result ≤ 255 }
    ensures same { (k : ℕ) → k ≤ global
        → ((global_tag_of word k ≡ result) ↔ ((global - k) % 240 ≡ 0)) }
{
    16 + ((word as u64 % 240 + global as u64) % 240) as u8
}
