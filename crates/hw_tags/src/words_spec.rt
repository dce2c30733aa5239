use hw_base::ByteList;

/// Where words come from. A word is a byte, and word i is the one that the draw number i gives, counted from 0.
/// That there are lists, seeds and these ranges is this project's choice.
#[derive(Drop)]
pub enum WordsSpec {
    /// 1 to 65,536 words, repeated for ever.
    Cycle(ByteList),
    /// The low byte of each successive 32-bit output of PCG32 (XSH RR 64/32) at this seed, on stream 1.
    Seed(u64),
}
