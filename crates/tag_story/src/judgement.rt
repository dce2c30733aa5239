/// What the tag rule says of a violation: it passes by a coincidence, or it is refused.
#[derive(Clone, Copy)]
pub enum Judgement {
    Passes(Coincidence),
    Refused(Refusing),
}

/// By which coincidence of tags or numbers a violation passes. Of a read or write the first touched granules have the
/// pointer's tag, named by the first addresses of the first and the last of them, and then the last granule passes as a
/// short one; a free names the tag of the block at its address, or the number 0.
#[derive(Clone, Copy)]
pub enum Coincidence {
    Granules {
        equal: Option<(u64, u64)>,
        short: Option<Short>,
    },
    BlockTag(u8),
    NullNumber,
}

/// A short granule that an access passes: its first address, its memory tag, which is a size of 1 to 15 bytes, the end of
/// the access in it, and its last byte, which is the pointer's tag.
#[derive(Clone, Copy)]
pub struct Short {
    pub granule: u64,
    pub memory: u8,
    pub end: u8,
    pub last: u8,
}

/// What refuses a violation: the first touched granule that doesn't agree, by its first address, whose last byte is there
/// exactly if its memory tag is 1 to 15; the first touched address of the first granule that isn't mapped; or for a free the
/// tag of the living block at its address, if there is one.
#[derive(Clone, Copy)]
pub enum Refusing {
    Granule {
        granule: u64,
        pointer: u8,
        memory: u8,
        last: Option<u8>,
        end: u8,
    },
    Unmapped(u64),
    Block(Option<u8>),
}
