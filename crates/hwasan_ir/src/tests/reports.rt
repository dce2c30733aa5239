//! Reports: which access, where, and what was found.
use super::{
    NO_FAULT, OVERFLOW_AT_STEP_5, TAG_13, expect, load, print_and_overflow, program, store,
};
use std::test::Fail;

/// Each access at the first byte past the end, or at a border of the map: the size of the global, the offset, the number,
/// and the line of what is found.
const VIOLATIONS: [(u32, u64, &str, &str); 14] = [
    (16, 16, "1300000000010010", "unmapped: 0000000000010010"),
    (48, 48, "1300000000010030", "unmapped: 0000000000010030"),
    (4096, 4096, "1300000000011000", "unmapped: 0000000000011000"),
    (
        16,
        268_369_919,
        "130000000fffffff",
        "unmapped: 000000000fffffff",
    ),
    (
        16,
        268_369_920,
        "1300000010000000",
        "tags: pointer 13, memory 00, last 00, end 1, granule 0000000010000000",
    ),
    (
        16,
        268_632_063,
        "130000001003ffff",
        "tags: pointer 13, memory 00, last 00, end 16, granule 000000001003fff0",
    ),
    (
        16,
        268_632_064,
        "1300000010040000",
        "tags: pointer 13, memory 00, last 00, end 1, granule 0000000010040000",
    ),
    (
        16,
        285_147_135,
        "1300000010ffffff",
        "tags: pointer 13, memory 00, last 00, end 16, granule 0000000010fffff0",
    ),
    (
        16,
        285_147_136,
        "1300000011000000",
        "unmapped: 0000000011000000",
    ),
    (
        16,
        536_805_375,
        "130000001fffffff",
        "unmapped: 000000001fffffff",
    ),
    (
        16,
        536_805_376,
        "1300000020000000",
        "tags: pointer 13, memory 00, last 00, end 1, granule 0000000020000000",
    ),
    (
        16,
        553_582_591,
        "1300000020ffffff",
        "tags: pointer 13, memory 00, last 00, end 16, granule 0000000020fffff0",
    ),
    (
        16,
        553_582_592,
        "1300000021000000",
        "unmapped: 0000000021000000",
    ),
    (
        16,
        4_294_967_295,
        "130000010000ffff",
        "unmapped: 000000010000ffff",
    ),
];

#[test]
fn overflow_past_the_global_is_reported(rt: HostRuntime) -> Result<(), Fail> {
    let alloc = rt.alloc();
    for (size, offset, number, found) in VIOLATIONS {
        for (access, group) in [
            ("read", load(alloc, 0, offset)?),
            ("write", store(alloc, 7, offset)?),
        ] {
            let text = program(alloc, size, &[group])?;
            let report = format!(in alloc;
                "hwasan: {access} of 1 at {number} in task 0, step 1\n  at main ?\n{found}\n"
            )?;
            expect(
                &rt,
                &TAG_13,
                text.as_bytes(),
                &NO_FAULT,
                (1, b"", report.as_bytes()),
            )?;
        }
    }
    Ok(())
}

#[test]
fn the_last_byte_of_the_global_is_no_overflow(rt: HostRuntime) -> Result<(), Fail> {
    let alloc = rt.alloc();
    for (size, offset) in [(16, 0), (16, 15), (48, 16), (48, 47), (4096, 4095)] {
        let groups = [store(alloc, 90, offset)?, load(alloc, 1, offset)?];
        let text = program(alloc, size, &groups)?;
        expect(
            &rt,
            &TAG_13,
            text.as_bytes(),
            &NO_FAULT,
            (0, b"Z", b"ended: exit 0, step 5\n"),
        )?;
    }
    Ok(())
}

#[test]
fn the_first_overflow_alone_is_reported(rt: HostRuntime) -> Result<(), Fail> {
    let text = print_and_overflow(rt.alloc())?;
    expect(
        &rt,
        &TAG_13,
        text.as_bytes(),
        &NO_FAULT,
        (1, b"A", OVERFLOW_AT_STEP_5.as_bytes()),
    )
}

/// Tag words, as they are spelled, and the tag of the global: 16 more than the word modulo 240.
const TAGS: [(&str, &str); 6] = [
    ("0", "10"),
    ("00003", "13"),
    ("145", "a1"),
    ("239", "ff"),
    ("240", "10"),
    ("255", "1f"),
];

#[test]
fn the_tag_word_decides_the_tag(rt: HostRuntime) -> Result<(), Fail> {
    let alloc = rt.alloc();
    let text = program(alloc, 16, &[load(alloc, 0, 16)?])?;
    for (word, tag) in TAGS {
        let report = format!(in alloc;
            "hwasan: read of 1 at {tag}00000000010010 in task 0, step 1\n  at main ?\nunmapped: 0000000000010010\n"
        )?;
        expect(
            &rt,
            &["run", "t.ll", "--tags", word],
            text.as_bytes(),
            &NO_FAULT,
            (1, b"", report.as_bytes()),
        )?;
    }
    Ok(())
}
