//! The words of the command line, and the tag words that they give.
use super::{NO_FAULT, expect, load, program, store_and_print};
use hw_base::OutOfMemory;
use std::alloc::Global;
use std::process::Abort;
use std::test::Fail;

const USAGE: &str = "usage: hwasan_ir MODE FILE [options]\n";

/// Asserts that the words are no command: they are answered by the usage line.
fn expect_usage<R: AllocGlobal + Abort>(rt: &R, words: &[&str]) -> Result<(), Fail> {
    let text = store_and_print(rt.alloc())?;
    expect(
        rt,
        words,
        text.as_bytes(),
        &NO_FAULT,
        (2, b"", USAGE.as_bytes()),
    )
}

#[test]
fn other_words_are_answered_by_the_usage_line(rt: HostRuntime) -> Result<(), Fail> {
    let lines: [&[&str]; 15] = [
        &[],
        &["run"],
        &["t.ll"],
        &["Run", "t.ll"],
        &["audit", "t.ll"],
        &["run", "-t.ll"],
        &["run", "-"],
        &["run", "t.ll", "t.ll"],
        &["run", "t.ll", "--tags"],
        &["run", "t.ll", "--tags", ""],
        &["run", "t.ll", "--tags", "256"],
        &["run", "t.ll", "--tags", "+3"],
        &["run", "t.ll", "--tags", "3 "],
        &["run", "--tags", "3", "t.ll"],
        &["run", "t.ll", "--tags", "3", "x"],
    ];
    for words in lines {
        expect_usage(&rt, words)?;
    }
    Ok(())
}

#[test]
fn other_bounds_are_answered_by_the_usage_line(rt: HostRuntime) -> Result<(), Fail> {
    let lines: [&[&str]; 14] = [
        &["run", "t.ll", "--steps"],
        &["run", "t.ll", "--steps", ""],
        &["run", "t.ll", "--steps", "0"],
        &["run", "t.ll", "--steps", "1000000001"],
        &["run", "t.ll", "--steps", "18446744073709551617"],
        &["run", "t.ll", "--steps", "+3"],
        &["run", "t.ll", "--steps", "-3"],
        &["run", "t.ll", "--steps", "3a"],
        &["run", "--steps", "3", "t.ll"],
        &["run", "t.ll", "--steps", "3", "--steps", "3"],
        &["run", "t.ll", "--tags", "3", "--tags", "3"],
        &["run", "t.ll", "--steps", "3", "--tags"],
        &["run", "t.ll", "--tags", "3", "--steps"],
        &["run", "t.ll", "--steps", "3", "--tags", "3", "--steps", "3"],
    ];
    for words in lines {
        expect_usage(&rt, words)?;
    }
    Ok(())
}

#[test]
fn other_tag_words_are_answered_by_the_usage_line(rt: HostRuntime) -> Result<(), Fail> {
    let lines: [&[&str]; 20] = [
        &["run", "t.ll", "--tags", ","],
        &["run", "t.ll", "--tags", "3,"],
        &["run", "t.ll", "--tags", ",3"],
        &["run", "t.ll", "--tags", "3,,41"],
        &["run", "t.ll", "--tags", "3, 41"],
        &["run", "t.ll", "--tags", "3;41"],
        &["run", "t.ll", "--tags", "3,256"],
        &["run", "t.ll", "--tags", "3,-1"],
        &["run", "t.ll", "--tags", "256,3"],
        &["run", "t.ll", "--seed"],
        &["run", "t.ll", "--seed", ""],
        &["run", "t.ll", "--seed", "-1"],
        &["run", "t.ll", "--seed", "1,2"],
        &["run", "t.ll", "--seed", "18446744073709551616"],
        &["run", "t.ll", "--seed", "1", "--seed", "1"],
        &["run", "t.ll", "--tags", "3", "--seed", "1"],
        &["run", "t.ll", "--seed", "1", "--tags", "3"],
        &["run", "t.ll", "--tags", "3", "--steps", "5", "--seed", "1"],
        &["run", "t.ll", "--tags", "3", "--tags", "3,41"],
        &["run", "--seed", "1", "t.ll"],
    ];
    for words in lines {
        expect_usage(&rt, words)?;
    }
    Ok(())
}

/// A list of so many words, all of them 3.
fn list_of(alloc: Global, count: u32) -> Result<String, OutOfMemory> {
    let mut list = format!(in alloc; "3")?;
    for _ in 1..count {
        list.push_str(",3")?;
    }
    Ok(list)
}

/// Options, and the tag of the first global: 16 more than the first word modulo 240. The first words of the seeds 0, 1 and
/// 18446744073709551615 are 169, 145 and 81, worked out by a program of its own from the published algorithm of PCG32.
const TAGS: [(&[&str], &str); 11] = [
    (&["run", "t.ll"], "a1"),
    (&["run", "t.ll", "--tags", "3"], "13"),
    (&["run", "t.ll", "--tags", "3,41"], "13"),
    (&["run", "t.ll", "--tags", "41,3"], "39"),
    (&["run", "t.ll", "--tags", "000255,0,7,7"], "1f"),
    (&["run", "t.ll", "--seed", "0"], "b9"),
    (&["run", "t.ll", "--seed", "1"], "a1"),
    (&["run", "t.ll", "--seed", "0001"], "a1"),
    (&["run", "t.ll", "--seed", "18446744073709551615"], "61"),
    (&["run", "t.ll", "--steps", "9", "--seed", "0"], "b9"),
    (&["run", "t.ll", "--tags", "41,3", "--steps", "9"], "39"),
];

/// Asserts that the global of a run with these words has this tag, as the report of a read past it shows.
fn expect_tag<R: AllocGlobal + Abort>(rt: &R, words: &[&str], tag: &str) -> Result<(), Fail> {
    let alloc = rt.alloc();
    let text = program(alloc, 16, &[load(alloc, 0, 16)?])?;
    let report = format!(in alloc;
        "hwasan: read of 1 at {tag}00000000010010 in task 0, step 1\n  at main ?\nunmapped: 0000000000010010\n"
    )?;
    expect(
        rt,
        words,
        text.as_bytes(),
        &NO_FAULT,
        (1, b"", report.as_bytes()),
    )
}

#[test]
fn the_first_tag_word_decides_the_tag(rt: HostRuntime) -> Result<(), Fail> {
    for (words, tag) in TAGS {
        expect_tag(&rt, words, tag)?;
    }
    Ok(())
}

#[test]
fn a_list_has_at_most_65536_words(rt: HostRuntime) -> Result<(), Fail> {
    let most = list_of(rt.alloc(), 65_536)?;
    expect_tag(&rt, &["run", "t.ll", "--tags", most.as_str()], "13")?;
    let more = list_of(rt.alloc(), 65_537)?;
    expect_usage(&rt, &["run", "t.ll", "--tags", more.as_str()])
}
