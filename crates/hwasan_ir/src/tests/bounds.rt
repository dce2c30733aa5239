//! Runs under a bound on the steps. Each instruction is a step.
use super::{NO_FAULT, OVERFLOW_AT_STEP_5, expect, print_and_overflow, store_and_print};
use std::process::Abort;
use std::test::Fail;

/// Asserts how the run of this text with the tag 13 and this bound ends.
fn expect_bounded<R: AllocGlobal + Abort>(
    rt: &R,
    text: &str,
    bound: &str,
    expected: (u8, &[u8], &[u8]),
) -> Result<(), Fail> {
    let words = ["run", "t.ll", "--tags", "3", "--steps", bound];
    expect(rt, &words, text.as_bytes(), &NO_FAULT, expected)
}

#[test]
fn a_run_stops_with_what_was_printed_by_then(rt: HostRuntime) -> Result<(), Fail> {
    let text = store_and_print(rt.alloc())?;
    let runs: [(&str, u8, &[u8], &[u8]); 6] = [
        ("1", 9, b"", b"spent: step 1\n"),
        ("2", 9, b"", b"spent: step 2\n"),
        ("3", 9, b"", b"spent: step 3\n"),
        ("4", 9, b"A", b"spent: step 4\n"),
        ("5", 0, b"A", b"ended: exit 0, step 5\n"),
        ("1000000000", 0, b"A", b"ended: exit 0, step 5\n"),
    ];
    for (bound, status, output, closing) in runs {
        expect_bounded(&rt, text.as_str(), bound, (status, output, closing))?;
    }
    Ok(())
}

/// The load of step 5 leads past the global.
#[test]
fn a_load_is_checked_if_its_step_is_within_the_bound(rt: HostRuntime) -> Result<(), Fail> {
    let text = print_and_overflow(rt.alloc())?;
    let runs: [(&str, u8, &[u8], &[u8]); 4] = [
        ("4", 9, b"A", b"spent: step 4\n"),
        ("5", 1, b"A", OVERFLOW_AT_STEP_5.as_bytes()),
        ("6", 1, b"A", OVERFLOW_AT_STEP_5.as_bytes()),
        ("7", 1, b"A", OVERFLOW_AT_STEP_5.as_bytes()),
    ];
    for (bound, status, output, closing) in runs {
        expect_bounded(&rt, text.as_str(), bound, (status, output, closing))?;
    }
    Ok(())
}
