//! Faults: a file that can't be read, and each write that fails in turn, where later ones would not.
ghost use Rattle.std.specs.Prelude.{◌^◌, ◌-◌, None};

use super::{
    NO_FAULT, OVERFLOW_AT_STEP_5, Ports, TAG_13, expect, files, print_and_overflow, print_nine,
    store_and_print, strings,
};
use hw_base::OutOfMemory;
use hw_driver::hwasan;
use hw_ports::{Failed, Sink, Source};
use std::alloc::Global;
use std::test::Fail;

const FILE_FAULT: &str = "fault: file\n";

const WRITE_FAULT: &str = "fault: write\n";

/// The first bytes of a text, so many.
fn front(text: &str, count: usize) -> &[u8] {
    let bytes = text.as_bytes();
    &bytes[..count.min(bytes.len())]
}
/// The most bytes of a write, which write of `out` fails, and what `out` took before.
const OUT_FAULTS: [(u32, u64, &str); 12] = [
    (1, 1, ""),
    (1, 2, "a"),
    (1, 3, "ab"),
    (1, 4, "abc"),
    (1, 5, "abcd"),
    (1, 6, "abcde"),
    (1, 7, "abcdef"),
    (1, 8, "abcdefg"),
    (1, 9, "abcdefgh"),
    (7, 1, ""),
    (7, 2, "abcdefg"),
    (4096, 1, ""),
];

#[test]
fn nothing_more_is_written_to_out_after_its_fault(rt: HostRuntime) -> Result<(), Fail> {
    let text = print_nine(rt.alloc())?;
    for (piece, out_fails, taken) in OUT_FAULTS {
        let ports = Ports {
            piece,
            out_fails,
            ..NO_FAULT
        };
        expect(
            &rt,
            &TAG_13,
            text.as_bytes(),
            &ports,
            (6, taken.as_bytes(), WRITE_FAULT.as_bytes()),
        )?;
    }
    for (piece, out_fails) in [(1, 10), (7, 3), (4096, 2)] {
        let ports = Ports {
            piece,
            out_fails,
            ..NO_FAULT
        };
        expect(
            &rt,
            &TAG_13,
            text.as_bytes(),
            &ports,
            (0, b"abcdefghi", b"ended: exit 0, step 37\n"),
        )?;
    }
    Ok(())
}

/// The most bytes of a write, which write of `err` fails, and how many bytes of the report `err` took before. Its lines
/// have 56, 12 and 27 bytes.
const ERR_FAULTS: [(u32, u64, usize); 17] = [
    (7, 1, 0),
    (7, 2, 7),
    (7, 3, 14),
    (7, 4, 21),
    (7, 5, 28),
    (7, 6, 35),
    (7, 7, 42),
    (7, 8, 49),
    (7, 9, 56),
    (7, 10, 63),
    (7, 11, 68),
    (7, 12, 75),
    (7, 13, 82),
    (7, 14, 89),
    (4096, 1, 0),
    (4096, 2, 56),
    (4096, 3, 68),
];

#[test]
fn nothing_more_is_written_to_err_after_its_fault(rt: HostRuntime) -> Result<(), Fail> {
    let text = print_and_overflow(rt.alloc())?;
    for (piece, err_fails, count) in ERR_FAULTS {
        let ports = Ports {
            piece,
            err_fails,
            ..NO_FAULT
        };
        expect(
            &rt,
            &TAG_13,
            text.as_bytes(),
            &ports,
            (6, b"A", front(OVERFLOW_AT_STEP_5, count)),
        )?;
    }
    for count in 0..95u32 {
        let ports = Ports {
            piece: 1,
            err_fails: count as u64 + 1,
            ..NO_FAULT
        };
        expect(
            &rt,
            &TAG_13,
            text.as_bytes(),
            &ports,
            (6, b"A", front(OVERFLOW_AT_STEP_5, count as usize)),
        )?;
    }
    for (piece, err_fails) in [(1, 96), (7, 15), (4096, 4)] {
        let ports = Ports {
            piece,
            err_fails,
            ..NO_FAULT
        };
        expect(
            &rt,
            &TAG_13,
            text.as_bytes(),
            &ports,
            (1, b"A", OVERFLOW_AT_STEP_5.as_bytes()),
        )?;
    }
    Ok(())
}

#[test]
fn both_sinks_may_fail(rt: HostRuntime) -> Result<(), Fail> {
    let text = store_and_print(rt.alloc())?;
    for (piece, err_fails, taken) in [
        (4096, 1, ""),
        (4096, 2, "fault: write\n"),
        (7, 2, "fault: "),
        (1, 4, "fau"),
    ] {
        let ports = Ports {
            piece,
            out_fails: 1,
            err_fails,
            file_fails: 0,
        };
        expect(
            &rt,
            &TAG_13,
            text.as_bytes(),
            &ports,
            (6, b"", taken.as_bytes()),
        )?;
    }
    Ok(())
}

#[test]
fn a_file_that_cannot_be_read_is_a_file_fault(rt: HostRuntime) -> Result<(), Fail> {
    let text = store_and_print(rt.alloc())?;
    let fails = Ports {
        file_fails: 1,
        ..NO_FAULT
    };
    expect(
        &rt,
        &TAG_13,
        text.as_bytes(),
        &fails,
        (4, b"", FILE_FAULT.as_bytes()),
    )?;
    for missing in ["", "t", "t.ll ", "T.LL"] {
        expect(
            &rt,
            &["run", missing],
            text.as_bytes(),
            &NO_FAULT,
            (4, b"", FILE_FAULT.as_bytes()),
        )?;
    }
    let fails = Ports {
        file_fails: 1,
        err_fails: 1,
        ..NO_FAULT
    };
    expect(&rt, &TAG_13, text.as_bytes(), &fails, (6, b"", b""))
}

/// A port whose count of faults stands at its last value. `fails` tells whether its calls fail; `calls` counts them.
#[derive(Drop)]
struct Worn {
    fails: bool,
    calls: u64,
}

impl Worn {
    fn new(fails: bool) -> Worn {
        Worn { fails, calls: 0 }
    }
}

impl Source for Worn {
    ghost left = { λ _. None };

    ghost faults = { λ _. 2 ^ 64 - 1 };

    fn read(&mut self, into: &mut [u8]) -> Result<usize, Failed> {
        if into.is_empty() {
            return Ok(0);
        }
        self.calls = self.calls.saturating_add(1);
        if self.fails { Err(Failed) } else { Ok(0) }
    }
}

impl Sink for Worn {
    ghost taken = { λ _. None };

    ghost faults = { λ _. 2 ^ 64 - 1 };

    fn write(&mut self, piece: &[u8]) -> Result<usize, Failed> {
        if piece.is_empty() {
            return Ok(0);
        }
        self.calls = self.calls.saturating_add(1);
        if self.fails {
            Err(Failed)
        } else {
            Ok(piece.len())
        }
    }
}

/// The numbers of the status and of the calls of input, output and error output, over ports whose counts stand at their
/// last value.
fn worn_answer(
    alloc: Global,
    out_fails: bool,
    err_fails: bool,
) -> Result<(u8, u64, u64, u64), OutOfMemory> {
    let words = strings(alloc, &TAG_13)?;
    let text = store_and_print(alloc)?;
    let mut files = files(alloc, text.as_bytes(), 0)?;
    let mut input = Worn::new(true);
    let mut out = Worn::new(out_fails);
    let mut err = Worn::new(err_fails);
    let status = hwasan(alloc, &words, &mut files, &mut input, &mut out, &mut err);
    Ok((status.number(), input.calls, out.calls, err.calls))
}

#[test]
fn a_write_fault_is_answered_where_the_count_stands_still(rt: HostRuntime) -> Result<(), Fail> {
    for (out_fails, err_fails, status) in [
        (false, false, 0),
        (true, false, 6),
        (false, true, 6),
        (true, true, 6),
    ] {
        assert_eq!(rt;
            worn_answer(rt.alloc(), out_fails, err_fails)?,
            (status, 0, 1, 1),
            "{out_fails}, {err_fails}"
        );
    }
    Ok(())
}
