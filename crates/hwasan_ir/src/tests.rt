//! The program over files, input and output in memory. Every expected text is worked out by hand from the forms of
//! the closing texts, the address map (the globals from 10000, the stacks from 10000000 to 11000000, the heap from
//! 20000000 to 21000000, in hexadecimal) and the formula of a global's tag.
mod bounds;
mod clang;
mod faults;
mod frames;
mod globals;
mod heap;
mod modules;
mod reports;
mod words;

use hw_base::OutOfMemory;
use hw_driver::hwasan;
use hw_ports::{CallList, MemFiles, MemSink, MemSource};
use std::alloc::Global;
use std::process::Abort;
use std::test::Fail;

/// The most bytes that a sink takes.
const ROOM: u64 = 65_536;

/// The words of a run whose first global has the tag 13, in hexadecimal.
const TAG_13: [&str; 4] = ["run", "t.ll", "--tags", "3"];

/// How the ports behave: the most bytes of a write, and the number of the call that fails (0 for none) of `out`, of `err`
/// and of the files.
#[derive(Clone, Copy)]
struct Ports {
    piece: u32,
    out_fails: u64,
    err_fails: u64,
    file_fails: u64,
}

const NO_FAULT: Ports = Ports {
    piece: 4096,
    out_fails: 0,
    err_fails: 0,
    file_fails: 0,
};

/// The number of the status, and what the sinks took.
#[derive(Drop)]
struct Seen {
    status: u8,
    out: Vec<u8>,
    err: Vec<u8>,
}

fn strings(alloc: Global, words: &[&str]) -> Result<Vec<String>, OutOfMemory> {
    let mut strings = Vec::new(alloc);
    for word in words {
        let word = *word;
        strings.push(format!(in alloc; "{word}")?)?;
    }
    Ok(strings)
}

/// The call of this number alone is to fail; none where it is 0.
fn one_call(alloc: Global, call: u64) -> Result<CallList, OutOfMemory> {
    let mut calls = CallList::new(alloc);
    if call != 0 {
        calls.push(call)?;
    }
    Ok(calls)
}

fn sink(alloc: Global, piece: u32, call: u64) -> Result<MemSink, OutOfMemory> {
    MemSink::new(alloc, ROOM, piece.max(1), one_call(alloc, call)?)
}

/// The one file is `t.ll`, with this text.
fn files(alloc: Global, text: &[u8], call: u64) -> Result<MemFiles, OutOfMemory> {
    let mut files = MemFiles::new(alloc, one_call(alloc, call)?);
    files.add("t.ll", text)?;
    Ok(files)
}

fn answer(alloc: Global, words: &[&str], text: &[u8], ports: &Ports) -> Result<Seen, OutOfMemory> {
    let words = strings(alloc, words)?;
    let mut files = files(alloc, text, ports.file_fails)?;
    let mut input = MemSource::new(alloc, b"unread", 1, CallList::new(alloc))?;
    let mut out = sink(alloc, ports.piece, ports.out_fails)?;
    let mut err = sink(alloc, ports.piece, ports.err_fails)?;
    let status = hwasan(alloc, &words, &mut files, &mut input, &mut out, &mut err);
    Ok(Seen {
        status: status.number(),
        out: Vec::from_slice(alloc, out.taken())?,
        err: Vec::from_slice(alloc, err.taken())?,
    })
}

/// Asserts what a call with these words, this text and these ports answers: the number of the status, and what `out` and
/// `err` took.
fn expect<R: AllocGlobal + Abort>(
    rt: &R,
    words: &[&str],
    text: &[u8],
    ports: &Ports,
    expected: (u8, &[u8], &[u8]),
) -> Result<(), Fail> {
    let seen = answer(rt.alloc(), words, text, ports)?;
    let piece = ports.piece;
    let (out_fails, err_fails) = (ports.out_fails, ports.err_fails);
    let (status, out, err) = expected;
    assert_eq!(rt;
        seen.err.as_slice(),
        err,
        "pieces of {piece}, failing {out_fails} and {err_fails}"
    );
    assert_eq!(rt;
        seen.out.as_slice(),
        out,
        "pieces of {piece}, failing {out_fails} and {err_fails}"
    );
    assert_eq!(rt;
        seen.status,
        status,
        "pieces of {piece}, failing {out_fails} and {err_fails}"
    );
    Ok(())
}

fn store(alloc: Global, value: u32, offset: u64) -> Result<String, OutOfMemory> {
    Ok(format!(in alloc; "store i8 {value}, ptr getelementptr (i8, ptr @g, i64 {offset})\n")?)
}

/// The group of this number loads and prints.
fn load(alloc: Global, i: u32, offset: u64) -> Result<String, OutOfMemory> {
    let line = format!(in alloc;
        "%v{i} = load i8, ptr getelementptr (i8, ptr @g, i64 {offset})\n"
    )?;
    Ok(format!(in alloc;
        "{line}%x{i} = zext i8 %v{i} to i32\n%r{i} = call i32 @putchar(i32 %x{i})\n"
    )?)
}

/// The text of a program whose global has so many bytes.
fn program(alloc: Global, size: u32, groups: &[String]) -> Result<String, OutOfMemory> {
    let mut text = format!(in alloc;
        "@g = global [{size} x i8] zeroinitializer\ndeclare i32 @putchar(i32)\ndefine i32 @main() {{\n"
    )?;
    for group in groups {
        text.push_str(group.as_str())?;
    }
    text.push_str("ret i32 0\n}\n")?;
    Ok(text)
}

/// Stores 65 at 0, and loads and prints it.
fn store_and_print(alloc: Global) -> Result<String, OutOfMemory> {
    let groups = [store(alloc, 65, 0)?, load(alloc, 1, 0)?];
    program(alloc, 16, &groups)
}

/// Prints `abcdefghi`, in 37 steps.
fn print_nine(alloc: Global) -> Result<String, OutOfMemory> {
    let mut groups = Vec::new(alloc);
    for i in 0..9u32 {
        groups.push(store(alloc, 97 + i, i as u64)?)?;
    }
    for i in 0..9u32 {
        groups.push(load(alloc, 9 + i, i as u64)?)?;
    }
    program(alloc, 16, &groups)
}

/// Prints `A`, and loads past the end in step 5.
fn print_and_overflow(alloc: Global) -> Result<String, OutOfMemory> {
    let groups = [
        store(alloc, 65, 0)?,
        load(alloc, 1, 0)?,
        load(alloc, 2, 16)?,
        store(alloc, 1, 17)?,
    ];
    program(alloc, 16, &groups)
}

const OVERFLOW_AT_STEP_5: &str =
    "hwasan: read of 1 at 1300000000010010 in task 0, step 5\n  at main ?\nunmapped: 0000000000010010\n";

#[test]
fn a_stored_byte_is_printed_in_pieces_of_any_size(rt: HostRuntime) -> Result<(), Fail> {
    let one = store_and_print(rt.alloc())?;
    let nine = print_nine(rt.alloc())?;
    for piece in [1, 7, 4096] {
        let ports = Ports { piece, ..NO_FAULT };
        let expected = (0, b"A".as_slice(), b"ended: exit 0, step 5\n".as_slice());
        expect(&rt, &TAG_13, one.as_bytes(), &ports, expected)?;
        let expected = (
            0,
            b"abcdefghi".as_slice(),
            b"ended: exit 0, step 37\n".as_slice(),
        );
        expect(&rt, &TAG_13, nine.as_bytes(), &ports, expected)?;
    }
    Ok(())
}

#[test]
fn nothing_printed_is_no_write(rt: HostRuntime) -> Result<(), Fail> {
    let text = program(rt.alloc(), 16, &[])?;
    let ports = Ports {
        out_fails: 1,
        ..NO_FAULT
    };
    let expected = (0, b"".as_slice(), b"ended: exit 0, step 1\n".as_slice());
    expect(&rt, &TAG_13, text.as_bytes(), &ports, expected)
}

/// Asserts that the text is refused with this line.
fn expect_refused<R: AllocGlobal + Abort>(rt: &R, text: &[u8], line: &str) -> Result<(), Fail> {
    expect(rt, &TAG_13, text, &NO_FAULT, (3, b"", line.as_bytes()))
}

/// The value is the tenth character of line 4.
#[test]
fn a_value_that_is_no_byte_is_refused_at_its_place(rt: HostRuntime) -> Result<(), Fail> {
    let text = program(rt.alloc(), 16, &[store(rt.alloc(), 256, 0)?])?;
    expect_refused(&rt, text.as_bytes(), "refused: 4 BadType at 4:10\n")
}

/// Without a `main` a text is refused at its end. More than 16 MiB aren't read.
#[test]
fn a_text_without_main_is_refused_at_its_end(rt: HostRuntime) -> Result<(), Fail> {
    expect_refused(&rt, b"", "refused: 9 NoMain at 1:1\n")?;
    for (size, line) in [
        (16_777_216, "refused: 9 NoMain at 1:16777217\n"),
        (16_777_217, "refused: 10 TooLarge Text at 1:1\n"),
    ] {
        let text = vec![in rt.alloc(); b' '; size]?;
        expect_refused(&rt, &text, line)?;
    }
    Ok(())
}
