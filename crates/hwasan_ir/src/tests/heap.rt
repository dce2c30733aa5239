//! Heap blocks: overflows, uses after free, bad frees, what is missed by equal tags, and full heaps. A heap begins at 20000000, a
//! block's tag is 1 plus its word modulo 255, and a freed block's is 16 plus its word modulo 240, or the next if that is the block's.
use super::{NO_FAULT, expect};
use hw_base::OutOfMemory;
use std::alloc::Global;
use std::process::Abort;
use std::test::Fail;

/// A program of one function with these lines before its `ret i32 0`.
fn program(alloc: Global, lines: &str) -> Result<String, OutOfMemory> {
    let mut text = String::new(alloc);
    text.push_str(
        "declare ptr @malloc(i64)\ndeclare void @free(ptr)\ndeclare i32 @putchar(i32)\n",
    )?;
    text.push_str("declare ptr @calloc(i64, i64)\ndeclare ptr @realloc(ptr, i64)\n")?;
    text.push_str("@g = global [16 x i8] zeroinitializer\ndefine i32 @main() {\n")?;
    text.push_str(lines)?;
    text.push_str("ret i32 0\n}\n")?;
    Ok(text)
}

/// Asserts what a program with these lines prints and how it ends, under tag words. The word of its one global comes first.
fn expect_run<R: AllocGlobal + Abort>(
    rt: &R,
    tags: &str,
    lines: &str,
    out: &str,
    ending: (u8, &str),
) -> Result<(), Fail> {
    let text = program(rt.alloc(), lines)?;
    let (status, closing) = ending;
    expect(
        rt,
        &["run", "t.ll", "--tags", tags],
        text.as_bytes(),
        &NO_FAULT,
        (status, out.as_bytes(), closing.as_bytes()),
    )
}

/// Asserts how a program with these lines ends on a heap of so many bytes.
fn expect_on_heap<R: AllocGlobal + Abort>(
    rt: &R,
    heap: &str,
    lines: &str,
    ending: (u8, &str),
) -> Result<(), Fail> {
    let text = program(rt.alloc(), lines)?;
    let (status, closing) = ending;
    expect(
        rt,
        &["run", "t.ll", "--tags", "41", "--heap", heap],
        text.as_bytes(),
        &NO_FAULT,
        (status, b"", closing.as_bytes()),
    )
}

/// A block of 10 bytes whose byte 10 is written: its one granule is short. With the tag 0a of the block the granule's 0a isn't
/// looked at as a count, and the write passes.
const OVERFLOW: &str = "%p = call ptr @malloc(i64 10)
%q = getelementptr i8, ptr %p, i64 10\nstore i8 1, ptr %q\n";

#[test]
fn an_overflow_is_reported_or_missed(rt: HostRuntime) -> Result<(), Fail> {
    let report = "hwasan: write of 1 at 2a0000002000000a in task 0, step 3\n  at main ?
tags: pointer 2a, memory 0a, last 2a, end 11, granule 0000000020000000\n";
    expect_run(&rt, "1,41", OVERFLOW, "", (1, report))?;
    expect_run(&rt, "9", OVERFLOW, "", (0, "ended: exit 0, step 4\n"))
}

/// A block of size 0 has a granule, which is tagged 0, so that each access to it is reported.
#[test]
fn a_block_without_bytes_has_a_granule(rt: HostRuntime) -> Result<(), Fail> {
    let lines = "%p = call ptr @malloc(i64 0)\n%v = load i8, ptr %p\n";
    let report = "hwasan: read of 1 at 2a00000020000000 in task 0, step 2\n  at main ?
tags: pointer 2a, memory 00, last 00, end 1, granule 0000000020000000\n";
    expect_run(&rt, "1,41", lines, "", (1, report))?;
    let next = "%p = call ptr @malloc(i64 0)\n%q = call ptr @malloc(i64 0)\n%v = load i8, ptr %q\n";
    let report = "hwasan: read of 1 at 2a00000020000010 in task 0, step 3\n  at main ?
tags: pointer 2a, memory 00, last 00, end 1, granule 0000000020000010\n";
    expect_run(&rt, "1,41,41", next, "", (1, report))
}

/// A pointer with another tag than its block has.
#[test]
fn a_wrong_tag_is_reported(rt: HostRuntime) -> Result<(), Fail> {
    let lines = "%p = call ptr @malloc(i64 16)\n%q = getelementptr i8, ptr %p, i64 72057594037927936
%v = load i8, ptr %q\n";
    let report = "hwasan: read of 1 at 2b00000020000000 in task 0, step 3\n  at main ?
tags: pointer 2b, memory 2a, last 00, end 1, granule 0000000020000000\n";
    expect_run(&rt, "1,41", lines, "", (1, report))
}

/// The free tag of word 26 is 2a, which is the block's own, so that it is 2b.
#[test]
fn a_use_after_free_is_reported(rt: HostRuntime) -> Result<(), Fail> {
    let lines = "%p = call ptr @malloc(i64 16)\ncall void @free(ptr %p)\n%v = load i8, ptr %p\n";
    let report = "hwasan: read of 1 at 2a00000020000000 in task 0, step 3\n  at main ?
tags: pointer 2a, memory 2b, last 00, end 1, granule 0000000020000000\n";
    expect_run(&rt, "1,41,26", lines, "", (1, report))
}

/// A use after free is missed if the next block at the place has the same tag: `x` is written to that one.
#[test]
fn a_use_after_free_is_missed(rt: HostRuntime) -> Result<(), Fail> {
    let lines =
        "%p = call ptr @malloc(i64 16)\ncall void @free(ptr %p)\n%q = call ptr @malloc(i64 16)
store i8 120, ptr %p\n%v = load i8, ptr %q\n%w = zext i8 %v to i32\n%r = call i32 @putchar(i32 %w)\n";
    expect_run(&rt, "1,41,0,41", lines, "x", (0, "ended: exit 0, step 8\n"))
}

/// The tag 05 of a full granule looks like the count of a short one, and the byte 2a that the program wrote last in it like its tag.
/// So a write of one byte through a pointer with the tag 2a passes.
#[test]
fn a_written_last_byte_hides_an_overflow(rt: HostRuntime) -> Result<(), Fail> {
    let lines =
        "%a = call ptr @malloc(i64 16)\n%c = getelementptr i8, ptr %a, i64 15\nstore i8 42, ptr %c
%b = call ptr @malloc(i64 16)\n%d = getelementptr i8, ptr %b, i64 -16\nstore i8 79, ptr %d
%v = load i8, ptr %a\n%w = zext i8 %v to i32\n%r = call i32 @putchar(i32 %w)\n";
    expect_run(&rt, "1,4,41", lines, "O", (0, "ended: exit 0, step 10\n"))
}

/// Frees: of a block twice, of a number inside a block, of a global, of a block that has its place but another tag, of null, and of
/// null by a sum.
#[test]
fn bad_frees_are_reported(rt: HostRuntime) -> Result<(), Fail> {
    let twice = "%p = call ptr @malloc(i64 16)\ncall void @free(ptr %p)\ncall void @free(ptr %p)\n";
    let report = "hwasan: free at 2a00000020000000 in task 0, step 3\n  at main ?\nblock: none\n";
    expect_run(&rt, "1,41,0", twice, "", (1, report))?;
    let inside =
        "%p = call ptr @malloc(i64 16)\n%q = getelementptr i8, ptr %p, i64 1\ncall void @free(ptr %q)\n";
    let report = "hwasan: free at 2a00000020000001 in task 0, step 3\n  at main ?\nblock: none\n";
    expect_run(&rt, "1,41,0", inside, "", (1, report))?;
    let global = "hwasan: free at 3900000000010000 in task 0, step 1\n  at main ?\nblock: none\n";
    expect_run(&rt, "41,0", "call void @free(ptr @g)\n", "", (1, global))?;
    let taken =
        "%p = call ptr @malloc(i64 16)\ncall void @free(ptr %p)\n%q = call ptr @malloc(i64 16)\ncall void @free(ptr %p)\n";
    let report = "hwasan: free at 2a00000020000000 in task 0, step 4\n  at main ?\nblock: tag 0a\n";
    expect_run(&rt, "1,41,0,9", taken, "", (1, report))?;
    expect_run(&rt, "1,41,0,41", taken, "", (0, "ended: exit 0, step 5\n"))
}

#[test]
fn null_is_freed(rt: HostRuntime) -> Result<(), Fail> {
    expect_run(
        &rt,
        "1",
        "call void @free(ptr null)\n",
        "",
        (0, "ended: exit 0, step 2\n"),
    )?;
    let sum =
        "%p = call ptr @malloc(i64 16)\n%q = getelementptr i8, ptr %p, i64 -3026418950129844224
call void @free(ptr %q)\n";
    expect_run(&rt, "1,41", sum, "", (0, "ended: exit 0, step 4\n"))
}

/// A new block is zero, also where one was before: the byte 15 is the short granule's tag of the block before.
#[test]
fn fresh_blocks_are_zero(rt: HostRuntime) -> Result<(), Fail> {
    let lines =
        "%p = call ptr @malloc(i64 10)\ncall void @free(ptr %p)\n%q = call ptr @malloc(i64 16)
%r = getelementptr i8, ptr %q, i64 15\n%v = load i8, ptr %r\n%w = zext i8 %v to i32\n%x = add i32 %w, 48
%s = call i32 @putchar(i32 %x)\n";
    expect_run(&rt, "1,41", lines, "0", (0, "ended: exit 0, step 9\n"))?;
    let lines =
        "%p = call ptr @calloc(i64 3, i64 5)\n%r = getelementptr i8, ptr %p, i64 14\n%v = load i8, ptr %r
%w = zext i8 %v to i32\n%x = add i32 %w, 48\n%s = call i32 @putchar(i32 %x)\n%q = getelementptr i8, ptr %p, i64 15
%u = load i8, ptr %q\n";
    let report = "hwasan: read of 1 at 2a0000002000000f in task 0, step 8\n  at main ?
tags: pointer 2a, memory 0f, last 2a, end 16, granule 0000000020000000\n";
    expect_run(&rt, "1,41", lines, "0", (1, report))
}

/// `realloc` draws the new block's word, copies, and then frees the old block. The old granule has the free tag 10.
#[test]
fn a_block_grows(rt: HostRuntime) -> Result<(), Fail> {
    let lines =
        "%p = call ptr @malloc(i64 4)\nstore i8 65, ptr %p\n%r = call ptr @realloc(ptr %p, i64 20)
%v = load i8, ptr %r\n%w = zext i8 %v to i32\n%s = call i32 @putchar(i32 %w)\n%u = load i8, ptr %p\n";
    let report = "hwasan: read of 1 at 2a00000020000000 in task 0, step 7\n  at main ?
tags: pointer 2a, memory 10, last 2a, end 1, granule 0000000020000000\n";
    expect_run(&rt, "1,41,9,0", lines, "A", (1, report))
}

/// `realloc` to a smaller size copies only so many bytes: byte 1 of the new block is outside, and byte 15 of its granule is the tag.
/// `realloc` of null is `malloc`, and that of a freed block is a bad free.
#[test]
fn a_block_shrinks(rt: HostRuntime) -> Result<(), Fail> {
    let lines =
        "%p = call ptr @realloc(ptr null, i64 2)\nstore i8 65, ptr %p\n%r = call ptr @realloc(ptr %p, i64 1)
%v = load i8, ptr %r\n%w = zext i8 %v to i32\n%s = call i32 @putchar(i32 %w)\n%q = getelementptr i8, ptr %r, i64 1\n%u = load i8, ptr %q\n";
    let report = "hwasan: read of 1 at 0a00000020000011 in task 0, step 8\n  at main ?
tags: pointer 0a, memory 01, last 0a, end 2, granule 0000000020000010\n";
    expect_run(&rt, "1,41,9,0", lines, "A", (1, report))?;
    let freed =
        "%p = call ptr @malloc(i64 2)\ncall void @free(ptr %p)\n%r = call ptr @realloc(ptr %p, i64 1)\n";
    let report = "hwasan: free at 2a00000020000000 in task 0, step 3\n  at main ?\nblock: none\n";
    expect_run(&rt, "1,41,9,0", freed, "", (1, report))
}

/// A heap of 32 bytes has two granules. The least place is given out again, with the tag 1 of one byte in its granule.
#[test]
fn a_heap_is_full(rt: HostRuntime) -> Result<(), Fail> {
    let three =
        "%p = call ptr @malloc(i64 16)\n%q = call ptr @malloc(i64 16)\n%r = call ptr @malloc(i64 1)\n";
    expect_on_heap(
        &rt,
        "32",
        three,
        (10, "full: heap, 1 asked, 32 living, step 3\n"),
    )?;
    let again =
        "%p = call ptr @malloc(i64 16)\n%q = call ptr @malloc(i64 16)\ncall void @free(ptr %p)
%r = call ptr @malloc(i64 1)\n%s = getelementptr i8, ptr %r, i64 1\n%v = load i8, ptr %s\n";
    let report = "hwasan: read of 1 at 2a00000020000001 in task 0, step 6\n  at main ?
tags: pointer 2a, memory 01, last 2a, end 2, granule 0000000020000000\n";
    expect_on_heap(&rt, "32", again, (1, report))?;
    let large = "%p = call ptr @calloc(i64 1099511627776, i64 1099511627776)\n";
    let full = "full: heap, 1208925819614629174706176 asked, 0 living, step 1\n";
    expect_on_heap(&rt, "32", large, (10, full))?;
    let grown = "%p = call ptr @malloc(i64 16)\n%r = call ptr @realloc(ptr %p, i64 17)\n";
    expect_on_heap(
        &rt,
        "32",
        grown,
        (10, "full: heap, 17 asked, 16 living, step 2\n"),
    )
}

/// A heap has from 16 to 268,435,456 bytes, in whole granules.
#[test]
fn the_heap_has_a_range(rt: HostRuntime) -> Result<(), Fail> {
    let lines = "%p = call ptr @malloc(i64 16)\n";
    for heap in ["16", "48", "268435456"] {
        expect_on_heap(&rt, heap, lines, (0, "ended: exit 0, step 2\n"))?;
    }
    for heap in ["0", "8", "24", "268435472", "x"] {
        let usage = "usage: hwasan_ir MODE FILE [options]\n";
        expect_on_heap(&rt, heap, lines, (2, usage))?;
    }
    Ok(())
}
