use super::*;
use hw_base::OutOfMemory;
use std::alloc::Global;
use std::test::Fail;

/// A constant of 16 bytes at 0x10000, a variable of 16 bytes at 0x11000, and a heap of 64 bytes at 0x20000000.
fn small_memory(alloc: Global) -> Result<Memory, OutOfMemory> {
    let layout = Layout {
        constants: 16,
        variables_at: 0x1_1000,
        variables: 16,
        heap: 64,
    };
    Memory::new(alloc, &layout)
}

/// Two constants, a variable straight after them at 0x10020, and no heap.
fn touching_memory(alloc: Global) -> Result<Memory, OutOfMemory> {
    let layout = Layout {
        constants: 32,
        variables_at: 0x1_0020,
        variables: 16,
        heap: 0,
    };
    Memory::new(alloc, &layout)
}

/// An object of 17 bytes with the tag 0x2a at the heap's start.
fn tag_seventeen_bytes(memory: &mut Memory) {
    memory.tag_object(0x2000_0000, 17, 42);
}

/// An object of 20 bytes with the tag 9, over the border of the constants and the variable that touch.
fn tag_twenty_bytes(memory: &mut Memory) {
    memory.tag_object(0x1_0010, 20, 9);
}

fn tag_two_granules(memory: &mut Memory) {
    memory.tag_plain(0x1_0010, 32, 7);
}

fn load_four_bytes(memory: &mut Memory) {
    memory.load_global(0x1_001e, 4, 0x0403_0201);
}

fn load_constant(memory: &mut Memory) {
    memory.load_global(0x1_0004, 4, 0x0403_0201);
}

fn fills_the_heap(memory: &mut Memory) -> bool {
    memory.fill(0x2000_0000, 64, 7).is_ok()
}

fn has_tag(memory: &Memory, v: u64, tag: u8) -> bool {
    match memory.tag_at(v) {
        Some(found) => found == tag,
        None => false,
    }
}

fn reads_four(memory: &Memory, v: u64, number: u128) -> bool {
    match memory.read(v, 4) {
        Ok(found) => found == number,
        Err(_) => false,
    }
}

fn read_stops_at(memory: &Memory, v: u64, at: u64) -> bool {
    match memory.read(v, 4) {
        Err(MemFault::Unmapped(found)) => found == at,
        _ => false,
    }
}

fn writes_two(memory: &mut Memory, v: u64) -> bool {
    memory.write(v, 2, 0xbbaa).is_ok()
}

fn write_meets_constant(memory: &mut Memory, v: u64) -> bool {
    match memory.write(v, 2, 0xbbaa) {
        Err(MemFault::ReadOnly) => true,
        _ => false,
    }
}

fn write_stops_at(memory: &mut Memory, v: u64, at: u64) -> bool {
    match memory.write(v, 2, 0xbbaa) {
        Err(MemFault::Unmapped(found)) => found == at,
        _ => false,
    }
}

fn write_to_heap(memory: &mut Memory) {
    let _ = memory.write(0x2000_0010, 4, 0x0403_0201);
}

/// Whether the bytes are moved, and the number of the four bytes at the heap's second granule is then this one.
fn moves(memory: &mut Memory, to: u64, from: u64, n: u64, number: u128) -> bool {
    memory.move_bytes(to, from, n).is_ok() && reads_four(memory, 0x2000_0010, number)
}

fn moves_over_the_border(memory: &mut Memory) -> bool {
    memory.move_bytes(0x1_0020, 0x1_001e, 4).is_ok()
}

fn move_meets_constant(memory: &mut Memory, to: u64, from: u64, n: u64) -> bool {
    match memory.move_bytes(to, from, n) {
        Err(MemFault::ReadOnly) => true,
        _ => false,
    }
}

fn move_stops_at(memory: &mut Memory, to: u64, from: u64, n: u64, at: u64) -> bool {
    match memory.move_bytes(to, from, n) {
        Err(MemFault::Unmapped(found)) => found == at,
        _ => false,
    }
}

fn passes(memory: &Memory, v: u64, n: u64) -> bool {
    memory.check(v, n).is_ok()
}

fn check_stops_at(memory: &Memory, v: u64, n: u64, at: u64) -> bool {
    match memory.check(v, n) {
        Err(Mismatch::Unmapped(found)) => found == at,
        _ => false,
    }
}

/// Whether an access with the tag of `v` is refused in this granule, with this memory tag and last byte, and this end.
fn differs(memory: &Memory, v: u64, n: u64, at: u64, tag: u8, byte: u8, stop: u8) -> bool {
    match memory.check(v, n) {
        Err(
            Mismatch::Tags {
                granule,
                pointer,
                memory,
                last,
                end,
            },
        ) => {
            granule == at
                && pointer as u64 == v >> 56
                && memory == tag
                && last == byte
                && end == stop
        }
        _ => false,
    }
}

#[test]
fn an_object_in_memory(rt: HostRuntime) -> Result<(), Fail> {
    let mut memory = small_memory(rt.alloc())?;
    tag_seventeen_bytes(&mut memory);
    assert!(rt; has_tag(&memory, 0x2000_0000, 42));
    assert!(rt; has_tag(&memory, 0x2a00_0000_2000_001f, 1));
    assert!(rt; has_tag(&memory, 0x2000_0020, 0));
    assert!(rt; reads_four(&memory, 0x2000_001e, 0x2a00));
    let object = 0x2a00_0000_2000_0000;
    assert!(rt; passes(&memory, object, 17));
    assert!(rt; differs(&memory, object, 18, 0x2000_0010, 1, 42, 2));
    assert!(rt; passes(&memory, object + 16, 1));
    assert!(rt; differs(&memory, 0x2000_0000, 1, 0x2000_0000, 42, 0, 1));
    assert!(rt; passes(&memory, 0x2000_0020, 32));
    Ok(())
}

#[test]
fn what_is_mapped(rt: HostRuntime) -> Result<(), Fail> {
    let memory = small_memory(rt.alloc())?;
    assert!(rt; reads_four(&memory, 0x1_0000, 0));
    assert!(rt; reads_four(&memory, 0x10ff_fffc, 0));
    assert!(rt; read_stops_at(&memory, 0x10ff_fffd, 0x1100_0000));
    assert!(rt; read_stops_at(&memory, 0xffff_ffff_ffff_ffff, 0xff_ffff_ffff_ffff));
    assert!(rt; check_stops_at(&memory, 0x2000_0020, 33, 0x2000_0040));
    let last = 0xff_ffff_ffff_ffff;
    assert!(rt; check_stops_at(&memory, last, 0xffff_ffff_ffff_ffff, last));
    assert!(rt; memory.is_mapped(0xab00_0000_2000_0000, 64));
    assert!(rt; !memory.is_mapped(0x2000_0000, 65));
    assert!(rt; !memory.is_mapped(0x2000_0000, 0xffff_ffff_ffff_ffff));
    Ok(())
}

#[test]
fn numbers_are_read_as_they_were_written(rt: HostRuntime) -> Result<(), Fail> {
    let mut memory = small_memory(rt.alloc())?;
    assert!(rt; write_meets_constant(&mut memory, 0x1_000e));
    assert!(rt; write_stops_at(&mut memory, 0x1_000f, 0x1_0010));
    assert!(rt; reads_four(&memory, 0x1_000c, 0));
    assert!(rt; writes_two(&mut memory, 0x5500_0000_0001_1004));
    assert!(rt; reads_four(&memory, 0x1_1003, 0xbb_aa00));
    assert!(rt; writes_two(&mut memory, 0x1000_0010));
    assert!(rt; reads_four(&memory, 0x1000_0010, 0xbbaa));
    assert!(rt; fills_the_heap(&mut memory));
    assert!(rt; reads_four(&memory, 0xaa00_0000_2000_003c, 0x0707_0707));
    Ok(())
}

#[test]
fn parts_that_touch(rt: HostRuntime) -> Result<(), Fail> {
    let mut memory = touching_memory(rt.alloc())?;
    load_four_bytes(&mut memory);
    assert!(rt; reads_four(&memory, 0x1_001e, 0x0403_0201));
    assert!(rt; write_meets_constant(&mut memory, 0x1_001f));
    assert!(rt; writes_two(&mut memory, 0x1_0020));
    assert!(rt; reads_four(&memory, 0x1_001e, 0xbbaa_0201));
    tag_twenty_bytes(&mut memory);
    assert!(rt; passes(&memory, 0x0900_0000_0001_001c, 8));
    assert!(rt; differs(&memory, 0x0900_0000_0001_001c, 9, 0x1_0020, 4, 9, 5));
    tag_two_granules(&mut memory);
    assert!(rt; passes(&memory, 0x0700_0000_0001_0010, 32));
    Ok(())
}

#[test]
fn bytes_are_moved_inside_a_part(rt: HostRuntime) -> Result<(), Fail> {
    let mut memory = small_memory(rt.alloc())?;
    write_to_heap(&mut memory);
    assert!(rt;
        moves(
            &mut memory,
            0x2000_0012,
            0xab00_0000_2000_0010,
            4,
            0x0201_0201
        )
    );
    assert!(rt; reads_four(&memory, 0x2000_0014, 0x0403));
    assert!(rt;
        moves(
            &mut memory,
            0xcd00_0000_2000_0011,
            0x2000_0013,
            3,
            0x0403_0201
        )
    );
    assert!(rt; reads_four(&memory, 0x2000_0014, 0x0403));
    Ok(())
}

#[test]
fn bytes_are_moved_between_parts(rt: HostRuntime) -> Result<(), Fail> {
    let mut memory = small_memory(rt.alloc())?;
    load_constant(&mut memory);
    assert!(rt; moves(&mut memory, 0x2000_0010, 0x1_0004, 4, 0x0403_0201));
    assert!(rt; moves(&mut memory, 0x10ff_fffc, 0x2000_0010, 4, 0x0403_0201));
    assert!(rt; moves(&mut memory, 0x1_1002, 0x10ff_fffc, 3, 0x0403_0201));
    assert!(rt; reads_four(&memory, 0x1_1001, 0x0302_0100));
    assert!(rt; moves(&mut memory, 0x2000_0011, 0x1_1002, 4, 0x0302_0101));
    Ok(())
}

#[test]
fn moves_that_are_refused(rt: HostRuntime) -> Result<(), Fail> {
    let mut memory = small_memory(rt.alloc())?;
    write_to_heap(&mut memory);
    assert!(rt; move_stops_at(&mut memory, 0x1_0000, 0x2000_003d, 4, 0x2000_0040));
    assert!(rt; move_stops_at(&mut memory, 0x1_000e, 0x2000_0010, 4, 0x1_0010));
    assert!(rt;
        move_stops_at(
            &mut memory,
            0,
            0x2000_0001,
            0xffff_ffff_ffff_ffff,
            0x2000_0040
        )
    );
    assert!(rt; move_meets_constant(&mut memory, 0x1_000c, 0x2000_0010, 4));
    assert!(rt; reads_four(&memory, 0x1_000c, 0));
    assert!(rt; moves(&mut memory, 0x1_000c, 0x12_3456, 0, 0x0403_0201));
    Ok(())
}

#[test]
fn bytes_are_moved_over_a_border(rt: HostRuntime) -> Result<(), Fail> {
    let mut memory = touching_memory(rt.alloc())?;
    load_four_bytes(&mut memory);
    assert!(rt; move_meets_constant(&mut memory, 0x1_001f, 0x1_001e, 4));
    assert!(rt; moves_over_the_border(&mut memory));
    assert!(rt; reads_four(&memory, 0x1_0020, 0x0403_0201));
    assert!(rt; reads_four(&memory, 0x1_001e, 0x0201_0201));
    Ok(())
}

fn read_is_refused_at(memory: &Memory, v: u64, n: u64, at: u64) -> bool {
    match memory.read_fault(v, n) {
        Some(MemFault::Unmapped(found)) => found == at,
        _ => false,
    }
}

fn has_run(memory: &Memory, v: u64, bytes: &[u8]) -> bool {
    memory.run_from(v).starts_with(bytes)
}

#[test]
fn runs_are_looked_at(rt: HostRuntime) -> Result<(), Fail> {
    let mut memory = touching_memory(rt.alloc())?;
    load_four_bytes(&mut memory);
    assert!(rt; has_run(&memory, 0xab00_0000_0001_001d, &[0, 1, 2]));
    assert!(rt; has_run(&memory, 0x1_0020, &[3, 4, 0]));
    assert!(rt; has_run(&memory, 0x10ff_ffff, &[0]));
    assert!(rt; memory.run_from(0x1_0030).is_empty());
    assert!(rt; memory.read_fault(0x1_0000, 48).is_none());
    assert!(rt; read_is_refused_at(&memory, 0xab00_0000_0001_001d, 48, 0x1_0030));
    assert!(rt; memory.read_fault(0x1_0030, 0).is_none());
    Ok(())
}
