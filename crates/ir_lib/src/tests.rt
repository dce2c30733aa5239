use super::*;
use hw_base::OutOfMemory;
use std::alloc::Global;
use std::test::Fail;
use tbi_memory::{Layout, MemFault, Memory, Mismatch};

/// Two constants at 0x10000, a variable straight after them at 0x10020, and a heap of 64 bytes at 0x20000000.
fn small_memory(alloc: Global) -> Result<Memory, OutOfMemory> {
    let layout = Layout {
        constants: 32,
        variables_at: 0x1_0020,
        variables: 16,
        heap: 64,
    };
    Memory::new(alloc, &layout)
}

fn sets(mem: &mut Memory, at: u64, b: u8, n: u64) -> bool {
    set(mem, at, b, n).is_ok()
}

fn copies(mem: &mut Memory, to: u64, from: u64, n: u64) -> bool {
    copy(mem, to, from, n).is_ok()
}

fn put_four(mem: &mut Memory, at: u64, number: u32) {
    let _ = mem.write(at, 4, number as u128);
}

/// Four bytes of which the last two are the variable's.
fn load_over_the_border(mem: &mut Memory) {
    mem.load_global(0x1_001e, 4, 0x0403_0201);
}

/// An object of 20 bytes with the tag 0x2a at the heap's start.
fn make_twenty_bytes(mem: &mut Memory) {
    mem.fresh_object(0x2000_0000, 20, 42);
}

fn set_meets_constant(mem: &mut Memory, at: u64, n: u64) -> bool {
    match set(mem, at, 1, n) {
        Err(MemFault::ReadOnly) => true,
        _ => false,
    }
}

fn copy_meets_constant(mem: &mut Memory, to: u64, from: u64, n: u64) -> bool {
    match copy(mem, to, from, n) {
        Err(MemFault::ReadOnly) => true,
        _ => false,
    }
}

fn reads_eight(mem: &Memory, at: u64, number: u128) -> bool {
    match mem.read(at, 8) {
        Ok(found) => found == number,
        Err(_) => false,
    }
}

fn orders(mem: &Memory, a: u64, b: u64, n: u64, value: i32) -> bool {
    match compare(mem, a, b, n) {
        Ok(found) => found == value,
        Err(_) => false,
    }
}

fn comparison_stops_at(mem: &Memory, a: u64, b: u64, n: u64, at: u64) -> bool {
    match compare(mem, a, b, n) {
        Err(MemFault::Unmapped(found)) => found == at,
        _ => false,
    }
}

fn has_length(mem: &Memory, at: u64, len: u64) -> bool {
    match length(mem, at) {
        Ok(found) => found == len,
        Err(_) => false,
    }
}

fn length_stops_at(mem: &Memory, at: u64, end: u64) -> bool {
    match length(mem, at) {
        Err(MemFault::Unmapped(found)) => found == end,
        _ => false,
    }
}

fn passes(mem: &Memory, at: u64, len: u64) -> bool {
    match check_string(mem, at) {
        Ok(found) => found == len,
        Err(_) => false,
    }
}

fn is_unmapped(mem: &Memory, at: u64, byte: u64, address: u64) -> bool {
    match check_string(mem, at) {
        Err(
            StringFault {
                at: place,
                found: Mismatch::Unmapped(found),
            },
        ) => place == byte && found == address,
        _ => false,
    }
}

/// Whether the byte with this number is refused, by this memory tag of its granule.
fn is_refused(mem: &Memory, at: u64, byte: u64, tag: u8) -> bool {
    match check_string(mem, at) {
        Err(
            StringFault {
                at: place,
                found: Mismatch::Tags { memory, .. },
            },
        ) => place == byte && memory == tag,
        _ => false,
    }
}

/// Whether the string at `at` is read and added.
fn pushes(mem: &Memory, at: u64, out: &mut Vec<u8>) -> bool {
    match length(mem, at) {
        Ok(len) => push_string(mem, at, len, out).is_ok(),
        Err(_) => false,
    }
}

#[test]
fn bytes_are_set_and_copied(rt: HostRuntime) -> Result<(), Fail> {
    let mut mem = small_memory(rt.alloc())?;
    assert!(rt; sets(&mut mem, 0x2000_0004, 0xa7, 6));
    assert!(rt; reads_eight(&mem, 0x2000_0000, 0xa7a7_a7a7_0000_0000));
    assert!(rt; reads_eight(&mem, 0x2000_0008, 0xa7a7));
    put_four(&mut mem, 0x2000_0000, 0x0403_0201);
    assert!(rt; copies(&mut mem, 0x5500_0000_2000_0002, 0x2000_0000, 6));
    assert!(rt; reads_eight(&mem, 0x2000_0000, 0xa7a7_0403_0201_0201));
    assert!(rt; reads_eight(&mem, 0x2000_0008, 0xa7a7));
    assert!(rt; set_meets_constant(&mut mem, 0x1_001f, 2));
    assert!(rt; copy_meets_constant(&mut mem, 0x1_0000, 0x2000_0000, 4));
    assert!(rt; reads_eight(&mem, 0x1_0000, 0));
    Ok(())
}

#[test]
fn bytes_are_compared(rt: HostRuntime) -> Result<(), Fail> {
    let mut mem = small_memory(rt.alloc())?;
    put_four(&mut mem, 0x2000_0000, 0xff03_0201);
    put_four(&mut mem, 0x2000_0010, 0x0103_0201);
    assert!(rt; orders(&mem, 0x2000_0000, 0xab00_0000_2000_0010, 3, 0));
    assert!(rt; orders(&mem, 0x2000_0000, 0x2000_0010, 4, 1));
    assert!(rt; orders(&mem, 0x2000_0010, 0x2000_0000, 16, -1));
    assert!(rt; orders(&mem, 0x1_0000, 0x2000_0014, 44, 0));
    assert!(rt; comparison_stops_at(&mem, 0x2000_0000, 0x2000_003f, 2, 0x2000_0040));
    assert!(rt; comparison_stops_at(&mem, 0x2000_003e, 0, 3, 0x2000_0040));
    assert!(rt; orders(&mem, 0, 0, 0, 0));
    Ok(())
}

#[test]
fn strings_have_lengths(rt: HostRuntime) -> Result<(), Fail> {
    let mut mem = small_memory(rt.alloc())?;
    assert!(rt; sets(&mut mem, 0x2000_0000, 7, 64));
    assert!(rt; length_stops_at(&mem, 0xab00_0000_2000_0001, 0x2000_0040));
    assert!(rt; sets(&mut mem, 0x2000_0028, 0, 1));
    assert!(rt; has_length(&mem, 0x2000_0001, 39));
    assert!(rt; has_length(&mem, 0x2000_0028, 0));
    load_over_the_border(&mut mem);
    assert!(rt; has_length(&mem, 0x1_001e, 4));
    assert!(rt; length_stops_at(&mem, 0x1000, 0x1000));
    let mut text = [9u8].to_vec(rt.alloc())?;
    assert!(rt; pushes(&mem, 0x1_001e, &mut text));
    assert!(rt; pushes(&mem, 0x2000_0026, &mut text));
    assert_eq!(rt; text.as_slice(), [9, 1, 2, 3, 4, 7, 7].as_slice());
    Ok(())
}

#[test]
fn strings_are_checked(rt: HostRuntime) -> Result<(), Fail> {
    let mut mem = small_memory(rt.alloc())?;
    make_twenty_bytes(&mut mem);
    assert!(rt; sets(&mut mem, 0x2000_0000, 7, 19));
    assert!(rt; passes(&mem, 0x2a00_0000_2000_0000, 19));
    assert!(rt; passes(&mem, 0x2a00_0000_2000_0010, 3));
    assert!(rt; sets(&mut mem, 0x2000_0000, 7, 20));
    assert!(rt; is_refused(&mem, 0x2a00_0000_2000_0000, 0x2a00_0000_2000_0014, 4));
    assert!(rt; is_refused(&mem, 0x2000_0003, 0x2000_0003, 42));
    assert!(rt; sets(&mut mem, 0x2000_0020, 7, 32));
    assert!(rt; is_unmapped(&mem, 0x2000_0020, 0x2000_0040, 0x2000_0040));
    assert!(rt; is_unmapped(&mem, 0x2a00_0000_0000_1000, 0x2a00_0000_0000_1000, 0x1000));
    Ok(())
}
