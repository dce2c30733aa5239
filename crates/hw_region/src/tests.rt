ghost use Rattle.std.specs.Prelude.{◌≡◌, length, IfOk};

use super::*;
use hw_base::OutOfMemory;
use std::alloc::Global;
use std::test::Fail;

/// A region of which only the length is known.
fn new_region(alloc: Global, len: u64) -> Result<Region, OutOfMemory>
    ensures { IfOk result (λ region. length region ≡ len) }
{
    Region::new(alloc, len)
}

#[test]
fn numbers_are_read_as_they_were_put(rt: HostRuntime) -> Result<(), Fail> {
    let mut region = Region::new(rt.alloc(), 40)?;
    assert_eq!(rt; region.len(), 40);
    region.put(3, 1, 0xab);
    region.put(5, 2, 0x0201);
    region.put(9, 4, 0x0605_0403);
    region.put(13, 8, 0x0e0d_0c0b_0a09_0807);
    region.put(23, 16, 0x1e1d_1c1b_1a19_1817_1615_1413_1211_100f);
    region.put(39, 1, 0xff);
    assert_eq!(rt; region.get(3, 1), 0xab);
    assert_eq!(rt; region.get(5, 2), 0x0201);
    assert_eq!(rt; region.get(5, 1), 1);
    assert_eq!(rt; region.get(9, 4), 0x0605_0403);
    assert_eq!(rt; region.get(12, 2), 0x0706);
    assert_eq!(rt; region.get(13, 8), 0x0e0d_0c0b_0a09_0807);
    assert_eq!(rt;
        region.get(23, 16),
        0x1e1d_1c1b_1a19_1817_1615_1413_1211_100f
    );
    assert_eq!(rt;
        region.get(24, 16),
        0xff1e_1d1c_1b1a_1918_1716_1514_1312_1110
    );
    assert_eq!(rt; region.get(0, 3), 0);
    assert_eq!(rt; region.get(4, 1), 0);
    assert_eq!(rt; region.get(21, 2), 0);
    Ok(())
}

#[test]
fn runs_are_filled_and_copied(rt: HostRuntime) -> Result<(), Fail> {
    let mut region = Region::new(rt.alloc(), 10)?;
    region.put(1, 4, 0x0403_0201);
    region.copy(1, 3, 4);
    assert_eq!(rt; region.get(0, 10), 0x04_0302_0102_0100);
    region.copy(3, 2, 4);
    assert_eq!(rt; region.get(0, 10), 0x04_0403_0201_0100);
    region.fill(8, 2, 0xee);
    assert_eq!(rt; region.get(0, 10), 0xeeee_0004_0403_0201_0100);
    region.fill(9, 1, 1);
    region.fill(0, 0, 7);
    region.copy(9, 0, 1);
    assert_eq!(rt; region.get(0, 10), 0x01ee_0004_0403_0201_0101);
    Ok(())
}

#[test]
fn bytes_that_were_not_written_are_zero(rt: HostRuntime) -> Result<(), Fail> {
    let mut region = Region::new(rt.alloc(), 10_000)?;
    assert_eq!(rt; region.byte(9_999), 0);
    assert_eq!(rt; region.get(9_984, 16), 0);
    region.put(4_094, 1, 0xaa);
    assert_eq!(rt; region.byte(4_094), 0xaa);
    assert_eq!(rt; region.byte(4_095), 0);
    assert_eq!(rt; region.byte(4_096), 0);
    assert_eq!(rt; region.get(4_092, 16), 0xaa_0000);
    region.copy(4_090, 9_992, 8);
    assert_eq!(rt; region.get(9_992, 8), 0xaa_0000_0000);
    assert_eq!(rt; region.byte(9_996), 0xaa);
    Ok(())
}

#[test]
fn far_bytes_are_filled(rt: HostRuntime) -> Result<(), Fail> {
    let mut region = Region::new(rt.alloc(), 10_000)?;
    region.fill(9_998, 2, 7);
    assert_eq!(rt; region.get(9_996, 4), 0x0707_0000);
    assert_eq!(rt; region.byte(0), 0);
    assert_eq!(rt; region.len(), 10_000);
    Ok(())
}

#[test]
fn zeros_are_filled(rt: HostRuntime) -> Result<(), Fail> {
    let mut region = Region::new(rt.alloc(), 5_000)?;
    region.fill(16, 8, 0);
    region.put(4_990, 4, 0x0707_0707);
    region.fill(4_992, 8, 0);
    assert_eq!(rt; region.get(4_988, 8), 0x0707_0000);
    Ok(())
}

#[test]
fn bytes_of_another_region_are_copied(rt: HostRuntime) -> Result<(), Fail> {
    let mut source = new_region(rt.alloc(), 10_000)?;
    let mut region = new_region(rt.alloc(), 10_000)?;
    source.put(4_092, 4, 0x0403_0201);
    region.fill(0, 16, 0xee);
    region.copy_from(&source, 4_093, 1, 2);
    assert_eq!(rt; region.get(0, 4), 0xee03_02ee);
    region.copy_from(&source, 4_094, 4, 8);
    assert_eq!(rt; region.get(3, 10), 0xee00_0000_0000_0004_03ee);
    region.copy_from(&source, 9_998, 14, 2);
    assert_eq!(rt; region.get(12, 4), 0xeeee);
    region.copy_from(&source, 4_092, 9_996, 4);
    assert_eq!(rt; region.get(9_994, 6), 0x0403_0201_0000);
    region.copy_from(&source, 10_000, 0, 0);
    assert_eq!(rt; region.byte(0), 0xee);
    assert_eq!(rt; source.get(4_092, 4), 0x0403_0201);
    Ok(())
}

fn begins_with(run: &[u8], byte: u8) -> bool {
    match run.first() {
        Some(found) => *found == byte,
        None => false,
    }
}

#[test]
fn runs_are_looked_at(rt: HostRuntime) -> Result<(), Fail> {
    let mut region = new_region(rt.alloc(), 5_000)?;
    assert!(rt; begins_with(region.run_from(0), 0));
    region.put(3, 4, 0x0403_0201);
    assert!(rt; begins_with(region.run_from(2), 0));
    assert!(rt; begins_with(region.run_from(6), 4));
    assert!(rt; begins_with(region.run_from(4_200), 0));
    assert_eq!(rt; region.run_from(4_999), [0].as_slice());
    Ok(())
}
