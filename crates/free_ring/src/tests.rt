use super::*;
use std::test::Fail;

#[test]
fn records_fill_a_ring(rt: HostRuntime) -> Result<(), Fail> {
    let mut ring: Ring<u8> = Ring::new(rt.alloc(), 3)?;
    assert_eq!(rt; ring.len(), 0);
    assert_eq!(rt; ring.newest_first(0), None);
    ring.push(7);
    ring.push(8);
    assert_eq!(rt; ring.len(), 2);
    assert_eq!(rt; ring.newest_first(0), Some(8));
    assert_eq!(rt; ring.newest_first(1), Some(7));
    assert_eq!(rt; ring.newest_first(2), None);
    Ok(())
}

#[test]
fn the_oldest_is_dropped_first(rt: HostRuntime) -> Result<(), Fail> {
    let mut ring: Ring<(u32, u64)> = Ring::new(rt.alloc(), 2)?;
    ring.push((1, 10));
    ring.push((2, 20));
    ring.push((3, 30));
    assert_eq!(rt; ring.len(), 2);
    assert_eq!(rt; ring.newest_first(0), Some((3, 30)));
    assert_eq!(rt; ring.newest_first(1), Some((2, 20)));
    assert_eq!(rt; ring.newest_first(2), None);
    Ok(())
}

#[test]
fn of_many_records_the_last_are_kept(rt: HostRuntime) -> Result<(), Fail> {
    let mut ring: Ring<u32> = Ring::new(rt.alloc(), 4)?;
    for n in 0..1000 {
        ring.push(n);
    }
    assert_eq!(rt; ring.len(), 4);
    assert_eq!(rt; ring.newest_first(0), Some(999));
    assert_eq!(rt; ring.newest_first(3), Some(996));
    assert_eq!(rt; ring.newest_first(4), None);
    assert_eq!(rt; ring.newest_first(u32::MAX), None);
    Ok(())
}

#[test]
fn a_ring_of_one_keeps_the_newest(rt: HostRuntime) -> Result<(), Fail> {
    let mut ring: Ring<u16> = Ring::new(rt.alloc(), 1)?;
    ring.push(5);
    ring.push(6);
    assert_eq!(rt; ring.len(), 1);
    assert_eq!(rt; ring.newest_first(0), Some(6));
    assert_eq!(rt; ring.newest_first(1), None);
    Ok(())
}
