use super::*;
use std::test::Fail;

#[test]
fn granules_of_objects_are_painted(rt: HostRuntime) -> Result<(), Fail> {
    let mut shadow = Shadow::new(rt.alloc(), 6)?;
    assert_eq!(rt; shadow.len(), 6);
    assert!(rt; shadow.all_equal(0, 6, 0));
    shadow.paint(1, 17, 42);
    shadow.paint(3, 32, 7);
    for (granule, tag) in [(0u64, 0u8), (1, 42), (2, 1), (3, 7), (4, 7), (5, 0)] {
        assert_eq!(rt; shadow.tag_at(granule), tag);
    }
    shadow.paint(4, 0, 9);
    assert_eq!(rt; (shadow.tag_at(3), shadow.tag_at(4)), (7, 0));
    Ok(())
}

#[test]
fn a_run_has_one_tag(rt: HostRuntime) -> Result<(), Fail> {
    let mut shadow = Shadow::new(rt.alloc(), 5)?;
    shadow.plain(1, 3, 200);
    assert!(rt; shadow.all_equal(1, 3, 200));
    assert!(rt; !shadow.all_equal(0, 3, 200));
    assert!(rt; !shadow.all_equal(1, 4, 200));
    assert!(rt; shadow.all_equal(4, 0, 200));
    Ok(())
}
