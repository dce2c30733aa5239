use crate::Holes;
use std::test::Fail;

#[test]
fn what_is_freed_is_taken_again(rt: HostRuntime) -> Result<(), Fail> {
    let Ok(mut holes) = Holes::new(rt.alloc(), 64, 128) else {
        return Ok(());
    };
    assert_eq!(rt; holes.take(16), Some(64));
    assert_eq!(rt; holes.take(32), Some(80));
    assert_eq!(rt; holes.take(32), None);
    assert!(rt; holes.reserve().is_ok());
    holes.give(64, 16);
    assert_eq!(rt; holes.take(16), Some(64));
    assert_eq!(rt; holes.take(16), Some(112));
    assert_eq!(rt; holes.take(16), None);
    Ok(())
}

#[test]
fn ranges_that_touch_are_joined(rt: HostRuntime) -> Result<(), Fail> {
    let Ok(mut holes) = Holes::new(rt.alloc(), 0, 96) else {
        return Ok(());
    };
    assert_eq!(rt; holes.take(32), Some(0));
    assert_eq!(rt; holes.take(64), Some(32));
    assert!(rt; holes.reserve().is_ok());
    holes.give(64, 32);
    assert_eq!(rt; holes.take(48), None);
    assert!(rt; holes.reserve().is_ok());
    holes.give(0, 32);
    assert!(rt; holes.reserve().is_ok());
    holes.give(32, 32);
    assert_eq!(rt; holes.take(96), Some(0));
    Ok(())
}
