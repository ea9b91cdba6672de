// First in, first out, round the end of the slice, and refused when full.
use queue::Ring;
use std::test::Fail;

#[derive(Clone, Copy, PartialEq, Eq, Debug)]
struct Pair {
    left: u8,
    right: u8,
}

#[test]
fn goes_round(rt: HostRuntime) -> Result<(), Fail> {
    let mut places = [0usize; 3];
    let mut ring = Ring::new(&mut places);
    assert_eq!(rt; (ring.capacity(), ring.len()), (3, 0));
    ring.push(5)?;
    ring.push(6)?;
    ring.push(7)?;
    assert_eq!(rt; ring.push(8).map_err(u8::from), Err(22));
    assert_eq!(rt; ring.pop(), Some(5));
    ring.push(8)?;
    assert_eq!(rt; ring.len(), 3);
    assert_eq!(rt;
        (ring.pop(), ring.pop(), ring.pop()),
        (Some(6), Some(7), Some(8))
    );
    assert_eq!(rt; ring.pop(), None);
    Ok(())
}

#[test]
fn holds_records(rt: HostRuntime) -> Result<(), Fail> {
    let mut places = [Pair { left: 0, right: 0 }; 2];
    let mut ring = Ring::new(&mut places);
    ring.push(Pair { left: 1, right: 2 })?;
    assert_eq!(rt; ring.pop(), Some(Pair { left: 1, right: 2 }));
    ring.clear();
    assert_eq!(rt; ring.len(), 0);
    Ok(())
}

#[test]
fn has_no_place(rt: HostRuntime) {
    let mut places = [0u8; 0];
    let mut ring = Ring::new(&mut places);
    assert_eq!(rt; ring.push(1).map_err(u8::from), Err(22));
    assert_eq!(rt; ring.pop(), None);
}
