// The pass store: its limits, its steps and marks, and questions out of range.
use crate::questions::refusals;
use std::test::Fail;
use systems::{Census, Colour, PassStore, Step, System};

#[test]
fn limits(rt: HostRuntime) -> Result<(), Fail> {
    assert_eq!(rt; PassStore::new(0).err().map(u8::from), Some(23));
    assert_eq!(rt; PassStore::new(31).err().map(u8::from), Some(23));
    assert_eq!(rt; PassStore::new(1)?.states(), 4);
    assert_eq!(rt; PassStore::new(30)?.states(), 62);
    Ok(())
}

#[test]
fn steps(rt: HostRuntime) -> Result<(), Fail> {
    let store = PassStore::new(3)?;
    assert_eq!(rt; u8::from(store.step(0, 2)?), 2);
    assert_eq!(rt; u8::from(store.step(0, 3)?), 1);
    assert_eq!(rt; u8::from(store.step(1, 3)?), 2);
    assert_eq!(rt; u8::from(store.step(1, 2)?), 0);
    assert_eq!(rt; u8::from(store.step(0, 4)?), 0);
    assert_eq!(rt; u8::from(store.step(6, 6)?), 2);
    assert_eq!(rt; u8::from(store.step(6, 7)?), 0);
    Ok(())
}

#[test]
fn marks_and_starts(rt: HostRuntime) -> Result<(), Fail> {
    let store = PassStore::new(3)?;
    assert_eq!(rt; u8::from(store.mark(5, 0)?), 2);
    assert_eq!(rt; u8::from(store.mark(4, 0)?), 1);
    assert_eq!(rt; u8::from(store.mark(6, 1)?), 2);
    assert_eq!(rt; u8::from(store.mark(5, 1)?), 1);
    assert!(rt; store.start(0)? && !store.start(1)?);
    Ok(())
}

#[test]
fn out_of_range(rt: HostRuntime) -> Result<(), Fail> {
    let store = PassStore::new(3)?;
    assert!(rt; store.step(7, 7).is_ok());
    assert_eq!(rt; refusals(&store, 8, 2), [Some(21); 5]);
    Ok(())
}

#[test]
fn answers_out_of_range(rt: HostRuntime) -> Result<(), Fail> {
    let store = PassStore::new(3)?;
    assert_eq!(rt; store.step_or_absent(6, 6), Step::Sure);
    assert_eq!(rt; store.step_or_absent(8, 0), Step::Absent);
    assert_eq!(rt; store.mark_or_unknown(5, 0), Colour::T);
    assert_eq!(rt; store.mark_or_unknown(0, 2), Colour::Undecided);
    assert!(rt; store.is_start(0) && !store.is_start(8));
    Ok(())
}

#[test]
fn census(rt: HostRuntime) -> Result<(), Fail> {
    let census = Census::of(&PassStore::new(3)?);
    assert!(rt; census.states == 8 && census.marks == 2 && census.starts == 1);
    assert!(rt; census.steps_sure == 8 && census.steps_unsure == 3 && census.steps_absent == 53);
    assert!(rt; census.marks_t == 6 && census.marks_f == 10 && census.marks_unknown == 0);
    assert!(rt; !census.exact);
    Ok(())
}
