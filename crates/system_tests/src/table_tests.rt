// Tables: made of parts, and copies of other systems.
use crate::questions::refusals;
use std::test::Fail;
use systems::{Colour, PassStore, Step, System, Table};

#[test]
fn copies(rt: HostRuntime) -> Result<(), Fail> {
    let table = Table::copy_of(&PassStore::new(30)?);
    assert_eq!(rt; table.states(), 62);
    assert_eq!(rt; table.marks(), 2);
    assert_eq!(rt; u8::from(table.step(58, 61)?), 1);
    assert_eq!(rt; u8::from(table.step(61, 61)?), 2);
    assert_eq!(rt; u8::from(table.mark(61, 1)?), 2);
    assert!(rt; table.start(0)? && !table.start(61)?);
    Ok(())
}

#[test]
fn out_of_range(rt: HostRuntime) -> Result<(), Fail> {
    let table = Table::copy_of(&PassStore::new(1)?);
    assert!(rt; table.step(3, 3).is_ok() && table.mark(3, 1).is_ok() && table.start(3).is_ok());
    assert_eq!(rt; refusals(&table, 4, 2), [Some(21); 5]);
    Ok(())
}

// The number of the refusal of a table with one unsure step at a place and one start at a state.
fn refused(states: usize, marks: usize, step: usize, start: usize) -> Option<u8> {
    let mut steps = [Step::Absent; 16384];
    let mut starts = [false; 128];
    if let Some(place) = steps.get_mut(step) {
        *place = Step::Unsure;
    }
    if let Some(place) = starts.get_mut(start) {
        *place = true;
    }
    Table::from_parts(states, marks, steps, [Colour::T; 2048], starts)
        .err()
        .map(u8::from)
}

#[test]
fn parts(rt: HostRuntime) {
    assert_eq!(rt; refused(1, 16, 0, 0), None);
    assert_eq!(rt; refused(0, 1, 0, 0), Some(2));
    assert_eq!(rt; refused(129, 1, 0, 0), Some(2));
    assert_eq!(rt; refused(1, 0, 0, 0), Some(2));
    assert_eq!(rt; refused(1, 17, 0, 0), Some(2));
    assert_eq!(rt; refused(1, 1, 1, 0), Some(6));
    assert_eq!(rt; refused(2, 1, 0, 0), Some(6));
    assert_eq!(rt; refused(1, 1, 0, 1), Some(7));
}
