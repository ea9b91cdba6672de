// Table files: one for each refusal beside the three-state table that they are made from.
use std::test::Fail;
use systems::System;
use tables::{read, vet};

const THREE: [u8; 29] = [
    3, 1, 0, 14, 0, 9, 0, 23, 0, 3, 0, 26, 0, 3, 0, 2, 0, 0, 0, 2, 0, 0, 2, 1, 1, 2, 1, 0, 0,
];

// The number of the refusal of a file.
fn refused(file: &[u8]) -> Option<u8> {
    vet(file).err().map(|fault| u8::from(fault.refusal))
}

// That of the three-state table with another byte at a place.
fn with(at: usize, byte: u8) -> Option<u8> {
    let mut file = THREE;
    if let Some(place) = file.get_mut(at) {
        *place = byte;
    }
    refused(&file)
}

#[test]
fn three_states(rt: HostRuntime) -> Result<(), Fail> {
    let table = read(&THREE)?;
    assert_eq!(rt; table.states(), 3);
    assert_eq!(rt; table.marks(), 1);
    assert_eq!(rt; u8::from(table.step(0, 1)?), 2);
    assert_eq!(rt; u8::from(table.step(1, 0)?), 0);
    assert_eq!(rt; u8::from(table.mark(2, 0)?), 2);
    assert!(rt; table.start(0)? && !table.start(2)?);
    assert!(rt; vet(&THREE)?.exact);
    Ok(())
}

#[test]
fn lengths(rt: HostRuntime) {
    assert_eq!(rt; refused(&THREE[0..13]), Some(1));
    assert_eq!(rt; refused(&THREE[0..14]), Some(3));
    assert_eq!(rt; refused(&[0; 32768]), Some(2));
    assert_eq!(rt; refused(&[0; 32769]), Some(1));
}

#[test]
fn each_refusal(rt: HostRuntime) {
    assert_eq!(rt; with(1, 17), Some(2));
    assert_eq!(rt; with(5, 8), Some(3));
    assert_eq!(rt; with(7, 13), Some(3));
    assert_eq!(rt; with(11, 27), Some(3));
    assert_eq!(rt; with(7, 22), Some(4));
    assert_eq!(rt; with(14, 3), Some(5));
    assert_eq!(rt; with(28, 2), Some(5));
    assert_eq!(rt; with(22, 0), Some(6));
    assert_eq!(rt; with(22, 1), None);
    assert_eq!(rt; with(26, 0), Some(7));
}
