// The numbers of answers and refusals, and the way back from bytes.
use systems::{Colour, Fault, Refusal, Step};

#[test]
fn steps_by_number(rt: HostRuntime) {
    assert_eq!(rt; u8::from(Step::Absent), 0);
    assert_eq!(rt; u8::from(Step::Unsure), 1);
    assert_eq!(rt; u8::from(Step::Sure), 2);
    assert_eq!(rt; Step::try_from(1).map(u8::from), Ok(1));
    assert!(rt; Step::try_from(3).is_err());
    assert!(rt;
        !Step::Absent.is_possible() && Step::Unsure.is_possible() && Step::Sure.is_possible()
    );
}

#[test]
fn steps_by_surety(rt: HostRuntime) {
    assert!(rt; Step::Absent < Step::Unsure && Step::Unsure < Step::Sure);
}

#[test]
fn colours_by_number(rt: HostRuntime) {
    assert_eq!(rt; u8::from(Colour::Undecided), 0);
    assert_eq!(rt; u8::from(Colour::F), 1);
    assert_eq!(rt; u8::from(Colour::T), 2);
    assert_eq!(rt; Colour::try_from(2).map(u8::from), Ok(2));
    assert!(rt; Colour::try_from(3).is_err());
}

#[test]
fn refusals_by_number(rt: HostRuntime) {
    assert_eq!(rt; u8::from(Refusal::FileLength), 1);
    assert_eq!(rt; u8::from(Refusal::NotARule), 9);
    assert_eq!(rt; u8::from(Refusal::OutOfRange), 21);
    assert_eq!(rt; u8::from(Refusal::PassLimit), 23);
    assert_eq!(rt; Fault::at(Refusal::NotARule, 4).place, Some(4));
    assert_eq!(rt; Fault::from(Refusal::NoStart).place, None);
}
