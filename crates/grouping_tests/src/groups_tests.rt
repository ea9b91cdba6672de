// Groupings of the pass store of one pass: states 0 to 3, the scene received (mark 0) at 1 and 3, the
// limit reached (mark 1) at 2 and 3.
use colours::Reason;
use groupings::Grouping;
use std::test::Fail;
use systems::{PassStore, Refusal, System};

// The number of the refusal, if the call was refused.
fn refusal(answer: Result<(), Refusal>) -> Option<u8> {
    answer.err().map(u8::from)
}

#[test]
fn splits_by_a_mark(rt: HostRuntime) -> Result<(), Fail> {
    let mut store = Grouping::whole(PassStore::new(1)?);
    assert_eq!(rt; u8::from(store.mark(0, 0)?), 0);
    store.split_by(Reason::UnknownMark { group: 0, mark: 0 })?;
    let members = store.members();
    assert!(rt; members.groups() == 2 && members.group_of(2) == 0 && members.group_of(3) == 1);
    assert_eq!(rt; u8::from(store.write_out().mark(1, 0)?), 2);
    Ok(())
}

#[test]
fn splits_by_a_step(rt: HostRuntime) -> Result<(), Fail> {
    let mut store = Grouping::whole(PassStore::new(1)?);
    store.regroup(&[0, 0, 1, 2])?;
    store.split_by(Reason::UnsureStep {
        group: 0,
        target: 1,
    })?;
    let members = store.members();
    assert!(rt; members.groups() == 4 && members.group_of(0) == 0 && members.group_of(1) == 3);
    Ok(())
}

#[test]
fn refuses_splits(rt: HostRuntime) -> Result<(), Fail> {
    let mut store = Grouping::whole(PassStore::new(1)?);
    assert_eq!(rt;
        refusal(store.split_by(Reason::UnknownMark { group: 1, mark: 0 })),
        Some(18)
    );
    assert_eq!(rt;
        refusal(store.split_by(Reason::UnknownMark { group: 0, mark: 2 })),
        Some(18)
    );
    assert_eq!(rt;
        refusal(store.split_by(Reason::UnsureStep {
            group: 0,
            target: 1,
        })),
        Some(18)
    );
    store.regroup(&[0, 1, 2, 3])?;
    assert_eq!(rt;
        refusal(store.split_by(Reason::UnsureStep {
            group: 0,
            target: 3,
        })),
        Some(19)
    );
    Ok(())
}

#[test]
fn refuses_lists(rt: HostRuntime) -> Result<(), Fail> {
    let mut store = Grouping::whole(PassStore::new(1)?);
    assert_eq!(rt; refusal(store.regroup(&[0, 0, 0])), Some(13));
    assert_eq!(rt; refusal(store.regroup(&[0, 0, 0, 0, 0])), Some(13));
    assert_eq!(rt; refusal(store.regroup(&[0, 0, 0, 4])), Some(13));
    assert_eq!(rt; refusal(store.regroup(&[0, 0, 0, 2])), Some(14));
    store.regroup(&[3, 2, 1, 0])?;
    Ok(())
}

// A grouping of a grouping, whose only state is the one group of all states.
#[test]
fn groups_groups(rt: HostRuntime) -> Result<(), Fail> {
    let mut pile = Grouping::whole(Grouping::whole(PassStore::new(1)?));
    assert_eq!(rt; refusal(pile.regroup(&[0, 0])), Some(13));
    pile.regroup(&[0])?;
    assert_eq!(rt; u8::from(pile.mark(0, 0)?), 0);
    Ok(())
}
