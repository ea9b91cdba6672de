// Causes on small boards.
use colours::{Position, Reason};
use engine::{Link, find_cause};
use queue::Ring;
use rules::read;
use std::test::Fail;
use systems::{Colour, Refusal, Step, Table};

// Group 0, the start, has unsure steps to both groups, and group 1 a sure step to itself. Mark 0 is F
// at group 0 and T at group 1, mark 1 is unknown.
fn two_groups() -> Result<Table, Refusal> {
    let mut steps = [Step::Absent; 16384];
    steps[0] = Step::Unsure;
    steps[1] = Step::Unsure;
    steps[129] = Step::Sure;
    let mut values = [Colour::Undecided; 2048];
    values[0] = Colour::F;
    values[16] = Colour::T;
    let mut starts = [false; 128];
    starts[0] = true;
    Table::from_parts(2, 2, steps, values, starts)
}

// What the chain ends in and its length.
fn seek(
    text: &[u8],
    board: &[u8],
    chain: &mut [Option<Position>],
) -> Result<Option<(Reason, usize)>, Fail> {
    let table = two_groups()?;
    let rule = read(text)?;
    let first = Position {
        group: 0,
        clause: 0,
    };
    let mut slots = [Link {
        at: first,
        from: first,
    }; 6];
    let mut links = Ring::new(&mut slots);
    Ok(find_cause(&table, &rule, board, &mut links, chain))
}

#[test]
fn ends_in_an_unsure_step(rt: HostRuntime) -> Result<(), Fail> {
    let mut chain = [None; 6];
    assert_eq!(rt;
        seek(b"AFp0", &[2, 1, 0, 2, 2, 2], &mut chain)?,
        Some((
            Reason::UnsureStep {
                group: 0,
                target: 0
            },
            1
        ))
    );
    Ok(())
}

#[test]
fn goes_on_to_an_unknown_mark(rt: HostRuntime) -> Result<(), Fail> {
    let mut chain = [None; 6];
    assert_eq!(rt;
        seek(b"(1 & p1)", &[2, 0, 0, 2, 0, 0], &mut chain)?,
        Some((Reason::UnknownMark { group: 0, mark: 1 }, 2))
    );
    assert_eq!(rt;
        chain[1],
        Some(Position {
            group: 0,
            clause: 1
        })
    );
    Ok(())
}

#[test]
fn finds_none(rt: HostRuntime) -> Result<(), Fail> {
    let mut chain = [None; 6];
    assert_eq!(rt; seek(b"EFp0", &[2, 1, 2, 2, 2, 2], &mut chain)?, None);
    let mut short = [None; 5];
    assert_eq!(rt; seek(b"AFp0", &[2, 1, 0, 2, 2, 2], &mut short)?, None);
    Ok(())
}
