// Colours of every operator on a small table.
use engine::{colour, colour_at, count_positions, verdict};
use queue::Ring;
use rules::read;
use std::test::Fail;
use systems::{Colour, Refusal, Step, Table};

const U: Colour = Colour::Undecided;

const F: Colour = Colour::F;

const T: Colour = Colour::T;

// 0 and 1 have sure steps to each other, 1 may have a step to 2, and 2 has one to itself. p0 is T at
// 2 alone, p1 is unknown at 0 and T elsewhere. The start is 0.
fn table() -> Result<Table, Refusal> {
    let mut steps = [Step::Absent; 16384];
    steps[1] = Step::Sure;
    steps[128] = Step::Sure;
    steps[130] = Step::Unsure;
    steps[258] = Step::Sure;
    let mut values = [Colour::F; 2048];
    values[32] = Colour::T;
    values[1] = Colour::Undecided;
    values[17] = Colour::T;
    values[33] = Colour::T;
    let mut starts = [false; 128];
    starts[0] = true;
    Table::from_parts(3, 2, steps, values, starts)
}

// The colours of the whole rule at the three states, and the verdict.
fn colours(text: &[u8]) -> Result<([Colour; 3], Colour), Fail> {
    let table = table()?;
    let rule = read(text)?;
    let mut board = [7u8; 64];
    let mut slots = [0usize; 64];
    let mut queue = Ring::new(&mut slots);
    colour(&table, &rule, &mut board, &mut queue)?;
    let last = rule.count() - 1;
    let shown = [
        colour_at(&table, &rule, &board, 0, last).ok_or("no colour at 0")?,
        colour_at(&table, &rule, &board, 1, last).ok_or("no colour at 1")?,
        colour_at(&table, &rule, &board, 2, last).ok_or("no colour at 2")?,
    ];
    Ok((shown, verdict(&table, &rule, &board)))
}

#[test]
fn colours_every_operator(rt: HostRuntime) -> Result<(), Fail> {
    assert_eq!(rt; colours(b"EX p0")?, ([F, U, T], F));
    assert_eq!(rt; colours(b"AX p0")?, ([F, F, T], F));
    assert_eq!(rt; colours(b"EF p0")?, ([U, U, T], U));
    assert_eq!(rt; colours(b"AF p0")?, ([F, F, T], F));
    assert_eq!(rt; colours(b"EG !p0")?, ([T, T, F], T));
    assert_eq!(rt; colours(b"AG !p0")?, ([U, U, F], U));
    assert_eq!(rt; colours(b"E(p1 U p0)")?, ([U, U, T], U));
    assert_eq!(rt; colours(b"A(p0 V p1)")?, ([U, U, T], U));
    Ok(())
}

#[test]
fn counts_positions(rt: HostRuntime) -> Result<(), Fail> {
    let table = table()?;
    let rule = read(b"EF p0")?;
    let mut board = [7u8; 12];
    let mut slots = [0usize; 9];
    let mut queue = Ring::new(&mut slots);
    colour(&table, &rule, &mut board, &mut queue)?;
    let tally = count_positions(&table, &rule, &board);
    assert_eq!(rt; (tally.t, tally.f, tally.undecided), (5, 2, 2));
    assert_eq!(rt; (board[8], board[9], board[11]), (2, 7, 7));
    Ok(())
}

#[test]
fn refuses_a_small_workspace(rt: HostRuntime) -> Result<(), Fail> {
    let table = table()?;
    let rule = read(b"EF p0")?;
    let mut board = [7u8; 9];
    let mut slots = [0usize; 9];
    let mut few = Ring::new(&mut slots[..8]);
    assert!(rt; colour(&table, &rule, &mut board, &mut few).is_err());
    let mut queue = Ring::new(&mut slots);
    assert!(rt; colour(&table, &rule, &mut board[..8], &mut queue).is_err());
    assert_eq!(rt; (board[0], board[8]), (7, 7));
    Ok(())
}
