// A study of three states: 0 is the start; sure steps lead from 0 to 1, from 1 to 2 and from 2 to 2; mark 0
// is T at 2 alone.
use colours::{Position, Reason};
use engine::Link;
use queue::Ring;
use rules::read;
use std::test::Fail;
use study::{Slip, Study, file};
use systems::{Colour, Refusal, Step, Table};

fn three_states() -> Result<Table, Refusal> {
    let mut steps = [Step::Absent; 16384];
    steps[1] = Step::Sure;
    steps[130] = Step::Sure;
    steps[258] = Step::Sure;
    let mut values = [Colour::F; 2048];
    values[32] = Colour::T;
    let mut starts = [false; 128];
    starts[0] = true;
    Table::from_parts(3, 1, steps, values, starts)
}

// What a study answers in one turn: the verdict with the counts of T, F and undecided positions, and, where it is
// undecided, the reason, the length of its chain, and what the split by it answers.
#[derive(Clone, Copy, PartialEq, Debug)]
struct Turn {
    judged: (Colour, usize, usize, usize),
    asked: Option<(Reason, usize, Result<(), Refusal>)>,
}

// Splits by a slip; one that comes back is filed.
fn split(study: &mut Study<Table>, slip: Slip) -> Result<(), Refusal> {
    let Err((refusal, slip)) = study.split(slip) else {
        return Ok(());
    };
    let mut open: [Option<Reason>; 1] = [None; 1];
    match file(slip, &mut open) {
        Ok(()) => Err(refusal),
        Err((_, _slip)) => unreachable!(),
    }
}

fn take_turn(study: &mut Study<Table>) -> Result<Turn, Refusal> {
    let mut board = [7u8; 16];
    let mut slots = [0usize; 16];
    let mut queue = Ring::new(&mut slots);
    let first = Position {
        group: 0,
        clause: 0,
    };
    let mut waiting = [Link {
        at: first,
        from: first,
    }; 16];
    let mut links = Ring::new(&mut waiting);
    let mut chain = [None; 16];
    let judged = study.judge(&mut board, &mut queue)?;
    if judged.0 != Colour::Undecided {
        return Ok(Turn {
            judged,
            asked: None,
        });
    }
    let (slip, length) = study.cause(&mut board, &mut queue, &mut links, &mut chain)?;
    let reason = slip.reason();
    let asked = Some((reason, length, split(study, slip)));
    Ok(Turn { judged, asked })
}

#[test]
fn splits_until_decided(rt: HostRuntime) -> Result<(), Fail> {
    let mut study = Study::new(three_states()?);
    study.set_rule(read(b"AFp0")?)?;
    // one group: its mark is unknown
    let mark = Reason::UnknownMark { group: 0, mark: 0 };
    let first = Turn {
        judged: (Colour::Undecided, 1, 0, 2),
        asked: Some((mark, 2, Ok(()))),
    };
    assert_eq!(rt; take_turn(&mut study)?, first);
    // groups 0 0 1: the step from 0 to 0 is unsure
    let step = Reason::UnsureStep {
        group: 0,
        target: 0,
    };
    let second = Turn {
        judged: (Colour::Undecided, 4, 1, 1),
        asked: Some((step, 1, Ok(()))),
    };
    assert_eq!(rt; take_turn(&mut study)?, second);
    // groups 0 2 1
    let third = Turn {
        judged: (Colour::T, 7, 2, 0),
        asked: None,
    };
    assert_eq!(rt; take_turn(&mut study)?, third);
    Ok(())
}

#[test]
fn refuses(rt: HostRuntime) -> Result<(), Fail> {
    let mut study = Study::new(three_states()?);
    let mut board = [7u8; 1];
    let mut slots = [0usize; 1];
    let mut queue = Ring::new(&mut slots);
    assert_eq!(rt; study.look(2, 0, &mut board, &mut queue)?, Colour::T);
    assert_eq!(rt;
        study.look(3, 0, &mut board, &mut queue).err().map(u8::from),
        Some(16)
    );
    assert_eq!(rt;
        study.look(2, 1, &mut board, &mut queue).err().map(u8::from),
        Some(16)
    );
    assert_eq!(rt; study.set_rule(read(b"p1")?).err().map(u8::from), Some(12));
    assert_eq!(rt; study.regroup(&[0, 2, 0]).err().map(u8::from), Some(14));
    study.regroup(&[1, 0, 1])?;
    assert_eq!(rt;
        study.judge(&mut board, &mut queue).err().map(u8::from),
        Some(15)
    );
    Ok(())
}
