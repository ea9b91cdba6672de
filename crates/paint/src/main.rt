// Colours a rule on a table, or refines one group until the rule is decided, as many times as asked, for
// measuring. Standard input has a rule line and then a table file; the words are `colour` or `refine`, the
// number of turns, and `time` where the nanoseconds of one turn are to be printed too.
#![tactic(auto)]

use anyhow::{Context, anyhow};
use colours::Position;
use engine::{Link, colour, count_positions, find_cause, verdict};
use groupings::Grouping;
use queue::Ring;
use rules::Rule;
use std::env;
use std::io::Read;
use std::time::Instant;
use systems::{Colour, Refusal, System, Table};

// Places for every position of the largest table and the longest rule.
const PLACES: usize = 8192;

// What slots hold before a search writes them.
const NOWHERE: Position = Position {
    group: 0,
    clause: 0,
};

// Colours the rule on the table itself, and prints the verdict and the counts.
fn colour_turns(rt: &HostRuntime, table: &Table, rule: &Rule, turns: u32) -> anyhow::Result<()> {
    let mut bytes = [0u8; PLACES];
    let board: &mut [u8] = &mut bytes;
    let mut slots = [0usize; PLACES];
    let mut queue = Ring::new(&mut slots);
    for _ in 0..turns {
        let _ = colour(table, rule, board, &mut queue);
    }
    let tally = count_positions(table, rule, board);
    let shown = verdict(table, rule, board);
    println!(rt; "{shown} {} {} {}", tally.t, tally.f, tally.undecided)?;
    Ok(())
}

// Splits by one cause after another until the rule is decided or a split is refused; answers the verdict
// and the number of groups then. The workspaces come one by one, as a search for a cause borrows three of
// them at once, and of a struct behind a reference the borrow checker lends one field at a time.
fn refine(
    table: &Table,
    rule: &Rule,
    board: &mut [u8],
    queue: &mut Ring<'_, usize>,
    links: &mut Ring<'_, Link>,
    chain: &mut [Option<Position>],
) -> Result<(Colour, usize), Refusal> {
    let mut grouping = Grouping::whole(*table);
    let mut shown = Colour::Undecided;
    for _ in 0..table.states() {
        let written = grouping.write_out();
        colour(&written, rule, board, queue)?;
        shown = verdict(&written, rule, board);
        let Some((reason, _)) = find_cause(&written, rule, board, links, chain) else {
            break;
        };
        if grouping.split_by(reason).is_err() {
            break;
        }
    }
    Ok((shown, grouping.states()))
}

// Refines from one group, and prints the verdict and the number of groups at the end. The board and the queue are set
// up as in `colour_turns`, since a function cannot lend out arrays of its own; on the stack, so that no turn that is
// measured asks for memory.
fn refine_turns(rt: &HostRuntime, table: &Table, rule: &Rule, turns: u32) -> anyhow::Result<()> {
    let mut bytes = [0u8; PLACES];
    let board: &mut [u8] = &mut bytes;
    let mut slots = [0usize; PLACES];
    let mut queue = Ring::new(&mut slots);
    let mut link_slots = [Link {
        at: NOWHERE,
        from: NOWHERE,
    }; PLACES];
    let mut links = Ring::new(&mut link_slots);
    let mut places = [None; PLACES];
    let chain: &mut [Option<Position>] = &mut places;
    // What is told where no turn ends well.
    let mut end = (Colour::Undecided, 0);
    for _ in 0..turns {
        end = refine(table, rule, board, &mut queue, &mut links, chain).unwrap_or(end);
    }
    let (shown, groups) = end;
    println!(rt; "{shown} {groups}")?;
    Ok(())
}

fn turn(rt: &HostRuntime, task: &str, turns: u32, input: &[u8]) -> anyhow::Result<()> {
    let mut parts = input.splitn(2, |byte| *byte == b'\n');
    let (Some(line), Some(file)) = (parts.next(), parts.next()) else {
        return Err(anyhow!("there is no rule line"));
    };
    let Ok(rule) = rules::read(line) else {
        return Err(anyhow!("the rule is refused"));
    };
    let Ok(table) = tables::read(file) else {
        return Err(anyhow!("the table is refused"));
    };
    // Any other word refines: no word is refused.
    if task == "colour" {
        colour_turns(rt, &table, &rule, turns)
    } else {
        refine_turns(rt, &table, &rule, turns)
    }
}

fn main(rt: HostRuntime) -> anyhow::Result<()> {
    let mut words = env::args(&rt)?;
    let _ = words.next();
    let task = words.next().context("the task is missing")?;
    let turns = words
        .next()
        .context("the turns are missing")?
        .as_str()
        .parse::<u32>()?;
    let mut input = Vec::new(rt.alloc());
    rt.stdin().read_to_end(&mut input)?;
    let began = Instant::now(&rt)?;
    turn(&rt, task.as_str(), turns, &input)?;
    if words.next().is_some() {
        let nanoseconds = began.elapsed(&rt)?.as_nanos();
        println!(rt; "{}", nanoseconds / u128::from(turns.max(1)))?;
    }
    Ok(())
}
