// Seeks what leaves a rule undecided on a coloured board.
ghost use Rattle.systems.specs.Written.{table_model};
ghost use Rattle.rules.specs.Rules.{clause_list};
ghost use Rattle.engine.specs.Causes.{Sought};

use crate::links::Link;
use colours::{Position, Reason};
use queue::Ring;
use rules::Rule;
use scene::Scene;
use searching::Search;
use systems::{System, Table};

mod looking;
mod scene;
mod searching;
mod tracing;

// Seeks what leaves the rule undecided on a coloured board: a chain from the lowest start group where
// it is undecided, which is then written into the first places of the chain list. Answers what the chain
// ends in and its length; or none where a workspace has fewer places than there are positions or no
// start group is undecided, and then leaves the links and the chain list as they were. One answer for these:
// who calls has tested the workspaces before, or lends ones that are always large enough.
pub fn find_cause(
    table: &Table,
    rule: &Rule,
    board: &[u8],
    links: &mut Ring<'_, Link>,
    chain: &mut [Option<Position>],
) -> Option<(Reason, usize)>
    ensures { Sought (table_model table.now) (clause_list rule.now) board.now links.old chain.old links.new chain.new result }
{
    let positions = table.states() * rule.count();
    if board.len() < positions || links.capacity() < positions || chain.len() < positions {
        return None;
    }
    let scene = Scene { table, rule, board };
    let start = scene.lowest_open()?;
    let mut search = Search {
        scene,
        links,
        chain,
    };
    search.chain_from(start)
}
