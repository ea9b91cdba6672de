// Colouring a board.
ghost use Rattle.systems.specs.Written.{table_model};
ghost use Rattle.rules.specs.Rules.{clause_list};
ghost use Rattle.colouring.specs.Colouring.{Colours};

use crate::clauses::colour_clauses;
use queue::Ring;
use rules::Rule;
use systems::{Refusal, System, Table};

// Writes the colour of clause c at state g into byte g × C + c of the board, for a table with G states
// and a rule with C clauses whose marks the table has: 0 undecided, 1 F, 2 T. Bytes beyond G × C stay
// as they are. The queue may hold anything before, and it is open what it holds afterwards.
//
// Refused with 15, exactly where the board or the queue has fewer than G × C places; then both are left
// as they are. Each call puts this test to the workspaces that it is lent, which are other ones.
//
// A constant, a mark, & and | take one look at each state, AX and EX one row of steps for each state.
// EU and AV look back over all states each time a state rises, which it does at most twice. EV and AU
// go through the row of a state at most three times, and over the notes of all states each time one
// falls. So a rule takes at most about 7 × C × G × G looks.
pub fn colour(
    table: &Table,
    rule: &Rule,
    board: &mut [u8],
    queue: &mut Ring<'_, usize>,
) -> Result<(), Refusal>
    ensures { Colours (table_model table.now) (clause_list rule.now) board.old queue.old board.new queue.new result }
{
    let positions = table.states() * rule.count();
    if board.len() < positions || queue.capacity() < positions {
        return Err(Refusal::WorkspaceTooSmall);
    }
    colour_clauses(table, rule, board, queue);
    Ok(())
}
