// Colouring clause by clause.
ghost use Rattle.std.specs.Prelude.{◌≡◌, ◌*◌, ◌≤◌, length};
ghost use Rattle.queue.specs.Held.{room};
ghost use Rattle.systems.specs.Written.{table_model};
ghost use Rattle.rules.specs.declared.syntax.Clause.TheVariants.{Pair};
ghost use Rattle.rules.specs.Clauses.{PartsBelow};
ghost use Rattle.rules.specs.Rules.{clause_list};
ghost use Rattle.colours.specs.Boards.{positions};
ghost use Rattle.colouring.specs.Colouring.{Becomes};
ghost use Rattle.colouring.specs.passes.Columns.{model, Lies, Fits, LaidFor, OnlyColumn};
ghost use Rattle.colouring.specs.passes.Clauses.{turned, ShowsClause};

use crate::columns::Columns;
use crate::fall::fall;
use crate::plain::{fill, fill_mark, look_ahead, meet_parts};
use crate::rise::rise;
use queue::Ring;
use rules::{Clause, Operator, Rule};
use systems::{Colour, Table};

// Writes the colours of a clause with two parts. That the queue has room is asked here and by both passes: before a
// pass owns board and queue no type holds the two together.
fn colour_pair(
    columns: &Columns<'_>,
    operator: Operator,
    board: &mut [u8],
    queue: &mut Ring<'_, usize>,
)
    requires fits { Fits columns.now board.old }
    requires turned { columns.now.negated ≡ turned operator }
    requires place { 2 * columns.now.states ≤ room queue.old }
    ensures shown { ShowsClause (model columns.now) columns.now.clauses columns.now.whole (Pair operator columns.now.left columns.now.right) board.old board.new }
    ensures only { OnlyColumn columns.now board.old board.new }
    ensures room { room queue.new ≡ room queue.old }
{
    match operator {
        Operator::And | Operator::Or => meet_parts(columns, board),
        Operator::EU | Operator::AV => rise(columns, board, queue),
        Operator::EV | Operator::AU => fall(columns, board, queue),
    }
}

// Writes the colours of a clause, made of earlier ones.
fn colour_clause(
    columns: &Columns<'_>,
    clause: Clause,
    board: &mut [u8],
    queue: &mut Ring<'_, usize>,
)
    requires laid { LaidFor columns.now clause }
    requires parts { PartsBelow columns.now.whole clause }
    requires lies { Lies columns.now board.old }
    requires place { columns.now.states * columns.now.clauses ≤ room queue.old }
    ensures shown { ShowsClause (model columns.now) columns.now.clauses columns.now.whole clause board.old board.new }
    ensures only { OnlyColumn columns.now board.old board.new }
    ensures room { room queue.new ≡ room queue.old }
{
    match clause {
        Clause::Constant(_) => fill(columns, board, Colour::T),
        Clause::Mark { mark, .. } => fill_mark(columns, board, mark),
        Clause::Next { .. } => look_ahead(columns, board),
        Clause::Pair { operator, .. } => colour_pair(columns, operator, board, queue),
    }
}

// Writes the colours of each clause at each state, and no byte beyond.
pub(crate) fn colour_clauses(
    table: &Table,
    rule: &Rule,
    board: &mut [u8],
    queue: &mut Ring<'_, usize>,
)
    requires board { positions (table_model table.now) (clause_list rule.now) ≤ length board.old }
    requires place { positions (table_model table.now) (clause_list rule.now) ≤ room queue.old }
    ensures becomes { Becomes (table_model table.now) (clause_list rule.now) board.old board.new }
    ensures room { room queue.new ≡ room queue.old }
{
    let clauses = rule.clauses();
    for (number, clause) in clauses.iter().enumerate() {
        let columns = Columns::of(table, *clause, clauses.len(), number);
        colour_clause(&columns, *clause, board, queue);
    }
}
