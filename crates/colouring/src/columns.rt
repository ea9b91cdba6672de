// Where a clause and its parts lie on a board.
ghost use Rattle.std.specs.Prelude.{◌≡◌};
ghost use Rattle.systems.specs.Written.{table_model};
ghost use Rattle.colouring.specs.passes.Clauses.{over_all, turned as turned_of};

use rules::{Clause, Operator, Quantifier};
use systems::{System, Table};

// Whether a clause is treated as one over some path with T and F exchanged.
fn over_all(quantifier: Quantifier) -> bool
    ensures { result ≡ over_all quantifier }
{
    matches!(quantifier, Quantifier::A)
}

// Whether an operator is treated as &, E U or E V with T and F exchanged.
fn turned(operator: Operator) -> bool
    ensures { result ≡ turned_of operator }
{
    matches!(operator, Operator::Or | Operator::AV | Operator::AU)
}

// Each column has a clause's colours at the states of a table, in rows of `clauses` bytes. A clause over
// all paths is treated as the one over some path with T and F exchanged: then `negated` is set. A flag that is asked
// at each place, and no closures for reading and writing, which the struct would have to keep.
#[derive(Clone, Copy)]
pub(crate) struct Columns<'a> {
    pub(crate) table: &'a Table,
    pub(crate) states: usize,
    pub(crate) clauses: usize,
    pub(crate) left: usize,
    pub(crate) right: usize,
    pub(crate) whole: usize,
    pub(crate) negated: bool,
    ghost every_state: { states ≡ (table_model table.now).states },
}

impl<'a> Columns<'a> {
    ghost use Rattle.colouring.specs.passes.Columns.{LaidFor};

    // Those of a clause and its parts; a clause that has no parts reads none.
    pub(crate) fn of(table: &'a Table, clause: Clause, clauses: usize, whole: usize) -> Self
        ensures laid { LaidFor result clause }
        ensures table { result.table.now ≡ table.now }
        ensures clauses { result.clauses ≡ clauses }
        ensures whole { result.whole ≡ whole }
    {
        let (negated, left, right) = match clause {
            Clause::Constant(value) => (!value, 0, 0),
            Clause::Mark { negated, .. } => (negated, 0, 0),
            Clause::Next { quantifier, part } => (over_all(quantifier), part, part),
            Clause::Pair {
                operator,
                left,
                right,
            } => (turned(operator), left, right),
        };
        Columns {
            table,
            states: table.states(),
            clauses,
            left,
            right,
            whole,
            negated,
        }
    }
}
