// Columns that are written state by state. That they lie on the board is asked of each call: a struct that
// held the lent board would have each promise instead that it is the same board still.
ghost use Rattle.std.specs.Prelude.{◌≡◌, ℕ, ◌<◌};
ghost use Rattle.rules.specs.declared.syntax.Quantifier.TheVariants.{E};
ghost use Rattle.systems.specs.declared.kinds.Colour.{Colour};
ghost use Rattle.colours.specs.Values.{meet as meet_of, rated as rated_of, next_value};
ghost use Rattle.colouring.specs.passes.Columns.{model, Lies, Fits, column, Askable, Says, Written, throughout, marked, met, OnlyColumn};

use crate::columns::Columns;
use crate::truth::{join, meet, rated};
use systems::{Colour, Step, System};

// Writes at each state what a rule for colours says of the board as it then is. A `for`, since each turn
// writes the board.
fn write_each<F: Fn(&[u8], usize) -> Colour>(columns: &Columns<'_>, board: &mut [u8], value: F)
    requires lies { Lies columns.now board.old }
    requires askable { Askable columns.now board.old (F.pre value) }
    ensures only { OnlyColumn columns.now board.old board.new }
    ensures written { (f : ℕ → Colour) → Says columns.now board.old (F.post value) f → Written columns.now board.old board.new f }
{
    for s in 0..columns.states {
        let v = value(board, s);
        columns.write(board, s, v);
    }
}

// Writes one colour throughout.
pub(crate) fn fill(columns: &Columns<'_>, board: &mut [u8], v: Colour)
    requires lies { Lies columns.now board.old }
    ensures { Written columns.now board.old board.new (throughout v) }
{
    write_each(columns, board, |_, _| v);
}

// Writes the values of a mark; where the table does not have it, something.
pub(crate) fn fill_mark(columns: &Columns<'_>, board: &mut [u8], mark: usize)
    requires lies { Lies columns.now board.old }
    ensures only { OnlyColumn columns.now board.old board.new }
    ensures values { mark < (model columns.now).marks → Written columns.now board.old board.new (marked (model columns.now) mark) }
{
    write_each(
        columns,
        board,
        |_, s| columns.table.mark_or_unknown(s, mark),
    );
}

// Writes the right part into the clause's column.
pub(crate) fn copy_right(columns: &Columns<'_>, board: &mut [u8])
    requires fits { Fits columns.now board.old }
    ensures { Written columns.now board.old board.new (column columns.now board.old columns.now.right) }
{
    write_each(columns, board, |b, s| columns.read(b, columns.right, s));
}

// Writes the meet of both parts.
pub(crate) fn meet_parts(columns: &Columns<'_>, board: &mut [u8])
    requires fits { Fits columns.now board.old }
    ensures { Written columns.now board.old board.new (met columns.now board.old) }
{
    write_each(columns, board, |b, s| {
        meet(
            columns.read(b, columns.left, s),
            columns.read(b, columns.right, s),
        )
    });
}

// How true it is that a step leads from s to t and the left part is so there.
fn across(columns: &Columns<'_>, board: &[u8], s: usize, t: usize) -> Colour
    requires fits { Fits columns.now board.now }
    requires s { s < columns.now.states }
    requires t { t < columns.now.states }
    ensures { result ≡ meet_of (rated_of ((model columns.now).step s t)) (column columns.now board.now columns.now.left t) }
{
    match columns.table.step_or_absent(s, t) {
        Step::Absent => Colour::F,
        step => meet(rated(step), columns.read(board, columns.left, t)),
    }
}

// How true it is that a step from s leads to where the left part is so.
fn ahead(columns: &Columns<'_>, board: &[u8], s: usize) -> Colour
    requires fits { Fits columns.now board.now }
    requires low { s < columns.now.states }
    ensures { result ≡ next_value (model columns.now) E (column columns.now board.now columns.now.left) s }
{
    (0..columns.states)
        .map(|t| across(columns, board, s, t))
        .fold(Colour::F, join)
}

// Writes what the next states say.
pub(crate) fn look_ahead(columns: &Columns<'_>, board: &mut [u8])
    requires fits { Fits columns.now board.old }
    ensures { Written columns.now board.old board.new (next_value (model columns.now) E (column columns.now board.old columns.now.left)) }
{
    write_each(columns, board, |b, s| ahead(columns, b, s));
}
