// What a board says. The table, the rule and the board come one by one, since the calls are public: a
// struct of them would ask callers for more.
ghost use Rattle.std.specs.Prelude.{◌≡◌, ◌<◌, length, Some, count_by, nat_eq};
ghost use Rattle.systems.specs.Numbers.{colour_number};
ghost use Rattle.systems.specs.Written.{table_model};
ghost use Rattle.rules.specs.Clauses.{formula, whole};
ghost use Rattle.rules.specs.Rules.{clause_list};
ghost use Rattle.colours.specs.Boards.{Coloured};
ghost use Rattle.colours.specs.Values.{colour_of, verdict_of};
ghost use Rattle.colouring.specs.Boards.{told_at, verdict_on, colour_on, times};

use crate::truth::{decode, meet};
use rules::Rule;
use systems::{Colour, System, Table};

// At how many positions a rule is T, F and undecided.
#[derive(Clone, Copy, PartialEq, Eq, Debug)]
pub struct Tally {
    pub t: usize,
    pub f: usize,
    pub undecided: usize,
}

// What the rule's own column says at a start, and T elsewhere.
fn told_at(table: &Table, rule: &Rule, board: &[u8], state: usize) -> Colour
    requires { state < (table_model table.now).states }
    ensures { result ≡ told_at (table_model table.now) (clause_list rule.now) board.now state }
{
    if !table.is_start(state) {
        return Colour::T;
    }
    let clauses = rule.count();
    let place = state * clauses + (clauses - 1);
    board
        .get(place)
        .map_or(Colour::Undecided, |byte| decode(*byte))
}

// T if the rule is T at all starts, F if it is F at one, else undecided: one look at each state. A byte
// that stands for no colour, or lies beyond the board, counts as undecided.
pub fn verdict(table: &Table, rule: &Rule, board: &[u8]) -> Colour
    ensures read { result ≡ verdict_on (table_model table.now) (clause_list rule.now) board.now }
    ensures verdict { Coloured (table_model table.now) (clause_list rule.now) board.now → result ≡ verdict_of (table_model table.now) (whole (clause_list rule.now)) }
{
    (0..table.states())
        .map(|state| told_at(table, rule, board, state))
        .fold(Colour::T, meet)
}

// The colour of a clause at a state; none where there is no such state or clause, or the board has no
// colour there.
pub fn colour_at(
    table: &Table,
    rule: &Rule,
    board: &[u8],
    state: usize,
    clause: usize,
) -> Option<Colour>
    ensures read { result ≡ colour_on (table_model table.now) (clause_list rule.now) board.now state clause }
    ensures colour { Coloured (table_model table.now) (clause_list rule.now) board.now → state < (table_model table.now).states → clause < length (clause_list rule.now) → result ≡ Some (colour_of (table_model table.now) (formula (clause_list rule.now) clause) state) }
{
    if state >= table.states() || clause >= rule.count() {
        return None;
    }
    let place = state * rule.count() + clause;
    let byte = *board.get(place)?;
    Colour::try_from(byte).ok()
}

// How many of the first G × C bytes of a board are 2, 1 and 0: one look at each.
pub fn count_positions(table: &Table, rule: &Rule, board: &[u8]) -> Tally
    ensures t { result.t ≡ times 2 (table_model table.now) (clause_list rule.now) board.now }
    ensures f { result.f ≡ times 1 (table_model table.now) (clause_list rule.now) board.now }
    ensures undecided { result.undecided ≡ times 0 (table_model table.now) (clause_list rule.now) board.now }
{
    let positions = table.states() * rule.count();
    let places = &board[..positions.min(board.len())];
    Tally {
        t: count(places, Colour::T),
        f: count(places, Colour::F),
        undecided: count(places, Colour::Undecided),
    }
}

// How often the byte of a colour stands in a part of a board. A `for`, which is compiled without a jump
// on each byte: `filter(..).count()` has one, and takes up to eight times as long.
fn count(places: &[u8], colour: Colour) -> usize
    ensures { result ≡ count_by (nat_eq (colour_number colour)) places.now }
{
    let sought = u8::from(colour);
    let mut count = 0;
    for byte in places {
        if *byte == sought {
            count += 1;
        }
    }
    count
}
