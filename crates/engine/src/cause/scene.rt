// A coloured board with what it was coloured by.
ghost use Rattle.std.specs.Prelude.{◌≤◌, length};
ghost use Rattle.systems.specs.Written.{table_model};
ghost use Rattle.rules.specs.Rules.{clause_list};
ghost use Rattle.colours.specs.Boards.{positions};

use crate::cause::looking::Finding;
use colours::Position;
use rules::{Clause, Rule};
use systems::{Colour, System, Table};

// A rule on the groups of a table, and a board with a byte for each of its positions. A position knows
// no scene, since it stands as it is in the lent workspaces: who takes one asks that it is of the scene.
#[derive(Clone, Copy)]
pub(crate) struct Scene<'s> {
    pub(crate) table: &'s Table,
    pub(crate) rule: &'s Rule,
    pub(crate) board: &'s [u8],
    ghost wide: { positions (table_model table.now) (clause_list rule.now) ≤ length board.now },
}

impl<'s> Scene<'s> {
    ghost use Rattle.std.specs.Prelude.{◌≡◌, ◌-◌, ◌<◌};
    ghost use Rattle.colours.specs.Chains.{clause_at};
    ghost use Rattle.engine.specs.search.Searches.{place_of};
    ghost use Rattle.engine.specs.search.Scenes.{model_of, clauses_of, count_of, On, OnFound, colour_on, open_on, opens_at, IsLowestOpen};

    // The place of a position in a list of all.
    pub(crate) fn place(&self, at: Position) -> usize
        requires { On self.now at }
        ensures { result ≡ place_of (count_of self.now) at }
    {
        at.group * self.rule.count() + at.clause
    }

    // The clause of a position.
    pub(crate) fn clause(&self, at: Position) -> Clause
        requires { On self.now at }
        ensures { result ≡ clause_at (clauses_of self.now) at.clause }
    {
        self.rule.clauses()[at.clause]
    }

    // The colour that the board shows at a position; none where the byte there stands for none.
    pub(crate) fn colour_at(&self, at: Position) -> Option<Colour>
        requires { On self.now at }
        ensures { result ≡ colour_on self.now at }
    {
        Colour::try_from(self.board[self.place(at)]).ok()
    }

    // The position, where the board has it undecided.
    pub(crate) fn open(&self, at: Position) -> Option<Finding>
        requires { On self.now at }
        ensures is { result ≡ open_on self.now at }
        ensures on { OnFound self.now result }
    {
        (self.colour_at(at) == Some(Colour::Undecided)).then_some(Finding::Next(at))
    }

    // The position of the rule itself at a group.
    fn whole_at(&self, group: usize) -> Position
        ensures group { result.group ≡ group }
        ensures clause { result.clause ≡ count_of self.now - 1 }
    {
        Position {
            group,
            clause: self.rule.count() - 1,
        }
    }

    // Whether a group is a start where the board has the rule undecided.
    fn starts_open(&self, group: usize) -> bool
        requires { group < (model_of self.now).states }
        ensures { result ≡ opens_at self.now group }
    {
        self.table.is_start(group)
            && self.colour_at(self.whole_at(group)) == Some(Colour::Undecided)
    }

    // The rule at the lowest start group where the board has it undecided.
    pub(crate) fn lowest_open(&self) -> Option<Position>
        ensures { IsLowestOpen self.now result }
    {
        let group = (0..self.table.states()).find(|&group| self.starts_open(group))?;
        Some(self.whole_at(group))
    }
}
