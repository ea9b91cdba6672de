// What a board shows around a position: the ends of a chain there, and the positions that may follow.
ghost use Rattle.std.specs.Prelude.{◌≡◌, ◌<◌, length};
ghost use Rattle.systems.specs.Written.{table_model};
ghost use Rattle.rules.specs.Rules.{clause_list};
ghost use Rattle.engine.specs.search.Looks.{leads_across, awaited};

use crate::cause::scene::Scene;
use colours::{Position, Reason};
use rules::{Clause, Operator, Quantifier};
use systems::{Colour, Step, System};

// What one look from a position may show.
#[derive(Clone, Copy)]
pub(crate) enum Finding {
    // A chain may end here.
    End(Reason),
    // An undecided position may follow.
    Next(Position),
}

// A position of a scene, to look from.
#[derive(Clone, Copy)]
pub(crate) struct Lookout<'s> {
    pub(crate) scene: Scene<'s>,
    pub(crate) at: Position,
    ghost group_low: { at.group < (table_model scene.table.now).states },
    ghost clause_low: { at.clause < length (clause_list scene.rule.now) },
}

impl<'s> Lookout<'s> {
    ghost use Rattle.std.specs.Prelude.{All};
    ghost use Rattle.engine.specs.search.Looks.{Low};
    ghost use Rattle.engine.specs.search.Scenes.{count_of, On, OnFound, sought_from, shown_here, shown_across};

    // The position of a clause at the group itself.
    fn part(&self, clause: usize) -> Position
        ensures group { result.group ≡ self.now.at.group }
        ensures clause { result.clause ≡ clause }
    {
        Position {
            group: self.at.group,
            clause,
        }
    }

    // What the group itself shows: the end at a mark, or the parts that are undecided.
    pub(crate) fn look_here(&self) -> [Option<Finding>; 2]
        ensures is { result ≡ shown_here self.now }
        ensures on { All (OnFound self.now.scene) result }
    {
        let group = self.at.group;
        match self.scene.clause(self.at) {
            Clause::Constant(_) | Clause::Next { .. } => [None; 2],
            Clause::Mark { mark, .. } => {
                [Some(Finding::End(Reason::UnknownMark { group, mark })); 2]
            }
            Clause::Pair { left, right, .. } => [
                self.scene.open(self.part(left)),
                self.scene.open(self.part(right)),
            ],
        }
    }

    // The clause that is sought across the steps from here: the part of X, and U or V itself where it
    // looks across steps.
    pub(crate) fn sought(&self) -> Option<usize>
        ensures is { result ≡ sought_from self.now }
        ensures low { Low (count_of self.now.scene) result }
    {
        match self.scene.clause(self.at) {
            Clause::Constant(_) | Clause::Mark { .. } => None,
            Clause::Next { part, .. } => Some(part),
            Clause::Pair { operator, left, .. } => {
                let shown = self.scene.colour_at(self.part(left));
                looks_across(operator, shown).then_some(self.at.clause)
            }
        }
    }

    // What the step to the group of a position shows, where its clause is sought there.
    pub(crate) fn look_across(&self, to: Position) -> Option<Finding>
        requires { On self.now.scene to }
        ensures is { result ≡ shown_across self.now to }
        ensures on { OnFound self.now.scene result }
    {
        let group = self.at.group;
        match self.scene.table.step_or_absent(group, to.group) {
            Step::Absent => None,
            Step::Unsure if awaits(self.scene.clause(self.at), self.scene.colour_at(to)) => {
                let target = to.group;
                Some(Finding::End(Reason::UnsureStep { group, target }))
            }
            Step::Unsure | Step::Sure => self.scene.open(to),
        }
    }
}

// Whether an operator looks across steps, by the colour of its left part: U where that is not F, V where
// it is not T.
fn looks_across(operator: Operator, left: Option<Colour>) -> bool
    ensures { result ≡ leads_across operator left }
{
    match operator {
        Operator::And | Operator::Or => false,
        Operator::AU | Operator::EU => left != Some(Colour::F),
        Operator::AV | Operator::EV => left != Some(Colour::T),
    }
}

// Whether an unsure step to a group where a colour is shown ends a chain at a clause.
fn awaits(clause: Clause, shown: Option<Colour>) -> bool
    ensures { result ≡ awaited clause shown }
{
    match clause {
        Clause::Constant(_) | Clause::Mark { .. } => false,
        Clause::Next { quantifier, .. } => match quantifier {
            Quantifier::A => shown == Some(Colour::F),
            Quantifier::E => shown == Some(Colour::T),
        },
        Clause::Pair { operator, .. } => match operator {
            Operator::And | Operator::Or => false,
            Operator::AV => shown == Some(Colour::F),
            Operator::EU => shown == Some(Colour::T),
            Operator::AU => shown != Some(Colour::T),
            Operator::EV => shown != Some(Colour::F),
        },
    }
}
