// What a rule answers about itself.
ghost use Rattle.std.specs.Prelude.{◌≡◌, ◌≤◌, true, [], ◌∷◌, length, Decides};
ghost use Rattle.std.specs.List.{AllByRecursion, slice_get};
ghost use Rattle.rules.specs.declared.syntax.Clause.TheVariants.{Constant as constant_clause};
ghost use Rattle.rules.specs.Clauses.{MarkBelow};
ghost use Rattle.rules.specs.Rules.{clause_list};

use crate::clause_list::MAX_CLAUSES;
use crate::rule::Rule;
use crate::syntax::Clause;

impl Rule {
    // The rule `1`.
    pub fn one() -> Rule
        ensures clauses { clause_list result ≡ constant_clause true ∷ [] }
        ensures nesting { result.nesting ≡ 1 }
    {
        Rule {
            clauses: [Clause::Constant(true); MAX_CLAUSES],
            count: 1,
            nesting: 1,
        }
    }

    // How many clauses there are, from 1 to 64.
    pub fn count(&self) -> usize
        ensures is { result ≡ length (clause_list self.now) }
        ensures some { 1 ≤ result }
        ensures few { result ≤ 64 }
    {
        self.count
    }

    // The clauses, in their order; the last is the whole rule.
    pub fn clauses(&self) -> &[Clause]
        ensures { result.now ≡ clause_list self.now }
    {
        &self.clauses[..self.count]
    }

    // The clause with a number; its parts are earlier clauses.
    pub fn clause(&self, number: usize) -> Option<Clause>
        ensures { result ≡ slice_get (clause_list self.now) number }
    {
        self.clauses().get(number).copied()
    }

    // The nesting of the text that the rule was read from.
    pub fn nesting(&self) -> usize
        ensures { result ≡ self.now.nesting }
    {
        self.nesting
    }

    // Whether every mark of the rule is below `marks`.
    pub fn marks_below(&self, marks: usize) -> bool
        ensures { Decides result (AllByRecursion (MarkBelow marks) (clause_list self.now)) }
    {
        self.clauses()
            .iter()
            .all(|clause| mark_below(*clause, marks))
    }
}

// Whether a clause is no mark, or one below `marks`.
fn mark_below(clause: Clause, marks: usize) -> bool
    ensures { Decides result (MarkBelow marks clause) }
{
    match clause {
        Clause::Mark { mark, negated: _ } => mark < marks,
        _ => true,
    }
}
