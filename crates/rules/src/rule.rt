// A rule: its clauses, each made of earlier ones. The last clause is the whole rule.
ghost use Rattle.std.specs.Prelude.{◌≡◌, ◌≤◌, length, take};
ghost use Rattle.std.specs.List.{AllByRecursion, AllByRecursion-prop};
ghost use Rattle.rules.specs.Clauses.{WellFounded, MarkBelow};
ghost use Rattle.rules.specs.Props.{WellFounded-prop, MarkBelow-prop};

use crate::clause_list::MAX_CLAUSES;
use crate::syntax::Clause;

mod methods;

// The clauses stand in the first `count` places. No clause uses itself or a later one, and no mark is
// above 15. An array, and no vector, since reading and copying a rule must not fail for want of memory; and no model,
// since what holds of every rule is then lost: a model's value is bare data.
#[derive(Clone, Copy)]
pub struct Rule {
    pub(crate) clauses: [Clause; MAX_CLAUSES],
    pub(crate) count: usize,
    // of the text that the rule was read from
    pub(crate) nesting: usize,
    ghost long: { length clauses ≡ 64 },
    ghost some: { 1 ≤ count },
    ghost few: { count ≤ 64 },
    ghost founded: { WellFounded (take count clauses) } by { WellFounded-prop (take count clauses) },
    ghost marks: { AllByRecursion (MarkBelow 16) (take count clauses) } by { AllByRecursion-prop (MarkBelow 16) (MarkBelow-prop 16) (take count clauses) },
}
