// How the list of clauses grows.
ghost use Rattle.std.specs.Prelude.{◌≡◌, ◌^◌, ◌<◌, [], ◌∷◌, option_to_list};
ghost use Rattle.rules.specs.reader.Filling.{kept, Adds};

use crate::clause_list::{ClauseList, MAX_CLAUSES};
use crate::syntax::Clause;

impl ClauseList {
    pub(crate) fn empty() -> ClauseList
        ensures kept { kept result ≡ [] }
        ensures count { result.count ≡ 0 }
    {
        ClauseList {
            clauses: [Clause::Constant(false); MAX_CLAUSES],
            count: 0,
        }
    }

    // Adds a clause.
    pub(crate) fn put(&mut self, clause: Clause)
        requires { self.old.count < 2 ^ 32 }
        ensures { Adds self.old self.new (clause ∷ []) }
    {
        if self.count < MAX_CLAUSES {
            self.clauses[self.count] = clause;
        }
        self.count += 1;
    }

    // Adds a clause, if there is one.
    #[tactic(auto, using(crate::proofs::Filling::adds_none))]
    pub(crate) fn extend(&mut self, clause: Option<Clause>)
        requires { self.old.count < 2 ^ 32 }
        ensures { Adds self.old self.new (option_to_list clause) }
    {
        if let Some(clause) = clause {
            self.put(clause);
        }
    }
}
