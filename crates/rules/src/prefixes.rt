// What stands for a prefix in the list of clauses, under a negation or not.
ghost use Rattle.std.specs.Prelude.{◌≡◌};
ghost use Rattle.rules.specs.reader.Filling.{flip, leading, trailing};

use crate::negation::Dual;
use crate::pieces::Prefix;
use crate::syntax::Clause;

impl Prefix {
    // Whether the rule after the prefix stands under a negation: `!` turns it round, the others pass it on,
    // which a match says plainer than an exclusive or.
    pub(crate) fn negates(self, negated: bool) -> bool
        ensures { result ≡ flip self negated }
    {
        match self {
            Prefix::Not => !negated,
            _ => negated,
        }
    }

    // The clause before those of the rule after the prefix.
    pub(crate) fn leading(self, negated: bool) -> Option<Clause>
        ensures { result ≡ leading self negated }
    {
        match self {
            Prefix::Not | Prefix::Next(_) => None,
            Prefix::Globally(_) => Some(Clause::Constant(negated)),
            Prefix::Finally(_) => Some(Clause::Constant(!negated)),
        }
    }

    // The clause after those of the rule after the prefix: `first` is the number of the clause that led them,
    // `last` that of the last of them.
    pub(crate) fn trailing(self, negated: bool, first: usize, last: usize) -> Option<Clause>
        ensures { result ≡ trailing self negated first last }
    {
        match self {
            Prefix::Not => None,
            Prefix::Next(quantifier) => Some(Clause::Next {
                quantifier: quantifier.under(negated),
                part: last,
            }),
            Prefix::Globally(quantifier) => Some(Clause::Pair {
                operator: quantifier.release().under(negated),
                left: first,
                right: last,
            }),
            Prefix::Finally(quantifier) => Some(Clause::Pair {
                operator: quantifier.until().under(negated),
                left: first,
                right: last,
            }),
        }
    }
}
