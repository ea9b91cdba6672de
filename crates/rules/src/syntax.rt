// The clauses of a rule: the subformulas of a CTL formula whose negations stand at its marks.

// On every path, or on some.
#[derive(Clone, Copy, PartialEq, Eq, Debug)]
pub enum Quantifier {
    A,
    E,
}

// What joins two parts: & and |, until (U) and release (V) on every path or on some.
#[derive(Clone, Copy, PartialEq, Eq, Debug)]
pub enum Operator {
    And,
    Or,
    AU,
    AV,
    EU,
    EV,
}

// One clause, its parts by their numbers: no clause uses a later one, which a tree of boxes could not say, and
// a rule may not ask for memory.
#[derive(Clone, Copy, PartialEq, Eq, Debug)]
pub enum Clause {
    Constant(bool),
    // A mark (an atomic proposition), negated or not.
    Mark {
        mark: usize,
        negated: bool,
    },
    Next {
        quantifier: Quantifier,
        part: usize,
    },
    Pair {
        operator: Operator,
        left: usize,
        right: usize,
    },
}
