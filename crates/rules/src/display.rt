// A clause as it is shown, its parts by their numbers: `1`, `!p3`, `AX #0`, `(#0 & #1)`, `A(#0 U #1)`.
ghost use Rattle.std.specs.Prelude.{◌≡◌, Some as some_text};
ghost use Rattle.rules.specs.Grammar.{letter, opening, between};
ghost use Rattle.rules.specs.Texts.{clause_text};

use crate::syntax::{Clause, Operator, Quantifier};
use std::fmt;

// `A` or `E`.
impl fmt::Display for Quantifier {
    ghost output = { λ quantifier. some_text (letter quantifier) };

    fn fmt<W: fmt::Write>(&self, f: &mut fmt::Formatter<W>) -> fmt::Result {
        f.write_str(match self {
            Quantifier::A => "A",
            Quantifier::E => "E",
        })
    }
}

// An operator is written in two places, so it has no one text to show.
impl Operator {
    // The bracket before two rules.
    fn opening(self) -> &'static str
        ensures { result.now ≡ opening self }
    {
        match self {
            Operator::And | Operator::Or => "(",
            Operator::AU | Operator::AV => "A(",
            Operator::EU | Operator::EV => "E(",
        }
    }

    // The operator between two rules.
    fn symbol(self) -> &'static str
        ensures { result.now ≡ between self }
    {
        match self {
            Operator::And => "&",
            Operator::Or => "|",
            Operator::AU | Operator::EU => "U",
            Operator::AV | Operator::EV => "V",
        }
    }
}

impl fmt::Display for Clause {
    ghost output = { λ clause. some_text (clause_text clause) };

    fn fmt<W: fmt::Write>(&self, f: &mut fmt::Formatter<W>) -> fmt::Result {
        match *self {
            Clause::Constant(value) => f.write_str(if value { "1" } else { "0" }),
            Clause::Mark { mark, negated } => {
                let sign = if negated { "!" } else { "" };
                write!(f, "{sign}p{mark}")
            }
            Clause::Next { quantifier, part } => write!(f, "{quantifier}X #{part}"),
            Clause::Pair {
                operator,
                left,
                right,
            } => {
                let opening = operator.opening();
                let symbol = operator.symbol();
                write!(f, "{opening}#{left} {symbol} #{right})")
            }
        }
    }
}
