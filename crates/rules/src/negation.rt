// How a negation goes inward.
ghost use Rattle.std.specs.Prelude.{◌≡◌, true, false, cond, not, refl};
ghost use Rattle.rules.specs.declared.syntax.Quantifier.TheVariants.{A, E};
ghost use Rattle.rules.specs.declared.syntax.Operator.TheVariants.{And, Or, AU, AV, EU, EV};
ghost use Rattle.rules.specs.Formulas.{other_quantifier, other_operator};
ghost use Rattle.rules.specs.Trees.{until, release};

use crate::syntax::{Operator, Quantifier};

// What a negation turns into another of its kind, and a second one back.
pub(crate) trait Dual: Copy {
    ghost other: { Self → Self };

    fn dual(self) -> Self
        ensures { result ≡ other self };

    ghost turns_back: { (x : Self) → other (other x) ≡ x };

    // What the value is under a negation, or, where there is none, the value itself.
    final fn under(self, negated: bool) -> Self
        ensures { result ≡ cond negated (other self) self }
    {
        if negated { self.dual() } else { self }
    }
}

impl Dual for bool {
    ghost other = { not };

    ghost turns_back = { elim [ true ↦ refl | false ↦ refl ] };

    fn dual(self) -> bool {
        !self
    }
}

// A for E, and E for A.
impl Dual for Quantifier {
    ghost other = { other_quantifier };

    ghost turns_back = { elim [ A ↦ refl | E ↦ refl ] };

    fn dual(self) -> Quantifier {
        match self {
            Quantifier::A => Quantifier::E,
            Quantifier::E => Quantifier::A,
        }
    }
}

impl Dual for Operator {
    ghost other = { other_operator };

    ghost turns_back = { elim [ And ↦ refl | Or ↦ refl | AU ↦ refl | AV ↦ refl | EU ↦ refl | EV ↦ refl ] };

    fn dual(self) -> Operator {
        match self {
            Operator::And => Operator::Or,
            Operator::Or => Operator::And,
            Operator::AU => Operator::EV,
            Operator::EV => Operator::AU,
            Operator::AV => Operator::EU,
            Operator::EU => Operator::AV,
        }
    }
}

impl Quantifier {
    // U with this quantifier.
    pub(crate) fn until(self) -> Operator
        ensures { result ≡ until self }
    {
        match self {
            Quantifier::A => Operator::AU,
            Quantifier::E => Operator::EU,
        }
    }

    // V with this quantifier: what a negation makes of U with the other one.
    pub(crate) fn release(self) -> Operator
        ensures { result ≡ release self }
    {
        self.dual().until().dual()
    }
}
