// What a system answers about a step and about a mark, each answer with its number.
ghost use Rattle.std.specs.Prelude.{◌≡◌, Some};
ghost use Rattle.systems.specs.Numbers.{
  step_number,
  step_from,
  is_possible,
  colour_number,
  colour_from,
  Decodes,
};
ghost use Rattle.systems.specs.Passes.{known};
ghost use Rattle.systems.specs.Texts.{colour_letter};

use std::fmt;

// Whether there is a step from one state to another, the surer step the greater. The field's names
// for a sure and a possible (unsure or sure) step are must and may transition.
#[derive(Clone, Copy, PartialEq, Eq, PartialOrd, Ord, Debug)]
pub enum Step {
    // There is none.
    Absent = 0,
    // It may exist.
    Unsure = 1,
    // It exists.
    Sure = 2,
}

// A three-valued truth value: of a mark at a state, where undecided means unknown, and of a rule.
// It has no order of its own: the order of its numbers is not that of truth.
#[derive(Clone, Copy, PartialEq, Eq, Debug)]
pub enum Colour {
    Undecided = 0,
    F = 1,
    T = 2,
}

// A byte that stands for no step, or for no colour.
#[derive(Clone, Copy, PartialEq, Eq, Debug)]
pub struct UnlistedByte(pub u8);

impl Step {
    // Whether it may exist: it is unsure or sure.
    pub fn is_possible(self) -> bool
        ensures { result ≡ is_possible self }
    {
        self > Step::Absent
    }
}

// The number of a step.
impl From<Step> for u8 {
    ghost from_gives = { λ step number. number ≡ step_number step };

    fn from(step: Step) -> u8 {
        step as u8
    }
}

// The step that a byte stands for.
impl TryFrom<u8> for Step {
    type Error = UnlistedByte;

    ghost try_from_gives = { Decodes step_from };

    fn try_from(byte: u8) -> Result<Step, UnlistedByte> {
        match byte {
            0 => Ok(Step::Absent),
            1 => Ok(Step::Unsure),
            2 => Ok(Step::Sure),
            _ => Err(UnlistedByte(byte)),
        }
    }
}

// The number of a colour.
impl From<Colour> for u8 {
    ghost from_gives = { λ colour number. number ≡ colour_number colour };

    fn from(colour: Colour) -> u8 {
        colour as u8
    }
}

// T for true and F for false.
impl From<bool> for Colour {
    ghost from_gives = { λ holds colour. colour ≡ known holds };

    fn from(holds: bool) -> Colour {
        if holds { Colour::T } else { Colour::F }
    }
}

// The colour that a byte stands for.
impl TryFrom<u8> for Colour {
    type Error = UnlistedByte;

    ghost try_from_gives = { Decodes colour_from };

    fn try_from(byte: u8) -> Result<Colour, UnlistedByte> {
        match byte {
            0 => Ok(Colour::Undecided),
            1 => Ok(Colour::F),
            2 => Ok(Colour::T),
            _ => Err(UnlistedByte(byte)),
        }
    }
}

// `T`, `F`, or `?` where it is undecided.
impl fmt::Display for Colour {
    ghost output = { λ colour. Some (colour_letter colour) };

    fn fmt<W: fmt::Write>(&self, f: &mut fmt::Formatter<W>) -> fmt::Result {
        f.write_str(match self {
            Colour::T => "T",
            Colour::F => "F",
            Colour::Undecided => "?",
        })
    }
}
