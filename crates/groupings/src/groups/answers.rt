// What a state answers to a reason.
use systems::{Colour, Step};

// The value of the reason's mark, or the strength into its target.
#[derive(Clone, Copy, PartialEq, Eq)]
pub(super) enum Answer {
    Mark(Colour),
    Strength(Step),
}
